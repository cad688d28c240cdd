ghost use Rattle.std.specs.Prelude.{◌≡◌, ◌++◌, ◌||◌, List, ℕ, IfOk, OnOk, map, nat_lt, length};
ghost use Rattle.std.specs.Cmp.Lexicographic.{slice_cmp};
ghost use Rattle.std.specs.Ordering.{nat_cmp};
ghost use Rattle.use_orders.specs.Canon.{set_of};
ghost use Rattle.std.specs.List.{flat_map};
ghost use Rattle.class_rules.specs.Features.{attrs_of, has_role_clash, meet, ops_of, roles_of};
ghost use Rattle.class_decls.specs.Texts.{has_text, repeats};

use crate::index::Index;
use class_decls::{ClassDecl, NameSet, add_texts};
use ocl_values::Text;
use std::alloc::{AllocError, Global};
use use_orders::set;

/// The most attributes, and the most operations, of a class.
const MOST_FEATURES: usize = 64;

/// How many of some texts are different.
fn count_different(texts: Vec<Text>) -> Result<usize, AllocError>
    ensures { IfOk result (λ n. n ≡ length (set_of (slice_cmp nat_cmp) texts.items)) }
{
    let different = set(texts)?;
    Ok(different.len())
}

/// Whether a text stands twice.
fn has_repeat(texts: Vec<Text>) -> Result<bool, AllocError>
    ensures { IfOk result (λ b. b ≡ repeats texts.items) }
{
    let count = texts.len();
    let different = count_different(texts)?;
    Ok(different < count)
}

/// The names of the attributes that classes declare.
fn attr_texts(alloc: Global, classes: &[&ClassDecl]) -> Result<Vec<Text>, AllocError>
    ensures { IfOk result (λ v. v.items ≡ attrs_of (map (λ c. c.now) classes.now)) }
{
    let mut texts = Vec::new(alloc);
    'classes: for class in classes {
        add_texts(alloc, class.attrs.as_slice(), &mut texts)?;
    }
    Ok(texts)
}

/// The names of the operations that classes declare.
fn op_texts(alloc: Global, classes: &[&ClassDecl]) -> Result<Vec<Text>, AllocError>
    ensures { IfOk result (λ v. v.items ≡ flat_map (λ c. map (λ op. op.name.text) c.ops) (map (λ c. c.now) classes.now)) }
{
    let mut texts = Vec::new(alloc);
    'classes: for class in classes {
        add_texts(alloc, class.ops.as_slice(), &mut texts)?;
    }
    Ok(texts)
}

/// Adds copies of texts.
pub(crate) fn add_copies(
    alloc: Global,
    copied: &[Text],
    texts: &mut Vec<Text>,
) -> Result<(), AllocError>
    ensures { OnOk result (texts.new.items ≡ texts.old.items ++ copied.now) }
{
    'copied: for text in copied {
        texts.push(Text::copy_of(alloc, text.as_str())?)?;
    }
    Ok(())
}

/// The roles at the other ends of the associations that classes take part in.
fn role_texts(
    alloc: Global,
    index: &Index<'_>,
    classes: &[&ClassDecl],
) -> Result<Vec<Text>, AllocError>
    ensures { IfOk result (λ v. v.items ≡ roles_of index.now.assocs (map (λ c. c.now) classes.now)) }
{
    let mut texts = Vec::new(alloc);
    'classes: for class in classes {
        add_copies(alloc, index.roles(&class.name.text), &mut texts)?;
    }
    Ok(texts)
}

/// Whether an attribute is met twice in a class, given with its ancestors.
pub(crate) fn meets_attribute_twice(alloc: Global, above: &[&ClassDecl]) -> Result<bool, AllocError>
    ensures { IfOk result (λ b. b ≡ repeats (attrs_of (map (λ c. c.now) above.now))) }
{
    let texts = attr_texts(alloc, above)?;
    let twice = has_repeat(texts)?;
    Ok(twice)
}

/// The set of some names.
fn name_set<'a>(alloc: Global, names: &'a [Text]) -> Result<NameSet<'a>, AllocError>
    ensures { IfOk result (λ s. (t : List ℕ) → has_text s t ≡ has_text names.now t) }
{
    let mut found = NameSet::new(alloc);
    'names: for name in names {
        found.add(name.as_str())?;
    }
    Ok(found)
}

/// Whether two lists have a text in common.
fn meet(alloc: Global, texts: &[Text], others: &[Text]) -> Result<bool, AllocError>
    ensures { IfOk result (λ b. b ≡ meet texts.now others.now) }
{
    let others = name_set(alloc, others)?;
    Ok(texts.iter().any(|text| others.contains(text)))
}

/// Whether a role of a class, given with its ancestors, is named as another role or an attribute.
pub(crate) fn role_clashes(
    alloc: Global,
    index: &Index<'_>,
    above: &[&ClassDecl],
) -> Result<bool, AllocError>
    ensures { IfOk result (λ b. b ≡ has_role_clash index.now.assocs (map (λ c. c.now) above.now)) }
{
    let roles = role_texts(alloc, index, above)?;
    let attrs = attr_texts(alloc, above)?;
    let meets = meet(alloc, roles.as_slice(), attrs.as_slice())?;
    let twice = has_repeat(roles)?;
    Ok(twice || meets)
}

/// Whether a class, given with its ancestors, has too many attributes or operations.
pub(crate) fn has_too_many_features(alloc: Global, above: &[&ClassDecl]) -> Result<bool, AllocError>
    ensures { IfOk result (λ b. b ≡ (nat_lt 64 (length (attrs_of (map (λ c. c.now) above.now))) || nat_lt 64 (length (ops_of (map (λ c. c.now) above.now))))) }
{
    let attrs = attr_texts(alloc, above)?;
    let ops = op_texts(alloc, above)?;
    let different = count_different(ops)?;
    Ok(attrs.len() > MOST_FEATURES || different > MOST_FEATURES)
}
