ghost use Rattle.std.specs.Prelude.{◌≡◌, ◌||◌, List, ℕ, IfOk, count_by, length, map, nat_lt};
ghost use Rattle.class_rules.specs.ClassRules.{first_op};
ghost use Rattle.class_rules.specs.Operations.{contract_classes, contract_count};
ghost use Rattle.class_decls.specs.Texts.{has_text};

use crate::index::Index;
use class_decls::{ClassDecl, NameSet, OpDecl};
use ocl_values::Text;
use std::alloc::{AllocError, Global};
use use_text::Place;

/// The most parameters of an operation.
const MOST_PARAMS: usize = 16;

/// The most contracts of an operation.
const MOST_CONTRACTS: usize = 64;

/// How many of some texts are names.
fn count_among(texts: &[Text], names: &NameSet<'_>) -> usize
    ensures { result ≡ count_by (has_text names.now) texts.now }
{
    texts.iter().filter(|text| names.contains(text)).count()
}

fn has_too_many(index: &Index<'_>, names: &NameSet<'_>, op: &OpDecl) -> bool
    ensures { result ≡ (nat_lt 16 (length op.now.params) || nat_lt 64 (count_by (has_text names.now) (contract_classes index.now op.now.name.text))) }
{
    let contracts = count_among(index.contract_classes(&op.name.text), names);
    op.params.len() > MOST_PARAMS || contracts > MOST_CONTRACTS
}

/// The first operation of a class that has too many parameters, or too many contracts in the
/// contexts of classes of some names.
fn first_with_too_many(index: &Index<'_>, names: &NameSet<'_>, class: &ClassDecl) -> Option<Place>
    ensures { result ≡ first_op (λ op. nat_lt 16 (length op.params)
        || nat_lt 64 (count_by (has_text names.now) (contract_classes index.now op.name.text))) class.now }
{
    let ops = class.ops.as_slice();
    ops.iter()
        .find(|op| has_too_many(index, names, op))
        .map(|op| op.name.place)
}

/// The names of classes.
fn class_names<'a>(alloc: Global, classes: &[&'a ClassDecl]) -> Result<NameSet<'a>, AllocError>
    ensures { IfOk result (λ s. (t : List ℕ) → has_text s t ≡ has_text (map (λ c. c.now.name.text) classes.now) t) }
{
    let mut names = NameSet::new(alloc);
    'classes: for class in classes {
        names.add(class.name.text.as_str())?;
    }
    Ok(names)
}

/// The first operation of a class, given with its ancestors, that has too many parameters or
/// contracts, with those of the declarations that it overrides.
pub(crate) fn first_too_many(
    alloc: Global,
    index: &Index<'_>,
    class: &ClassDecl,
    above: &[&ClassDecl],
) -> Result<Option<Place>, AllocError>
    ensures { IfOk result (λ place. place ≡ first_op (λ op. nat_lt 16 (length op.params)
        || nat_lt 64 (contract_count index.now (map (λ c. c.now) above.now) op)) class.now) }
{
    let names = class_names(alloc, above)?;
    Ok(first_with_too_many(index, &names, class))
}
