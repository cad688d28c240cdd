ghost use Rattle.std.specs.Prelude.{◌≡◌, ◌&&◌, ◌||◌, ◌++◌, ℕ, List, IfOk, OnOk, None, Some, false, map, nat_eq, slice_get};
ghost use Rattle.std.specs.Option.{option_map_or};
ghost use Rattle.class_decls.specs.declared.decls.ClassDecl.{ClassDecl};
ghost use Rattle.class_decls.specs.Texts.{has_text};
ghost use Rattle.class_rules.specs.declared.sharing.Sharing.TheVariants.{Only};
ghost use Rattle.class_rules.specs.Ancestors.{number_at};
ghost use Rattle.class_rules.specs.ClassRules.{broken_by};
ghost use Rattle.class_rules.specs.Features.{roles_of_class};
ghost use Rattle.class_rules.specs.Groups.{listed};
ghost use Rattle.class_rules.specs.Numbering.{is_among};
ghost use Rattle.class_rules.specs.Shared.{AreJoined, IsByName, are_own, compares_names, is_several, join, joined, may_break};
ghost use Rattle.class_rules.specs.Shared.{names_compared, names_numbered, own_sharing, sharing_at};

use crate::by_class::ClassRule;
use crate::features::add_copies;
use crate::groups::{Groups, add_to, of_name};
use crate::hierarchy::Hierarchy;
use crate::index::Index;
use crate::overriding::is_alone;
use class_decls::{ClassDecl, add_texts};
use ocl_values::Text;
use std::alloc::{AllocError, Global};
use std::collections::BTreeMap;
use use_orders::all_differ;

/// Which of a class and its ancestors have names that other classes have too.
#[derive(Clone, Copy, Debug, PartialEq, Eq)]
pub(crate) enum Sharing {
    /// None of them.
    Nothing,
    /// The class of this number alone.
    Only(usize),
    /// More than one, or one that has a name twice.
    Several,
}

/// Of the class of a number and others together.
fn join_only(class: usize, other: Sharing) -> Sharing
    ensures { result ≡ join (Only class) other }
{
    match other {
        Sharing::Nothing => Sharing::Only(class),
        Sharing::Several => Sharing::Several,
        Sharing::Only(number) => {
            if class == number {
                Sharing::Only(class)
            } else {
                Sharing::Several
            }
        }
    }
}

/// Of some classes and others together.
fn join(a: Sharing, b: Sharing) -> Sharing
    ensures { result ≡ join a b }
{
    match a {
        Sharing::Nothing => b,
        Sharing::Several => Sharing::Several,
        Sharing::Only(class) => join_only(class, b),
    }
}

fn is_several(sharing: Sharing) -> bool
    ensures { result ≡ is_several sharing }
{
    matches!(sharing, Sharing::Several)
}

fn sharing_at(all: &[Sharing], number: usize) -> Sharing
    ensures { result ≡ sharing_at all.now number }
{
    match all.get(number) {
        None => Sharing::Several,
        Some(sharing) => *sharing,
    }
}

/// Of a class and its ancestors, given those of its parents.
fn joined(all: &[Sharing], parents: &[usize], own: Sharing) -> Sharing
    ensures { result ≡ joined all.now parents.now own }
{
    let mut sharing = own;
    'parents: for parent in parents {
        sharing = join(sharing, sharing_at(all, *parent));
    }
    sharing
}

/// The names of the attributes of a class.
fn attr_names(alloc: Global, class: &ClassDecl) -> Result<Vec<Text>, AllocError>
    ensures { IfOk result (λ v. v.items ≡ map (λ a. a.name.text) class.now.attrs) }
{
    let mut names = Vec::new(alloc);
    add_texts(alloc, class.attrs.as_slice(), &mut names)?;
    Ok(names)
}

/// The names of the roles and attributes of a class.
fn role_names(alloc: Global, index: &Index<'_>, class: &ClassDecl) -> Result<Vec<Text>, AllocError>
    ensures { IfOk result (λ v. v.items ≡ roles_of_class index.now.assocs class.now.name.text ++ map (λ a. a.name.text) class.now.attrs) }
{
    let mut names = Vec::new(alloc);
    add_copies(alloc, index.roles(&class.name.text), &mut names)?;
    add_texts(alloc, class.attrs.as_slice(), &mut names)?;
    Ok(names)
}

/// The names of the operations of a class.
fn op_names(alloc: Global, class: &ClassDecl) -> Result<Vec<Text>, AllocError>
    ensures { IfOk result (λ v. v.items ≡ map (λ op. op.name.text) class.now.ops) }
{
    let mut names = Vec::new(alloc);
    add_texts(alloc, class.ops.as_slice(), &mut names)?;
    Ok(names)
}

/// The names of a class that a rule compares with those of its ancestors.
fn names_compared(
    alloc: Global,
    index: &Index<'_>,
    rule: ClassRule,
    class: &ClassDecl,
) -> Result<Vec<Text>, AllocError>
    ensures { IfOk result (λ v. v.items ≡ names_compared rule index.now class.now) }
{
    match rule {
        ClassRule::AttributeMetTwice => attr_names(alloc, class),
        ClassRule::RoleClashes => role_names(alloc, index, class),
        ClassRule::SignatureChanges
        | ClassRule::OperationAmbiguous
        | ClassRule::BodiesMixed
        | ClassRule::TooManyFeatures
        | ClassRule::TooManyContracts => op_names(alloc, class),
    }
}

/// Those of the class of a number.
fn names_numbered(
    alloc: Global,
    index: &Index<'_>,
    rule: ClassRule,
    number: usize,
) -> Result<Vec<Text>, AllocError>
    ensures { IfOk result (λ v. v.items ≡ names_numbered rule index.now number) }
{
    match index.hierarchy().class(number) {
        None => Ok(Vec::new(alloc)),
        Some(class) => names_compared(alloc, index, rule, class),
    }
}

/// Adds a class under each of its names.
fn add_names(
    alloc: Global,
    groups: &mut Groups<usize>,
    number: usize,
    names: &[Text],
) -> Result<(), AllocError>
    ensures { OnOk result ((t : List ℕ) (n : ℕ) → is_among (listed groups.new t) n ≡ (is_among (listed groups.old t) n || (nat_eq n number && has_text names.now t))) }
{
    'names: for name in names {
        add_to(alloc, groups, name, number)?;
    }
    Ok(())
}

/// Under each name, the numbers of the classes that have it.
fn by_name(alloc: Global, index: &Index<'_>, rule: ClassRule) -> Result<Groups<usize>, AllocError>
    ensures { IfOk result (λ groups. IsByName rule index.now groups) }
{
    let mut groups = BTreeMap::new(alloc);
    'numbers: for number in 0..index.hierarchy().order().len() {
        let names = names_numbered(alloc, index, rule, number)?;
        add_names(alloc, &mut groups, number, names.as_slice())?;
    }
    Ok(groups)
}

/// Whether only the class of a number has some names.
fn are_own(groups: &Groups<usize>, number: usize, names: &[Text]) -> bool
    ensures { result ≡ are_own groups.now number names.now }
{
    names
        .iter()
        .all(|name| is_alone(of_name(groups, name), number))
}

/// Of a class alone, given its names.
fn own_sharing(
    alloc: Global,
    groups: &Groups<usize>,
    number: usize,
    names: &[Text],
) -> Result<Sharing, AllocError>
    ensures { IfOk result (λ s. s ≡ own_sharing groups.now number names.now) }
{
    let differ = all_differ(alloc, names)?;
    if !differ {
        return Ok(Sharing::Several);
    }
    if are_own(groups, number, names) {
        return Ok(Sharing::Nothing);
    }
    Ok(Sharing::Only(number))
}

/// Of each class and its ancestors.
fn joined_all(
    alloc: Global,
    index: &Index<'_>,
    rule: ClassRule,
    groups: &Groups<usize>,
) -> Result<Vec<Sharing>, AllocError>
    ensures { IfOk result (λ v. AreJoined rule index.now groups.now v.items) }
{
    let hierarchy = index.hierarchy();
    let mut all = Vec::new(alloc);
    'numbers: for number in 0..hierarchy.order().len() {
        let names = names_numbered(alloc, index, rule, number)?;
        let own = own_sharing(alloc, groups, number, names.as_slice())?;
        let sharing = joined(all.as_slice(), hierarchy.parents(number), own);
        all.push(sharing)?;
    }
    Ok(all)
}

/// Whether a rule compares names of a class with those of its ancestors.
fn compares_names(rule: ClassRule) -> bool
    ensures { result ≡ compares_names rule }
{
    !matches!(
        rule,
        ClassRule::TooManyFeatures | ClassRule::TooManyContracts
    )
}

/// Which of each class and its ancestors have names that other classes have too, by the number of
/// the class. Where one of them at most has such names, the class cannot break a rule that compares
/// names, so that its ancestors need not be gone through.
pub(crate) fn sharing_by_number(
    alloc: Global,
    index: &Index<'_>,
    rule: ClassRule,
) -> Result<Vec<Sharing>, AllocError>
    ensures { IfOk result (λ v. (i : ℕ) (c : ClassDecl) → slice_get index.now.classes i ≡ Some c
        → may_break rule index.now v.items i ≡ false → broken_by rule index.now i c ≡ None) }
{
    if !compares_names(rule) {
        return Ok(Vec::new(alloc));
    }
    let groups = by_name(alloc, index, rule)?;
    let all = joined_all(alloc, index, rule, &groups)?;
    Ok(all)
}

fn is_several_at(hierarchy: &Hierarchy<'_>, all: &[Sharing], place: usize) -> bool
    ensures { result ≡ option_map_or (λ n. is_several (sharing_at all.now n)) (number_at hierarchy.now place) false }
{
    match hierarchy.number(place) {
        None => false,
        Some(number) => is_several(sharing_at(all, number)),
    }
}

/// Whether the class at a place may break a rule.
pub(crate) fn may_break(
    hierarchy: &Hierarchy<'_>,
    rule: ClassRule,
    all: &[Sharing],
    place: usize,
) -> bool
    ensures { result ≡ may_break rule hierarchy.now all.now place }
{
    !(compares_names(rule) && !is_several_at(hierarchy, all, place))
}
