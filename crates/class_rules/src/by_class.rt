ghost use Rattle.std.specs.Prelude.{◌≡◌, ℕ, IfOk, None, Some, false, slice_get};
ghost use Rattle.class_decls.specs.declared.decls.ClassDecl.{ClassDecl};
ghost use Rattle.class_rules.specs.Shared.{may_break};
ghost use Rattle.class_rules.specs.Ancestors.{properly_above};
ghost use Rattle.class_rules.specs.ClassRules.{broken_by, first_broken, first_op, named_if};
ghost use Rattle.class_rules.specs.Operations.{clashes_above};
ghost use Rattle.class_decls.specs.Texts.{first_numbered};

use crate::clash::{Clash, first_clash};
use crate::contracts::first_too_many;
use crate::features::{has_too_many_features, meets_attribute_twice, role_clashes};
use crate::hierarchy::Hierarchy;
use crate::index::Index;
use crate::overriding::is_ambiguous;
use crate::sharing::{Sharing, may_break, sharing_by_number};
use crate::unbroken::is_unbroken;
use class_decls::ClassDecl;
use std::alloc::{AllocError, Global};
use use_text::Place;

/// A rule that is judged class by class.
#[derive(Clone, Copy, Debug, PartialEq, Eq)]
pub enum ClassRule {
    /// M5: an attribute is met twice.
    AttributeMetTwice,
    /// M6: a role is named as another role or an attribute.
    RoleClashes,
    /// M8: an operation has another signature than one that it overrides.
    SignatureChanges,
    /// M9: no declaration of an operation overrides all others.
    OperationAmbiguous,
    /// M10: a query overrides statements, or the contrary.
    BodiesMixed,
    /// M14: there are too many attributes or operations.
    TooManyFeatures,
    /// M17: an operation has too many parameters or contracts.
    TooManyContracts,
}

fn named_if(broken: bool, class: &ClassDecl) -> Option<Place>
    ensures { result ≡ named_if broken class.now }
{
    if broken { Some(class.name.place) } else { None }
}

/// The first operation of a class that clashes with one that it overrides. The ancestors of a class
/// that declares none are not looked at.
fn clash_above(
    alloc: Global,
    hierarchy: &Hierarchy<'_>,
    kind: Clash,
    place: usize,
    class: &ClassDecl,
) -> Result<Option<Place>, AllocError>
    ensures { IfOk result (λ found. found ≡ first_op (clashes_above kind (properly_above hierarchy.now place)) class.now) }
{
    if class.ops.is_empty() {
        return Ok(None);
    }
    let above = hierarchy.properly_above(alloc, place)?;
    let found = first_clash(alloc, kind, class, above.as_slice())?;
    Ok(found)
}

/// Where a class that stands at a place breaks a rule.
fn broken_at(
    alloc: Global,
    index: &Index<'_>,
    rule: ClassRule,
    place: usize,
    class: &ClassDecl,
) -> Result<Option<Place>, AllocError>
    ensures { IfOk result (λ found. found ≡ broken_by rule index.now place class.now) }
{
    let hierarchy = index.hierarchy();
    match rule {
        ClassRule::AttributeMetTwice => {
            let above = hierarchy.above(alloc, place)?;
            let broken = meets_attribute_twice(alloc, above.as_slice())?;
            Ok(named_if(broken, class))
        }
        ClassRule::RoleClashes => {
            let above = hierarchy.above(alloc, place)?;
            let broken = role_clashes(alloc, index, above.as_slice())?;
            Ok(named_if(broken, class))
        }
        ClassRule::SignatureChanges => {
            clash_above(alloc, hierarchy, Clash::Signature, place, class)
        }
        ClassRule::OperationAmbiguous => {
            let numbers = hierarchy.ancestor_numbers(alloc, place)?;
            let broken = is_ambiguous(alloc, hierarchy, numbers.as_slice())?;
            Ok(named_if(broken, class))
        }
        ClassRule::BodiesMixed => { clash_above(alloc, hierarchy, Clash::Bodies, place, class) }
        ClassRule::TooManyFeatures => {
            let above = hierarchy.above(alloc, place)?;
            let broken = has_too_many_features(alloc, above.as_slice())?;
            Ok(named_if(broken, class))
        }
        ClassRule::TooManyContracts => {
            let above = hierarchy.above(alloc, place)?;
            let found = first_too_many(alloc, index, class, above.as_slice())?;
            Ok(found)
        }
    }
}

/// The same, where a class need not be looked at that may not break the rule.
fn broken_if_it_may(
    alloc: Global,
    index: &Index<'_>,
    rule: ClassRule,
    sharing: &[Sharing],
    place: usize,
    class: &ClassDecl,
) -> Result<Option<Place>, AllocError>
    requires { may_break rule index.now sharing.now place ≡ false → broken_by rule index.now place class.now ≡ None }
    ensures { IfOk result (λ found. found ≡ broken_by rule index.now place class.now) }
{
    if !may_break(index.hierarchy(), rule, sharing, place) {
        return Ok(None);
    }
    broken_at(alloc, index, rule, place, class)
}

fn first_broken_among(
    alloc: Global,
    index: &Index<'_>,
    rule: ClassRule,
    sharing: &[Sharing],
    classes: &[ClassDecl],
) -> Result<Option<Place>, AllocError>
    requires { (i : ℕ) (c : ClassDecl) → slice_get classes.now i ≡ Some c
        → may_break rule index.now sharing.now i ≡ false → broken_by rule index.now i c ≡ None }
    ensures { IfOk result (λ found. found ≡ first_numbered (broken_by rule index.now) 0 classes.now) }
{
    'classes: for (i, class) in classes.iter().enumerate() {
        let found = broken_if_it_may(alloc, index, rule, sharing, i, class)?;
        if found.is_some() {
            return Ok(found);
        }
    }
    Ok(None)
}

/// The first place at which a class breaks a rule.
pub(crate) fn first_broken(
    alloc: Global,
    index: &Index<'_>,
    rule: ClassRule,
) -> Result<Option<Place>, AllocError>
    ensures { IfOk result (λ found. found ≡ first_broken rule index.now) }
{
    let hierarchy = index.hierarchy();
    let unbroken = is_unbroken(alloc, hierarchy, rule)?;
    if unbroken {
        return Ok(None);
    }
    let sharing = sharing_by_number(alloc, index, rule)?;
    let classes = hierarchy.decls().classes.as_slice();
    first_broken_among(alloc, index, rule, sharing.as_slice(), classes)
}
