ghost use Rattle.std.specs.Prelude.{◌≡◌, IfOk};
ghost use Rattle.std.specs.List.{list_any};
ghost use Rattle.class_rules.specs.ClassOps.{AreOpsOf, IsOpsOf};
ghost use Rattle.class_rules.specs.Operations.{declares_head, no_such_operation, same_signature, undeclared_head};
ghost use Rattle.class_decls.specs.Texts.{first_given};

use crate::clash::{add_ops, same_signature};
use crate::groups::{Groups, of_name};
use crate::places::{Places, class_places, place_of};
use class_decls::{ClassDecl, CondDecl, Decls, OpDecl, head_in};
use ocl_values::Text;
use std::alloc::{AllocError, Global};
use std::collections::BTreeMap;
use std::marker::Model;
use use_lists::Items;
use use_text::Place;

/// The operations of each class by name, and where the classes stand.
#[derive(Drop)]
struct Declared<'a> {
    decls: &'a Decls,
    places: Places<'a>,
    ops: Items<Groups<&'a OpDecl>>,
}

impl<'a> Model for Declared<'a> {
    ghost use Rattle.class_decls.specs.declared.decls.Decls.{Decls};
    ghost use Rattle.class_rules.specs.ClassOps.{IsDeclaredOf};
    ghost use Rattle.class_rules.specs.Numbering.{place_in};

    ghost Value = { Decls };

    ghost view = { λ d. d.decls.now };

    ghost invariant = { λ d. IsDeclaredOf d.decls.now (place_in d.places) d.ops };
}

/// The operations of a class by name.
fn ops_of<'a>(alloc: Global, class: &'a ClassDecl) -> Result<Groups<&'a OpDecl>, AllocError>
    ensures { IfOk result (λ groups. IsOpsOf groups class.now) }
{
    let mut groups = BTreeMap::new(alloc);
    add_ops(alloc, &mut groups, class.ops.as_slice())?;
    Ok(groups)
}

/// The operations of each class by name.
fn ops_of_all<'a>(
    alloc: Global,
    classes: &'a [ClassDecl],
) -> Result<Vec<Groups<&'a OpDecl>>, AllocError>
    ensures { IfOk result (λ v. AreOpsOf v.items classes.now) }
{
    let mut all = Vec::new(alloc);
    'classes: for class in classes {
        all.push(ops_of(alloc, class)?)?;
    }
    Ok(all)
}

/// Whether one of some operations takes the parameters of a head and gives its result.
fn has_signature(ops: &[&OpDecl], head: &OpDecl) -> bool
    ensures { result ≡ list_any (λ op. same_signature op.now head.now) ops.now }
{
    ops.iter().any(|op| same_signature(op, head))
}

/// Whether the class of a name declares an operation of this head's name and types.
fn declares_head(declared: &Declared<'_>, class: &Text, head: &OpDecl) -> bool
    ensures { result ≡ declares_head declared.now class.now head.now }
{
    match place_of(&declared.places, class) {
        None => false,
        Some(place) => match declared.ops.get(place) {
            None => false,
            Some(ops) => has_signature(of_name(ops, &head.name.text), head),
        },
    }
}
/// Where a context names a head that its class does not declare.
fn undeclared_head(declared: &Declared<'_>, cond: &CondDecl) -> Option<Place>
    ensures { result ≡ undeclared_head declared.now cond.now }
{
    match head_in(declared.decls.context_heads.as_slice(), &cond.kind) {
        None => None,
        Some(head) => {
            if declares_head(declared, &cond.class.text, head) {
                None
            } else {
                Some(head.name.place)
            }
        }
    }
}

fn first_undeclared(declared: &Declared<'_>, conds: &[CondDecl]) -> Option<Place>
    ensures { result ≡ first_given (undeclared_head declared.now) conds.now }
{
    'conds: for cond in conds {
        let place = undeclared_head(declared, cond);
        if place.is_some() {
            return place;
        }
    }
    None
}

/// M12: the first operation that a context names and its class does not declare.
pub(crate) fn no_such_operation(alloc: Global, decls: &Decls) -> Result<Option<Place>, AllocError>
    ensures { IfOk result (λ place. place ≡ no_such_operation decls.now) }
{
    if decls.context_heads.is_empty() {
        return Ok(None);
    }
    let places = class_places(alloc, decls)?;
    let ops = ops_of_all(alloc, decls.classes.as_slice())?;
    let declared = Declared {
        decls,
        places,
        ops: Items::from_vec(ops),
    };
    Ok(first_undeclared(&declared, decls.conds.as_slice()))
}
