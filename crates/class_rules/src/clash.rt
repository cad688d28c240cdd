ghost use Rattle.std.specs.Prelude.{◌≡◌, ◌&&◌, ◌++◌, List, ℕ, IfOk, OnOk, map};
ghost use Rattle.std.specs.Cmp.Lexicographic.{pointwise};
ghost use Rattle.std.specs.List.{flat_map, list_any};
ghost use Rattle.std.specs.Option.{option_eq};
ghost use Rattle.class_rules.specs.Operations.{clash, clashes_above, mixes, ops_named, same_signature, same_type};
ghost use Rattle.class_rules.specs.ClassRules.{first_op};
ghost use Rattle.class_rules.specs.Groups.{listed};
ghost use Rattle.class_decls.specs.Texts.{same_text};

use crate::groups::{Groups, add_to, of_name};
use class_decls::{BodyKind, ClassDecl, OpDecl, ParamDecl, TypeDecl};
use std::alloc::{AllocError, Global};
use std::collections::BTreeMap;
use use_text::Place;

/// How an operation may clash with one that it overrides.
#[derive(Clone, Copy, Debug, PartialEq, Eq)]
pub enum Clash {
    /// The types of the parameters or of the result differ.
    Signature,
    /// One has an expression as its body, and the other statements.
    Bodies,
}

fn same_type(a: &TypeDecl, b: &TypeDecl) -> bool
    ensures { result ≡ same_type a.now b.now }
{
    a.kinds == b.kinds && a.name.text == b.name.text
}

fn same_params(a: &[ParamDecl], b: &[ParamDecl]) -> bool
    ensures { result ≡ pointwise (λ p q. same_type p.of_type q.of_type) a.now b.now }
{
    if a.len() != b.len() {
        return false;
    }
    'params: for i in 0..a.len() {
        if !same_type(&a[i].of_type, &b[i].of_type) {
            return false;
        }
    }
    true
}

fn same_result(a: &OpDecl, b: &OpDecl) -> bool
    ensures { result ≡ option_eq same_type a.now.result_type b.now.result_type }
{
    match (&a.result_type, &b.result_type) {
        (None, None) => true,
        (Some(of_type), Some(other)) => same_type(of_type, other),
        _ => false,
    }
}

/// Whether two heads take parameters of the same types and give results of the same type.
pub(crate) fn same_signature(a: &OpDecl, b: &OpDecl) -> bool
    ensures { result ≡ same_signature a.now b.now }
{
    same_params(a.params.as_slice(), b.params.as_slice()) && same_result(a, b)
}

fn mixes(a: BodyKind, b: BodyKind) -> bool
    ensures { result ≡ mixes a b }
{
    matches!(
        (a, b),
        (BodyKind::Query, BodyKind::Soil) | (BodyKind::Soil, BodyKind::Query)
    )
}

fn clashes(kind: Clash, op: &OpDecl, other: &OpDecl) -> bool
    ensures { result ≡ clash kind op.now other.now }
{
    match kind {
        Clash::Signature => !same_signature(op, other),
        Clash::Bodies => mixes(op.body, other.body),
    }
}

/// Whether an operation clashes with one of some others.
fn clashes_with(kind: Clash, op: &OpDecl, others: &[&OpDecl]) -> bool
    ensures { result ≡ list_any (λ other. clash kind op.now other.now) others.now }
{
    others.iter().any(|other| clashes(kind, op, other))
}

/// Adds operations by name.
pub(crate) fn add_ops<'a>(
    alloc: Global,
    groups: &mut Groups<&'a OpDecl>,
    ops: &'a [OpDecl],
) -> Result<(), AllocError>
    ensures { OnOk result ((t : List ℕ) → map (λ op. op.now) (listed groups.new t) ≡ map (λ op. op.now) (listed groups.old t) ++ ops_named t ops.now) }
{
    'ops: for op in ops {
        add_to(alloc, groups, &op.name.text, op)?;
    }
    Ok(())
}

/// The operations that classes declare, by name.
fn ops_by_name<'a>(
    alloc: Global,
    classes: &[&'a ClassDecl],
) -> Result<Groups<&'a OpDecl>, AllocError>
    ensures { IfOk result (λ groups. (t : List ℕ) → map (λ op. op.now) (listed groups t) ≡ flat_map (λ c. ops_named t c.now.ops) classes.now) }
{
    let mut groups = BTreeMap::new(alloc);
    'classes: for class in classes {
        add_ops(alloc, &mut groups, class.ops.as_slice())?;
    }
    Ok(groups)
}

/// The first operation of a class that clashes with one of those of its name.
fn first_clash_among(kind: Clash, groups: &Groups<&OpDecl>, class: &ClassDecl) -> Option<Place>
    ensures { result ≡ first_op (λ op. list_any (λ other. clash kind op other.now) (listed groups.now op.name.text)) class.now }
{
    let ops = class.ops.as_slice();
    ops.iter()
        .find(|op| clashes_with(kind, op, of_name(groups, &op.name.text)))
        .map(|op| op.name.place)
}

/// The first operation of a class that clashes with one that it overrides, given the ancestors of
/// the class.
pub(crate) fn first_clash(
    alloc: Global,
    kind: Clash,
    class: &ClassDecl,
    above: &[&ClassDecl],
) -> Result<Option<Place>, AllocError>
    ensures { IfOk result (λ place. place ≡ first_op (clashes_above kind (map (λ c. c.now) above.now)) class.now) }
{
    let groups = ops_by_name(alloc, above)?;
    Ok(first_clash_among(kind, &groups, class))
}
