ghost use Rattle.std.specs.Prelude.{◌≡◌, IfOk, OnOk, ◌++◌, map};
ghost use Rattle.std.specs.Option.{option_copied};
ghost use Rattle.std.specs.List.{flat_map};
ghost use Rattle.class_decls.specs.Names.{cond_entries, cond_space, entry, given, head_in, heads, literal_entries, numbered, op_text};
ghost use Rattle.class_decls.specs.Names.{name_declared_twice, operation_declared_twice, param_entries, params_of, parent_named_twice, type_entries};
ghost use Rattle.class_decls.specs.declared.entry.Space.TheVariants as s;

use crate::different::names_differ;
use crate::entry::{add_entries, entry_of, predeclared};
use crate::repeats::declared_again;
use crate::{ClassDecl, CondDecl, CondKind, Decls, Entry, EnumDecl, Name, OpDecl, OpOf, Space};
use ocl_values::Text;
use std::alloc::{AllocError, Global};
use use_text::Place;

/// The plain types.
pub(crate) static PLAIN_TYPES: [&str; 5] = ["Boolean", "Integer", "String", "OclAny", "OclVoid"];

/// What bodies and contracts call the receiver and the result.
pub(crate) static BOUND_NAMES: [&str; 2] = ["self", "result"];

/// The name of the operation whose contract it is, where contexts name these heads. Past their list
/// it is empty.
pub fn op_text<'a>(context_heads: &'a [OpDecl], op: &'a OpOf) -> &'a str
    ensures { result.now ≡ op_text context_heads.now op.now }
{
    match op {
        OpOf::Here(name) => name.text.as_str(),
        OpOf::Named(at) => match context_heads.get(*at) {
            None => "",
            Some(head) => head.name.text.as_str(),
        },
    }
}

/// The space of a condition's name.
fn cond_space(
    alloc: Global,
    context_heads: &[OpDecl],
    class: &Name,
    kind: &CondKind,
) -> Result<Space, AllocError>
    ensures { IfOk result (λ space. space ≡ cond_space context_heads.now class.now.text kind.now) }
{
    let class = Text::copy_of(alloc, class.text.as_str())?;
    Ok(match kind {
        CondKind::Inv => Space::Invariants(class),
        CondKind::Pre(op) | CondKind::Post(op) => {
            Space::Contracts(class, Text::copy_of(alloc, op_text(context_heads, op))?)
        }
    })
}

/// The head in the context of a contract, where contexts name these heads. Past their list there is
/// none.
pub fn head_in<'a>(context_heads: &'a [OpDecl], kind: &CondKind) -> Option<&'a OpDecl>
    ensures { option_copied result ≡ head_in context_heads.now kind.now }
{
    match kind {
        CondKind::Pre(OpOf::Named(at)) | CondKind::Post(OpOf::Named(at)) => context_heads.get(*at),
        _ => None,
    }
}

/// Adds names that are there before the text.
fn add_predeclared(
    alloc: Global,
    space: &Space,
    texts: &[&str],
    names: &mut Vec<Entry>,
) -> Result<(), AllocError>
    ensures { OnOk result (names.new.items ≡ names.old.items ++ map (λ t. given space.now t.now) texts.now) }
{
    'texts: for text in texts {
        let name = predeclared(alloc, space.copy(alloc)?, text)?;
        names.push(name)?;
    }
    Ok(())
}

fn add_types(alloc: Global, decls: &Decls, names: &mut Vec<Entry>) -> Result<(), AllocError>
    ensures { OnOk result (names.new.items ≡ names.old.items ++ type_entries decls.now) }
{
    let types = Space::Types;
    add_predeclared(alloc, &types, &PLAIN_TYPES, names)?;
    add_entries(alloc, &types, decls.enums.as_slice(), names)?;
    add_entries(alloc, &types, decls.classes.as_slice(), names)?;
    add_entries(alloc, &types, decls.assocs.as_slice(), names)?;
    Ok(())
}

fn add_literals(alloc: Global, enums: &[EnumDecl], names: &mut Vec<Entry>) -> Result<(), AllocError>
    ensures { OnOk result (names.new.items ≡ names.old.items ++ numbered (λ i e. map (entry (s.Literals i)) e.literals) enums.now) }
{
    'enums: for (i, e) in enums.iter().enumerate() {
        add_entries(alloc, &Space::Literals(i), e.literals.as_slice(), names)?;
    }
    Ok(())
}

fn add_conds(
    alloc: Global,
    context_heads: &[OpDecl],
    conds: &[CondDecl],
    names: &mut Vec<Entry>,
) -> Result<(), AllocError>
    ensures { OnOk result (names.new.items ≡ names.old.items
        ++ map (λ c. entry (cond_space context_heads.now c.class.text c.kind) c.name) conds.now) }
{
    'conds: for cond in conds {
        let space = cond_space(alloc, context_heads, &cond.class, &cond.kind)?;
        let name = entry_of(alloc, space, &cond.name)?;
        names.push(name)?;
    }
    Ok(())
}

fn add_heads<'a>(ops: &'a [OpDecl], found: &mut Vec<&'a OpDecl>) -> Result<(), AllocError>
    ensures { OnOk result (map (λ h. h.now) found.new.items ≡ map (λ h. h.now) found.old.items ++ ops.now) }
{
    'ops: for op in ops {
        found.push(op)?;
    }
    Ok(())
}

fn add_class_heads<'a>(
    classes: &'a [ClassDecl],
    found: &mut Vec<&'a OpDecl>,
) -> Result<(), AllocError>
    ensures { OnOk result (map (λ h. h.now) found.new.items ≡ map (λ h. h.now) found.old.items ++ flat_map (λ c. c.ops) classes.now) }
{
    'classes: for class in classes {
        add_heads(class.ops.as_slice(), found)?;
    }
    Ok(())
}

/// The heads of operations: those of classes, and those of contexts.
pub(crate) fn heads<'a>(alloc: Global, decls: &'a Decls) -> Result<Vec<&'a OpDecl>, AllocError>
    ensures { IfOk result (λ v. map (λ h. h.now) v.items ≡ heads decls.now) }
{
    let mut found = Vec::new(alloc);
    add_class_heads(decls.classes.as_slice(), &mut found)?;
    add_heads(decls.context_heads.as_slice(), &mut found)?;
    Ok(found)
}

fn add_params(alloc: Global, heads: &[&OpDecl], names: &mut Vec<Entry>) -> Result<(), AllocError>
    ensures { OnOk result (names.new.items ≡ names.old.items ++ numbered (λ i op. params_of i op.now) heads.now) }
{
    'heads: for (i, head) in heads.iter().enumerate() {
        let space = Space::Parameters(i);
        add_predeclared(alloc, &space, &BOUND_NAMES, names)?;
        add_entries(alloc, &space, head.params.as_slice(), names)?;
    }
    Ok(())
}

fn add_parents(
    alloc: Global,
    classes: &[ClassDecl],
    names: &mut Vec<Entry>,
) -> Result<(), AllocError>
    ensures { OnOk result (names.new.items ≡ names.old.items ++ numbered (λ i c. map (entry (s.Parents i)) c.parents) classes.now) }
{
    'classes: for (i, class) in classes.iter().enumerate() {
        add_entries(alloc, &Space::Parents(i), class.parents.as_slice(), names)?;
    }
    Ok(())
}

fn add_ops(alloc: Global, classes: &[ClassDecl], names: &mut Vec<Entry>) -> Result<(), AllocError>
    ensures { OnOk result (names.new.items ≡ names.old.items ++ numbered (λ i c. map (λ op. entry (s.Operations i) op.name) c.ops) classes.now) }
{
    'classes: for (i, class) in classes.iter().enumerate() {
        add_entries(alloc, &Space::Operations(i), class.ops.as_slice(), names)?;
    }
    Ok(())
}

/// The first name that is declared for the second time in its space, where these are the heads.
fn first_declared_again(
    alloc: Global,
    decls: &Decls,
    ops: &[&OpDecl],
) -> Result<Option<Place>, AllocError>
    requires { map (λ h. h.now) ops.now ≡ heads decls.now }
    ensures { IfOk result (λ place. place ≡ name_declared_twice decls.now) }
{
    let mut names = Vec::new(alloc);
    add_types(alloc, decls, &mut names)?;
    add_literals(alloc, decls.enums.as_slice(), &mut names)?;
    add_params(alloc, ops, &mut names)?;
    add_conds(
        alloc,
        decls.context_heads.as_slice(),
        decls.conds.as_slice(),
        &mut names,
    )?;
    let place = declared_again(names)?;
    Ok(place)
}

/// M1: the first name that is declared for the second time in its space. Names are put in order only
/// where they are not told apart by their texts alone.
pub fn name_declared_twice(alloc: Global, decls: &Decls) -> Result<Option<Place>, AllocError>
    ensures { IfOk result (λ place. place ≡ name_declared_twice decls.now) }
{
    let heads = heads(alloc, decls)?;
    let differ = names_differ(alloc, decls, heads.as_slice())?;
    if differ {
        return Ok(None);
    }
    first_declared_again(alloc, decls, heads.as_slice())
}

/// M3: the first parent that a class names for the second time.
pub fn parent_named_twice(alloc: Global, decls: &Decls) -> Result<Option<Place>, AllocError>
    ensures { IfOk result (λ place. place ≡ parent_named_twice decls.now) }
{
    let mut names = Vec::new(alloc);
    add_parents(alloc, decls.classes.as_slice(), &mut names)?;
    let place = declared_again(names)?;
    Ok(place)
}

/// M7: the first operation that a class declares for the second time.
pub fn operation_declared_twice(alloc: Global, decls: &Decls) -> Result<Option<Place>, AllocError>
    ensures { IfOk result (λ place. place ≡ operation_declared_twice decls.now) }
{
    let mut names = Vec::new(alloc);
    add_ops(alloc, decls.classes.as_slice(), &mut names)?;
    let place = declared_again(names)?;
    Ok(place)
}
