ghost use Rattle.std.specs.Prelude.{◌≡◌};
ghost use Rattle.use_syntax.specs.Language.{language};

use crate::texts::{decls_of, language};
use class_decls::{
    CondDecl, CondKind, Decls, NameSet, OpDecl, bad_multiplicity, head_in, name_declared_twice,
    op_text, operation_declared_twice, parent_named_twice, too_many_assocs, too_many_classes,
    too_many_invariants, too_many_literals, unknown_type,
};
use class_rules::Hierarchy;
use grammar_core::Grammar;
use ocl_values::Text;
use std::alloc::{AllocError, Global};
use std::test::Fail;

/// A diamond with its lowest class first, and a contract of an operation.
const DIAMOND: &str = "model M\nclass D < C, B end\nclass B < A end\nclass C < A end\n\
    class A operations grow() end\nconstraints\ncontext A::grow() pre: true\n";

/// Whether no rule that needs no inheritance is broken.
fn breaks_no_rule(alloc: Global, decls: &Decls) -> Result<bool, AllocError> {
    Ok(
        name_declared_twice(alloc, decls)?.is_none()
            && unknown_type(alloc, decls)?.is_none()
            && parent_named_twice(alloc, decls)?.is_none()
            && operation_declared_twice(alloc, decls)?.is_none(),
    )
}

fn keeps_the_limits(decls: &Decls) -> bool {
    bad_multiplicity(decls).is_none()
        && too_many_classes(decls).is_none()
        && too_many_assocs(decls).is_none()
        && too_many_invariants(decls).is_none()
        && too_many_literals(decls).is_none()
}

/// Whether a contract tells its operation, and its place where it has one.
fn tells_its_operation(heads: &[OpDecl], contract: &CondDecl) -> bool {
    match &contract.kind {
        CondKind::Pre(op) => {
            op_text(heads, op) == "grow" && head_in(heads, &CondKind::Inv).is_none()
        }
        _ => false,
    }
}

fn has_its_contract(decls: &Decls) -> bool {
    match decls.conds.as_slice() {
        [contract] => tells_its_operation(decls.context_heads.as_slice(), contract),
        _ => false,
    }
}

/// Whether a set of names holds the names of the classes, and no other.
fn holds_its_names(alloc: Global, decls: &Decls) -> Result<bool, AllocError> {
    let mut names = NameSet::new(alloc);
    'classes: for class in decls.classes.as_slice() {
        names.add(class.name.text.as_str())?;
    }
    let there = names.contains(&Text::copy_of(alloc, "D")?);
    let not_there = names.contains(&Text::copy_of(alloc, "d")?);
    Ok(there && !not_there)
}

/// Whether parents have smaller numbers than their children.
fn is_in_order(alloc: Global, decls: &Decls) -> Result<bool, AllocError> {
    let hierarchy = Hierarchy::of(alloc, decls)?;
    let ancestors = hierarchy.ancestors(alloc, 3)?;
    Ok(
        hierarchy.order() == [3, 1, 2, 0].as_slice()
            && hierarchy.number(0) == Some(3)
            && hierarchy.parents(3) == [2, 1].as_slice()
            && ancestors.as_slice() == [0, 1, 2, 3].as_slice()
            && hierarchy.decls().classes.len() == 4,
    )
}

/// The first thing that a diamond does not show.
fn first_missing(alloc: Global, decls: &Decls) -> Result<&'static str, AllocError> {
    if !breaks_no_rule(alloc, decls)? {
        return Ok("a rule is broken");
    }
    if !keeps_the_limits(decls) {
        return Ok("a limit is broken");
    }
    if !has_its_contract(decls) {
        return Ok("the contract is of another operation");
    }
    if !holds_its_names(alloc, decls)? {
        return Ok("a name is not in the set");
    }
    if !is_in_order(alloc, decls)? {
        return Ok("a parent has a larger number");
    }
    Ok("")
}

fn shown(alloc: Global, g: &Grammar) -> Result<&'static str, Fail>
    requires { g.now ≡ language }
{
    match decls_of(alloc, g, DIAMOND)? {
        None => Ok("the text is refused"),
        Some(decls) => Ok(first_missing(alloc, &decls)?),
    }
}

#[test]
fn the_declarations_of_a_diamond_are_read(rt: HostRuntime) -> Result<(), Fail> {
    let found = language(rt.alloc())?;
    assert!(rt; found.is_some());
    if let Some(g) = &found {
        assert_eq!(rt; shown(rt.alloc(), g)?, "");
    }
    Ok(())
}
