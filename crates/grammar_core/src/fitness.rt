ghost use Rattle.std.specs.Prelude.{◌≡◌, ◌≤◌, ◌↔◌, ◌<◌, [], length, slice_get, Some, IfOk, IsTrue};
ghost use Rattle.grammar_core.specs.Paths.{Path};
ghost use Rattle.grammar_core.specs.Tables.{choices, graph_of, rule_at};
ghost use Rattle.grammar_core.specs.Checks.{any_past, empty_body_by, outside_by};
ghost use Rattle.grammar_core.specs.Unfit.{IsTable, Unfit};
ghost use Rattle.grammar_core.specs.Marks.{MarksEmpty, CallComesBack, RuleComesBack, IsFirstOf};

use crate::lookup::{is_marked, rule_at};
use crate::marks::{empty_marks, reach_from};
use crate::{Branch, Prod, Table};
use std::alloc::{AllocError, Global};

fn any_past(count: usize, ps: &[u16]) -> bool
    ensures { result ≡ any_past count ps.now }
{
    'parts: for q in ps {
        if count <= *q as usize {
            return true;
        }
    }
    false
}

fn is_past_option(count: usize, other: Option<u16>) -> bool
    ensures { result ≡ any_past count (choices [] other) }
{
    match other {
        Some(q) => count <= q as usize,
        None => false,
    }
}

fn any_branch_past(count: usize, branches: &[Branch], other: Option<u16>) -> bool
    ensures { result ≡ any_past count (choices branches.now other) }
{
    'branches: for branch in branches {
        if count <= branch.to as usize {
            return true;
        }
    }
    is_past_option(count, other)
}

fn is_outside(g: &Table, x: &Prod) -> bool
    ensures { result ≡ outside_by g.now x.now }
{
    let count = g.prods.len();
    match x {
        Prod::Tok(_) => false,
        Prod::Call(r) => g.rules.len() <= *r as usize,
        Prod::Seq(ps) => any_past(count, ps.as_slice()),
        Prod::Case(branches, other) => any_branch_past(count, branches.as_slice(), *other),
        Prod::Star(_, q) => count <= *q as usize,
    }
}

fn has_empty_body(empty: &[bool], x: &Prod) -> bool
    ensures { result ≡ empty_body_by empty.now x.now }
{
    match x {
        Prod::Star(_, q) => is_marked(empty, *q as usize),
        Prod::Tok(_) | Prod::Call(_) | Prod::Seq(_) | Prod::Case(_, _) => false,
    }
}

fn leads_back(alloc: Global, g: &Table, calls: bool, p: usize) -> Result<bool, AllocError>
    requires { p < length g.now.prods }
    ensures { IfOk result (λ b. IsTrue b ↔ Path (graph_of calls g.now) p p) }
{
    let row = reach_from(alloc, g, calls, p)?;
    Ok(is_marked(row.as_slice(), p))
}

fn rule_comes_back(alloc: Global, g: &Table, r: u16) -> Result<bool, AllocError>
    requires { IsTable g.now }
    ensures { IfOk result (λ b. IsTrue b ↔ RuleComesBack g.now (rule_at g.now r)) }
{
    match rule_at(g, r) {
        Some(rule) => {
            if rule.nests {
                Ok(false)
            } else {
                leads_back(alloc, g, true, rule.to as usize)
            }
        }
        None => Ok(false),
    }
}

fn call_comes_back(alloc: Global, g: &Table, x: &Prod) -> Result<bool, AllocError>
    requires { IsTable g.now }
    ensures { IfOk result (λ b. IsTrue b ↔ CallComesBack g.now x.now) }
{
    match x {
        Prod::Call(r) => rule_comes_back(alloc, g, *r),
        Prod::Tok(_) | Prod::Seq(_) | Prod::Case(_, _) | Prod::Star(_, _) => Ok(false),
    }
}

fn is_unfit(
    alloc: Global,
    g: &Table,
    empty: &[bool],
    p: usize,
    x: &Prod,
) -> Result<bool, AllocError>
    requires table { IsTable g.now }
    requires at { slice_get g.now.prods p ≡ Some x.now }
    requires marks { MarksEmpty g.now empty.now }
    ensures { IfOk result (λ b. IsTrue b ↔ Unfit g.now p) }
{
    if is_outside(g, x) {
        return Ok(true);
    }
    if has_empty_body(empty, x) {
        return Ok(true);
    }
    if leads_back(alloc, g, false, p)? {
        return Ok(true);
    }
    call_comes_back(alloc, g, x)
}

/// The first production that is unfit.
pub(crate) fn first_unfit(alloc: Global, g: &Table) -> Result<Option<u16>, AllocError>
    requires { IsTable g.now }
    ensures { IfOk result (IsFirstOf g.now) }
{
    let empty = empty_marks(alloc, g)?;
    'prods: for (p, x) in g.prods.as_slice().iter().enumerate() {
        if is_unfit(alloc, g, empty.as_slice(), p, x)? {
            return Ok(Some(p as u16));
        }
    }
    Ok(None)
}
