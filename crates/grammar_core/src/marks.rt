ghost use Rattle.std.specs.Prelude.{◌≡◌, ◌<◌, length, IfOk, if◌then◌else◌, [], slice_get};
ghost use Rattle.grammar_core.specs.Empty.{all_marked, any_marked, empty_by, is_marked_option};
ghost use Rattle.grammar_core.specs.Paths.{is_marked};
ghost use Rattle.grammar_core.specs.Tables.{choices, graph_of, next_prods, rule_at, unnested};
ghost use Rattle.grammar_core.specs.Marks.{Grows, IsRow, mark_all, set_mark, sweep, MarksEmpty, empty_sweep};

use crate::lookup::{is_marked, rule_at};
use crate::{Branch, Prod, Table};
use std::alloc::{AllocError, Global};

fn set_mark(seen: &mut Vec<bool>, q: usize) -> bool
    ensures set { seen.new.items ≡ set_mark seen.old.items q }
    ensures grows { Grows seen.old.items seen.new.items result }
{
    if q >= seen.len() {
        return false;
    }
    if is_marked(seen.as_slice(), q) {
        return false;
    }
    seen[q] = true;
    true
}

fn mark_all(seen: &mut Vec<bool>, ps: &[u16]) -> bool
    ensures set { seen.new.items ≡ mark_all seen.old.items ps.now }
    ensures grows { Grows seen.old.items seen.new.items result }
{
    let mut grew = false;
    'parts: for q in ps {
        let new = set_mark(seen, *q as usize);
        grew = grew | new;
    }
    grew
}

fn mark_option(seen: &mut Vec<bool>, other: Option<u16>) -> bool
    ensures set { seen.new.items ≡ mark_all seen.old.items (choices [] other) }
    ensures grows { Grows seen.old.items seen.new.items result }
{
    match other {
        Some(q) => set_mark(seen, q as usize),
        None => false,
    }
}

fn mark_branches(seen: &mut Vec<bool>, branches: &[Branch], other: Option<u16>) -> bool
    ensures set { seen.new.items ≡ mark_all seen.old.items (choices branches.now other) }
    ensures grows { Grows seen.old.items seen.new.items result }
{
    let mut grew = false;
    'branches: for branch in branches {
        let new = set_mark(seen, branch.to as usize);
        grew = grew | new;
    }
    let new = mark_option(seen, other);
    grew | new
}

fn mark_called(seen: &mut Vec<bool>, g: &Table, calls: bool, r: u16) -> bool
    ensures set { seen.new.items ≡ mark_all seen.old.items (if calls then unnested (rule_at g.now r) else []) }
    ensures grows { Grows seen.old.items seen.new.items result }
{
    if !calls {
        return false;
    }
    match rule_at(g, r) {
        Some(rule) => {
            if rule.nests {
                return false;
            }
            set_mark(seen, rule.to as usize)
        }
        None => false,
    }
}

fn mark_next(seen: &mut Vec<bool>, g: &Table, calls: bool, x: &Prod) -> bool
    ensures set { seen.new.items ≡ mark_all seen.old.items (next_prods calls g.now x.now) }
    ensures grows { Grows seen.old.items seen.new.items result }
{
    match x {
        Prod::Tok(_) => false,
        Prod::Call(r) => mark_called(seen, g, calls, *r),
        Prod::Seq(ps) => mark_all(seen, ps.as_slice()),
        Prod::Case(branches, other) => mark_branches(seen, branches.as_slice(), *other),
        Prod::Star(_, q) => set_mark(seen, *q as usize),
    }
}

fn mark_row(seen: &mut Vec<bool>, g: &Table, calls: bool, i: usize, x: &Prod) -> bool
    ensures set { seen.new.items ≡ (if is_marked seen.old.items i then mark_all seen.old.items (next_prods calls g.now x.now) else seen.old.items) }
    ensures grows { Grows seen.old.items seen.new.items result }
{
    if is_marked(seen.as_slice(), i) {
        mark_next(seen, g, calls, x)
    } else {
        false
    }
}

fn sweep(seen: &mut Vec<bool>, g: &Table, calls: bool) -> bool
    ensures set { seen.new.items ≡ sweep seen.old.items 0 (graph_of calls g.now) }
    ensures grows { Grows seen.old.items seen.new.items result }
{
    let mut grew = false;
    'rows: for (i, x) in g.prods.as_slice().iter().enumerate() {
        let new = mark_row(seen, g, calls, i, x);
        grew = grew | new;
    }
    grew
}

/// Marks what `p` leads to by one step or more.
pub(crate) fn reach_from(
    alloc: Global,
    g: &Table,
    calls: bool,
    p: usize,
) -> Result<Vec<bool>, AllocError>
    requires { p < length g.now.prods }
    ensures { IfOk result (λ row. IsRow (graph_of calls g.now) p row.items) }
{
    let mut seen = vec![in alloc; false; g.prods.len()]?;
    mark_next(&mut seen, g, calls, &g.prods.as_slice()[p]);
    'rounds: loop {
        if !sweep(&mut seen, g, calls) {
            return Ok(seen);
        }
    }
}

fn all_marked(seen: &[bool], ps: &[u16]) -> bool
    ensures { result ≡ all_marked seen.now ps.now }
{
    'parts: for q in ps {
        if !is_marked(seen, *q as usize) {
            return false;
        }
    }
    true
}

fn is_other_marked(seen: &[bool], other: Option<u16>) -> bool
    ensures { result ≡ any_marked seen.now (choices [] other) }
{
    match other {
        Some(q) => is_marked(seen, q as usize),
        None => false,
    }
}

fn any_branch_marked(seen: &[bool], branches: &[Branch], other: Option<u16>) -> bool
    ensures { result ≡ any_marked seen.now (choices branches.now other) }
{
    'branches: for branch in branches {
        if is_marked(seen, branch.to as usize) {
            return true;
        }
    }
    is_other_marked(seen, other)
}

fn is_rule_marked(rules: &[u16], seen: &[bool], r: u16) -> bool
    ensures { result ≡ is_marked_option seen.now (slice_get rules.now r) }
{
    match rules.get(r as usize) {
        Some(q) => is_marked(seen, *q as usize),
        None => false,
    }
}

fn is_empty_by(rules: &[u16], seen: &[bool], x: &Prod) -> bool
    ensures { result ≡ empty_by rules.now seen.now x.now }
{
    match x {
        Prod::Tok(_) => false,
        Prod::Call(r) => is_rule_marked(rules, seen, *r),
        Prod::Seq(ps) => all_marked(seen, ps.as_slice()),
        Prod::Case(branches, other) => any_branch_marked(seen, branches.as_slice(), *other),
        Prod::Star(_, _) => true,
    }
}

fn mark_if_empty(seen: &mut Vec<bool>, rules: &[u16], i: usize, x: &Prod) -> bool
    ensures set { seen.new.items ≡ (if empty_by rules.now seen.old.items x.now then set_mark seen.old.items i else seen.old.items) }
    ensures grows { Grows seen.old.items seen.new.items result }
{
    if is_empty_by(rules, seen.as_slice(), x) {
        set_mark(seen, i)
    } else {
        false
    }
}

fn empty_sweep(seen: &mut Vec<bool>, rules: &[u16], prods: &[Prod]) -> bool
    ensures set { seen.new.items ≡ empty_sweep rules.now seen.old.items 0 prods.now }
    ensures grows { Grows seen.old.items seen.new.items result }
{
    let mut grew = false;
    'prods: for (i, x) in prods.iter().enumerate() {
        let new = mark_if_empty(seen, rules, i, x);
        grew = grew | new;
    }
    grew
}

/// Marks the productions that may derive no token.
pub(crate) fn empty_marks(alloc: Global, g: &Table) -> Result<Vec<bool>, AllocError>
    ensures { IfOk result (λ seen. MarksEmpty g.now seen.items) }
{
    let mut seen = vec![in alloc; false; g.prods.len()]?;
    'rounds: loop {
        if !empty_sweep(&mut seen, g.rules.as_slice(), g.prods.as_slice()) {
            return Ok(seen);
        }
    }
}
