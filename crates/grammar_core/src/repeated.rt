ghost use Rattle.std.specs.Prelude.{◌≡◌, IfOk, Some, map, slice_get};
ghost use Rattle.grammar_core.specs.Repetitions.{all_parts, is_star, parts_in, repeated_parts, two_parts};

use crate::{Prod, Table};
use std::alloc::{AllocError, Global};

/// The two parts of a production: what is read first, and a repetition behind it.
#[derive(Clone, Copy, Debug, PartialEq, Eq)]
pub(crate) struct Parts {
    pub(crate) first: u16,
    pub(crate) repeated: u16,
}

fn is_star(table: &Table, p: u16) -> bool
    ensures { result ≡ is_star (slice_get table.now.prods p) }
{
    match table.prods.get(p as usize) {
        None => false,
        Some(x) => matches!(x, Prod::Star(_, _)),
    }
}

fn two_parts(table: &Table, ps: &[u16]) -> Option<Parts>
    ensures { result ≡ two_parts table.now ps.now }
{
    match ps {
        [first, last] => {
            if is_star(table, *last) {
                Some(Parts {
                    first: *first,
                    repeated: *last,
                })
            } else {
                None
            }
        }
        _ => None,
    }
}

fn parts_in(table: &Table, x: &Prod) -> Option<Parts>
    ensures { result ≡ parts_in table.now (Some x.now) }
{
    match x {
        Prod::Seq(ps) => two_parts(table, ps.as_slice()),
        Prod::Tok(_) | Prod::Call(_) | Prod::Case(_, _) | Prod::Star(_, _) => None,
    }
}

/// The parts of the production of a number.
pub(crate) fn parts_at(table: &Table, p: u16) -> Option<Parts>
    ensures { result ≡ repeated_parts table.now p }
{
    match table.prods.get(p as usize) {
        None => None,
        Some(x) => parts_in(table, x),
    }
}

/// The parts of each production.
pub(crate) fn all_parts(alloc: Global, table: &Table) -> Result<Vec<Option<Parts>>, AllocError>
    ensures { IfOk result (λ all. all.items ≡ all_parts table.now) }
{
    let prods = table.prods.as_slice();
    let mut all = Vec::with_capacity(alloc, prods.len())?;
    'prods: for x in prods {
        all.push(parts_in(table, x))?;
    }
    Ok(all)
}
