ghost use Rattle.std.specs.Prelude.{◌≡◌, IfOk, IfSome, Some, slice_get};
ghost use Rattle.std.specs.Option.{option_copied};
ghost use Rattle.grammar_core.specs.Chains.{AreChains, IsLink, IsLinkAt, Leads};

use crate::lookup::rule_at;
use crate::repeated::parts_at;
use crate::{Prod, Table};
use std::alloc::{AllocError, Global};
use use_lists::Items;

/// How many rules a chain has at most.
const MOST_LINKS: u8 = 32;

/// A rule that is one part and a repetition, and the repetition.
#[derive(Clone, Copy, Debug, PartialEq, Eq)]
pub(crate) struct Link {
    pub(crate) rule: u16,
    pub(crate) repeated: u16,
}

/// Rules that begin one as the first part of another, and what the last of them reads first.
#[derive(Debug, Drop)]
pub(crate) struct Chain {
    pub(crate) links: Items<Link>,
    pub(crate) end: u16,
}

/// A rule in a chain, and what it reads first.
#[derive(Clone, Copy, Debug, PartialEq, Eq)]
struct Linked {
    link: Link,
    first: u16,
}

fn link_of(table: &Table, r: u16) -> Option<Linked>
    ensures link { IfSome result (λ l. IsLink table.now l.link l.first) }
    ensures rule { IfSome result (λ l. l.link.rule ≡ r) }
{
    let rule = rule_at(table, r)?;
    if rule.nests {
        return None;
    }
    let parts = parts_at(table, rule.to)?;
    Some(Linked {
        link: Link {
            rule: r,
            repeated: parts.repeated,
        },
        first: parts.first,
    })
}

fn link_at(table: &Table, p: u16) -> Option<Linked>
    ensures { IfSome result (λ l. IsLinkAt table.now p l.link l.first) }
{
    match table.prods.get(p as usize) {
        None => None,
        Some(x) => match x {
            Prod::Call(r) => link_of(table, *r),
            Prod::Tok(_) | Prod::Seq(_) | Prod::Case(_, _) | Prod::Star(_, _) => None,
        },
    }
}

fn chain_from(alloc: Global, table: &Table, p: u16) -> Result<Chain, AllocError>
    ensures { IfOk result (λ c. Leads table.now p c.links c.end) }
{
    let mut links = Items::new(alloc);
    let mut end = p;
    'links: for _ in 0..MOST_LINKS {
        match link_at(table, end) {
            None => return Ok(Chain { links, end }),
            Some(linked) => {
                links.push(linked.link)?;
                end = linked.first;
            }
        }
    }
    Ok(Chain { links, end })
}

/// The rules that each production begins.
pub(crate) fn all_chains(alloc: Global, table: &Table) -> Result<Vec<Chain>, AllocError>
    ensures { IfOk result (λ all. AreChains table.now all.items) }
{
    let mut all = Vec::with_capacity(alloc, table.prods.len())?;
    let mut p: u16 = 0;
    'prods: for _ in 0..table.prods.len() {
        all.push(chain_from(alloc, table, p)?)?;
        match p.checked_add(1) {
            None => return Ok(all),
            Some(next) => p = next,
        }
    }
    Ok(all)
}
