ghost use Rattle.std.specs.Prelude.{◌≡◌, ◌<◌, length, Some};
ghost use Rattle.grammar_core.specs.Derives.{begins, branch_of, kinds, level_in, next_is};
ghost use Rattle.grammar_core.specs.Paths.{is_marked};
ghost use Rattle.grammar_core.specs.Tables.{rule_at};

use crate::{Branch, Rule, Table};
use use_text::Token;

/// How many rules that nest may be open.
pub(crate) const MAX_LEVEL: u8 = 200;

pub(crate) fn is_marked(seen: &[bool], at: usize) -> bool
    ensures { result ≡ is_marked seen.now at }
{
    match seen.get(at) {
        Some(mark) => *mark,
        None => false,
    }
}

pub(crate) fn rule_at(g: &Table, r: u16) -> Option<Rule>
    ensures { result ≡ rule_at g.now r }
{
    let to = *g.rules.get(r as usize)?;
    let nests = *g.nests.get(r as usize)?;
    Some(Rule { to, nests })
}

pub(crate) fn next_is(tokens: &[Token], at: u32, kind: u16) -> bool
    ensures { result ≡ next_is (kinds tokens.now) at kind }
{
    match tokens.get(at as usize) {
        Some(token) => token.kind == kind,
        None => false,
    }
}

pub(crate) fn begins(tokens: &[Token], at: u32, firsts: &[u16]) -> bool
    ensures { result ≡ begins (kinds tokens.now) at firsts.now }
{
    'kinds: for kind in firsts {
        if next_is(tokens, at, *kind) {
            return true;
        }
    }
    false
}

pub(crate) fn branch_of(
    tokens: &[Token],
    at: u32,
    branches: &[Branch],
    other: Option<u16>,
) -> Option<u16>
    ensures { result ≡ branch_of (kinds tokens.now) at branches.now other }
{
    'branches: for branch in branches {
        if begins(tokens, at, branch.firsts.as_slice()) {
            return Some(branch.to);
        }
    }
    other
}

pub(crate) fn level_in(rule: Rule, level: u8) -> Option<u8>
    ensures { result ≡ level_in rule level }
{
    if rule.nests {
        if level < MAX_LEVEL {
            Some(level + 1)
        } else {
            None
        }
    } else {
        Some(level)
    }
}
