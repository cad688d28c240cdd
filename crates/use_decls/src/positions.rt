ghost use Rattle.std.specs.Prelude.{◌≡◌, ◌++◌, ◌<◌, ◌^◌, ◌+◌, [], ℕ, List, IfOk, OnOk, if◌then◌else◌};
ghost use Rattle.std.specs.Fmt.{decimal};
ghost use Rattle.use_decls.specs.Conds.{cond_decl, group_of, is_group, name_or, named_behind, op_of_kind};
ghost use Rattle.use_decls.specs.Counts.{count_in};

use crate::conds::CondPart;
use class_decls::{CondDecl, CondKind, Name, OpDecl, op_text};
use ocl_values::Text;
use std::alloc::{AllocError, Global};
use std::collections::BTreeMap;
use use_lists::Items;

/// What conditions have in common that are counted together.
#[derive(Debug, Drop, PartialEq, Eq, PartialOrd, Ord)]
pub(crate) struct Group {
    /// `inv`, `pre` or `post`.
    pub word: Text,
    pub class: Text,
    /// The operation's name; empty for invariants.
    pub op: Text,
}

/// How many conditions of each group there are.
type Counts = BTreeMap<Group, u64>;

fn op_of_kind<'a>(context_heads: &'a [OpDecl], kind: &'a CondKind) -> &'a str
    ensures { result.now ≡ op_of_kind context_heads.now kind.now }
{
    match kind {
        CondKind::Inv => "",
        CondKind::Pre(op) => op_text(context_heads, op),
        CondKind::Post(op) => op_text(context_heads, op),
    }
}

fn group_of(alloc: Global, context_heads: &[OpDecl], part: &CondPart) -> Result<Group, AllocError>
    ensures { IfOk result (λ g. g ≡ group_of context_heads.now part.now) }
{
    Ok(Group {
        word: Text::copy_of(alloc, part.word.text.as_str())?,
        class: Text::copy_of(alloc, part.class.text.as_str())?,
        op: Text::copy_of(alloc, op_of_kind(context_heads, &part.kind))?,
    })
}

/// How many conditions of a group there are.
fn count_in(counts: &Counts, group: &Group) -> u64
    ensures { result ≡ count_in counts.now group.now }
{
    counts.get(group).copied().unwrap_or(0)
}

/// Counts one condition more in a group, and gives its number there.
fn count_one(counts: &mut Counts, group: Group) -> Result<u64, AllocError>
    requires { count_in counts.old group + 1 < 2 ^ 64 }
    ensures number { IfOk result (λ n. n ≡ count_in counts.old group + 1) }
    ensures counts { OnOk result ((g : Group) → count_in counts.new g
        ≡ (if is_group group g then count_in counts.old group + 1 else count_in counts.old g)) }
{
    let number = count_in(counts, &group) + 1;
    counts.insert(group, number)?;
    Ok(number)
}

/// The name of a condition of this number in its group.
fn name_or(
    alloc: Global,
    number: u64,
    word: Name,
    written: Option<Name>,
) -> Result<Name, AllocError>
    ensures { IfOk result (λ n. n ≡ name_or number word written) }
{
    match written {
        Some(name) => Ok(name),
        None => Ok(Name {
            text: Text::from_string(format!(in alloc; "{}{}", word.text.as_str(), number)?),
            place: word.place,
        }),
    }
}

fn cond_decl(alloc: Global, number: u64, part: CondPart) -> Result<CondDecl, AllocError>
    ensures { IfOk result (λ c. c ≡ cond_decl number part) }
{
    let CondPart {
        kind,
        class,
        word,
        written,
    } = part;
    Ok(CondDecl {
        kind,
        class,
        name: name_or(alloc, number, word, written)?,
    })
}

/// The conditions, those that write no name named by their numbers, where contexts name these heads.
pub(crate) fn named(
    alloc: Global,
    context_heads: &[OpDecl],
    parts: Vec<CondPart>,
) -> Result<Items<CondDecl>, AllocError>
    ensures { IfOk result (λ conds. conds ≡ named_behind context_heads.now [] parts.items) }
{
    let _ = parts.len();
    let mut counts = BTreeMap::new(alloc);
    let mut conds = Items::new(alloc);
    'parts: for part in parts {
        let number = count_one(&mut counts, group_of(alloc, context_heads, &part)?)?;
        let cond = cond_decl(alloc, number, part)?;
        conds.push(cond)?;
    }
    Ok(conds)
}
