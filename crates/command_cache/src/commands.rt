ghost use Rattle.std.specs.Prelude.{◌≡◌, ◌<◌, All, IfOk, IfSome, IsTrue, Some, length, slice_set};
ghost use Rattle.std.specs.Option.{option_copied, option_map};
ghost use Rattle.use_text.specs.Tokens.{IsWithin};
ghost use Rattle.ocl_core.specs.declared.program.ProgramParts.{ProgramParts};
ghost use Rattle.command_cache.specs.Meanings.{IsMeant};
ghost use Rattle.command_cache.specs.Prepared.{AreKept, Is, IsPrepared, Notes};

use crate::Noted;
use soil_check::{Checked, Scope};
use std::alloc::{AllocError, Global};
use std::marker::Model;
use use_syntax::Parsed;

/// How many commands are kept.
const PLACES: usize = 64;

/// The most bytes of the text of a command that is kept.
const MAX_TEXT: usize = 4_096;

/// A checked command, with what tells it again.
#[derive(Drop)]
pub struct Prepared {
    pub noted: Noted,
    pub command: Checked,
}

/// Checked commands whose texts came twice, each in the place of its text. They are of one program.
#[derive(Drop)]
pub struct Commands {
    alloc: Global,
    sums: Vec<u32>,
    kept: Vec<Option<Prepared>>,
}

impl Model for Commands {
    ghost use Rattle.std.specs.Prelude.{List, Option};
    ghost use Rattle.std.specs.Coded.{codes};
    ghost use Rattle.class_model.specs.contracts.types.OclType as types;
    ghost use Rattle.ocl_values.specs.contracts.value.Value as values;
    ghost use Rattle.ocl_core.specs.contracts.expression.Expr as expressions;
    ghost use Rattle.ocl_core.specs.contracts.statement.Stmt as statements;
    ghost use Rattle.command_cache.specs.declared.commands.Prepared.{Prepared};

    ghost Value = { List (Option Prepared) };

    ghost coded = { Prim.hlevel (codes, types.the_row.coded, values.the_row.coded, expressions.the_row.coded, statements.the_row.coded) };

    ghost view = { λ c. c.kept.items };
}

/// A sum of the bytes of a text, by which it has its place.
fn sum_of(text: &[u8]) -> u32 {
    let mut sum: u32 = 0;
    'bytes: for &b in text {
        sum = sum.wrapping_mul(31).wrapping_add(b as u32);
    }
    sum
}

fn place_of(sum: u32) -> usize
    ensures { result < 64 }
{
    sum as usize % PLACES
}

/// No text came yet.
fn no_sums(alloc: Global) -> Result<Vec<u32>, AllocError> {
    let mut sums = Vec::new(alloc);
    'places: for _ in 0..PLACES {
        sums.push(0)?;
    }
    Ok(sums)
}

/// Places without commands.
fn no_commands(alloc: Global) -> Result<Vec<Option<Prepared>>, AllocError>
    ensures { IfOk result (λ v. (p : ProgramParts) → AreKept p v.items) }
{
    let mut kept = Vec::new(alloc);
    'places: for _ in 0..PLACES {
        kept.push(None)?;
    }
    Ok(kept)
}

/// A command with what tells it again, where that was noted.
fn prepared_of(noted: Option<Noted>, command: Checked) -> Option<Prepared>
    ensures { result ≡ option_map (λ n. record { noted = n; command = command }) noted }
{
    match noted {
        None => {
            drop(command);
            None
        }
        Some(noted) => Some(Prepared { noted, command }),
    }
}

/// Puts a command at a place, if there is such a place.
fn put_at(kept: &mut Vec<Option<Prepared>>, place: usize, prepared: Prepared)
    ensures { kept.new.items ≡ slice_set kept.old.items place (Some prepared) }
{
    if place < kept.len() {
        kept[place] = Some(prepared);
    } else {
        drop(prepared);
    }
}

/// The command at a place, if one is kept there.
fn kept_at(kept: &[Option<Prepared>], place: usize) -> Option<&Prepared>
    ensures { (p : ProgramParts) → AreKept p kept.now → IfSome (option_copied result) (IsPrepared p) }
{
    match kept.get(place) {
        None => None,
        Some(at) => at.as_ref(),
    }
}

/// A command, if its text is this one, its names stand for what they stood for, and what the open
/// operation binds is the same.
fn if_same<'a, S: Scope>(prepared: &'a Prepared, scope: &S, text: &[u8]) -> Option<&'a Prepared>
    ensures { (p : ProgramParts) → IsPrepared p prepared.now → IfSome (option_copied result) (Is p (S.known scope.now) (S.bound scope.now) text.now) }
{
    if prepared.noted.tells(scope, text) {
        Some(prepared)
    } else {
        None
    }
}

impl Commands {
    /// Keeps no command yet.
    pub fn new(alloc: Global) -> Result<Commands, AllocError>
        ensures { IfOk result (λ c. (p : ProgramParts) → AreKept p c) }
    {
        Ok(Commands {
            alloc,
            sums: no_sums(alloc)?,
            kept: no_commands(alloc)?,
        })
    }

    /// The command of a text, if it is kept and its names stand for what they stood for.
    pub fn find<S: Scope>(&self, scope: &S, text: &[u8]) -> Option<&Prepared>
        ensures { (p : ProgramParts) → AreKept p self.now → IfSome (option_copied result) (Is p (S.known scope.now) (S.bound scope.now) text.now) }
    {
        match kept_at(self.kept.as_slice(), place_of(sum_of(text))) {
            None => None,
            Some(prepared) => if_same(prepared, scope, text),
        }
    }

    /// Whether a text has the sum of the last one of its place.
    fn came_before(&mut self, text: &[u8]) -> bool
        ensures { self.new ≡ self.old }
    {
        let sum = sum_of(text);
        match self.sums.get_mut(place_of(sum)) {
            None => false,
            Some(last) => {
                let came_before = *last == sum;
                *last = sum;
                came_before
            }
        }
    }

    /// What tells a checked command again, if its text came before.
    pub fn note<S: Scope>(
        &mut self,
        scope: &S,
        parsed: &Parsed,
    ) -> Result<Option<Noted>, AllocError>
        requires { All (IsWithin (length parsed.now.text)) parsed.now.tokens }
        ensures same { self.new ≡ self.old }
        ensures noted { IfOk result (λ n. IfSome n (Notes (S.known scope.now) (S.bound scope.now) parsed.now.text parsed.now.tokens)) }
    {
        let text = parsed.text.as_slice();
        if text.len() > MAX_TEXT || !self.came_before(text) {
            return Ok(None);
        }
        Ok(Some(Noted::of(self.alloc, scope, parsed)?))
    }

    /// Puts a command in the place of its text.
    fn put(&mut self, prepared: Prepared)
        ensures { (p : ProgramParts) → AreKept p self.old → IsPrepared p prepared → AreKept p self.new }
    {
        let place = place_of(sum_of(prepared.noted.text.as_slice()));
        put_at(&mut self.kept, place, prepared);
    }

    /// Keeps a command, if what tells it again was noted, in the place of its text, in which another
    /// may stand.
    pub fn keep(&mut self, noted: Option<Noted>, command: Checked)
        ensures { (p : ProgramParts) → AreKept p self.old → IfSome noted (λ n. IsPrepared p (record { noted = n; command = command })) → AreKept p self.new }
    {
        match prepared_of(noted, command) {
            None => {}
            Some(prepared) => self.put(prepared),
        }
    }
}
