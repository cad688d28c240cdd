ghost use Rattle.std.specs.Prelude.{◌≡◌, All, IfOk, length};
ghost use Rattle.use_syntax.specs.Language.{language};
ghost use Rattle.use_text.specs.Tokens.{IsWithin};

use crate::row_fault::RowFault;
use eval_outcomes::Scene;
use eval_states::{at_entry, now};
use grammar_core::Grammar;
use model_check::check_model;
use ocl_program::Program;
use std::alloc::Global;
use use_syntax::{Parsed, grammar, read_model};

/// Persons with stored and derived attributes and operations, teams, and what links them.
const STUDIO: &str = "model Studio
enum Color {red, green}
abstract class Being
attributes
  name : String
end
class Person < Being
attributes
  age : Integer
  color : Color
  friend : Person
  marks : Sequence(Integer)
  next : Integer = self.age + 1
  later : Integer = self.next + 1
  loop : Integer = self.loop + 1
  mates : Set(Person) = self.team.staff
  others : Set(Person) = Person.allInstances()
  fits : Boolean = self.oclIsKindOf(Person)
  title : Integer = self.rank()
operations
  label() : String = self.name.concat('!')
  sum(a : Integer, b : Integer) : Integer = age + a * b
  rank() : Integer = 1
  base() : Integer = rank()
  blank() : Integer
  down(n : Integer) : Integer = if n <= 0 then 0 else self.down(n - 1) endif
  reach(n : Integer) : Integer = if n <= 0 then self.next else self.reach(n - 1) endif
end
class Chief < Person
operations
  rank() : Integer = 2
end
class Team < Being
attributes
  budget : Integer
end
association WorksIn between
  Person[*] role staff
  Team[0..1] role team
end
association Joins between
  Person[*] role member
  Team[*] role joined ordered
end
";

/// The grammar of the language.
pub(crate) fn language(alloc: Global) -> Result<Grammar, RowFault>
    ensures { IfOk result (λ g. g ≡ language) }
{
    match grammar(alloc) {
        Ok(g) => Ok(g),
        Err(_) => Err(RowFault::Unmade),
    }
}

fn model_read(alloc: Global, g: &Grammar, text: &str) -> Result<Parsed, RowFault>
    requires { g.now ≡ language }
    ensures { IfOk result (λ p. All (IsWithin (length p.text)) p.tokens) }
{
    if text.len() > 10_000 {
        return Err(RowFault::Unmade);
    }
    match read_model(alloc, g, text.as_bytes()) {
        Ok(parsed) => Ok(parsed),
        Err(_) => Err(RowFault::Unmade),
    }
}

/// The program of a model.
pub(crate) fn program(alloc: Global, g: &Grammar, text: &str) -> Result<Program, RowFault>
    requires { g.now ≡ language }
{
    let parsed = model_read(alloc, g, text)?;
    match check_model(alloc, &parsed) {
        Ok(program) => Ok(program),
        Err(_) => Err(RowFault::Unmade),
    }
}

/// The program of the studio.
pub(crate) fn studio(alloc: Global, g: &Grammar) -> Result<Program, RowFault>
    requires { g.now ≡ language }
{
    program(alloc, g, STUDIO)
}

/// A program in the states of its model.
fn scene_of(alloc: Global, program: Program) -> Result<Scene, RowFault> {
    let now = now(alloc, program.model())?;
    let entry = at_entry(alloc, program.model())?;
    Ok(Scene {
        program,
        now,
        entry,
    })
}

/// What expressions are evaluated in.
pub(crate) fn made_scene(alloc: Global, g: &Grammar) -> Result<Scene, RowFault>
    requires { g.now ≡ language }
{
    let program = studio(alloc, g)?;
    scene_of(alloc, program)
}
