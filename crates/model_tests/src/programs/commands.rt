ghost use Rattle.std.specs.Prelude.{◌≡◌, All, IfOk, IfSome, length};
ghost use Rattle.use_syntax.specs.Language.{language};
ghost use Rattle.use_text.specs.Tokens.{IsWithin};

use super::{ACCOUNTS, program};
use class_model::OclType;
use grammar_core::Grammar;
use ocl_program::Program;
use ocl_values::Text;
use soil_check::{Bindings, Checked, NoScope, Scope, ShellName, Topic, TypeFault, check_command};
use std::alloc::{AllocError, Global};
use std::test::Fail;
use use_lists::Items;
use use_syntax::{Parsed, grammar, read_command};

mod rows;

use rows::Row;

/// A shell with an object `a` of the first class and a variable `x`, in which an operation is open.
#[derive(Drop)]
struct Desk {
    type_of_x: OclType,
    frame: Bindings,
}

impl Scope for Desk {
    ghost use Rattle.std.specs.Prelude.{Some, None, codes, if◌then◌else◌};
    ghost use Rattle.use_text.specs.Pieces.{same_text};
    ghost use Rattle.soil_check.specs.Scopes.{object, variable};

    ghost known = { λ s name. if same_text name (codes "a") then Some (object 0) else (if same_text name (codes "x") then Some (variable s.type_of_x) else None) };

    ghost bound = { λ s. Some s.frame };

    fn shell(&self, name: &str) -> Option<ShellName<'_>> {
        if name == "a" {
            Some(ShellName::Object(0))
        } else if name == "x" {
            Some(ShellName::Variable(&self.type_of_x))
        } else {
            None
        }
    }

    fn frame(&self) -> Option<&Bindings> {
        Some(&self.frame)
    }
}

/// A desk whose open operation has the receiver `self`, a parameter `n`, and a number as its result.
fn open_desk(alloc: Global) -> Result<Desk, AllocError> {
    let mut names = Items::new(alloc);
    names.push((Text::copy_of(alloc, "self")?, OclType::Class(0)))?;
    names.push((Text::copy_of(alloc, "n")?, OclType::Int))?;
    Ok(Desk {
        type_of_x: OclType::Int,
        frame: Bindings {
            names,
            result_type: Some(OclType::Int),
        },
    })
}

fn language(alloc: Global) -> Result<Grammar, Fail>
    ensures { IfOk result (λ g. g ≡ language) }
{
    Ok(grammar(alloc)?)
}

fn command_read(alloc: Global, g: &Grammar, text: &str) -> Result<Option<Parsed>, Fail>
    requires { g.now ≡ language }
    ensures { IfOk result (λ o. IfSome o (λ p. All (IsWithin (length p.text)) p.tokens)) }
{
    if text.len() > 10_000 {
        return Ok(None);
    }
    match read_command(alloc, g, text.as_bytes(), 1) {
        Ok(parsed) => Ok(Some(parsed)),
        Err(_) => Ok(None),
    }
}

fn topic_word(topic: Topic) -> &'static str {
    match topic {
        Topic::Class(_) => "class",
        Topic::Model => "model",
        Topic::State => "state",
        Topic::Vars => "vars",
        Topic::Opstack => "opstack",
        Topic::Script => "script",
        Topic::Use => "use",
    }
}

fn check_word(detail: bool) -> &'static str {
    if detail { "check in detail" } else { "check" }
}

fn form(checked: &Checked) -> &'static str {
    match checked {
        Checked::Empty => "nothing",
        Checked::Query { .. } => "query",
        Checked::Explain { .. } => "explain",
        Checked::Statements { .. } => "statements",
        Checked::Enter { .. } => "enter",
        Checked::Exit { .. } => "exit",
        Checked::Check { detail } => check_word(*detail),
        Checked::Info(topic) => topic_word(*topic),
        Checked::Undo => "undo",
        Checked::Redo => "redo",
        Checked::Reset => "reset",
        Checked::Show(_) => "show",
        Checked::Drop(_) => "drop",
        Checked::Quit => "quit",
    }
}

/// The number that a command has.
fn number_of(checked: &Checked) -> Option<u32> {
    match checked {
        Checked::Info(Topic::Class(number)) => Some(*number),
        Checked::Enter { op, .. } => Some(*op),
        Checked::Show(number) => Some(*number),
        Checked::Drop(number) => Some(*number),
        _ => None,
    }
}

/// The names that a command takes from the shell.
fn names_of(checked: &Checked) -> &[Text] {
    match checked {
        Checked::Query { shell, .. } => shell.as_slice(),
        Checked::Explain { shell, .. } => shell.as_slice(),
        Checked::Statements { shell, .. } => shell.as_slice(),
        Checked::Enter { shell, .. } => shell.as_slice(),
        Checked::Exit { shell, .. } => shell.as_slice(),
        _ => &[],
    }
}

fn add_names(names: &[Text], out: &mut String) -> Result<(), AllocError> {
    'names: for name in names {
        out.push_str(" ")?;
        out.push_str(name.as_str())?;
    }
    Ok(())
}

/// The form of a command, with its number and its names of the shell.
fn shown_form(alloc: Global, checked: &Checked) -> Result<String, AllocError> {
    let mut out = match number_of(checked) {
        None => String::from_str(alloc, form(checked))?,
        Some(number) => format!(in alloc; "{} {}", form(checked), number)?,
    };
    add_names(names_of(checked), &mut out)?;
    Ok(out)
}

/// The same, or the rule that a command breaks with its place.
fn shown(alloc: Global, checked: &Result<Checked, TypeFault>) -> Result<String, AllocError> {
    match checked {
        Ok(checked) => shown_form(alloc, checked),
        Err(TypeFault::Memory) => String::from_str(alloc, "out of memory"),
        Err(TypeFault::Refused(refusal)) => {
            format!(in alloc; "{} at {}", refusal.code, refusal.place)
        }
    }
}

fn shown_command<S: Scope>(
    alloc: Global,
    program: &Program,
    scope: &S,
    parsed: &Parsed,
) -> Result<String, AllocError>
    requires { All (IsWithin (length parsed.now.text)) parsed.now.tokens }
{
    shown(alloc, &check_command(alloc, program, scope, parsed))
}

fn shown_of<S: Scope>(
    alloc: Global,
    g: &Grammar,
    program: &Program,
    scope: &S,
    text: &str,
) -> Result<String, Fail>
    requires { g.now ≡ language }
{
    match command_read(alloc, g, text)? {
        None => Ok(String::from_str(alloc, "no command")?),
        Some(parsed) => Ok(shown_command(alloc, program, scope, &parsed)?),
    }
}

/// What is found of the first row that is checked otherwise.
fn first_other_of<S: Scope>(
    alloc: Global,
    g: &Grammar,
    program: &Program,
    scope: &S,
    rows: &[Row],
) -> Result<Option<String>, Fail>
    requires { g.now ≡ language }
{
    'rows: for row in rows {
        let found = shown_of(alloc, g, program, scope, row.0)?;
        if found.as_str() != row.1 {
            return Ok(Some(found));
        }
    }
    Ok(None)
}

fn first_other<S: Scope>(alloc: Global, scope: &S, rows: &[Row]) -> Result<Option<String>, Fail> {
    let g = language(alloc)?;
    match program(alloc, ACCOUNTS)? {
        None => Ok(Some(String::from_str(alloc, "no program")?)),
        Some(program) => first_other_of(alloc, &g, &program, scope, rows),
    }
}

#[test]
fn each_form_of_command_is_accepted(rt: HostRuntime) -> Result<(), Fail> {
    let other = first_other(rt.alloc(), &NoScope, rows::ACCEPTED)?;
    assert_eq!(rt; other.as_ref().map(|s| s.as_str()), None);
    Ok(())
}

#[test]
fn commands_are_refused_by_their_rules(rt: HostRuntime) -> Result<(), Fail> {
    let other = first_other(rt.alloc(), &NoScope, rows::REFUSED)?;
    assert_eq!(rt; other.as_ref().map(|s| s.as_str()), None);
    Ok(())
}

#[test]
fn statements_of_a_command_are_refused_by_their_rules(rt: HostRuntime) -> Result<(), Fail> {
    let other = first_other(rt.alloc(), &NoScope, rows::STATEMENTS)?;
    assert_eq!(rt; other.as_ref().map(|s| s.as_str()), None);
    Ok(())
}

#[test]
fn variables_live_to_the_end_of_their_block(rt: HostRuntime) -> Result<(), Fail> {
    let other = first_other(rt.alloc(), &NoScope, rows::VARIABLES)?;
    assert_eq!(rt; other.as_ref().map(|s| s.as_str()), None);
    Ok(())
}

#[test]
fn commands_among_the_names_of_a_shell(rt: HostRuntime) -> Result<(), Fail> {
    let scope = open_desk(rt.alloc())?;
    let other = first_other(rt.alloc(), &scope, rows::AT_A_DESK)?;
    assert_eq!(rt; other.as_ref().map(|s| s.as_str()), None);
    Ok(())
}
