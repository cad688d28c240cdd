ghost use Rattle.std.specs.Prelude.{◌≡◌, IfOk, true, false};
ghost use Rattle.clap.specs.Faults.{is_simple_and_free};
ghost use Rattle.clap.specs.Simple.{app_of, is_simple, with_rule};
ghost use Rattle.clap.specs.Walk.{rule_of};
ghost use Rattle.use_words.specs.CommandLine.{bare, command_line, flag_rule, positional_rule};

use clap::{Arg, ArgAction, Command};
use std::alloc::{AllocError, Global};

fn flag<'a>(alloc: Global, name: &'a str) -> Arg<'a>
    ensures rule { rule_of result ≡ flag_rule name.entry.now }
    ensures local { result.global ≡ false }
{
    Arg::new(alloc, name).long(name).action(ArgAction::SetTrue)
}

fn positional<'a>(alloc: Global, name: &'a str) -> Arg<'a>
    ensures rule { rule_of result ≡ positional_rule name.entry.now }
    ensures local { result.global ≡ false }
{
    Arg::new(alloc, name).action(ArgAction::Set)
}

fn with_arg<'a>(command: Command<'a>, arg: Arg<'a>) -> Result<Command<'a>, AllocError>
    requires { arg.global ≡ false }
    ensures { IfOk result (λ c. app_of c ≡ with_rule (app_of command.entry) (rule_of arg.entry)) }
{
    command.arg(arg)
}

/// The program by its name, without arguments.
fn bare_command<'a>(alloc: Global) -> Command<'a>
    ensures { app_of result ≡ bare }
{
    Command::new(alloc, "usesh").disable_help_flag(true)
}

/// The program and its arguments.
fn full_command<'a>(alloc: Global) -> Result<Command<'a>, AllocError>
    ensures { IfOk result (λ c. app_of c ≡ command_line) }
{
    let bare = bare_command(alloc);
    let with_echo = with_arg(bare, flag(alloc, "echo"))?;
    let with_strict = with_arg(with_echo, flag(alloc, "strict"))?;
    with_arg(with_strict, positional(alloc, "model"))
}

/// The program's command line.
pub(crate) fn command_line<'a>(alloc: Global) -> Result<Command<'a>, AllocError>
    ensures app { IfOk result (λ c. app_of c ≡ command_line) }
    ensures simple { IfOk result (λ c. is_simple (app_of c) ≡ true) }
    ensures free { IfOk result (λ c. is_simple_and_free (app_of c) ≡ true) }
{
    full_command(alloc)
}
