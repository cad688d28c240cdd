ghost use Rattle.std.specs.Prelude.{◌≡◌};
ghost use Rattle.std.specs.Option.{option_copied};
ghost use Rattle.ocl_shapes.specs.Shapes.{accumulates, accumulator_name, alone, are_plain, asked_name, body_of, expression_of, has_none, is_plain, iterator_named};
ghost use Rattle.ocl_shapes.specs.Shapes.{may_have_two, or_none, plain_name, rare_iterator, start_of, variable_name, written_type};

use class_decls::{Name, TypeDecl};
use ocl_core::IterOp;
use ocl_syntax::{Argument, Written};
use use_lists::{Boxed, Items};

/// A name and nothing else, without parentheses around it.
pub fn plain_name(written: &Written) -> Option<&Name>
    ensures { option_copied result ≡ plain_name written.now }
{
    match written {
        Written::Named(name, None, false, None) => Some(name),
        _ => None,
    }
}

/// What is written first in an argument.
pub fn expression_of(argument: &Argument) -> &Written
    ensures { result.now ≡ expression_of argument.now }
{
    match argument {
        Argument::Item(written, _, _) => written,
        Argument::Accumulator(written, _, _) => written,
        Argument::Body(written) => written,
    }
}

/// The type that is written in an argument.
pub fn written_type(argument: &Argument) -> Option<&TypeDecl>
    ensures { option_copied result ≡ written_type argument.now }
{
    match argument {
        Argument::Item(_, of_type, _) => of_type.as_ref(),
        Argument::Accumulator(_, of_type, _) => of_type.as_ref(),
        Argument::Body(_) => None,
    }
}

fn inside(start: &Option<Boxed<Written>>) -> Option<&Written>
    ensures { option_copied result ≡ start.now }
{
    match start {
        None => None,
        Some(written) => Some(written.get()),
    }
}

/// The start that is written in an argument.
pub fn start_of(argument: &Argument) -> Option<&Written>
    ensures { option_copied result ≡ start_of argument.now }
{
    match argument {
        Argument::Item(_, _, start) => inside(start),
        Argument::Accumulator(_, _, start) => inside(start),
        Argument::Body(_) => None,
    }
}

/// The name that an argument before `;` and `|` is, where a type may stand.
pub fn asked_name(argument: &Argument) -> Option<&Name>
    ensures { option_copied result ≡ asked_name argument.now }
{
    match argument {
        Argument::Item(written, _, _) => plain_name(written),
        _ => None,
    }
}

/// An expression alone, as an operation takes it.
pub fn alone(argument: &Argument) -> Option<&Written>
    ensures { option_copied result ≡ alone argument.now }
{
    match argument {
        Argument::Item(written, None, None) => Some(written),
        _ => None,
    }
}

fn is_plain(argument: &Argument) -> bool
    ensures { result ≡ is_plain argument.now }
{
    matches!(argument, Argument::Item(_, None, None))
}

/// Whether all arguments are expressions alone.
pub fn are_plain(arguments: &[Argument]) -> bool
    ensures { result ≡ are_plain arguments.now }
{
    arguments.iter().all(is_plain)
}

/// The arguments that are written; without parentheses there are none.
pub fn or_none(arguments: &Option<Items<Argument>>) -> &[Argument]
    ensures { result.now ≡ or_none arguments.now }
{
    match arguments {
        None => &[],
        Some(arguments) => arguments.as_slice(),
    }
}

/// Whether a call has no arguments.
pub fn has_none(arguments: &Option<Items<Argument>>) -> bool
    ensures { result ≡ has_none arguments.now }
{
    match arguments {
        None => true,
        Some(arguments) => match arguments.as_slice() {
            [] => true,
            _ => false,
        },
    }
}

/// The name of a variable that is declared before `|`.
pub fn variable_name(argument: &Argument) -> Option<&Name>
    ensures { option_copied result ≡ variable_name argument.now }
{
    match argument {
        Argument::Item(written, _, None) => plain_name(written),
        _ => None,
    }
}

/// What stands behind `|`.
pub fn body_of(argument: &Argument) -> Option<&Written>
    ensures { option_copied result ≡ body_of argument.now }
{
    match argument {
        Argument::Body(written) => Some(written),
        _ => None,
    }
}

/// The name of what is accumulated, where it has a type and a start.
pub fn accumulator_name(argument: &Argument) -> Option<&Name>
    ensures { option_copied result ≡ accumulator_name argument.now }
{
    match argument {
        Argument::Accumulator(written, Some(_), Some(_)) => plain_name(written),
        _ => None,
    }
}

fn rare_iterator(name: &str) -> Option<IterOp>
    ensures { result ≡ rare_iterator name.now }
{
    match name {
        "isUnique" => Some(IterOp::IsUnique),
        "collectNested" => Some(IterOp::CollectNested),
        "collect" => Some(IterOp::Collect),
        "sortedBy" => Some(IterOp::SortedBy),
        "iterate" => Some(IterOp::Iterate),
        _ => None,
    }
}

/// The iterator of a name.
pub fn iterator_named(name: &str) -> Option<IterOp>
    ensures { result ≡ iterator_named name.now }
{
    match name {
        "select" => Some(IterOp::Select),
        "reject" => Some(IterOp::Reject),
        "any" => Some(IterOp::Any),
        "one" => Some(IterOp::One),
        "forAll" => Some(IterOp::ForAll),
        "exists" => Some(IterOp::Exists),
        _ => rare_iterator(name),
    }
}

/// Whether an iterator may have two variables.
pub fn may_have_two(op: IterOp) -> bool
    ensures { result ≡ may_have_two op }
{
    matches!(op, IterOp::ForAll | IterOp::Exists)
}

/// Whether an iterator accumulates a value of its own.
pub fn accumulates(op: IterOp) -> bool
    ensures { result ≡ accumulates op }
{
    matches!(op, IterOp::Iterate)
}
