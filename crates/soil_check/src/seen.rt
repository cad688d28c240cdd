ghost use Rattle.std.specs.Prelude.{◌≡◌, ◌+◌, ◌<◌, ◌^◌, IfOk, OnOk, fold, length};
ghost use Rattle.std.specs.Option.{option_copied, option_map};
ghost use Rattle.ocl_rules.specs.Typings.{Tells};
ghost use Rattle.soil_check.specs.Scopes.{known_as};
ghost use Rattle.soil_check.specs.Seen.{bindings_of, seen, with_all, with_binding, with_known, with_shell_name};

use crate::{Bindings, Scope, ShellName};
use class_model::OclType;
use ocl_rules::{TypeFault, breaks_t};
use ocl_values::Text;
use soil_scope::{Role, Variables};
use std::alloc::{AllocError, Global};
use use_text::Place;

/// How many values a command may see, so that their numbers fit into 32 bits.
const MAX_VALUES: usize = 1 << 31;

/// The value of a name, by what it stands for.
fn push_known(
    alloc: Global,
    seen: &mut Variables,
    name: &Text,
    known: Option<ShellName<'_>>,
) -> Result<(), AllocError>
    requires { seen.old.environment.size + 1 < 2 ^ 31 }
    ensures { OnOk result (seen.new ≡ with_known seen.old name.now (option_map known_as known.entry)) }
{
    match known {
        None => seen.push(Role::Free, None, OclType::Void, false),
        Some(ShellName::Object(class)) => {
            let name = Text::copy_of(alloc, name.as_str())?;
            seen.push(Role::Object, Some(name), OclType::Class(class), false)
        }
        Some(ShellName::Variable(of_type)) => {
            let name = Text::copy_of(alloc, name.as_str())?;
            let of_type = of_type.try_copy(alloc)?;
            seen.push(Role::Shell, Some(name), of_type, false)
        }
    }
}

fn push_names<S: Scope>(
    alloc: Global,
    scope: &S,
    names: &[Text],
    seen: &mut Variables,
) -> Result<(), AllocError>
    requires { seen.old.environment.size + length names.now < 2 ^ 31 }
    ensures { OnOk result (seen.new ≡ fold (with_shell_name (S.known scope.now)) seen.old names.now) }
{
    'names: for name in names {
        push_known(alloc, seen, name, scope.shell(name.as_str()))?;
    }
    Ok(())
}

/// A value that the open operation binds.
fn push_binding(
    alloc: Global,
    seen: &mut Variables,
    name: &Text,
    of_type: &OclType,
) -> Result<(), AllocError>
    requires { seen.old.environment.size + 1 < 2 ^ 31 }
    ensures { OnOk result (seen.new ≡ with_binding seen.old (name.now, of_type.now)) }
{
    let is_self = name.as_str() == "self";
    let name = Text::copy_of(alloc, name.as_str())?;
    let of_type = of_type.try_copy(alloc)?;
    seen.push(Role::Fixed, Some(name), of_type, is_self)
}

fn push_bindings(
    alloc: Global,
    bindings: &[(Text, OclType)],
    seen: &mut Variables,
) -> Result<(), AllocError>
    requires { seen.old.environment.size + length bindings.now < 2 ^ 31 }
    ensures { OnOk result (seen.new ≡ fold with_binding seen.old bindings.now) }
{
    'bindings: for binding in bindings {
        push_binding(alloc, seen, &binding.0, &binding.1)?;
    }
    Ok(())
}

fn bindings_of(frame: Option<&Bindings>) -> &[(Text, OclType)]
    ensures { result.now ≡ bindings_of (option_copied frame.entry) }
{
    match frame {
        None => &[],
        Some(bindings) => bindings.names.as_slice(),
    }
}

/// All values that a command sees.
fn all_seen<S: Scope>(
    alloc: Global,
    scope: &S,
    names: &[Text],
    bindings: &[(Text, OclType)],
) -> Result<Variables, AllocError>
    requires { length names.now + length bindings.now < 2 ^ 31 }
    ensures { IfOk result (λ vs. vs ≡ with_all (S.known scope.now) names.now bindings.now) }
{
    let mut seen = Variables::new(alloc);
    push_names(alloc, scope, names, &mut seen)?;
    push_bindings(alloc, bindings, &mut seen)?;
    Ok(seen)
}

/// The same, where their numbers fit into 32 bits.
pub(crate) fn values_seen<S: Scope>(
    alloc: Global,
    scope: &S,
    names: &[Text],
    place: Place,
) -> Result<Variables, TypeFault>
    ensures value { Tells (seen (S.known scope.now) names.now (S.bound scope.now) place) result }
    ensures room { IfOk result (λ vs. vs.environment.size < 2 ^ 31) }
{
    let bindings = bindings_of(scope.frame());
    if names.len() + bindings.len() >= MAX_VALUES {
        return Err(breaks_t(16, place));
    }
    Ok(all_seen(alloc, scope, names, bindings)?)
}
