ghost use Rattle.std.specs.Prelude.{◌≡◌, ◌<◌, ◌^◌, IfOk};
ghost use Rattle.std.specs.Option.{option_copied};
ghost use Rattle.ocl_rules.specs.Typings.{Tells};
ghost use Rattle.soil_scope.specs.Scenes.{scene};
ghost use Rattle.soil_types.specs.Aims.{aim_of, attribute_read, first_storage, shell_storage, storage_by_role, storage_of, storage_of_name, variable_aim};

use class_decls::Name;
use class_model::{ClassModel, OclType};
use ocl_core::{AttrNo, Expr};
use ocl_rules::{TypeFault, Typed, breaks_t};
use ocl_scope::{Environment, Variable, type_named};
use ocl_syntax::Written;
use ocl_values::Text;
use soil_scope::{Role, Setting, Variables, type_of};
use std::alloc::{AllocError, Global};
use use_text::Place;

/// What an assignment names.
#[derive(Drop)]
pub(crate) enum Aim {
    /// Nothing that can be assigned.
    Nothing,
    /// A name alone: always a variable.
    Variable(Text),
    /// A stored attribute of an object, and its type.
    Attribute(Expr, AttrNo, OclType),
}

/// Where an assignment stores a value.
#[derive(Drop)]
pub(crate) enum Storage {
    /// A local variable of a type.
    Local(u32, OclType),
    /// A local variable more, which gets the type of the value.
    NewLocal(Text),
    /// A shell variable, which keeps its type.
    Shell(Text, OclType),
    /// A shell variable, new or not, which gets the type of the value.
    RetypedShell(Text),
    /// The name of an object, which can be assigned that object alone.
    Object(Text),
    /// A stored attribute of an object, and its type.
    Attribute(Expr, AttrNo, OclType),
}

/// The stored attribute that an expression reads.
fn attribute_read(typed: Typed) -> Aim
    ensures { result ≡ attribute_read typed }
{
    let Typed { expr, of_type } = typed;
    match expr {
        Expr::Attr(source, attr, _) => Aim::Attribute(source.into_inner(), attr, of_type),
        _ => Aim::Nothing,
    }
}

/// A name alone, which is a variable's unless it is a type's: T8.
fn variable_aim(alloc: Global, model: &ClassModel, name: &Name) -> Result<Aim, TypeFault>
    ensures { Tells (variable_aim model.now name.now) result }
{
    if type_named(model, name.text.as_str()).is_some() {
        return Err(breaks_t(8, name.place));
    }
    let text = Text::copy_of(alloc, name.text.as_str())?;
    Ok(Aim::Variable(text))
}

/// What stands before `:=`. What is no name alone is typed as the expression that it is.
#[tactic(auto, unfolding(crate::specs::Aims::aim_of))]
pub(crate) fn aim_of(
    setting: &Setting<'_>,
    env: &mut Environment,
    written: &Written,
) -> Result<Aim, TypeFault>
    requires { env.old.size < 2 ^ 31 }
    ensures value { Tells (aim_of (scene setting.now) env.old written.now) result }
    ensures environment { env.new ≡ env.old }
{
    match written {
        Written::Named(name, None, false, None) => variable_aim(setting.alloc, setting.model, name),
        Written::Dot(_, _, _, None) => {
            let typed = type_of(setting, env, written)?;
            Ok(attribute_read(typed))
        }
        _ => {
            let _ = type_of(setting, env, written)?;
            Ok(Aim::Nothing)
        }
    }
}

/// A name that stands for no variable yet: in the outermost block of a command it becomes one of the
/// shell.
fn first_storage(is_outermost: bool, name: Text) -> Storage
    ensures { result ≡ first_storage is_outermost name }
{
    if is_outermost {
        Storage::RetypedShell(name)
    } else {
        Storage::NewLocal(name)
    }
}

/// A variable of the shell. Only the outermost block of a command gives it another type.
fn shell_storage(
    alloc: Global,
    is_outermost: bool,
    name: Text,
    of_type: &OclType,
) -> Result<Storage, AllocError>
    ensures { IfOk result (λ s. s ≡ shell_storage is_outermost name of_type.now) }
{
    if is_outermost {
        return Ok(Storage::RetypedShell(name));
    }
    let of_type = of_type.try_copy(alloc)?;
    Ok(Storage::Shell(name, of_type))
}

/// A name that stands for something, by what may be done with that. T11 where nothing is assigned to it.
fn storage_by_role(
    alloc: Global,
    is_outermost: bool,
    place: Place,
    name: Text,
    role: Role,
    found: &Variable,
) -> Result<Storage, TypeFault>
    ensures { Tells (storage_by_role is_outermost place name role found.now) result }
{
    match role {
        Role::Free => Ok(first_storage(is_outermost, name)),
        Role::Object => Ok(Storage::Object(name)),
        Role::Shell => Ok(shell_storage(alloc, is_outermost, name, &found.of_type)?),
        Role::Local => {
            let of_type = found.of_type.try_copy(alloc)?;
            Ok(Storage::Local(found.number, of_type))
        }
        Role::Fixed => Err(breaks_t(11, place)),
    }
}

/// A name alone; `self` is never assigned.
fn storage_of_name(
    alloc: Global,
    is_outermost: bool,
    place: Place,
    variables: &Variables,
    name: Text,
) -> Result<Storage, TypeFault>
    ensures { Tells (storage_of_name is_outermost place variables.now name) result }
{
    if name.as_str() == "self" {
        return Err(breaks_t(11, place));
    }
    match variables.environment.variable_named(name.as_str()) {
        None => Ok(first_storage(is_outermost, name)),
        Some(found) => {
            let role = variables.role_of(found.number as usize);
            storage_by_role(alloc, is_outermost, place, name, role, found)
        }
    }
}

/// Where a value is stored, or T11 at the statement.
pub(crate) fn storage_of(
    alloc: Global,
    is_outermost: bool,
    place: Place,
    variables: &Variables,
    aim: Aim,
) -> Result<Storage, TypeFault>
    ensures { Tells (storage_of is_outermost place variables.now aim) result }
{
    match aim {
        Aim::Nothing => Err(breaks_t(11, place)),
        Aim::Variable(name) => storage_of_name(alloc, is_outermost, place, variables, name),
        Aim::Attribute(source, attr, of_type) => Ok(Storage::Attribute(source, attr, of_type)),
    }
}
