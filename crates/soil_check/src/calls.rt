ghost use Rattle.std.specs.Prelude.{◌≡◌, ◌<◌, ◌^◌, IfOk, length};
ghost use Rattle.std.specs.Option.{option_copied};
ghost use Rattle.ocl_rules.specs.Typings.{Tells};
ghost use Rattle.soil_scope.specs.Scenes.{scene};
ghost use Rattle.soil_check.specs.Calls.{entered, entered_with, left, operation_wanted, result_wanted};

use class_decls::Name;
use class_model::{ClassModel, OclType, OpNo};
use model_check::value_rule;
use ocl_core::Expr;
use ocl_rules::{TypeFault, breaks_n, breaks_t};
use ocl_scope::Environment;
use ocl_shapes::are_plain;
use ocl_syntax::Argument;
use soil_scope::{
    Call, Placed, Setting, call_by, expression_at, expression_if, first_leaf, operation_of_type,
    values, written_arguments,
};
use soil_types::is_object;
use use_nodes::{EnterNode, ExitNode, NodeRef};
use use_text::Place;

/// The operation of an object by its name: N2 where it has none, T14 where the receiver is no object.
fn operation_wanted(model: &ClassModel, receiver: &Placed, name: &Name) -> Result<OpNo, TypeFault>
    ensures value { Tells (operation_wanted model.now receiver.now name.now) result }
    ensures within { IfOk result (λ op. op < length model.now.ops) }
{
    if !is_object(&receiver.typed.of_type) {
        return Err(breaks_t(14, receiver.place));
    }
    match operation_of_type(model, &receiver.typed.of_type, name.text.as_str()) {
        None => Err(breaks_n(2, name.place)),
        Some(op) => Ok(op),
    }
}

/// The call that opens an operation of a receiver.
#[tactic(auto, unfolding(crate::specs::Calls::entered_with))]
fn entered_with(
    setting: &Setting<'_>,
    env: &mut Environment,
    receiver: Placed,
    name: &Name,
    arguments: &[Argument],
) -> Result<Call, TypeFault>
    requires { env.old.size < 2 ^ 31 }
    ensures { Tells (entered_with (scene setting.now) env.old receiver name.now arguments.now) result }
{
    let args = values(setting, env, arguments)?;
    let op = operation_wanted(setting.model, &receiver, name)?;
    let is_plain = are_plain(arguments);
    let Placed { typed, place: _ } = receiver;
    call_by(setting, name.place, false, typed.expr, op, args, is_plain)
}

/// `openter`: the call of the operation that is opened.
#[tactic(auto, unfolding(crate::specs::Calls::entered))]
pub(crate) fn entered(
    setting: &Setting<'_>,
    env: &mut Environment,
    node: &EnterNode<'_>,
) -> Result<Call, TypeFault>
    requires { env.old.size < 2 ^ 31 }
    ensures { Tells (entered (scene setting.now) env.old node.now) result }
{
    let receiver = expression_at(setting, env, false, &node.receiver)?;
    let name = setting.lexed.name_at(setting.alloc, &node.operation)?;
    let arguments = written_arguments(setting.alloc, setting.lexed, &node.arguments)?;
    entered_with(setting, env, receiver, &name, arguments.as_slice())
}

/// A result is given exactly where the open operation has one: T12 at the command's word, T5 at a
/// value that does not conform.
fn result_wanted(
    model: &ClassModel,
    place: Place,
    result_type: Option<&OclType>,
    value: Option<Placed>,
) -> Result<Option<Expr>, TypeFault>
    ensures { Tells (result_wanted model.now place (option_copied result_type.entry) value) result }
{
    match (result_type, value) {
        (None, None) => Ok(None),
        (Some(of_type), Some(value)) => Ok(Some(value_rule(model, of_type, value)?)),
        (None, Some(_)) | (Some(_), None) => Err(breaks_t(12, place)),
    }
}

/// `opexit`: the result that is given.
#[tactic(auto, unfolding(crate::specs::Calls::left))]
pub(crate) fn left(
    setting: &Setting<'_>,
    env: &mut Environment,
    result_type: Option<&OclType>,
    form: &NodeRef<'_>,
    node: &ExitNode<'_>,
) -> Result<Option<Expr>, TypeFault>
    requires { env.old.size < 2 ^ 31 }
    ensures { Tells (left (scene setting.now) env.old (option_copied result_type.entry) form.now node.now) result }
{
    let value = expression_if(setting, env, node.value.as_ref())?;
    let place = setting.lexed.place_at(&first_leaf(form));
    result_wanted(setting.model, place, result_type, value)
}
