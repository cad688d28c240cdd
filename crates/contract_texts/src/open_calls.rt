ghost use Rattle.std.specs.Prelude.{◌≡◌, ◌<◌, ◌++◌, [], All, IfSome, OnOk, length, map};
ghost use Rattle.std.specs.Option.{option_copied, option_map_or};
ghost use Rattle.contract_texts.specs.Calls.{args_behind, args_text, call_line, opstack_text};

use class_model::ClassModel;
use entry_states::{Call, Frame, Frames};
use object_state::StateReader;
use ocl_values::Value;
use std::alloc::{AllocError, Global};
use use_info::append_value;

/// Appends the arguments of a call behind its first, each behind a comma.
fn append_args_behind<S: StateReader>(
    alloc: Global,
    model: &ClassModel,
    state: &S,
    args: &[Value],
    out: &mut Vec<u8>,
) -> Result<(), AllocError>
    ensures { OnOk result (out.new.items ≡ out.old.items ++ args_behind model.now (S.held state.now).state args.now) }
{
    'behind: for arg in args {
        out.extend_from_slice(b",")?;
        append_value(alloc, model, state, arg, out)?;
    }
    Ok(())
}

/// Appends the arguments of a call, divided by commas.
fn append_args<S: StateReader>(
    alloc: Global,
    model: &ClassModel,
    state: &S,
    args: &[Value],
    out: &mut Vec<u8>,
) -> Result<(), AllocError>
    ensures { OnOk result (out.new.items ≡ out.old.items ++ args_text model.now (S.held state.now).state args.now) }
{
    match args {
        [] => Ok(()),
        [first, rest @ ..] => {
            append_value(alloc, model, state, first, out)?;
            append_args_behind(alloc, model, state, rest, out)
        }
    }
}

/// Appends the line of a call: `RECEIVER.OP(ARG,ARG)`.
fn append_call<S: StateReader>(
    alloc: Global,
    model: &ClassModel,
    state: &S,
    call: &Call,
    out: &mut Vec<u8>,
) -> Result<(), AllocError>
    requires { call.now.op < length model.now.ops }
    ensures { OnOk result (out.new.items ≡ out.old.items ++ call_line model.now (S.held state.now).state call.now) }
{
    append_value(alloc, model, state, &Value::Obj(call.receiver), out)?;
    out.extend_from_slice(b".")?;
    out.extend_from_slice(model.op_name(call.op).as_bytes())?;
    out.extend_from_slice(b"(")?;
    append_args(alloc, model, state, call.args.as_slice(), out)?;
    out.extend_from_slice(b")\n")
}

/// Appends the line of a frame's call, where there is a frame.
fn append_frame<S: StateReader>(
    alloc: Global,
    model: &ClassModel,
    state: &S,
    frame: Option<&Frame>,
    out: &mut Vec<u8>,
) -> Result<(), AllocError>
    requires { IfSome frame (λ f. f.now.call.op < length model.now.ops) }
    ensures { OnOk result (out.new.items ≡ out.old.items ++ option_map_or (λ f. call_line model.now (S.held state.now).state f.call) (option_copied frame.entry) []) }
{
    match frame {
        None => Ok(()),
        Some(frame) => append_call(alloc, model, state, &frame.call, out),
    }
}

/// Appends the lines of the calls that are open, the top one first, or that there are none.
pub fn append_calls<S: StateReader>(
    alloc: Global,
    model: &ClassModel,
    state: &S,
    frames: &Frames,
    out: &mut Vec<u8>,
) -> Result<(), AllocError>
    requires { All (λ f. f.call.op < length model.now.ops) frames.now }
    ensures { OnOk result (out.new.items ≡ out.old.items ++ opstack_text model.now (S.held state.now).state (map (λ f. f.call) frames.now)) }
{
    let mut level = frames.depth();
    if level == 0 {
        return out.extend_from_slice(b"no open operation\n");
    }
    'frames: while level > 0 {
        level -= 1;
        append_frame(alloc, model, state, frames.frame_at(level), out)?;
    }
    Ok(())
}
