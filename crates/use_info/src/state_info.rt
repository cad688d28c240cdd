ghost use Rattle.std.specs.Prelude.{◌≡◌, ◌++◌, ◌<◌, [], OnOk, length, slice_get};
ghost use Rattle.std.specs.List.{All, flat_map, zip};
ghost use Rattle.std.specs.Option.{option_map_or};
ghost use Rattle.ocl_values.specs.Printing.{object_text};
ghost use Rattle.object_state.specs.Layouts.{layout_of};
ghost use Rattle.object_state.specs.Looks.{linked_pairs};
ghost use Rattle.object_state.specs.State.{object};
ghost use Rattle.use_info.specs.States.{link_line, object_lines, slot_line, state_info};
ghost use Rattle.use_info.specs.ValueTexts.{object_name};

use crate::lines::{append, append_count};
use crate::names::append_value;
use class_model::{AssocNo, AttrNo, ClassModel};
use object_state::{Object, StateReader};
use ocl_values::{ObjNo, Value};
use std::alloc::{AllocError, Global};

/// Appends the line of a slot.
fn append_slot<S: StateReader>(
    alloc: Global,
    model: &ClassModel,
    state: &S,
    attr: AttrNo,
    value: &Value,
    out: &mut Vec<u8>,
) -> Result<(), AllocError>
    requires { attr < length model.now.attrs }
    ensures { OnOk result (out.new.items ≡ out.old.items ++ slot_line model.now (S.held state.now).state (attr, value.now)) }
{
    append("  ", out)?;
    append(model.attr_name(attr), out)?;
    append(" = ", out)?;
    append_value(alloc, model, state, value, out)?;
    append("\n", out)
}

/// Appends the line of the slot at a place, if there is one.
fn append_slot_at<S: StateReader>(
    alloc: Global,
    model: &ClassModel,
    state: &S,
    slots: &[Value],
    at: usize,
    attr: AttrNo,
    out: &mut Vec<u8>,
) -> Result<(), AllocError>
    requires { attr < length model.now.attrs }
    ensures { OnOk result (out.new.items
        ≡ out.old.items ++ option_map_or (λ value. slot_line model.now (S.held state.now).state (attr, value)) (slice_get slots.now at) []) }
{
    match slots.get(at) {
        None => Ok(()),
        Some(value) => append_slot(alloc, model, state, attr, value, out),
    }
}

/// Appends the lines of slots, each by its attribute.
fn append_slots<S: StateReader>(
    alloc: Global,
    model: &ClassModel,
    state: &S,
    attrs: &[AttrNo],
    slots: &[Value],
    out: &mut Vec<u8>,
) -> Result<(), AllocError>
    requires { All (λ attr. attr < length model.now.attrs) attrs.now }
    ensures { OnOk result (out.new.items
        ≡ out.old.items ++ flat_map (slot_line model.now (S.held state.now).state) (zip attrs.now slots.now)) }
{
    'attrs: for (at, attr) in attrs.iter().enumerate() {
        append_slot_at(alloc, model, state, slots, at, *attr, out)?;
    }
    Ok(())
}

/// Appends the lines of an object: its name and class, and its slots in the order of their attributes.
fn append_object<S: StateReader>(
    alloc: Global,
    model: &ClassModel,
    state: &S,
    object: &Object,
    out: &mut Vec<u8>,
) -> Result<(), AllocError>
    requires { object.now.class < length model.now.classes }
    ensures { OnOk result (out.new.items ≡ out.old.items ++ object_lines model.now (S.held state.now).state object.now) }
{
    append(object.name.as_str(), out)?;
    append(" : ", out)?;
    append(model.class_name(object.class), out)?;
    append("\n", out)?;
    append_slots(
        alloc,
        model,
        state,
        model.attrs(object.class),
        object.slots.as_slice(),
        out,
    )
}

/// Appends the lines of the object of a number, where it is live.
fn append_numbered<S: StateReader>(
    alloc: Global,
    model: &ClassModel,
    state: &S,
    number: ObjNo,
    out: &mut Vec<u8>,
) -> Result<(), AllocError>
    requires layout { (S.held state.now).layout ≡ layout_of model.now }
    ensures { OnOk result (out.new.items
        ≡ out.old.items ++ option_map_or (object_lines model.now (S.held state.now).state) (object (S.held state.now).state number) []) }
{
    state.state_is_valid();
    match state.object(number) {
        None => Ok(()),
        Some(object) => append_object(alloc, model, state, object, out),
    }
}

/// Appends the name of an object, as in a value.
fn append_end<S: StateReader>(
    alloc: Global,
    model: &ClassModel,
    state: &S,
    object: ObjNo,
    out: &mut Vec<u8>,
) -> Result<(), AllocError>
    ensures { OnOk result (out.new.items ≡ out.old.items ++ object_text object (object_name (S.held state.now).state object)) }
{
    append_value(alloc, model, state, &Value::Obj(object), out)
}

/// Appends the line of a link.
fn append_link<S: StateReader>(
    alloc: Global,
    model: &ClassModel,
    state: &S,
    assoc: AssocNo,
    pair: (ObjNo, ObjNo),
    out: &mut Vec<u8>,
) -> Result<(), AllocError>
    requires { assoc < length model.now.assocs }
    ensures { OnOk result (out.new.items ≡ out.old.items ++ link_line model.now (S.held state.now).state assoc pair) }
{
    append(model.assoc_name(assoc), out)?;
    append(" (", out)?;
    append_end(alloc, model, state, pair.0, out)?;
    append(",", out)?;
    append_end(alloc, model, state, pair.1, out)?;
    append(")\n", out)
}

/// Appends the lines of the links of an association, by their stamps.
fn append_links<S: StateReader>(
    alloc: Global,
    model: &ClassModel,
    state: &S,
    assoc: AssocNo,
    out: &mut Vec<u8>,
) -> Result<(), AllocError>
    requires { assoc < length model.now.assocs }
    ensures { OnOk result (out.new.items
        ≡ out.old.items ++ flat_map (link_line model.now (S.held state.now).state assoc) (linked_pairs (S.held state.now).state assoc)) }
{
    let pairs = state.links(alloc, assoc)?;
    'pairs: for pair in pairs.as_slice() {
        append_link(alloc, model, state, assoc, *pair, out)?;
    }
    Ok(())
}

/// Appends what `info state` writes: the live objects by number, each with its slots, and the links by
/// association and stamp.
pub fn append_state<S: StateReader>(
    alloc: Global,
    model: &ClassModel,
    state: &S,
    out: &mut Vec<u8>,
) -> Result<(), AllocError>
    requires layout { (S.held state.now).layout ≡ layout_of model.now }
    ensures { OnOk result (out.new.items ≡ out.old.items ++ state_info model.now (S.held state.now).state) }
{
    state.state_is_valid();
    append_count("objects", state.object_count(), out)?;
    let numbers = state.objects(alloc)?;
    'objects: for number in numbers.as_slice() {
        append_numbered(alloc, model, state, *number, out)?;
    }
    append_count("links", state.link_count(), out)?;
    'assocs: for assoc in 0..model.assoc_count() {
        append_links(alloc, model, state, assoc, out)?;
    }
    Ok(())
}
