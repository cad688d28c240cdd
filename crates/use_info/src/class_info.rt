ghost use Rattle.std.specs.Prelude.{◌≡◌, ◌++◌, ◌<◌, ◌==◌, [], List, ℕ, OnOk, Option, codes, if◌then◌else◌, length, map};
ghost use Rattle.std.specs.Option.{option_copied};
ghost use Rattle.std.specs.List.{All, flat_map};
ghost use Rattle.object_state.specs.Layouts.{layout_of};
ghost use Rattle.use_info.specs.Classes.{attribute_line, class_info, class_line, operation_line, parameter_text, parameters_text, parents_text, result_text};

use crate::lines::{append, append_count};
use crate::types::{append_type, class_text};
use class_model::{AttrNo, ClassModel, ClassNo, OclType, OpNo, Parameter};
use object_state::StateReader;
use std::alloc::{AllocError, Global};

/// What stands before the parent at a place of the list.
fn before_parent(at: usize) -> &'static str
    ensures { result.now ≡ (if at == 0 then codes " < " else codes ",") }
{
    if at == 0 { " < " } else { "," }
}

/// Appends the direct parents of a class, if it has any.
fn append_parents(
    model: &ClassModel,
    parents: &[ClassNo],
    out: &mut Vec<u8>,
) -> Result<(), AllocError>
    ensures { OnOk result (out.new.items ≡ out.old.items ++ parents_text model.now parents.now) }
{
    'parents: for (at, parent) in parents.iter().enumerate() {
        append(before_parent(at), out)?;
        append(class_text(model, *parent), out)?;
    }
    Ok(())
}

/// Appends the line of a class.
fn append_class_line(
    model: &ClassModel,
    class: ClassNo,
    out: &mut Vec<u8>,
) -> Result<(), AllocError>
    requires { class < length model.now.classes }
    ensures { OnOk result (out.new.items ≡ out.old.items ++ class_line model.now class) }
{
    if model.is_abstract(class) {
        append("abstract ", out)?;
    }
    append("class ", out)?;
    append(model.class_name(class), out)?;
    append_parents(model, model.parents(class), out)?;
    append("\n", out)
}

fn append_attribute(model: &ClassModel, attr: AttrNo, out: &mut Vec<u8>) -> Result<(), AllocError>
    requires { attr < length model.now.attrs }
    ensures { OnOk result (out.new.items ≡ out.old.items ++ attribute_line model.now attr) }
{
    append("attribute ", out)?;
    append(model.attr_name(attr), out)?;
    append(" : ", out)?;
    append_type(model, model.attr_type(attr), out)?;
    append("\n", out)
}

/// Appends the stored attributes of a class, inherited ones first.
fn append_attributes(
    model: &ClassModel,
    attrs: &[AttrNo],
    out: &mut Vec<u8>,
) -> Result<(), AllocError>
    requires { All (λ attr. attr < length model.now.attrs) attrs.now }
    ensures { OnOk result (out.new.items ≡ out.old.items ++ flat_map (attribute_line model.now) attrs.now) }
{
    'attrs: for attr in attrs {
        append_attribute(model, *attr, out)?;
    }
    Ok(())
}

/// Appends a parameter of an operation.
fn append_parameter(
    model: &ClassModel,
    at: usize,
    parameter: &Parameter,
    out: &mut Vec<u8>,
) -> Result<(), AllocError>
    ensures { OnOk result (out.new.items ≡ out.old.items ++ (if at == 0 then [] else codes ", ") ++ parameter_text model.now parameter.now) }
{
    if at > 0 {
        append(", ", out)?;
    }
    append(parameter.name.as_str(), out)?;
    append(" : ", out)?;
    append_type(model, &parameter.of_type, out)
}

fn append_parameters(
    model: &ClassModel,
    parameters: &[Parameter],
    out: &mut Vec<u8>,
) -> Result<(), AllocError>
    ensures { OnOk result (out.new.items ≡ out.old.items ++ parameters_text model.now parameters.now) }
{
    'parameters: for (at, parameter) in parameters.iter().enumerate() {
        append_parameter(model, at, parameter, out)?;
    }
    Ok(())
}

/// Appends the type of what an operation gives, if it gives anything.
fn append_result(
    model: &ClassModel,
    of_type: Option<&OclType>,
    out: &mut Vec<u8>,
) -> Result<(), AllocError>
    ensures { OnOk result (out.new.items ≡ out.old.items ++ result_text model.now (option_copied of_type.entry)) }
{
    match of_type {
        None => Ok(()),
        Some(of_type) => {
            append(" : ", out)?;
            append_type(model, of_type, out)
        }
    }
}

fn append_operation(model: &ClassModel, op: OpNo, out: &mut Vec<u8>) -> Result<(), AllocError>
    requires { op < length model.now.ops }
    ensures { OnOk result (out.new.items ≡ out.old.items ++ operation_line model.now op) }
{
    append("operation ", out)?;
    append(model.op_name(op), out)?;
    append("(", out)?;
    append_parameters(model, model.op_params(op), out)?;
    append(")", out)?;
    append_result(model, model.op_result(op), out)?;
    append("\n", out)
}

/// Appends the operations of a class, inherited ones first, each at its first declaration.
fn append_operations(model: &ClassModel, ops: &[OpNo], out: &mut Vec<u8>) -> Result<(), AllocError>
    requires { All (λ op. op < length model.now.ops) ops.now }
    ensures { OnOk result (out.new.items ≡ out.old.items ++ flat_map (operation_line model.now) ops.now) }
{
    'ops: for op in ops {
        append_operation(model, *op, out)?;
    }
    Ok(())
}

/// Appends what `info class` writes of a class: its parents, what it has, inherited ones first, and how
/// many objects are of it, those of its descendants included.
pub fn append_class<S: StateReader>(
    alloc: Global,
    model: &ClassModel,
    state: &S,
    class: ClassNo,
    out: &mut Vec<u8>,
) -> Result<(), AllocError>
    requires layout { (S.held state.now).layout ≡ layout_of model.now }
    requires class { class < length model.now.classes }
    ensures { OnOk result (out.new.items ≡ out.old.items ++ class_info model.now (S.held state.now).state class) }
{
    append_class_line(model, class, out)?;
    append_attributes(model, model.attrs(class), out)?;
    append_operations(model, model.ops(class), out)?;
    let instances = state.objects_of(alloc, class)?;
    append_count("instances", instances.len(), out)
}
