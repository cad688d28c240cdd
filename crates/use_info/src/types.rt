ghost use Rattle.std.specs.Prelude.{◌≡◌, ◌++◌, OnOk};
ghost use Rattle.use_info.specs.TypeTexts.{class_text, enum_text, type_text};

use crate::lines::append;
use class_model::{ClassModel, ClassNo, EnumNo, OclType};
use ocl_values::kind_name;
use std::alloc::AllocError;

/// The name of a class; of what is no class, no text.
pub(crate) fn class_text(model: &ClassModel, class: ClassNo) -> &str
    ensures { result.now ≡ class_text model.now class }
{
    match model.as_model().classes.get(class as usize) {
        None => "",
        Some(known) => known.name.as_str(),
    }
}

/// The name of an enumeration; of what is none, no text.
fn enum_text(model: &ClassModel, number: EnumNo) -> &str
    ensures { result.now ≡ enum_text model.now number }
{
    match model.as_model().enums.get(number as usize) {
        None => "",
        Some(known) => known.name.as_str(),
    }
}

/// Appends the text of a type (OCL 2.3.1, clause 8).
pub fn append_type(
    model: &ClassModel,
    of_type: &OclType,
    out: &mut Vec<u8>,
) -> Result<(), AllocError>
    ensures { OnOk result (out.new.items ≡ out.old.items ++ type_text model.now of_type.now) }
{
    match of_type {
        OclType::Any => append("OclAny", out),
        OclType::Void => append("OclVoid", out),
        OclType::Bool => append("Boolean", out),
        OclType::Int => append("Integer", out),
        OclType::Str => append("String", out),
        OclType::Enum(number) => append(enum_text(model, *number), out),
        OclType::Class(class) => append(class_text(model, *class), out),
        OclType::Coll(kind, element) => {
            append(kind_name(*kind), out)?;
            append("(", out)?;
            append_type(model, element.get(), out)?;
            append(")", out)
        }
    }
}
