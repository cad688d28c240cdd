use class_model::{ClassModel, OclType};
use ocl_rules::{TypeFault, Typed};
use ocl_values::Kind;
use std::alloc::{AllocError, Global};

fn kind_name(kind: Kind) -> &'static str {
    match kind {
        Kind::Set => "Set",
        Kind::OrderedSet => "OrderedSet",
        Kind::Bag => "Bag",
        Kind::Sequence => "Sequence",
    }
}

fn enum_name(model: &ClassModel, number: u32) -> &str {
    if number < model.enum_count() {
        model.enum_name(number)
    } else {
        "no enumeration"
    }
}

fn class_name(model: &ClassModel, number: u32) -> &str {
    if number < model.class_count() {
        model.class_name(number)
    } else {
        "no class"
    }
}

fn add_type(model: &ClassModel, of_type: &OclType, out: &mut String) -> Result<(), AllocError> {
    match of_type {
        OclType::Any => out.push_str("OclAny"),
        OclType::Void => out.push_str("OclVoid"),
        OclType::Bool => out.push_str("Boolean"),
        OclType::Int => out.push_str("Integer"),
        OclType::Str => out.push_str("String"),
        OclType::Enum(number) => out.push_str(enum_name(model, *number)),
        OclType::Class(number) => out.push_str(class_name(model, *number)),
        OclType::Coll(kind, element) => {
            out.push_str(kind_name(*kind))?;
            out.push_str("(")?;
            add_type(model, element.get(), out)?;
            out.push_str(")")
        }
    }
}

/// The type of an expression, or the rule that it breaks with its place.
pub(super) fn shown(
    alloc: Global,
    model: &ClassModel,
    typed: &Result<Typed, TypeFault>,
) -> Result<String, AllocError> {
    match typed {
        Ok(typed) => {
            let mut out = String::new(alloc);
            add_type(model, &typed.of_type, &mut out)?;
            Ok(out)
        }
        Err(TypeFault::Memory) => String::from_str(alloc, "out of memory"),
        Err(TypeFault::Refused(refusal)) => {
            format!(in alloc; "{} at {}", refusal.code, refusal.place)
        }
    }
}
