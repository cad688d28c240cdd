use class_decls::{Name, TypeDecl};
use ocl_syntax::{Argument, Written, WrittenLiteral, WrittenPart};
use std::alloc::{AllocError, Global};
use use_lists::Boxed;
use use_text::Place;

fn add_name(alloc: Global, name: &Name, out: &mut String) -> Result<(), AllocError> {
    let text = format!(in alloc; " {}@{}", name.text.as_str(), name.place)?;
    out.push_str(text.as_str())
}

fn add_place(alloc: Global, place: &Place, out: &mut String) -> Result<(), AllocError> {
    let text = format!(in alloc; "@{place}")?;
    out.push_str(text.as_str())
}

fn add_literal(
    alloc: Global,
    literal: &WrittenLiteral,
    out: &mut String,
) -> Result<(), AllocError> {
    match literal {
        WrittenLiteral::Null => out.push_str("null"),
        WrittenLiteral::Invalid => out.push_str("invalid"),
        WrittenLiteral::Bool(b) => out.push_str(if *b { "true" } else { "false" }),
        WrittenLiteral::Int(n) => {
            let text = format!(in alloc; "{n}")?;
            out.push_str(text.as_str())
        }
        WrittenLiteral::Str(text) => {
            out.push_str("'")?;
            out.push_str(text.as_str())?;
            out.push_str("'")
        }
    }
}

fn add_type(alloc: Global, of_type: Option<&TypeDecl>, out: &mut String) -> Result<(), AllocError> {
    match of_type {
        None => Ok(()),
        Some(of_type) => {
            out.push_str(" :")?;
            'kinds: for kind in of_type.kinds.as_slice() {
                let text = format!(in alloc; " {kind:?}")?;
                out.push_str(text.as_str())?;
            }
            add_name(alloc, &of_type.name, out)
        }
    }
}

fn add_flag(is_before: bool, out: &mut String) -> Result<(), AllocError> {
    if is_before {
        out.push_str(" @pre")
    } else {
        Ok(())
    }
}

fn add_head(alloc: Global, head: &str, place: &Place, out: &mut String) -> Result<(), AllocError> {
    out.push_str(head)?;
    add_place(alloc, place, out)
}

#[cycle(shown)]
fn add_start(
    alloc: Global,
    start: &Option<Boxed<Written>>,
    out: &mut String,
) -> Result<(), AllocError> {
    match start {
        None => Ok(()),
        Some(start) => {
            out.push_str(" =")?;
            add(alloc, start.get(), out)
        }
    }
}

#[cycle(shown)]
fn add_argument(alloc: Global, argument: &Argument, out: &mut String) -> Result<(), AllocError> {
    match argument {
        Argument::Item(e, of_type, start) => {
            out.push_str(" ,")?;
            add(alloc, e, out)?;
            add_type(alloc, of_type.as_ref(), out)?;
            add_start(alloc, start, out)
        }
        Argument::Accumulator(e, of_type, start) => {
            out.push_str(" ;")?;
            add(alloc, e, out)?;
            add_type(alloc, of_type.as_ref(), out)?;
            add_start(alloc, start, out)
        }
        Argument::Body(e) => {
            out.push_str(" |")?;
            add(alloc, e, out)
        }
    }
}

#[cycle(shown)]
fn add_arguments(
    alloc: Global,
    arguments: &[Argument],
    out: &mut String,
) -> Result<(), AllocError> {
    out.push_str(" [")?;
    'arguments: for argument in arguments {
        add_argument(alloc, argument, out)?;
    }
    out.push_str(" ]")
}

#[cycle(shown)]
fn add_part(alloc: Global, part: &WrittenPart, out: &mut String) -> Result<(), AllocError> {
    match part {
        WrittenPart::One(e) => add(alloc, e, out),
        WrittenPart::Range(place, first, last) => {
            add_head(alloc, " (..", place, out)?;
            add(alloc, first, out)?;
            add(alloc, last, out)?;
            out.push_str(")")
        }
    }
}

#[cycle(shown)]
fn add_parts(alloc: Global, parts: &[WrittenPart], out: &mut String) -> Result<(), AllocError> {
    'parts: for part in parts {
        add_part(alloc, part, out)?;
    }
    Ok(())
}

// A leaf, or what is in parentheses.
#[cycle(shown)]
fn add(alloc: Global, e: &Written, out: &mut String) -> Result<(), AllocError> {
    match e {
        Written::TooDeep(place) => add_head(alloc, " deep", place, out),
        Written::Literal(place, literal) => {
            out.push_str(" ")?;
            add_literal(alloc, literal, out)?;
            add_place(alloc, place, out)
        }
        Written::OnlyLiteral(place, name) => {
            add_head(alloc, " #", place, out)?;
            add_name(alloc, name, out)
        }
        other => {
            out.push_str(" (")?;
            add_node(alloc, other, out)?;
            out.push_str(")")
        }
    }
}

#[cycle(shown)]
fn add_node(alloc: Global, e: &Written, out: &mut String) -> Result<(), AllocError> {
    match e {
        Written::Collection(place, kind, parts) => {
            let text = format!(in alloc; "{kind:?}")?;
            add_head(alloc, text.as_str(), place, out)?;
            add_parts(alloc, parts.as_slice(), out)
        }
        Written::If(place, condition, consequence, alternative) => {
            add_head(alloc, "if", place, out)?;
            add(alloc, condition.get(), out)?;
            add(alloc, consequence.get(), out)?;
            add(alloc, alternative.get(), out)
        }
        Written::Let(place, name, of_type, value, behind) => {
            add_head(alloc, "let", place, out)?;
            add_name(alloc, name, out)?;
            add_type(alloc, of_type.as_ref().map(|t| t.get()), out)?;
            add(alloc, value.get(), out)?;
            add(alloc, behind.get(), out)
        }
        Written::Unary(place, operator, operand) => {
            let text = format!(in alloc; "{operator:?}")?;
            add_head(alloc, text.as_str(), place, out)?;
            add(alloc, operand.get(), out)
        }
        Written::Binary(place, operator, left, right) => {
            let text = format!(in alloc; "{operator:?}")?;
            add_head(alloc, text.as_str(), place, out)?;
            add(alloc, left.get(), out)?;
            add(alloc, right.get(), out)
        }
        Written::Group(place, inner) => {
            add_head(alloc, "group", place, out)?;
            add(alloc, inner.get(), out)
        }
        other => add_property(alloc, other, out),
    }
}

#[cycle(shown)]
fn add_property(alloc: Global, e: &Written, out: &mut String) -> Result<(), AllocError> {
    match e {
        Written::Named(name, literal, is_before, arguments) => {
            out.push_str("name")?;
            add_name(alloc, name, out)?;
            if let Some(literal) = literal {
                out.push_str(" ::")?;
                add_name(alloc, literal.get(), out)?;
            }
            add_flag(*is_before, out)?;
            match arguments {
                None => Ok(()),
                Some(arguments) => add_arguments(alloc, arguments.as_slice(), out),
            }
        }
        Written::Dot(source, name, is_before, arguments) => {
            out.push_str("dot")?;
            add(alloc, source.get(), out)?;
            add_name(alloc, name, out)?;
            add_flag(*is_before, out)?;
            match arguments {
                None => Ok(()),
                Some(arguments) => add_arguments(alloc, arguments.as_slice(), out),
            }
        }
        Written::Arrow(source, name, arguments) => {
            out.push_str("arrow")?;
            add(alloc, source.get(), out)?;
            add_name(alloc, name, out)?;
            match arguments {
                None => Ok(()),
                Some(arguments) => add_arguments(alloc, arguments.as_slice(), out),
            }
        }
        _ => Ok(()),
    }
}

// An expression as a text: each node with its place, in the order of its parts.
pub(super) fn shown(alloc: Global, e: &Written) -> Result<String, AllocError> {
    let mut out = String::new(alloc);
    add(alloc, e, &mut out)?;
    Ok(out)
}
