use class_decls::{
    AssocDecl, AttrDecl, BodyKind, ClassDecl, CondDecl, CondKind, Decls, EndDecl, EnumDecl,
    MultPart, Name, OpDecl, OpOf, TypeDecl,
};
use std::alloc::{AllocError, Global};

fn add(out: &mut String, text: &str) -> Result<(), AllocError> {
    out.push_str(text)
}

// A name and its place.
fn add_name(alloc: Global, name: &Name, out: &mut String) -> Result<(), AllocError> {
    let text = format!(in alloc; " {}@{}", name.text.as_str(), name.place)?;
    add(out, text.as_str())
}

fn add_names(alloc: Global, names: &[Name], out: &mut String) -> Result<(), AllocError> {
    'names: for name in names {
        add_name(alloc, name, out)?;
    }
    Ok(())
}

fn add_type(alloc: Global, of_type: &TypeDecl, out: &mut String) -> Result<(), AllocError> {
    add(out, " :")?;
    'kinds: for kind in of_type.kinds.as_slice() {
        let text = format!(in alloc; " {kind:?}")?;
        add(out, text.as_str())?;
    }
    add_name(alloc, &of_type.name, out)
}

fn add_enum(alloc: Global, e: &EnumDecl, out: &mut String) -> Result<(), AllocError> {
    add(out, "enum")?;
    add_name(alloc, &e.name, out)?;
    add(out, " of")?;
    add_names(alloc, e.literals.as_slice(), out)?;
    add(out, "\n")
}

fn add_attr(alloc: Global, attr: &AttrDecl, out: &mut String) -> Result<(), AllocError> {
    add(out, if attr.is_derived { " derived" } else { " attr" })?;
    add_name(alloc, &attr.name, out)?;
    add_type(alloc, &attr.of_type, out)?;
    add(out, "\n")
}

fn add_head(alloc: Global, op: &OpDecl, out: &mut String) -> Result<(), AllocError> {
    add_name(alloc, &op.name, out)?;
    add(out, " (")?;
    'params: for param in op.params.as_slice() {
        add_name(alloc, &param.name, out)?;
        add_type(alloc, &param.of_type, out)?;
    }
    add(out, " )")?;
    match &op.result_type {
        None => Ok(()),
        Some(of_type) => add_type(alloc, of_type, out),
    }
}

fn body_text(body: BodyKind) -> &'static str {
    match body {
        BodyKind::Bare => "",
        BodyKind::Query => " query",
        BodyKind::Soil => " soil",
    }
}

fn add_op(alloc: Global, op: &OpDecl, out: &mut String) -> Result<(), AllocError> {
    add(out, " op")?;
    add_head(alloc, op, out)?;
    add(out, body_text(op.body))?;
    add(out, "\n")
}

fn add_class(alloc: Global, class: &ClassDecl, out: &mut String) -> Result<(), AllocError> {
    add(
        out,
        if class.is_abstract {
            "abstract class"
        } else {
            "class"
        },
    )?;
    add_name(alloc, &class.name, out)?;
    add(out, " <")?;
    add_names(alloc, class.parents.as_slice(), out)?;
    add(out, "\n")?;
    'attrs: for attr in class.attrs.as_slice() {
        add_attr(alloc, attr, out)?;
    }
    'ops: for op in class.ops.as_slice() {
        add_op(alloc, op, out)?;
    }
    Ok(())
}

// The text, bounds and place of a part of a multiplicity.
fn add_part(alloc: Global, part: &MultPart, out: &mut String) -> Result<(), AllocError> {
    let text = part.text.as_str();
    let text = match part.high {
        None => format!(in alloc; " {} {} up@{}", text, part.low, part.place)?,
        Some(high) => format!(in alloc; " {} {} to {}@{}", text, part.low, high, part.place)?,
    };
    add(out, text.as_str())
}

fn add_end(alloc: Global, end: &EndDecl, out: &mut String) -> Result<(), AllocError> {
    add(out, " end")?;
    add_name(alloc, &end.class, out)?;
    add(out, " [")?;
    'parts: for part in end.parts.as_slice() {
        add_part(alloc, part, out)?;
    }
    add(out, " ]")?;
    add_name(alloc, &end.role, out)?;
    add(out, if end.is_ordered { " ordered\n" } else { "\n" })
}

fn add_assoc(alloc: Global, assoc: &AssocDecl, out: &mut String) -> Result<(), AllocError> {
    add(out, "assoc")?;
    add_name(alloc, &assoc.name, out)?;
    add(out, "\n")?;
    add_end(alloc, &assoc.first, out)?;
    add_end(alloc, &assoc.second, out)
}

fn add_op_of(alloc: Global, decls: &Decls, op: &OpOf, out: &mut String) -> Result<(), AllocError> {
    match op {
        OpOf::Here(name) => {
            add(out, " here")?;
            add_name(alloc, name, out)
        }
        OpOf::Named(at) => {
            add(out, " named")?;
            match decls.context_heads.get(*at) {
                None => add(out, " past"),
                Some(head) => add_head(alloc, head, out),
            }
        }
    }
}

fn add_cond(
    alloc: Global,
    decls: &Decls,
    cond: &CondDecl,
    out: &mut String,
) -> Result<(), AllocError> {
    match &cond.kind {
        CondKind::Inv => add(out, "inv")?,
        CondKind::Pre(op) => {
            add(out, "pre")?;
            add_op_of(alloc, decls, op, out)?;
        }
        CondKind::Post(op) => {
            add(out, "post")?;
            add_op_of(alloc, decls, op, out)?;
        }
    }
    add(out, " of")?;
    add_name(alloc, &cond.class, out)?;
    add_name(alloc, &cond.name, out)?;
    add(out, "\n")
}

fn add_classes(alloc: Global, decls: &Decls, out: &mut String) -> Result<(), AllocError> {
    'enums: for e in decls.enums.as_slice() {
        add_enum(alloc, e, out)?;
    }
    'classes: for class in decls.classes.as_slice() {
        add_class(alloc, class, out)?;
    }
    Ok(())
}

/// Declarations, a line each.
pub(crate) fn shown(alloc: Global, decls: &Decls) -> Result<String, AllocError> {
    let mut out = String::from_str(alloc, "model")?;
    add_name(alloc, &decls.name, &mut out)?;
    add(&mut out, "\n")?;
    add_classes(alloc, decls, &mut out)?;
    'assocs: for assoc in decls.assocs.as_slice() {
        add_assoc(alloc, assoc, &mut out)?;
    }
    'conds: for cond in decls.conds.as_slice() {
        add_cond(alloc, decls, cond, &mut out)?;
    }
    Ok(out)
}
