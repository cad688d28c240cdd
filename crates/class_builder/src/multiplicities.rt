ghost use Rattle.std.specs.Prelude.{◌≡◌, ◌++◌, [], ◌∷◌, if◌then◌else◌, IfOk, OnOk, map, string_bytes, unwrap_or};
ghost use Rattle.std.specs.HashMap.{get_by_text};
ghost use Rattle.std.specs.List.{join_with_byte};
ghost use Rattle.class_builder.specs.Models.{association, end, multiplicity, span};

use class_decls::{AssocDecl, EndDecl, MultPart};
use class_model::{Association, AssociationEnd, ByName, ClassNo, Multiplicity, Span};
use ocl_values::Text;
use std::alloc::{AllocError, Global};
use use_lists::Items;

fn spans(alloc: Global, parts: &[MultPart]) -> Result<Items<Span>, AllocError>
    ensures { IfOk result (λ v. v ≡ map span parts.now) }
{
    let mut spans = Vec::new(alloc);
    'parts: for part in parts {
        spans.push(Span {
            low: part.low,
            high: part.high,
        })?;
    }
    Ok(Items::from_vec(spans))
}

fn add_comma_if(spec: &mut String, holds: bool) -> Result<(), AllocError>
    ensures { OnOk result (string_bytes spec.new ≡ string_bytes spec.old ++ (if holds then 44 ∷ [] else [])) }
{
    if !holds {
        return Ok(());
    }
    spec.push_str(",")?;
    Ok(())
}

/// The parts as they are written, joined by commas.
fn spec(alloc: Global, parts: &[MultPart]) -> Result<Text, AllocError>
    ensures { IfOk result (λ t. t ≡ join_with_byte 44 (map (λ p. p.text) parts.now)) }
{
    let mut spec = String::new(alloc);
    'parts: for (i, part) in parts.iter().enumerate() {
        add_comma_if(&mut spec, i > 0)?;
        spec.push_str(part.text.as_str())?;
    }
    Ok(Text::from_string(spec))
}

fn multiplicity(alloc: Global, parts: &[MultPart]) -> Result<Multiplicity, AllocError>
    ensures { IfOk result (λ m. m ≡ multiplicity parts.now) }
{
    Ok(Multiplicity {
        spans: spans(alloc, parts)?,
        spec: spec(alloc, parts)?,
    })
}

fn number(numbers: &ByName<ClassNo>, name: &str) -> ClassNo
    ensures { result ≡ unwrap_or (get_by_text numbers.now name.now) 0 }
{
    numbers.get(name).copied().unwrap_or(0)
}

fn end(
    alloc: Global,
    numbers: &ByName<ClassNo>,
    decl: &EndDecl,
) -> Result<AssociationEnd, AllocError>
    ensures { IfOk result (λ e. e ≡ end (λ text. unwrap_or (get_by_text numbers.now text) 0) decl.now) }
{
    Ok(AssociationEnd {
        class: number(numbers, decl.class.text.as_str()),
        role: Text::copy_of(alloc, decl.role.text.as_str())?,
        is_ordered: decl.is_ordered,
        multiplicity: multiplicity(alloc, decl.parts.as_slice())?,
    })
}

fn association(
    alloc: Global,
    numbers: &ByName<ClassNo>,
    decl: &AssocDecl,
) -> Result<Association, AllocError>
    ensures { IfOk result (λ a. a ≡ association (λ text. unwrap_or (get_by_text numbers.now text) 0) decl.now) }
{
    Ok(Association {
        name: Text::copy_of(alloc, decl.name.text.as_str())?,
        first: end(alloc, numbers, &decl.first)?,
        second: end(alloc, numbers, &decl.second)?,
    })
}

/// The associations, in the order of the text.
pub(crate) fn associations(
    alloc: Global,
    numbers: &ByName<ClassNo>,
    decls: &[AssocDecl],
) -> Result<Items<Association>, AllocError>
    ensures { IfOk result (λ v. v ≡ map (association (λ text. unwrap_or (get_by_text numbers.now text) 0)) decls.now) }
{
    let mut assocs = Vec::new(alloc);
    'decls: for decl in decls {
        assocs.push(association(alloc, numbers, decl)?)?;
    }
    Ok(Items::from_vec(assocs))
}
