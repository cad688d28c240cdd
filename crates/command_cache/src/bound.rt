ghost use Rattle.std.specs.Prelude.{◌≡◌, IfOk, IsTrue};
ghost use Rattle.std.specs.Option.{option_copied};

use crate::types::are_same;
use class_model::OclType;
use ocl_values::Text;
use soil_check::Bindings;
use std::alloc::{AllocError, Global};
use use_lists::Items;

fn copy_type(alloc: Global, of_type: Option<&OclType>) -> Result<Option<OclType>, AllocError>
    ensures { IfOk result (λ t. t ≡ option_copied of_type.entry) }
{
    match of_type {
        None => Ok(None),
        Some(of_type) => Ok(Some(of_type.try_copy(alloc)?)),
    }
}

fn copy_names(
    alloc: Global,
    names: &[(Text, OclType)],
) -> Result<Items<(Text, OclType)>, AllocError>
    ensures { IfOk result (λ all. all ≡ names.now) }
{
    let mut all = Items::new(alloc);
    'names: for bound in names {
        let name = Text::copy_of(alloc, bound.0.as_str())?;
        all.push((name, bound.1.try_copy(alloc)?))?;
    }
    Ok(all)
}

/// A copy of what an open operation binds.
pub(crate) fn copy_bound(
    alloc: Global,
    frame: Option<&Bindings>,
) -> Result<Option<Bindings>, AllocError>
    ensures { IfOk result (λ b. b ≡ option_copied frame.entry) }
{
    match frame {
        None => Ok(None),
        Some(bindings) => Ok(Some(Bindings {
            names: copy_names(alloc, bindings.names.as_slice())?,
            result_type: copy_type(alloc, bindings.result_type.as_ref())?,
        })),
    }
}

fn are_same_types(a: Option<&OclType>, b: Option<&OclType>) -> bool
    ensures { IsTrue result → option_copied a.entry ≡ option_copied b.entry }
{
    match a {
        None => b.is_none(),
        Some(a) => match b {
            None => false,
            Some(b) => are_same(a, b),
        },
    }
}

fn is_same(a: &(Text, OclType), b: &(Text, OclType)) -> bool
    ensures { IsTrue result → a.now ≡ b.now }
{
    a.0.as_str() == b.0.as_str() && are_same(&a.1, &b.1)
}

fn are_same_names(a: &[(Text, OclType)], b: &[(Text, OclType)]) -> bool
    ensures { IsTrue result → a.now ≡ b.now }
{
    if a.len() != b.len() {
        return false;
    }
    'names: for (i, bound) in a.iter().enumerate() {
        if !is_same(bound, &b[i]) {
            return false;
        }
    }
    true
}

fn binds_same(a: &Bindings, b: &Bindings) -> bool
    ensures { IsTrue result → a.now ≡ b.now }
{
    are_same_names(a.names.as_slice(), b.names.as_slice())
        && are_same_types(a.result_type.as_ref(), b.result_type.as_ref())
}

/// Whether two open operations, if any, bind the same.
pub(crate) fn is_bound_so(a: Option<&Bindings>, b: Option<&Bindings>) -> bool
    ensures { IsTrue result → option_copied a.entry ≡ option_copied b.entry }
{
    match a {
        None => b.is_none(),
        Some(a) => match b {
            None => false,
            Some(b) => binds_same(a, b),
        },
    }
}
