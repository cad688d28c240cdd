ghost use Rattle.std.specs.Prelude.{◌≡◌};
ghost use Rattle.std.specs.Option.{option_copied};
ghost use Rattle.ocl_rules.specs.Typings.{Tells};
ghost use Rattle.ocl_shapes.specs.Extents.{class_asked, extent, instances};

use crate::shapes::plain_name;
use class_decls::Name;
use class_model::{ClassModel, OclType};
use ocl_core::{Expr, When};
use ocl_rules::{TypeFault, Typed, breaks_n, breaks_t};
use ocl_scope::{Environment, finds_value};
use ocl_syntax::Written;
use ocl_values::Kind;
use std::alloc::Global;
use use_lists::Boxed;

/// The class whose instances are asked for.
pub fn class_asked<'a>(source: &'a Written, name: &Name) -> Option<&'a Name>
    ensures { option_copied result ≡ class_asked source.now name.now }
{
    if name.text.as_str() == "allInstances" {
        plain_name(source)
    } else {
        None
    }
}

/// The instances of a class.
fn instances(
    alloc: Global,
    class: &Name,
    is_before: bool,
    of_type: OclType,
) -> Result<Typed, TypeFault>
    ensures { Tells (instances class.now is_before of_type) result }
{
    match of_type {
        OclType::Class(number) => {
            let element = Boxed::new(alloc, OclType::Class(number))?;
            let when = if is_before { When::Pre } else { When::Now };
            Ok(Typed {
                expr: Expr::Extent(number, when),
                of_type: OclType::Coll(Kind::Set, element),
            })
        }
        _ => Err(breaks_t(13, class.place)),
    }
}

/// `C.allInstances`, where its arguments are typed and `found` is the type of its class's name.
pub fn extent(
    alloc: Global,
    model: &ClassModel,
    is_post: bool,
    env: &Environment,
    class: &Name,
    name: &Name,
    is_before: bool,
    takes_none: bool,
    found: Option<OclType>,
) -> Result<Typed, TypeFault>
    ensures { Tells (extent model.now is_post env.now class.now name.now is_before takes_none found) result }
{
    match found {
        None => {
            if !finds_value(model, env, class.text.as_str()) {
                return Err(breaks_n(1, class.place));
            }
            if takes_none {
                Err(breaks_t(8, class.place))
            } else {
                Err(breaks_t(2, name.place))
            }
        }
        Some(of_type) => {
            if !takes_none {
                return Err(breaks_t(2, name.place));
            }
            if is_before && !is_post {
                return Err(breaks_t(9, name.place));
            }
            instances(alloc, class, is_before, of_type)
        }
    }
}
