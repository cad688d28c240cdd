ghost use Rattle.std.specs.Prelude.{◌≡◌, None, IfOk};
ghost use Rattle.class_rules.specs.WellFormed.{broken_rule};
ghost use Rattle.class_builder.specs.Building.{Builds};
ghost use Rattle.class_builder.specs.Models.{model_of};

use crate::class_table::{classes, enumerations, ordered};
use crate::features::{derived_attributes, operations, stored_attributes};
use crate::multiplicities::associations;
use crate::type_names::{class_numbers, type_names};
use class_decls::Decls;
use class_model::{ClassModel, ObjectModel};
use class_rules::{Hierarchy, RuleFault, judge};
use ocl_values::Text;
use std::alloc::{AllocError, Global};

/// The model that well-formed declarations give.
fn model_of(alloc: Global, decls: &Decls) -> Result<ObjectModel, AllocError>
    requires { broken_rule decls.now ≡ None }
    ensures { IfOk result (λ m. m ≡ model_of decls.now) }
{
    let hierarchy = Hierarchy::of(alloc, decls)?;
    let by_number = ordered(alloc, &hierarchy)?;
    let by_number = by_number.as_slice();
    let names = type_names(alloc, decls.enums.as_slice(), by_number)?;
    let numbers = class_numbers(alloc, by_number)?;
    Ok(ObjectModel {
        name: Text::copy_of(alloc, decls.name.text.as_str())?,
        enums: enumerations(alloc, decls.enums.as_slice())?,
        classes: classes(alloc, &hierarchy, by_number)?,
        attrs: stored_attributes(alloc, &names, by_number)?,
        derived: derived_attributes(alloc, &names, by_number)?,
        ops: operations(alloc, &names, by_number)?,
        assocs: associations(alloc, &numbers, decls.assocs.as_slice())?,
    })
}

/// The object model that declarations give. Refused with the least rule of M1 to M18 that they
/// break, at the first place where they break it.
pub fn build(alloc: Global, decls: Decls) -> Result<ClassModel, RuleFault>
    ensures { Builds decls result }
{
    judge(alloc, &decls)?;
    let model = model_of(alloc, &decls)?;
    Ok(ClassModel::of(alloc, model)?)
}
