ghost use Rattle.std.specs.Prelude.{◌≡◌, ◌++◌, OnOk};
ghost use Rattle.use_info.specs.ValueTexts.{text_of};

use class_model::ClassModel;
use object_state::StateReader;
use ocl_values::{EnumNo, LitNo, Names, ObjNo, Value, print};
use std::alloc::{AllocError, Global};

/// The names of the objects of a state and of the literals of its model.
#[derive(Drop)]
pub struct StateNames<'a, S> {
    pub model: &'a ClassModel,
    pub state: &'a S,
}

impl<S: StateReader> Names for StateNames<'_, S> {
    ghost use Rattle.use_info.specs.ValueTexts.{literal_name, object_name};

    ghost object_name = { λ n o. object_name (S.held n.state.now).state o };

    ghost literal_name = { λ n e l. literal_name n.model.now e l };

    fn object(&self, object: ObjNo) -> Option<&str> {
        self.state.name_of(object)
    }

    fn literal(&self, enumeration: EnumNo, literal: LitNo) -> Option<(&str, &str)> {
        let known = self.model.as_model().enums.get(enumeration as usize)?;
        let name = known.literals.get(literal as usize)?;
        Some((known.name.as_str(), name.as_str()))
    }
}

/// Appends the text of a value in a state of a model.
pub fn append_value<S: StateReader>(
    alloc: Global,
    model: &ClassModel,
    state: &S,
    value: &Value,
    out: &mut Vec<u8>,
) -> Result<(), AllocError>
    ensures { OnOk result (out.new.items ≡ out.old.items ++ text_of model.now (S.held state.now).state value.now) }
{
    print(alloc, value, &StateNames { model, state }, out)
}
