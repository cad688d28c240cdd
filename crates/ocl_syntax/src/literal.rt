ghost use Rattle.std.specs.Prelude.{◌≡◌, IfOk};
ghost use Rattle.ocl_syntax.specs.Values.{literal_value};

use crate::WrittenLiteral;
use ocl_values::{Text, Value};
use std::alloc::{AllocError, Global};

impl WrittenLiteral {
    /// The value that it says.
    pub fn value(&self, alloc: Global) -> Result<Value, AllocError>
        ensures { IfOk result (λ v. v ≡ literal_value self.now) }
    {
        match self {
            WrittenLiteral::Null => Ok(Value::Null),
            WrittenLiteral::Invalid => Ok(Value::Invalid),
            WrittenLiteral::Bool(truth) => Ok(Value::Bool(*truth)),
            WrittenLiteral::Int(number) => Ok(Value::Int(*number)),
            WrittenLiteral::Str(text) => Ok(Value::Str(Text::copy_of(alloc, text.as_str())?)),
        }
    }
}
