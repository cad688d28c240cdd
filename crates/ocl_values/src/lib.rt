//! The values of OCL: four-valued logic, integers, strings, one total order, and their text.
#![tactic(auto)]

mod equality;
mod integer;
mod laws;
mod logic;
mod printing;
mod shape;
mod string;
mod text;
mod value;

pub use equality::{order, same};
pub use integer::{IntOp, int_op};
pub use laws::elements_are_well_made;
pub use logic::{and, implies, not, or, xor};
pub use printing::{Names, kind_name, print};
pub use shape::size;
pub use string::{StrOp, str_op, text_value};
pub use text::Text;
pub use value::{EnumNo, Kind, LitNo, ObjNo, Value};
