//! The evaluator of expressions over two states, with its budget and the cells that it reads.
#![tactic(auto)]

mod calls;
mod costs;
mod env;
mod evaluation;
mod evaluator;
mod integers;
mod iteration;
mod laws;
mod layers;
mod looks;
mod making;
mod meter;
mod node;
mod objects;
mod outcome;
mod parts;
mod programs;
mod readings;
mod setting;
mod states;
mod stop;
mod values;
mod walks;

pub use env::Env;
pub use evaluation::{evaluate, evaluate_in};
pub use laws::{no_units_are_gained, outcomes_depend_on_what_is_read, what_is_done_stays_done};
use meter::Meter;
pub use outcome::Outcome;
use setting::Setting;
use states::States;
use stop::Stop;
use values::Values;
