//! The whole program over a source, a sink and a shelf.
#![tactic(auto)]

mod commands;
mod echo;
mod manner;
mod model;
mod moves;
mod play;
mod player;
mod program;
mod status;
mod stop;

use manner::Manner;
use player::Player;
pub use program::run;
pub use status::Status;
use stop::Stop;
