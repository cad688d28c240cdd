//! One command at a time: a session reads a command of the stream, checks it, carries it out and
//! answers it.
#![tactic(auto)]

mod answers;
mod bindings;
mod exits;
mod file_word;
mod lines;
mod machine;
mod moments;
mod noting;
mod reading;
mod report;
mod resetting;
mod session;
mod shapes;
mod shell;
mod starts;
mod unbuilt;

use machine::Machine;
pub use session::{Session, SessionFault, Turn};
use shell::StoreScope;
use starts::Start;
