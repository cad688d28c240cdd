//! The history of commands: what can be taken back, and what can be carried out again.
#![tactic(auto)]

mod entry;
mod frame_move;
mod history;
mod laws;

pub use entry::Entry;
pub use frame_move::FrameMove;
pub use history::History;
pub use laws::{
    a_command_leads_on, entries_are_carried_out_again, entries_are_taken_back,
    histories_are_carried_out_again, histories_are_taken_back,
};

#[cfg(test)]
mod tests;
