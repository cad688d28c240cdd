//! Checked commands that are kept: one of the same text is neither read nor checked again while its
//! names stand for what they stood for.
#![tactic(auto)]

mod bound;
mod commands;
mod meanings;
mod noted;
mod types;

pub use commands::{Commands, Prepared};
pub use meanings::{Meaning, Named};
pub use noted::Noted;
