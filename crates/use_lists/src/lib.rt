//! A `Vec` and a `Box` that contracts see as what they hold, with its comparisons: of two trees of
//! them, a copy equals its source.
#![tactic(auto)]

mod boxed;
mod boxed_order;
mod items;
mod items_order;

pub use boxed::Boxed;
pub use items::Items;

#[cfg(test)]
mod tests;
