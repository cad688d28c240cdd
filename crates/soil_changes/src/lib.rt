//! Changes of an object diagram that are carried out whole or not at all, and the acts of which
//! statements are made: objects that come and go, values that are stored, links.
#![tactic(auto)]

mod creating;
mod destroying;
mod fault;
mod joining;
mod proposals;
mod storing;
mod transaction;

pub use fault::ChangeFault;
pub use storing::may_be_stored;
pub use transaction::Transaction;
