//! The shares of the site: found by their numbers, by their nodes and by their tokens, and made where nothing stands against it.
#![tactic(auto)]

mod entries;
mod faults;
mod rows;
mod shares;
mod tokens;

pub use entries::Entry;
pub use faults::ShareFault;
pub use rows::{is_before, is_self_share, receives};
pub use shares::Shares;
