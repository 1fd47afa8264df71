//! The list of messages that a seed determines.
#![tactic(auto)]

mod drawing;
mod messages;
mod writing;

pub use messages::{MAX_COUNT, Message, Messages};
