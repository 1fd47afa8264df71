//! The locks: what is in the way of what a request touches.
#![tactic(auto)]

mod touch;
mod way;

pub use touch::Touch;
pub use way::key_in_way;
