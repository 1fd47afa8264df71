//! The messages of a seed, each served in a session of its own, with no connection: how many of them were granted.
#![tactic(auto)]

mod noted;
mod same;
mod trials;

pub use trials::{Tried, try_list};
