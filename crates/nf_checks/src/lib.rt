//! What follows from the contracts of the server. The functions do nothing: each stands for the fact that it ensures.
#![tactic(auto)]

mod alike;

pub use alike::{listed_ones_are_steady, sessions_end_alike, told_sessions_end_alike};
