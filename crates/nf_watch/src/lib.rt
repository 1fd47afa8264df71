//! A keeper that is watched: what fails is told, and nothing is stored where it would be lost.
#![tactic(auto)]

mod watched;

pub use watched::{Call, Explains, Watch, WatchedKeeper};
