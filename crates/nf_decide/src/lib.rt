//! What is decided: who calls, what it asks for, whether it may have it, and what is done then.
#![tactic(auto)]

mod callers;
mod deciding;
mod items;
mod listing;
mod locking;
mod mounting;
mod shared;
mod sharing;
mod tokens;
mod trash;
mod uploads;
mod versions;

pub use deciding::Call;
