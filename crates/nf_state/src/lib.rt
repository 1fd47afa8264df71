//! The state of the site: its rows and tickets, what steps make of them, and the changes that tell it.
#![tactic(auto)]

mod counts;
mod people_put;
mod state;
mod tables;
mod telling;

pub use counts::RowCounts;
pub use state::State;
pub use telling::{added_by, blob_of, changes, hold_of};
