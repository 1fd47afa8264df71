//! What is under each node, in bytes: running sums, by the rows' places; and what all nodes of each owner have: running totals.
#![tactic(auto)]

pub mod rows;
mod sums;
mod totals;

pub use sums::Sums;
pub use totals::{Total, Totals, bytes_owned};
