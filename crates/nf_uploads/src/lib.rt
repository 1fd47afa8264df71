//! The uploads in chunks: found by their users and names, with their chunks by rising number, and what these have together.
#![tactic(auto)]

mod keys;
pub mod laws;
mod numbers;
mod sums;
mod uploads;

pub use numbers::chunk_number;
pub use uploads::Uploads;
