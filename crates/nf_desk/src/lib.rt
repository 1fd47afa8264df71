//! A site and its keeper, opened, stepped in the name of seats, and asked for pieces.
#![tactic(auto)]

mod desk;
mod first;
mod loading;
mod piece;
mod stepping;
mod strikes;
mod sweeping;

pub use desk::Desk;
pub use first::{First, FirstBlob, OpenFault, Opening, Unopened};
pub use piece::{piece_at, test_piece};
pub use sweeping::Swept;
