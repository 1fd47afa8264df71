//! The keeper in files. It is a crate of its own, beside those that `run` stands on: its store's type is long, and each function that is
//! given one is slow to check.
#![tactic(auto)]

mod file;
mod moving;
mod opening;

pub use file::FileKeeper;
pub use moving::Mover;
pub use opening::{OpenFault, Opened, Paths, open};
