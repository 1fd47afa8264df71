//! The words of the command line, and the rows that a store begins with.
#![tactic(auto)]

mod command;
mod first;
pub mod laws;
mod lists;
mod number;
mod operands;
mod options;
mod parsers;

pub use command::{Command, Init, command_of};
pub use first::init_rows;
