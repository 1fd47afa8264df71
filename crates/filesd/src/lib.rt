//! The top call: what the words of the command line ask for, over a keeper, from the bytes of requests to the bytes of answers.
#![tactic(auto)]

mod doors;
mod generating;
pub mod laws;
mod opening;
mod running;
mod status;
mod sweeping;

pub use opening::demonstration;
pub use running::{Finished, run};
pub use status::{RowsFault, Status};
