//! The items of the trash: by their nodes, and those of each user by their age, so that what goes for good is found without a look at what stays.
#![tactic(auto)]

mod aged;
pub mod laws;
mod outgoing;
mod trash;

pub use aged::Aged;
pub use outgoing::Outgoing;
pub use trash::Trash;
