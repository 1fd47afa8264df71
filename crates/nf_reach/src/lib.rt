//! Where paths lead and by which mounts, by which mounts versions are asked about, whether who asks is reached by these and may do what is needed, and what of it is told.
#![tactic(auto)]

mod above;
mod asker;
mod grants;
mod needs;
mod places;
mod ways;

pub use asker::Asker;
pub use ways::{Way, Ways, place_at};
