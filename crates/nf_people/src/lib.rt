//! The people of the site: users, groups, tokens and members, found without a scan.
#![tactic(auto)]

mod faults;
mod listed;
mod names;
mod people;

pub use faults::PeopleFault;
pub use people::{People, PeopleCounts, PeopleRows};
