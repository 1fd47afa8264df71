//! The mounts of the site: shared nodes under names in the roots of those who receive them, found by their nodes and by their names.
#![tactic(auto)]

mod ensuring;
mod faults;
mod mounts;
mod names;

pub use faults::RenameFault;
pub use mounts::Mounts;
