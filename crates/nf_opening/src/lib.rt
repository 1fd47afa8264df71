//! Rows that were stored: they are loaded into tables, and judged by the rules before anything is served.
#![tactic(auto)]

mod again;
mod alone;
mod bounds;
mod counts;
mod fault;
mod first;
mod heaps;
mod judging;
mod keys;
mod limits;
mod loaded;
mod names;
mod numbered;
mod placed;
mod present;
mod sharing;
mod totals;
mod uploads;

pub use fault::{Broken, SiteFault};
pub use judging::judge;
pub use loaded::Loaded;
