//! The site: its state, and the history that led there. A step is planned and then adopted.
#![tactic(auto)]

mod copies;
mod demo;
pub mod laws;
mod named;
mod plan;
mod site;
mod totals;

pub use demo::demo_rows;
pub use nf_opening::{Broken, SiteFault};
pub use plan::Plan;
pub use site::{RoomFault, Site};
pub use totals::{Totals, UserTotals};
