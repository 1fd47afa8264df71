//! The hub: a site and its keeper that threads share, each with a seat of its own. Each call takes the turn once and makes at most one
//! step; what is hashed or tested is so between the turns.
#![tactic(auto)]

mod hub;
mod seat;
mod visit;

pub use hub::{Hub, HubOf};
pub use seat::{Began, Seat, SeatOf, Ticket};
pub use visit::Visit;
