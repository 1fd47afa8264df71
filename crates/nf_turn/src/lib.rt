//! A lock round one value, whose turns are taken in order. Who holds a seat of it knows what the value has become: it
//! begins with all that the seat has seen, the seat's own entries are all there, and nobody wrote in its name.
#![tactic(auto)]

mod book;
mod lock;
mod plays;
mod seat;
mod turns;
mod view;

pub use book::Book;
pub use lock::TurnLock;
pub use seat::Seat;
pub use view::{Memory, Start, TurnRule, View};
