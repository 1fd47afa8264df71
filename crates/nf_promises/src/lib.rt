//! Promises of a session, from what it is known to do. The functions do nothing: each stands for the fact that it ensures.
#![tactic(auto)]

mod acknowledged;
mod complete;
mod faults;
mod kept;
mod room;

pub use acknowledged::acknowledged_is_stored;
pub use complete::{messages_are_answered, sessions_end_well};
pub use faults::faults_are_shown;
pub use kept::{put_then_get, put_then_get_of_bytes};
pub use room::{full_is_seen, never_full};
