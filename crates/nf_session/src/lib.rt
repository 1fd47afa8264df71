//! A session: messages of one connection, answered one after the other from a site and a store.
#![tactic(auto)]

mod backend;
mod begun;
mod ended;
pub mod laws;
mod response;
mod session;

pub use backend::{Backend, Ending, PieceFault};
pub use ended::Ended;
pub use session::serve_session;
