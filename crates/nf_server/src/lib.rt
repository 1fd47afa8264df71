//! Sessions through the seats of a hub, and the threads that serve them.
#![tactic(auto)]

mod closing;
mod door;
mod ends;
mod link;
mod memory;
mod pace;
mod serving;
mod tcp;
mod workers;

pub use closing::{Cause, Closing};
pub use door::Door;
pub use ends::{TcpSink, TcpSource};
pub use link::{Link, MemLink};
pub use memory::MemDoor;
pub use pace::Pace;
pub use serving::{Served, serve_ends, serve_link};
pub use tcp::{TcpDoor, Terms};
pub use workers::{Worked, Worker, serve};
