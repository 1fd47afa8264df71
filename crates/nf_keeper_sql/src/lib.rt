//! A keeper in a database of SQLite's format and a file beside it: rows in the one, the bytes of blobs in the other.
#![tactic(auto)]

mod bodies;
mod extents;
mod fault;
mod keeper;
mod old;
mod placing;
mod reserve;
mod rows;
mod store;
mod tables;

pub use extents::has_extents;
pub use fault::Fault;
pub use keeper::SqlKeeper;
pub use old::{body_ids, is_old};
pub use store::{SIZES, Sizes};
