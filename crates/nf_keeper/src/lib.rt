//! Keepers: what keeps the rows of a site and the bytes of its blobs from one run to the next.
#![tactic(auto)]

mod blobs;
mod keeper;
mod memory;
mod raws;
mod spelled;

pub use blobs::BlobList;
pub use keeper::{KeepFault, Keeper, NewBlob};
pub use memory::MemKeeper;
pub use raws::RawRows;
