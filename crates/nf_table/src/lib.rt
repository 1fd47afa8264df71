//! Rows of one kind, by rising key: one table for all kinds that are found by their keys.
#![tactic(auto)]

mod keys;
mod places;
mod swaps;
mod table;

pub use keys::{BegunBy, ChunkKey, ItemKey, MountKey, ShareKey, UploadKey, VersionKey};
pub use swaps::{Swap, lists_are_lean, swaps_go_back};
pub use table::Table;
