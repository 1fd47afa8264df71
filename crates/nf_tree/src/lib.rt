//! The tree of folders and files: the nodes' rows by rising number, found without a scan by number, and by folder and name.
#![tactic(auto)]

mod nodes;
mod order;
mod removal;
mod tree;

pub use tree::{Tree, TreeFault};
