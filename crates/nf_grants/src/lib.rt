//! What shares grant, derived when it is asked for, by walking the chains of the shares on one node.
#![tactic(auto)]

mod breaking;
mod chains;
mod grants;
mod ground;
mod listing;

pub use breaking::Broken;
pub use ground::Ground;
