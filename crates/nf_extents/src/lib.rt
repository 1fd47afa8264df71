//! Bodies in extents of a file, and which bytes of the file are free for others.
#![tactic(auto)]

mod gaps;
mod pieces;

pub use gaps::{Extent, Gaps, MAX_END};
pub use pieces::Pieces;
