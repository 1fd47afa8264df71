//! Links.

use nf_outside::{MemSink, MemSource};

/// A connection: its two ends, which can be lent apart.
#[derive(Drop)]
pub struct Link<S, O> {
    pub source: S,
    pub sink: O,
}

/// A connection in memory.
pub type MemLink = Link<MemSource, MemSink>;
