//! What of a user's trash goes for good, told from the oldest on.

ghost use Rattle.std.specs.Prelude.{◌≡◌, [], reverse, OnOk};
ghost use Rattle.nf_retention.specs.declared.trash.Trashed.{Trashed};
ghost use Rattle.nf_trash.specs.Outgoing.{goes, passed, starting};

use nf_base::{Moment, NodeId};
use nf_retention::{Trashed, has_expired};
use std::alloc::{AllocError, Global};
use std::marker::Model;

/// A walk over a user's items from the oldest on, which takes those that go for good and ends at the first that stays: those go that have
/// been there for 30 days, and as many others as leave the rest within the bound. All behind the first that stays do, too.
#[derive(Drop)]
pub struct Outgoing {
    nodes: Vec<NodeId>,
    /// The bytes of those that weren't taken.
    left: u128,
    moment: Moment,
    bound: u64,
    has_ended: bool,
}

impl Model for Outgoing {
    ghost use Rattle.std.specs.Prelude.{reverse};
    ghost use Rattle.nf_trash.specs.Outgoing.{Walk};

    ghost Value = { Walk };

    ghost view = { λ walk. record { gone = reverse walk.nodes.items; left = walk.left; moment = walk.moment; bound = walk.bound; has_ended = walk.has_ended } };
}

impl Outgoing {
    /// A walk that is to begin over items that have so many bytes together.
    pub fn new(alloc: Global, total: u128, now: Moment, bound: u64) -> Self
        ensures { result ≡ starting now bound total }
    {
        Outgoing {
            nodes: Vec::new(alloc),
            left: total,
            moment: now,
            bound,
            has_ended: false,
        }
    }

    /// Whether it has come to one that stays.
    pub fn has_ended(&self) -> bool
        ensures { result ≡ self.entry.now.has_ended }
    {
        self.has_ended
    }

    /// Comes to the next newer item.
    pub fn pass(&mut self, item: &Trashed) -> Result<(), AllocError>
        ensures { OnOk result (self.new ≡ passed self.old item.now) }
    {
        if self.has_ended {
            return Ok(());
        }
        if self.goes(item) {
            self.nodes.push(item.node)?;
            self.left = self.left.saturating_sub(u128::from(item.size));
        } else {
            self.has_ended = true;
        }
        Ok(())
    }

    /// Whether the item goes, where all before it did.
    fn goes(&self, item: &Trashed) -> bool
        ensures { result ≡ goes self.entry.now item.now }
    {
        has_expired(item.at, self.moment) || u128::from(self.bound) < self.left
    }

    /// The nodes of those that go, newest first.
    pub fn into_nodes(self) -> Vec<NodeId>
        ensures { result.items ≡ self.gone }
    {
        let mut nodes = self.nodes;
        nodes.reverse();
        nodes
    }
}
