//! What is told of shares.

ghost use Rattle.std.specs.Prelude.{◌≡◌};

use nf_base::{Moment, Name, NodeId, Perms, ShareId};
use std::marker::Model;

/// Whom a share is for.
#[derive(Drop)]
pub enum Recipient {
    /// The user of that name.
    User(Name),
    /// The group of that name.
    Group(Name),
    /// Whoever knows that token.
    Link(Name),
}

/// What is told of a share.
#[derive(Drop)]
pub struct ShareLine {
    pub id: ShareId,
    pub node: NodeId,
    /// The share that it passes on.
    pub parent: Option<ShareId>,
    pub permissions: Perms,
    pub until: Option<Moment>,
    pub to: Recipient,
    /// The name of the node's owner.
    pub owner: Name,
    /// The name of who made it.
    pub initiator: Name,
}

/// Shares by rising number.
#[derive(Drop)]
pub struct ShareLines {
    lines: Vec<ShareLine>,
}

impl Model for ShareLines {
    ghost use Rattle.std.specs.Prelude.{List};
    ghost use Rattle.nf_words.specs.declared.sharing.ShareLine.{ShareLine};

    ghost Value = { List ShareLine };

    ghost view = { λ shares. shares.lines.items };
}

impl ShareLines {
    pub fn new(lines: Vec<ShareLine>) -> Self
        ensures { result ≡ lines.items }
    {
        ShareLines { lines }
    }

    pub fn lines(&self) -> &[ShareLine]
        ensures { result.now ≡ self.now }
    {
        &self.lines
    }
}
