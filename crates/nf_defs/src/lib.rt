//! What the rows of the site mean: the words that its definitions share.
#![tactic(auto)]

mod keyed;
mod lookup;

pub use keyed::{Keyed, put, put_reserved};
pub use lookup::{FoundBy, drop_row, has_row, place_of, row_of};
use nf_base::{Moment, NodeId, Perms, ShareId, UserId};

/// What a path leads to.
#[derive(Clone, Copy, PartialEq, Eq)]
pub enum Found {
    /// It leads to that node.
    At(NodeId),
    /// All names but the last lead to that folder, which has no child of the last name.
    Free { folder: NodeId },
    /// Neither holds; so many names lead on, and no more do.
    Missing { depth: usize },
}

/// Who asks for access: a user, or whoever holds a link.
#[derive(Clone, Copy, PartialEq, Eq)]
pub enum Seeker {
    User(UserId),
    Link(ShareId),
}

/// What one share lets its seeker do with the shared node, and until when.
#[derive(Clone, Copy, PartialEq, Eq)]
pub struct Grant {
    pub share: ShareId,
    pub mask: Perms,
    pub until: Option<Moment>,
}
