//! What a step changes: a list of rows put and rows dropped.

ghost use Rattle.std.specs.Prelude.{◌≡◌, [], ◌∷◌, ◌++◌, IfOk, OnOk, OnErr, IsTrue, ◌↔◌};
ghost use Rattle.nf_base.specs.Keys.{key_of};

use crate::{Digest, GroupId, Moment, Name, NodeId, Row, ShareId, UserId};
use std::alloc::{AllocError, Global};
use std::marker::Model;

/// Which row: its kind, and the fields of its key.
#[derive(Drop)]
pub enum RowKey {
    Meta,
    User(UserId),
    Token(Digest),
    Group(GroupId),
    Member {
        group: GroupId,
        user: UserId,
    },
    Node(NodeId),
    Share(ShareId),
    Mount {
        user: UserId,
        node: NodeId,
    },
    Version {
        node: NodeId,
        at: Moment,
    },
    Item(NodeId),
    Upload {
        user: UserId,
        dir: Name,
    },
    Chunk {
        user: UserId,
        dir: Name,
        number: u16,
    },
}

impl Row {
    /// The row's key.
    pub fn key(&self) -> Result<RowKey, AllocError>
        ensures { IfOk result (λ key. key ≡ key_of self.now) }
    {
        Ok(match self {
            Row::Meta(_) => RowKey::Meta,
            Row::User(row) => RowKey::User(row.id),
            Row::Token(row) => RowKey::Token(row.digest),
            Row::Group(row) => RowKey::Group(row.id),
            Row::Member(row) => RowKey::Member {
                group: row.group,
                user: row.user,
            },
            Row::Node(row) => RowKey::Node(row.id),
            Row::Share(row) => RowKey::Share(row.id),
            Row::Mount(row) => RowKey::Mount {
                user: row.user,
                node: row.node,
            },
            Row::Version(row) => RowKey::Version {
                node: row.node,
                at: row.at,
            },
            Row::Item(row) => RowKey::Item(row.node),
            Row::Upload(row) => RowKey::Upload {
                user: row.user,
                dir: row.dir.copy()?,
            },
            Row::Chunk(row) => RowKey::Chunk {
                user: row.user,
                dir: row.dir.copy()?,
                number: row.number,
            },
        })
    }
}

#[derive(Drop)]
pub enum Change {
    /// The row takes the place of the one with its key, or is new where there is none.
    Put(Row),
    /// No row has the key any more.
    Drop(RowKey),
}

impl RowKey {
    /// An equal key.
    fn copy(&self) -> Result<RowKey, AllocError>
        ensures { IfOk result (λ copy. copy ≡ self.now) }
    {
        Ok(match self {
            RowKey::Meta => RowKey::Meta,
            RowKey::User(user) => RowKey::User(*user),
            RowKey::Token(digest) => RowKey::Token(*digest),
            RowKey::Group(group) => RowKey::Group(*group),
            RowKey::Member { group, user } => RowKey::Member {
                group: *group,
                user: *user,
            },
            RowKey::Node(node) => RowKey::Node(*node),
            RowKey::Share(share) => RowKey::Share(*share),
            RowKey::Mount { user, node } => RowKey::Mount {
                user: *user,
                node: *node,
            },
            RowKey::Version { node, at } => RowKey::Version {
                node: *node,
                at: *at,
            },
            RowKey::Item(node) => RowKey::Item(*node),
            RowKey::Upload { user, dir } => RowKey::Upload {
                user: *user,
                dir: dir.copy()?,
            },
            RowKey::Chunk { user, dir, number } => RowKey::Chunk {
                user: *user,
                dir: dir.copy()?,
                number: *number,
            },
        })
    }
}

impl Change {
    /// An equal change.
    fn copy(&self) -> Result<Change, AllocError>
        ensures { IfOk result (λ copy. copy ≡ self.now) }
    {
        Ok(match self {
            Change::Put(row) => Change::Put(row.clone()?),
            Change::Drop(key) => Change::Drop(key.copy()?),
        })
    }
}

/// Changes, to be made in their order.
#[derive(Drop)]
pub struct Changes {
    changes: Vec<Change>,
}

impl Model for Changes {
    ghost use Rattle.std.specs.Prelude.{List};
    ghost use Rattle.nf_base.specs.declared.changes.Change.{Change};

    ghost Value = { List Change };

    ghost view = { λ list. list.changes.items };
}

impl Changes {
    pub fn new(alloc: Global) -> Self
        ensures { result ≡ [] }
    {
        Changes {
            changes: Vec::new(alloc),
        }
    }

    /// Puts a change at the end. For want of memory the list stays as it was.
    pub fn push(&mut self, change: Change) -> Result<(), AllocError>
        ensures ok { OnOk result (self.new ≡ self.old ++ change ∷ []) }
        ensures err { OnErr result (self.new ≡ self.old) }
    {
        self.changes.push(change)?;
        Ok(())
    }

    /// An equal list.
    pub fn copy(&self, alloc: Global) -> Result<Self, AllocError>
        ensures { IfOk result (λ copy. copy ≡ self.now) }
    {
        let mut copy = Changes::new(alloc);
        for change in &self.changes {
            copy.push(change.copy()?)?;
        }
        Ok(copy)
    }

    pub fn is_empty(&self) -> bool
        ensures { IsTrue result ↔ (self.now ≡ []) }
    {
        self.changes.is_empty()
    }

    pub fn as_slice(&self) -> &[Change]
        ensures { result.now ≡ self.now }
    {
        &self.changes
    }

    pub fn into_vec(self) -> Vec<Change>
        ensures { result.items ≡ self }
    {
        self.changes
    }
}
