//! The rows of the tables, and lists of them.

ghost use Rattle.std.specs.Prelude.{◌≡◌, [], ◌∷◌, ◌++◌, IfOk, OnOk, OnErr};
ghost use Rattle.nf_base.specs.declared.rows.Row.{Row};

use crate::{BlobId, Content, Digest, GroupId, Moment, Name, NodeId, Path, Perms, ShareId, UserId};
use std::alloc::{AllocError, Global};
use std::marker::Model;

/// The counters of the next ids, and the moment of the last step that changed a row.
#[derive(Clone, Copy, PartialEq, Eq)]
pub struct MetaRow {
    pub next_user: UserId,
    pub next_group: GroupId,
    pub next_node: NodeId,
    pub next_share: ShareId,
    pub next_blob: BlobId,
    pub last: Moment,
}

/// A user, with a quota in bytes.
#[derive(Clone, PartialEq, Eq, Drop)]
pub struct UserRow {
    pub id: UserId,
    pub name: Name,
    pub quota: u64,
    pub root: NodeId,
}

/// The digest of a secret that its holder shows to be known as the user.
#[derive(Clone, Copy, PartialEq, Eq)]
pub struct TokenRow {
    pub digest: Digest,
    pub user: UserId,
}

#[derive(Clone, PartialEq, Eq, Drop)]
pub struct GroupRow {
    pub id: GroupId,
    pub name: Name,
}

#[derive(Clone, Copy, PartialEq, Eq)]
pub struct MemberRow {
    pub group: GroupId,
    pub user: UserId,
}

/// Where a node is.
#[derive(Clone, Copy, PartialEq, Eq)]
pub enum Place {
    /// It is the root folder of its owner.
    Root,
    /// It is in that folder.
    Inside(NodeId),
    /// It is the top of an item in its owner's trash.
    Trash,
}

#[derive(Clone, Copy, PartialEq, Eq)]
pub enum NodeKind {
    Folder,
    File,
}

/// A file or a folder. A folder's content is empty.
#[derive(Clone, PartialEq, Eq, Drop)]
pub struct NodeRow {
    pub id: NodeId,
    pub owner: UserId,
    pub place: Place,
    pub name: Name,
    pub kind: NodeKind,
    pub content: Content,
    /// When the node was made or its content replaced.
    pub changed: Moment,
}

impl Model for NodeRow {
    ghost use Rattle.nf_base.specs.Kept.{IsPlain};
    ghost use Rattle.nf_base.specs.NodeValue.{NodeValue};

    ghost Value = { NodeValue };

    ghost view = { λ row. record { id = row.id; owner = row.owner; place = row.place; name = row.name; kind = row.kind; content = row.content; changed = row.changed } };

    ghost invariant = { λ row. IsPlain row.kind row.content };

    ghost inverse = { λ row. record { id = row.id; owner = row.owner; place = row.place; name = row.name; kind = row.kind; content = row.content; changed = row.changed } };
}

impl NodeRow {
    ghost use Rattle.nf_base.specs.Kept.{IsPlain};

    /// Tells callers what every such row keeps; it does nothing.
    pub fn keeps(&self)
        ensures { IsPlain self.now.kind self.now.content }
    {
        let _ = &self.kind;
    }
}

/// Whom a share is for: a user, a group, or whoever knows the link's token.
#[derive(Clone, PartialEq, Eq, Drop)]
pub enum ShareKind {
    User(UserId),
    Group(GroupId),
    Link(Name),
}

#[derive(PartialEq, Eq, Drop)]
pub struct ShareRow {
    pub id: ShareId,
    pub kind: ShareKind,
    pub node: NodeId,
    /// The node's owner when the share was made.
    pub owner: UserId,
    pub initiator: UserId,
    /// The share that this one passes on.
    pub parent: Option<ShareId>,
    pub perms: Perms,
    pub until: Option<Moment>,
    pub ended: bool,
    pub made: Moment,
}

// Only the kind may hold memory. A derive would ask at each field whether there is any.
impl Clone for ShareRow {
    ghost is_clone = { λ row copy. copy ≡ row };

    fn clone(&self) -> Result<Self, AllocError> {
        Ok(ShareRow {
            kind: self.kind.clone()?,
            ..*self
        })
    }
}

/// The name under which a shared node stands in a user's root.
#[derive(Clone, PartialEq, Eq, Drop)]
pub struct MountRow {
    pub user: UserId,
    pub node: NodeId,
    pub name: Name,
    pub left: bool,
}

/// An earlier content of a file, with the moment at which it became current.
#[derive(Clone, PartialEq, Eq, Drop)]
pub struct VersionRow {
    pub node: NodeId,
    pub at: Moment,
    pub content: Content,
}

/// An item of the trash: a node, and the folder and name that it had.
#[derive(Clone, PartialEq, Eq, Drop)]
pub struct ItemRow {
    pub node: NodeId,
    pub owner: UserId,
    pub name: Name,
    pub from: NodeId,
    pub at: Moment,
}

/// An upload in chunks, and the path that it is for.
#[derive(Clone, PartialEq, Eq, Drop)]
pub struct UploadRow {
    pub user: UserId,
    pub dir: Name,
    pub to: Path,
    pub touched: Moment,
}

/// A chunk of an upload. Its content has one piece, or none where the chunk is empty.
#[derive(Clone, PartialEq, Eq, Drop)]
pub struct ChunkRow {
    pub user: UserId,
    pub dir: Name,
    pub number: u16,
    pub content: Content,
}

impl Model for ChunkRow {
    ghost use Rattle.std.specs.Prelude.{◌≤◌, length};
    ghost use Rattle.nf_base.specs.ChunkValue.{ChunkValue};

    ghost Value = { ChunkValue };

    ghost view = { λ row. record { user = row.user; dir = row.dir; number = row.number; content = row.content } };

    ghost invariant = { λ row. length row.content ≤ 1 };

    ghost inverse = { λ row. record { user = row.user; dir = row.dir; number = row.number; content = row.content } };
}

impl ChunkRow {
    ghost use Rattle.std.specs.Prelude.{◌≤◌, length};

    /// Tells callers what every such row keeps; it does nothing.
    pub fn keeps(&self)
        ensures { length self.now.content ≤ 1 }
    {
        let _ = &self.content;
    }
}

/// A row of any kind.
#[derive(Clone, PartialEq, Eq, Drop)]
pub enum Row {
    Meta(MetaRow),
    User(UserRow),
    Token(TokenRow),
    Group(GroupRow),
    Member(MemberRow),
    Node(NodeRow),
    Share(ShareRow),
    Mount(MountRow),
    Version(VersionRow),
    Item(ItemRow),
    Upload(UploadRow),
    Chunk(ChunkRow),
}

impl Row {
    ghost use Rattle.nf_base.specs.KeptRows.{IsKept};

    /// Tells callers what every row keeps; it does nothing.
    pub fn keeps(&self)
        ensures { IsKept self.now }
    {
        match self {
            Row::Node(row) => {
                let _ = row.content.pieces();
                row.keeps();
            }
            Row::Version(row) => {
                let _ = row.content.pieces();
            }
            Row::Chunk(row) => {
                let _ = row.content.pieces();
                row.keeps();
            }
            _ => {}
        }
    }

    /// An equal row.
    pub fn copy(&self) -> Result<Row, AllocError>
        ensures { IfOk result (λ copy. copy ≡ self.now) }
    {
        self.clone()
    }
}

/// Rows of any kind, in their order.
#[derive(Drop)]
pub struct RowList {
    rows: Vec<Row>,
}

impl Model for RowList {
    ghost use Rattle.std.specs.Prelude.{List};
    ghost use Rattle.nf_base.specs.declared.rows.Row.{Row};

    ghost Value = { List Row };

    ghost use Rattle.std.specs.Prelude.{All};
    ghost use Rattle.nf_base.specs.KeptRows.{IsKept};

    ghost view = { λ list. list.rows.items };

    ghost invariant = { λ list. All IsKept list.rows.items };
}

impl RowList {
    ghost use Rattle.std.specs.Prelude.{All};
    ghost use Rattle.nf_base.specs.KeptRows.{IsKept};

    pub fn new(alloc: Global) -> Self
        ensures { result ≡ [] }
    {
        RowList {
            rows: Vec::new(alloc),
        }
    }

    pub fn rows(&self) -> &[Row]
        ensures rows { result.now ≡ self.now }
        ensures kept { All IsKept self.now }
    {
        &self.rows
    }

    /// The rows themselves, in their order.
    pub fn into_rows(self) -> Vec<Row>
        ensures rows { result.items ≡ self }
        ensures kept { All IsKept self }
    {
        self.rows
    }

    /// Puts a row at the end. For want of memory the list stays as it was.
    pub fn push(&mut self, row: Row) -> Result<(), AllocError>
        ensures ok { OnOk result (self.new ≡ self.old ++ row ∷ []) }
        ensures err { OnErr result (self.new ≡ self.old) }
    {
        row.keeps();
        self.rows.push(row)?;
        Ok(())
    }
}
