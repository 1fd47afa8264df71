//! The tables of stored rows.

ghost use Rattle.std.specs.Prelude.{◌≡◌, IfOk, OnOk, is_some, option_copied};
ghost use Rattle.nf_access.specs.Shares.{share_row};
ghost use Rattle.nf_defs.specs.Prelude.{AreRising, item_row, no_rows, node_row, put_row, tables_of, user_row};
ghost use Rattle.nf_rules.specs.Rules.{is_group, is_upload};
ghost use Rattle.nf_words.specs.Sound.{root_of_user};

use crate::numbered::find_row;
use crate::uploads::UploadKey;
use nf_base::{
    BlobId, ChunkRow, GroupId, GroupRow, ItemRow, MemberRow, MetaRow, Moment, MountRow, Name,
    NodeId, NodeRow, Row, ShareId, ShareRow, TokenRow, UploadRow, UserId, UserRow, VersionRow,
};
use nf_defs::{has_row, put};
use std::alloc::{AllocError, Global};
use std::marker::Model;

/// Rows by their kinds, each kind in the order of its keys.
#[derive(Drop)]
pub struct Loaded {
    pub meta: MetaRow,
    pub users: Vec<UserRow>,
    pub tokens: Vec<TokenRow>,
    pub groups: Vec<GroupRow>,
    pub members: Vec<MemberRow>,
    pub nodes: Vec<NodeRow>,
    pub shares: Vec<ShareRow>,
    pub mounts: Vec<MountRow>,
    pub versions: Vec<VersionRow>,
    pub items: Vec<ItemRow>,
    pub uploads: Vec<UploadRow>,
    pub chunks: Vec<ChunkRow>,
}

impl Model for Loaded {
    ghost use Rattle.nf_defs.specs.Tables.{Tables};

    ghost Value = { Tables };

    ghost view = { λ t. record {
      meta = t.meta;
      users = t.users.items;
      tokens = t.tokens.items;
      groups = t.groups.items;
      members = t.members.items;
      nodes = t.nodes.items;
      shares = t.shares.items;
      mounts = t.mounts.items;
      versions = t.versions.items;
      items = t.items.items;
      uploads = t.uploads.items;
      chunks = t.chunks.items;
    } };
}

impl Loaded {
    fn new(alloc: Global) -> Self
        ensures { result ≡ no_rows }
    {
        Loaded {
            meta: MetaRow {
                next_user: UserId::new(1),
                next_group: GroupId::new(1),
                next_node: NodeId::new(1),
                next_share: ShareId::new(1),
                next_blob: BlobId::new(1),
                last: Moment::new(0),
            },
            users: Vec::new(alloc),
            tokens: Vec::new(alloc),
            groups: Vec::new(alloc),
            members: Vec::new(alloc),
            nodes: Vec::new(alloc),
            shares: Vec::new(alloc),
            mounts: Vec::new(alloc),
            versions: Vec::new(alloc),
            items: Vec::new(alloc),
            uploads: Vec::new(alloc),
            chunks: Vec::new(alloc),
        }
    }

    /// The tables of some rows, in whatever order they are.
    pub fn of(alloc: Global, rows: &[Row]) -> Result<Self, AllocError>
        ensures tables { IfOk result (λ loaded. loaded ≡ tables_of rows.now) }
        ensures rising { IfOk result AreRising }
    {
        let mut loaded = Loaded::new(alloc);
        for row in rows {
            loaded.put(row.copy()?)?;
        }
        Ok(loaded)
    }

    /// Puts a row at its place, in place of the one with its key if there is one.
    fn put(&mut self, row: Row) -> Result<(), AllocError>
        requires { AreRising self.old }
        ensures { OnOk result (self.new ≡ put_row self.old row) }
    {
        match row {
            Row::Meta(row) => {
                self.meta = row;
                Ok(())
            }
            Row::User(row) => put(&mut self.users, row),
            Row::Token(row) => put(&mut self.tokens, row),
            Row::Group(row) => put(&mut self.groups, row),
            Row::Member(row) => put(&mut self.members, row),
            Row::Node(row) => put(&mut self.nodes, row),
            Row::Share(row) => put(&mut self.shares, row),
            Row::Mount(row) => put(&mut self.mounts, row),
            Row::Version(row) => put(&mut self.versions, row),
            Row::Item(row) => put(&mut self.items, row),
            Row::Upload(row) => put(&mut self.uploads, row),
            Row::Chunk(row) => put(&mut self.chunks, row),
        }
    }

    /// The row of a user.
    pub(crate) fn user(&self, id: UserId) -> Option<&UserRow>
        requires { AreRising self.now }
        ensures { option_copied result ≡ user_row self.now.users id }
    {
        find_row(&self.users, u64::from(id.number()))
    }

    /// The root of a user; 0 where there is no such user.
    pub(crate) fn root_of(&self, user: UserId) -> NodeId
        requires { AreRising self.now }
        ensures { result ≡ root_of_user self.now user }
    {
        match self.user(user) {
            Some(row) => row.root,
            None => NodeId::new(0),
        }
    }

    /// The row of a node.
    pub(crate) fn node(&self, id: NodeId) -> Option<&NodeRow>
        requires { AreRising self.now }
        ensures { option_copied result ≡ node_row self.now.nodes id }
    {
        find_row(&self.nodes, id.number())
    }

    /// The row of a share.
    pub(crate) fn share(&self, id: ShareId) -> Option<&ShareRow>
        requires { AreRising self.now }
        ensures { option_copied result ≡ share_row self.now.shares id }
    {
        find_row(&self.shares, id.number())
    }

    pub(crate) fn has_group(&self, id: GroupId) -> bool
        requires { AreRising self.now }
        ensures { result ≡ is_group self.now id }
    {
        find_row(&self.groups, u64::from(id.number())).is_some()
    }

    /// Whether the trash has an item with that node as its top.
    pub(crate) fn has_item(&self, node: NodeId) -> bool
        requires { AreRising self.now }
        ensures { result ≡ is_some (item_row self.now.items node) }
    {
        find_row(&self.items, node.number()).is_some()
    }

    /// Whether the user has an upload under that name.
    pub(crate) fn has_upload(&self, user: UserId, dir: &Name) -> bool
        requires { AreRising self.now }
        ensures { result ≡ is_upload self.now user dir.now }
    {
        has_row(&self.uploads, &UploadKey { user, dir })
    }
}
