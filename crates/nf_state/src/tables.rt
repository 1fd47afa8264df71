//! The rows of the site in memory.

ghost use Rattle.std.specs.Prelude.{◌≡◌, ◌≢◌, ◌⊎◌, ℕ, ◌+◌, ◌<◌, ◌≤◌, ◌∷◌, ◌++◌, [], false, is_some, IsTrue, All, AllPairs, length, map, max, slice_get, IfOk, IsSome, OnOk, None, Some};
ghost use Rattle.nf_base.specs.declared.changes.Change.TheVariants.{Put};
ghost use Rattle.nf_base.specs.declared.limits.TheConstants.{MAX_NODES};
ghost use Rattle.nf_base.specs.declared.rows.NodeRow.{NodeRow};
ghost use Rattle.nf_base.specs.declared.rows.Row.TheVariants as kinds;
ghost use Rattle.nf_base.specs.declared.rows.MetaRow.{MetaRow};
ghost use Rattle.nf_defs.specs.Prelude.{drop_row, dropped, item_key, item_row, made, node_key, node_row, put, put_all, rows_of};
ghost use Rattle.nf_words.specs.Prelude.{above, blob_after, changed, counted, deed_done, deeds_done, discarded, forgotten, goal_of, joined, last_number, purged, purges, replaced, restored, versions_there};
ghost use Rattle.nf_words.specs.declared.answer.Report.TheVariants.{Done};
ghost use Rattle.nf_words.specs.declared.answer.Allowed.TheVariants as allowed;
ghost use Rattle.nf_state.specs.Current.{AreBorne, AreGiven, BearsAct, BearsChanges, BearsCopies, BearsDeed, BearsDeeds, BearsPlace, IsBorne, IsCounted, IsDroppedKey, IsNew, IsRefilled, LeadUpBehind, StoresFirst, added_by, added_deed, added_deeds, added_of};
ghost use Rattle.nf_state.specs.Gone.{item_gone};
ghost use Rattle.nf_state.specs.Rows.{rows_beside, rows_of_others};
ghost use Rattle.nf_rules.specs.Ruled.{AreRuled};
ghost use Rattle.nf_state.specs.Counts.{FitsNodes, FitsRows, IsNoSmaller, only_nodes};

use crate::counts::RowCounts;
use crate::people_put::{put_group, put_member, put_token, put_user};
use nf_base::{
    BlobId, Change, Changes, ChunkRow, GroupId, ItemRow, MetaRow, Moment, MountRow, Name, NodeId,
    NodeRow, Row, RowKey, RowList, ShareId, ShareRow, UploadRow, UserId, VersionRow,
};
use nf_mounts::Mounts;
use nf_opening::Loaded;
use nf_people::{People, PeopleRows};
use nf_shares::Shares;
use nf_table::{Table, VersionKey};
use nf_trash::Trash;
use nf_tree::Tree;
use nf_uploads::Uploads;
use nf_view::View;
use nf_words::{Allowed, Deed, Deeds, Goal, NodeRows, Ticket};
use std::alloc::{AllocError, Global};
use std::marker::Model;

/// The rows of each kind.
#[derive(Drop)]
pub(crate) struct Tables {
    meta: MetaRow,
    people: People,
    tree: Tree,
    shares: Shares,
    mounts: Mounts,
    versions: Table<VersionRow>,
    items: Trash,
    uploads: Uploads,
}

impl Model for Tables {
    ghost use Rattle.nf_view.specs.Rows.{tables_in};
    ghost use Rattle.nf_state.specs.Rows.{Rows};

    ghost Value = { Rows };

    ghost view = { λ t. record {
      tables = tables_in t.meta t.people t.tree.rows t.shares.rows t.mounts.rows t.versions.rows t.items.rows t.uploads.uploads t.uploads.chunks;
      room = record {
        users = t.people.room.users;
        tokens = t.people.room.tokens;
        groups = t.people.room.groups;
        members = t.people.room.members;
        nodes = t.tree.room;
        shares = t.shares.room;
        mounts = t.mounts.room;
        versions = t.versions.room;
        items = t.items.room;
        uploads = t.uploads.upload_room;
        chunks = t.uploads.chunk_room;
      };
    } };
}

impl Tables {
    /// The tables of rows that were loaded.
    pub(crate) fn of(alloc: Global, loaded: Loaded) -> Result<Self, AllocError>
        requires { AreRuled loaded }
        ensures { IfOk result (λ held. held.tables ≡ loaded) }
    {
        let meta = loaded.meta;
        let parts = split(loaded);
        let people = People::load(alloc, parts.people)?;
        let tree = Tree::load(alloc, parts.nodes)?;
        let shares = Shares::load(alloc, parts.shares)?;
        Ok(Tables {
            meta,
            people,
            tree,
            shares,
            mounts: Mounts::load(alloc, parts.mounts)?,
            versions: Table::of(parts.versions),
            items: Trash::load(alloc, parts.items)?,
            uploads: Uploads::of(parts.uploads, parts.chunks),
        })
    }

    pub(crate) fn meta(&self) -> &MetaRow
        ensures { result.now ≡ self.now.tables.meta }
    {
        &self.meta
    }

    /// A view of them, with tickets and the greatest moment seen.
    pub(crate) fn view<'a>(&'a self, tickets: &'a [Ticket], seen: Moment) -> View<'a>
        ensures { result ≡ record { tables = self.now.tables; tickets = tickets.now; seen = seen } }
    {
        View {
            meta: &self.meta,
            people: &self.people,
            tree: &self.tree,
            shares: &self.shares,
            mounts: &self.mounts,
            versions: &self.versions,
            items: &self.items,
            uploads: &self.uploads,
            tickets,
            seen,
        }
    }

    /// Tells callers that the rows fit; it does nothing.
    pub(crate) fn keeps_room(&self)
        ensures { FitsRows self.now.tables self.now.room (only_nodes 0) }
    {
        self.people.keeps();
        self.tree.keeps();
        self.shares.keeps();
        self.mounts.keeps();
        let _ = self.versions.count();
        let _ = self.items.count();
        let _ = (self.uploads.count(), self.uploads.chunk_count());
    }

    /// Makes room for so many rows more.
    pub(crate) fn reserve(&mut self, added: RowCounts) -> Result<(), AllocError>
        requires few { length self.old.tables.nodes + added.nodes ≤ MAX_NODES }
        ensures ok { OnOk result (FitsRows self.new.tables self.new.room added) }
        ensures same { self.new.tables ≡ self.old.tables }
    {
        // There may be so many nodes, so it is memory that lacks.
        if self.tree.reserve(added.nodes).is_err() {
            return Err(AllocError);
        }
        self.people.reserve(added.people())?;
        self.shares.reserve(added.shares)?;
        self.mounts.reserve(added.mounts)?;
        self.versions.reserve(added.versions)?;
        self.items.reserve(added.items)?;
        self.uploads.reserve(added.uploads, added.chunks)
    }

    /// Makes the changes of an act, and answers what it grants.
    pub(crate) fn alter(&mut self, moment: Moment, act: Allowed) -> Option<Goal>
        requires room { FitsRows self.old.tables self.old.room (added_by self.old.tables act) }
        requires bears { BearsAct self.old.tables act }
        requires given { AreGiven self.old.tables }
        ensures tables { self.new.tables ≡ changed self.old.tables moment act }
        ensures goal { result ≡ goal_of act }
    {
        match act {
            Allowed::Get { node: _, content } => Some(Goal::Serve(content)),
            Allowed::Put { by, key, length } => Some(Goal::Store { by, key, length }),
            Allowed::Chunk {
                user,
                dir,
                number,
                length,
            } => Some(Goal::Chunk {
                user,
                dir,
                number,
                length,
            }),
            Allowed::List(_) | Allowed::Close => None,
            Allowed::Change { changes, blob, .. } => {
                self.change(moment, changes, blob);
                None
            }
            Allowed::Deeds { deeds, .. } => {
                self.perform_all(moment, deeds);
                None
            }
        }
    }

    /// Puts rows, with the counters above their numbers and behind the blob. It takes no memory, and no other change needs any.
    fn change(&mut self, moment: Moment, changes: Changes, blob: Option<BlobId>)
        requires room { FitsRows self.old.tables self.old.room (added_of self.old.tables.meta.next_node changes) }
        requires bears { BearsChanges self.old.tables changes blob }
        requires given { AreGiven self.old.tables }
        ensures { self.new.tables ≡ changed self.old.tables moment (allowed.Change changes blob Done) }
    {
        if changes.is_empty() {
            return;
        }
        let meta = raised(&self.meta, moment, changes.as_slice(), blob);
        self.put_all(changes);
        self.meta = meta;
    }

    fn put_all(&mut self, changes: Changes)
        requires room { FitsRows self.old.tables self.old.room (added_of self.old.tables.meta.next_node changes) }
        requires borne { AreBorne self.old.tables.meta.next_node self.old.tables changes }
        requires rising { AllPairs (λ (a b : NodeRow). a.id < b.id) self.old.tables.nodes }
        ensures tables { self.new.tables ≡ put_all self.old.tables changes }
        ensures room { IsNoSmaller self.old.room self.new.room }
    {
        for change in changes.into_vec() {
            self.make(change);
        }
    }

    /// Makes a change. The meta row is none.
    fn make(&mut self, change: Change)
        requires room { FitsRows self.old.tables self.old.room (added_of self.old.tables.meta.next_node (change ∷ [])) }
        requires borne { IsBorne self.old.tables.meta.next_node self.old.tables change }
        ensures tables { self.new.tables ≡ made self.old.tables change }
        ensures room { IsNoSmaller self.old.room self.new.room }
    {
        match change {
            Change::Put(Row::User(row)) => put_user(&mut self.people, row),
            Change::Put(Row::Token(row)) => put_token(&mut self.people, row),
            Change::Put(Row::Group(row)) => put_group(&mut self.people, row),
            Change::Put(Row::Member(row)) => put_member(&mut self.people, row),
            Change::Drop(key) => self.drop_row(&key),
            Change::Put(Row::Node(row)) => put_node(&mut self.tree, row),
            Change::Put(Row::Share(row)) => self.shares.put(row),
            Change::Put(Row::Mount(row)) => self.mounts.put(row),
            Change::Put(Row::Version(row)) => self.versions.put(row),
            Change::Put(Row::Item(row)) => self.items.put(row),
            Change::Put(Row::Upload(row)) => self.uploads.put_upload(row),
            Change::Put(Row::Chunk(row)) => self.uploads.put_chunk(row),
            Change::Put(Row::Meta(_)) => unreachable!(),
        }
    }

    /// Drops the member, the version or the item of that key; no other row is ever dropped by its key.
    fn drop_row(&mut self, key: &RowKey)
        requires { IsDroppedKey key.now }
        ensures tables { self.new.tables ≡ drop_row self.old.tables key.now }
        ensures room { self.new.room ≡ self.old.room }
    {
        match key {
            RowKey::Member { group, user } => {
                let _ = self.people.drop_member(*group, *user);
            }
            RowKey::Version { node, at } => self.forget(*node, *at),
            RowKey::Item(node) => {
                self.items.drop(*node);
            }
            RowKey::Meta
            | RowKey::User(_)
            | RowKey::Token(_)
            | RowKey::Group(_)
            | RowKey::Node(_)
            | RowKey::Share(_)
            | RowKey::Mount { .. }
            | RowKey::Upload { .. }
            | RowKey::Chunk { .. } => unreachable!(),
        }
    }

    /// Does some deeds, one after the other. Where there is no memory to gather items that go for good, they go one by one.
    fn perform_all(&mut self, moment: Moment, deeds: Deeds)
        requires room { FitsRows self.old.tables self.old.room (added_deeds self.old.tables.meta.next_node deeds) }
        requires bears { BearsDeeds self.old.tables deeds }
        requires order { StoresFirst deeds }
        ensures { self.new.tables ≡ changed self.old.tables moment (allowed.Deeds deeds Done) }
    {
        let deeds = deeds.into_vec();
        if deeds.is_empty() {
            return;
        }
        self.perform_each(deeds);
        self.stamp(moment);
    }

    /// Items that go for good one after the other go together, in one pass over the rows.
    fn perform_each(&mut self, deeds: Vec<Deed>)
        requires room { FitsRows self.old.tables self.old.room (added_deeds self.old.tables.meta.next_node deeds.items) }
        requires bears { BearsDeeds self.old.tables deeds.items }
        requires order { StoresFirst deeds.items }
        ensures { self.new.tables ≡ deeds_done self.old.tables deeds.items }
    {
        let mut run = Vec::new(*deeds.allocator());
        for deed in deeds {
            if !self.gathers(&deed, &mut run) {
                self.purge_items(&mut run);
                self.perform(deed);
            }
        }
        self.purge_items(&mut run);
    }

    /// Puts the node of an item that a deed takes out for good behind those of a run, and tells whether it is there now.
    fn gathers(&self, deed: &Deed, run: &mut Vec<NodeId>) -> bool
        ensures gathered { IsTrue result → (node : ℕ) × (item_gone self.now.tables deed.now ≡ Some node) × (run.new.items ≡ run.old.items ++ node ∷ []) }
        ensures left { result ≡ false → run.new.items ≡ run.old.items }
    {
        match self.item_gone(deed) {
            Some(node) => run.push(node).is_ok(),
            None => false,
        }
    }

    /// The node of the item that a deed takes out for good, if it does.
    fn item_gone(&self, deed: &Deed) -> Option<NodeId>
        ensures { result ≡ item_gone self.now.tables deed.now }
    {
        match deed {
            Deed::Purge(node) if self.has_item(*node) => Some(*node),
            _ => None,
        }
    }

    fn has_item(&self, node: NodeId) -> bool
        ensures { result ≡ is_some (item_row self.now.tables.items node) }
    {
        self.items.find(node).is_some()
    }

    /// Takes out the nodes of a run of items for good, each with all under it and with its item. Of what is in the trash no share is left
    /// to end.
    fn purge_items(&mut self, run: &mut Vec<NodeId>)
        requires items { All (λ node. IsSome (item_row self.old.tables.items node)) run.old.items }
        requires bears { BearsDeeds self.old.tables (purges run.old.items) }
        ensures tables { self.new.tables ≡ deeds_done self.old.tables (purges run.old.items) }
        ensures room { self.new.room ≡ self.old.room }
        ensures run { run.new.items ≡ [] }
    {
        if run.is_empty() {
            return;
        }
        self.purge_run(run);
    }

    /// The same of a run of some.
    fn purge_run(&mut self, run: &mut Vec<NodeId>)
        requires some { run.old.items ≢ [] }
        requires items { All (λ node. IsSome (item_row self.old.tables.items node)) run.old.items }
        requires bears { BearsDeeds self.old.tables (purges run.old.items) }
        ensures tables { self.new.tables ≡ deeds_done self.old.tables (purges run.old.items) }
        ensures room { self.new.room ≡ self.old.room }
        ensures run { run.new.items ≡ [] }
    {
        self.tree.purge_all(run);
        run.sort_unstable();
        self.items.drop_all(run);
        self.forget_gone();
        run.clear();
    }

    fn perform(&mut self, deed: Deed)
        requires room { FitsRows self.old.tables self.old.room (added_deed self.old.tables.meta.next_node deed) }
        requires bears { BearsDeed self.old.tables deed }
        ensures tables { self.new.tables ≡ deed_done self.old.tables deed }
        ensures room { IsNoSmaller self.old.room self.new.room }
    {
        match deed {
            Deed::Discard(item) => self.discard(item),
            Deed::Purge(node) => self.purge(node),
            Deed::Restore { node, folder, name } => self.restore(node, folder, name),
            Deed::Relink { node, folder, name } => self.tree.relink(node, folder, name),
            Deed::Join(rows) => self.join(rows),
            Deed::Requote(row) => put_user(&mut self.people, row),
            Deed::Forget { node, at } => self.forget(node, at),
            Deed::Store(changes) => self.store(changes),
            Deed::Abandon { user, dir } => self.uploads.abandon(user, &dir),
        }
    }

    /// Makes some changes, with the counters above the numbers that they put.
    fn store(&mut self, changes: Changes)
        requires room { FitsRows self.old.tables self.old.room (added_of self.old.tables.meta.next_node changes) }
        requires bears { BearsChanges self.old.tables changes None }
        requires given { AreGiven self.old.tables }
        ensures tables { self.new.tables ≡ replaced self.old.tables changes }
        ensures room { IsNoSmaller self.old.room self.new.room }
    {
        let meta = counted(&self.meta, changes.as_slice());
        self.put_all(changes);
        self.meta = meta;
    }

    /// Puts a node in the trash with all under it, as that item, and ends the shares there.
    fn discard(&mut self, item: ItemRow)
        requires room { length self.old.tables.items < self.old.room.items }
        requires there { IsSome (node_row self.old.tables.nodes item.node) }
        ensures tables { self.new.tables ≡ discarded self.old.tables item }
        ensures room { IsNoSmaller self.old.room self.new.room }
    {
        self.shares.end_under(&self.tree, item.node);
        self.tree.detach(item.node);
        self.items.put(item);
    }

    /// Puts the node of an item into that folder, under that name.
    fn restore(&mut self, node: NodeId, folder: NodeId, name: Name)
        requires { BearsPlace self.old.tables node folder name }
        ensures tables { self.new.tables ≡ restored self.old.tables node folder name }
        ensures room { self.new.room ≡ self.old.room }
    {
        self.tree.attach(node, folder, name);
        self.drop_item(node);
    }

    /// Takes out a node and all under it for good, with its item, and ends the shares there.
    fn purge(&mut self, node: NodeId)
        ensures tables { self.new.tables ≡ purged self.old.tables node }
        ensures room { self.new.room ≡ self.old.room }
    {
        self.shares.end_under(&self.tree, node);
        self.tree.purge(node);
        self.drop_item(node);
        self.forget_gone();
    }

    /// Drops the version of that moment, if there is one.
    fn forget(&mut self, node: NodeId, at: Moment)
        ensures tables { self.new.tables ≡ forgotten self.old.tables node at }
        ensures room { self.new.room ≡ self.old.room }
    {
        let _ = self.versions.drop(&VersionKey { node, at });
    }

    /// Drops the versions of nodes that are there no more.
    fn forget_gone(&mut self)
        ensures tables { self.new.tables ≡ record self.old.tables { versions = versions_there self.old.tables.nodes self.old.tables.versions } }
        ensures room { self.new.room ≡ self.old.room }
    {
        let tree = &self.tree;
        self.versions.keep(|row| has_node(tree, row.node));
    }

    /// Drops the item of a node, if there is one.
    fn drop_item(&mut self, node: NodeId)
        ensures tables { self.new.tables ≡ record self.old.tables { items = dropped item_key (node ∷ []) self.old.tables.items } }
        ensures room { self.new.room ≡ self.old.room }
    {
        self.items.drop(node);
    }

    /// Puts new nodes in, with the next numbers.
    fn join(&mut self, rows: NodeRows)
        requires room { FitsNodes self.old.tables self.old.room.nodes (length rows) }
        requires bears { BearsCopies self.old.tables rows }
        ensures tables { self.new.tables ≡ joined self.old.tables rows }
        ensures room { self.new.room ≡ self.old.room }
    {
        self.meta.next_node = add_all(&mut self.tree, self.meta.next_node, rows);
    }

    /// Records when a row was last changed.
    fn stamp(&mut self, moment: Moment)
        ensures { self.new.tables ≡ record self.old.tables { meta = record self.old.tables.meta { last = moment } } }
    {
        self.meta.last = moment;
    }

    /// All rows, by rising kind and key.
    pub(crate) fn rows(&self, alloc: Global) -> Result<RowList, AllocError>
        ensures { IfOk result (λ list. list ≡ rows_of self.now.tables) }
    {
        let mut list = RowList::new(alloc);
        list.push(Row::Meta(self.meta))?;
        self.people.push_rows(&mut list)?;
        self.push_others(&mut list)?;
        Ok(list)
    }

    /// Puts the rows that aren't of people at the end of a list of rows.
    fn push_others(&self, list: &mut RowList) -> Result<(), AllocError>
        ensures { OnOk result (list.new ≡ list.old ++ rows_of_others self.now.tables) }
    {
        push_nodes(list, self.tree.nodes())?;
        push_shares(list, self.shares.rows())?;
        push_mounts(list, self.mounts.rows())?;
        self.push_beside(list)
    }

    /// Puts those of versions, of the trash and of uploads there.
    fn push_beside(&self, list: &mut RowList) -> Result<(), AllocError>
        ensures { OnOk result (list.new ≡ list.old ++ rows_beside self.now.tables) }
    {
        push_versions(list, self.versions.rows())?;
        push_items(list, self.items.rows())?;
        push_uploads(list, self.uploads.uploads())?;
        push_chunks(list, self.uploads.chunks())
    }
}

/// The rows that were loaded, by the parts that hold them.
#[derive(Drop)]
struct Parts {
    people: PeopleRows,
    nodes: Vec<NodeRow>,
    shares: Vec<ShareRow>,
    mounts: Vec<MountRow>,
    versions: Vec<VersionRow>,
    items: Vec<ItemRow>,
    uploads: Vec<UploadRow>,
    chunks: Vec<ChunkRow>,
}

fn split(loaded: Loaded) -> Parts
    ensures users { result.people.users.items ≡ loaded.users }
    ensures tokens { result.people.tokens.items ≡ loaded.tokens }
    ensures groups { result.people.groups.items ≡ loaded.groups }
    ensures members { result.people.members.items ≡ loaded.members }
    ensures nodes { result.nodes.items ≡ loaded.nodes }
    ensures shares { result.shares.items ≡ loaded.shares }
    ensures mounts { result.mounts.items ≡ loaded.mounts }
    ensures versions { result.versions.items ≡ loaded.versions }
    ensures items { result.items.items ≡ loaded.items }
    ensures uploads { result.uploads.items ≡ loaded.uploads }
    ensures chunks { result.chunks.items ≡ loaded.chunks }
{
    Parts {
        people: PeopleRows {
            users: loaded.users,
            tokens: loaded.tokens,
            groups: loaded.groups,
            members: loaded.members,
        },
        nodes: loaded.nodes,
        shares: loaded.shares,
        mounts: loaded.mounts,
        versions: loaded.versions,
        items: loaded.items,
        uploads: loaded.uploads,
        chunks: loaded.chunks,
    }
}

/// Puts rows with the next numbers behind the others, and answers the number after theirs.
fn add_all(tree: &mut Tree, next: NodeId, rows: NodeRows) -> NodeId
    requires room { length tree.old.rows + length rows ≤ tree.old.room }
    requires given { All (λ (row : NodeRow). row.id < next) tree.old.rows }
    requires numbered { (k : ℕ) (row : NodeRow) → slice_get rows k ≡ Some row → row.id ≡ next + k }
    requires few { next + length rows ≤ last_number }
    requires leads { LeadUpBehind tree.old.rows rows }
    ensures tree { tree.new ≡ record tree.old { rows = tree.old.rows ++ rows } }
    ensures next { result ≡ next + length rows }
{
    let mut next = next;
    for row in rows.into_rows() {
        tree.add(row);
        next = NodeId::new(next.number() + 1);
    }
    next
}

/// An equal node.
pub(crate) fn copy(node: &NodeRow) -> Result<NodeRow, AllocError>
    ensures { IfOk result (λ copy. copy ≡ node.now) }
{
    node.clone()
}

/// Puts nodes at the end of a list of rows.
fn push_nodes(list: &mut RowList, nodes: &[NodeRow]) -> Result<(), AllocError>
    ensures { OnOk result (list.new ≡ list.old ++ map kinds.Node nodes.now) }
{
    for node in nodes {
        list.push(Row::Node(copy(node)?))?;
    }
    Ok(())
}

/// Puts shares at the end of a list of rows.
fn push_shares(list: &mut RowList, shares: &[ShareRow]) -> Result<(), AllocError>
    ensures { OnOk result (list.new ≡ list.old ++ map kinds.Share shares.now) }
{
    for share in shares {
        list.push(Row::Share(share.clone()?))?;
    }
    Ok(())
}

/// An equal mount.
fn copy_mount(mount: &MountRow) -> Result<MountRow, AllocError>
    ensures { IfOk result (λ copy. copy ≡ mount.now) }
{
    Ok(MountRow {
        name: mount.name.copy()?,
        ..*mount
    })
}

/// Puts mounts at the end of a list of rows.
fn push_mounts(list: &mut RowList, mounts: &[MountRow]) -> Result<(), AllocError>
    ensures { OnOk result (list.new ≡ list.old ++ map kinds.Mount mounts.now) }
{
    for mount in mounts {
        list.push(Row::Mount(copy_mount(mount)?))?;
    }
    Ok(())
}

/// An equal item of the trash.
pub(crate) fn copy_item(item: &ItemRow) -> Result<ItemRow, AllocError>
    ensures { IfOk result (λ copy. copy ≡ item.now) }
{
    item.clone()
}

/// Puts items of the trash at the end of a list of rows.
fn push_items(list: &mut RowList, items: &[ItemRow]) -> Result<(), AllocError>
    ensures { OnOk result (list.new ≡ list.old ++ map kinds.Item items.now) }
{
    for item in items {
        list.push(Row::Item(copy_item(item)?))?;
    }
    Ok(())
}

/// An equal upload.
fn copy_upload(upload: &UploadRow) -> Result<UploadRow, AllocError>
    ensures { IfOk result (λ copy. copy ≡ upload.now) }
{
    upload.clone()
}

/// Puts uploads at the end of a list of rows.
fn push_uploads(list: &mut RowList, uploads: &[UploadRow]) -> Result<(), AllocError>
    ensures { OnOk result (list.new ≡ list.old ++ map kinds.Upload uploads.now) }
{
    for upload in uploads {
        list.push(Row::Upload(copy_upload(upload)?))?;
    }
    Ok(())
}

/// An equal chunk.
fn copy_chunk(chunk: &ChunkRow) -> Result<ChunkRow, AllocError>
    ensures { IfOk result (λ copy. copy ≡ chunk.now) }
{
    chunk.clone()
}

/// Puts chunks at the end of a list of rows.
fn push_chunks(list: &mut RowList, chunks: &[ChunkRow]) -> Result<(), AllocError>
    ensures { OnOk result (list.new ≡ list.old ++ map kinds.Chunk chunks.now) }
{
    for chunk in chunks {
        list.push(Row::Chunk(copy_chunk(chunk)?))?;
    }
    Ok(())
}

/// An equal version.
fn copy_version(version: &VersionRow) -> Result<VersionRow, AllocError>
    ensures { IfOk result (λ copy. copy ≡ version.now) }
{
    version.clone()
}

/// Puts versions at the end of a list of rows.
fn push_versions(list: &mut RowList, versions: &[VersionRow]) -> Result<(), AllocError>
    ensures { OnOk result (list.new ≡ list.old ++ map kinds.Version versions.now) }
{
    for version in versions {
        list.push(Row::Version(copy_version(version)?))?;
    }
    Ok(())
}

/// Puts a node at the end, or another content of a file in the place of the old one.
fn put_node(tree: &mut Tree, row: NodeRow)
    requires room { is_some (node_row tree.old.rows row.id) ≡ false → length tree.old.rows < tree.old.room }
    requires borne { IsNew tree.old.rows row ⊎ IsRefilled tree.old.rows row }
    ensures { tree.new ≡ record tree.old { rows = put node_key row tree.old.rows } }
{
    let _ = tree.nodes();
    if has_node(tree, row.id) {
        tree.replace(row.id, row.content, row.changed);
    } else {
        tree.add(row);
    }
}

fn has_node(tree: &Tree, node: NodeId) -> bool
    ensures { result ≡ is_some (node_row tree.now.rows node) }
{
    tree.node(node).is_some()
}

/// The meta row with its counters raised for some changes and a blob, at a moment.
pub(crate) fn raised(
    meta: &MetaRow,
    moment: Moment,
    changes: &[Change],
    blob: Option<BlobId>,
) -> MetaRow
    requires numbers { All (IsCounted meta.now) changes.now }
    requires blob { blob_after meta.now.next_blob blob ≤ max meta.now.next_blob last_number }
    ensures { result ≡ record (counted meta.now changes.now) { next_blob = blob_after meta.now.next_blob blob; last = moment } }
{
    MetaRow {
        next_blob: blob_after(meta.next_blob, blob),
        last: moment,
        ..counted(meta, changes)
    }
}

/// The meta row with its counters above the numbers that some changes put.
pub(crate) fn counted(meta: &MetaRow, changes: &[Change]) -> MetaRow
    requires { All (IsCounted meta.now) changes.now }
    ensures { result ≡ counted meta.now changes.now }
{
    let mut counted = *meta;
    for change in changes {
        counted = above(counted, change);
    }
    counted
}

/// The meta row with its counters above the number that is put.
fn above(meta: MetaRow, change: &Change) -> MetaRow
    requires { IsCounted meta change.now }
    ensures { result ≡ above meta change.now }
{
    match change {
        Change::Put(Row::User(row)) => MetaRow {
            next_user: meta.next_user.max(UserId::new(row.id.number() + 1)),
            ..meta
        },
        Change::Put(Row::Group(row)) => MetaRow {
            next_group: meta.next_group.max(GroupId::new(row.id.number() + 1)),
            ..meta
        },
        Change::Put(Row::Node(row)) => MetaRow {
            next_node: meta.next_node.max(NodeId::new(row.id.number() + 1)),
            ..meta
        },
        Change::Put(Row::Share(row)) => MetaRow {
            next_share: meta.next_share.max(ShareId::new(row.id.number() + 1)),
            ..meta
        },
        Change::Put(_) | Change::Drop(_) => meta,
    }
}

/// The next blob, where that one is stored or none.
fn blob_after(next: BlobId, blob: Option<BlobId>) -> BlobId
    requires { blob_after next blob ≤ max next last_number }
    ensures { result ≡ blob_after next blob }
{
    match blob {
        Some(_) => BlobId::new(next.number() + 1),
        None => next,
    }
}
