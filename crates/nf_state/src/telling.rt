//! What an act changes, told as a list of the rows that differ.

ghost use Rattle.std.specs.Prelude.{◌≡◌, count_by, true, false, [], ◌∷◌, ◌++◌, map, IfOk, OnOk};
ghost use Rattle.std.specs.List.{flat_map};
ghost use Rattle.nf_base.specs.declared.changes.Change.TheVariants as change;
ghost use Rattle.nf_base.specs.declared.changes.RowKey.TheVariants as keys;
ghost use Rattle.nf_base.specs.declared.rows.Row.TheVariants as kinds;
ghost use Rattle.nf_defs.specs.Tree.{is_leaf, is_under, node_row, relinked, trashed};
ghost use Rattle.nf_words.specs.Changes.{blob_of, changes_of, hold_of, meta_after, told, with_meta};
ghost use Rattle.nf_words.specs.Versions.{forgotten_of};
ghost use Rattle.nf_words.specs.Deeds.{closed_under, dropped_under, gone_under, is_closing, told_deed, told_deeds, told_node};
ghost use Rattle.nf_words.specs.declared.answer.Deed.TheVariants as deeds;
ghost use Rattle.nf_words.specs.declared.answer.LockKey.TheVariants as lock_keys;
ghost use Rattle.nf_words.specs.declared.answer.Mode.TheVariants.{Exclusive, Shared};
ghost use Rattle.nf_state.specs.Counts.{only_nodes};
ghost use Rattle.nf_state.specs.Current.{BearsAct, CountsDeed, CountsDeeds, added_by, added_deeds, added_of, counted_by, counted_with, discards, is_counted, is_fresh, nodes_joined, puts_chunk, puts_group, puts_item, puts_member, puts_mount, puts_share, puts_token, puts_upload, puts_user, puts_version, requotes, rows_joined};
ghost use Rattle.nf_state.specs.Gone.{TellsDeeds, closed_entry, told_first, told_gone};

use crate::counts::RowCounts;
use crate::tables::{copy, copy_item, counted, raised};
use nf_base::{
    BlobId, Change, Changes, ItemRow, MetaRow, Moment, Name, NodeId, NodeRow, Place, Row, RowKey,
    ShareId, ShareRow, UserId, VersionRow,
};
use nf_tree::Tree;
use nf_view::{View, dropped, ended, item_row, versions_of};
use nf_words::{Allowed, Deed, Hold, LockKey, Mode};
use std::alloc::{AllocError, Global};

/// What is counted of some changes.
#[derive(Clone, Copy)]
enum Counted {
    /// Nodes whose numbers weren't given yet, where this is the next one.
    Fresh(NodeId),
    Share,
    Mount,
    Version,
    Item,
    Upload,
    Chunk,
    User,
    Token,
    Group,
    Member,
}

/// The rows that an act changes, and no other.
pub fn changes(
    alloc: Global,
    view: &View<'_>,
    moment: Moment,
    act: &Allowed,
) -> Result<Changes, AllocError>
    requires { BearsAct view.now.tables act.now }
    ensures { IfOk result (λ changes. changes ≡ changes_of view.now.tables moment act.now) }
{
    let changes = told(alloc, view, act)?;
    let meta = meta_after(view, moment, act);
    with_meta(changes, view.meta(), meta)
}

/// The meta row is told where another row is, and where it is another.
fn with_meta(mut changes: Changes, old: &MetaRow, meta: MetaRow) -> Result<Changes, AllocError>
    ensures { IfOk result (λ all. all ≡ with_meta old.now meta changes) }
{
    if changes.is_empty() || *old == meta {
        return Ok(changes);
    }
    changes.push(Change::Put(Row::Meta(meta)))?;
    Ok(changes)
}

/// The same, but for the meta row.
fn told(alloc: Global, view: &View<'_>, act: &Allowed) -> Result<Changes, AllocError>
    requires { BearsAct view.now.tables act.now }
    ensures { IfOk result (λ changes. changes ≡ told view.now.tables act.now) }
{
    match act {
        Allowed::Change { changes, .. } => changes.copy(alloc),
        Allowed::Deeds { deeds, .. } => told_deeds(alloc, view, deeds.as_slice()),
        Allowed::Get { .. }
        | Allowed::List(_)
        | Allowed::Put { .. }
        | Allowed::Chunk { .. }
        | Allowed::Close => { Ok(Changes::new(alloc)) }
    }
}

/// A row in that folder, under that name.
fn relinked(row: &NodeRow, folder: NodeId, name: &Name) -> Result<NodeRow, AllocError>
    ensures { IfOk result (λ moved. moved ≡ relinked folder name.now row.now) }
{
    row.keeps();
    Ok(NodeRow {
        place: Place::Inside(folder),
        name: name.copy()?,
        content: row.content.clone()?,
        ..*row
    })
}

/// Puts all the rows.
fn put_all(changes: &mut Changes, rows: &[NodeRow]) -> Result<(), AllocError>
    ensures { OnOk result (changes.new ≡ changes.old ++ map (λ row. change.Put (kinds.Node row)) rows.now) }
{
    for row in rows {
        changes.push(Change::Put(Row::Node(copy(row)?)))?;
    }
    Ok(())
}

// ---- what is gone

/// A node is dropped with all under it, and the shares there are ended.
fn push_gone(
    alloc: Global,
    view: &View<'_>,
    node: NodeId,
    changes: &mut Changes,
) -> Result<(), AllocError>
    ensures { OnOk result (changes.new ≡ changes.old ++ gone_under view.now.tables.nodes view.now.tables.shares node) }
{
    let nodes = view.tree().subtree(alloc, node)?;
    drop_all(changes, &nodes)?;
    close_under(changes, view, node)
}

fn drop_all(changes: &mut Changes, nodes: &[NodeId]) -> Result<(), AllocError>
    ensures { OnOk result (changes.new ≡ changes.old ++ map (λ node. change.Drop (keys.Node node)) nodes.now) }
{
    for node in nodes {
        changes.push(Change::Drop(RowKey::Node(*node)))?;
    }
    Ok(())
}

/// The versions of some nodes are dropped.
fn forget_all(changes: &mut Changes, view: &View<'_>, nodes: &[NodeId]) -> Result<(), AllocError>
    ensures { OnOk result (changes.new ≡ changes.old ++ flat_map (forgotten_of view.now.tables.versions) nodes.now) }
{
    for node in nodes {
        forget_of(changes, versions_of(view, *node))?;
    }
    Ok(())
}

fn forget_of(changes: &mut Changes, rows: &[VersionRow]) -> Result<(), AllocError>
    ensures { OnOk result (changes.new ≡ changes.old ++ map (λ row. change.Drop (keys.Version row.node row.at)) rows.now) }
{
    for row in rows {
        changes.push(dropped(row.node, row.at))?;
    }
    Ok(())
}

/// The shares of what is under the top are ended. Where nothing is in that, its own are found by it, without a look at any other.
fn close_under(changes: &mut Changes, view: &View<'_>, top: NodeId) -> Result<(), AllocError>
    ensures { OnOk result (changes.new ≡ changes.old ++ closed_under view.now.tables.nodes view.now.tables.shares top) }
{
    if view.tree().is_leaf(top) {
        close_on(changes, view, top)
    } else {
        close_below(changes, view, top)
    }
}

fn close_on(changes: &mut Changes, view: &View<'_>, leaf: NodeId) -> Result<(), AllocError>
    requires { is_leaf view.now.tables.nodes leaf ≡ true }
    ensures { OnOk result (changes.new ≡ changes.old ++ closed_under view.now.tables.nodes view.now.tables.shares leaf) }
{
    for entry in view.shares().entries(leaf) {
        close_entry(changes, view, leaf, entry.share)?;
    }
    Ok(())
}

/// The share of that number is ended, if it is one of the node.
fn close_entry(
    changes: &mut Changes,
    view: &View<'_>,
    leaf: NodeId,
    share: ShareId,
) -> Result<(), AllocError>
    requires { is_leaf view.now.tables.nodes leaf ≡ true }
    ensures { OnOk result (changes.new ≡ changes.old ++ closed_entry view.now.tables leaf share) }
{
    match view.shares().row(share) {
        Some(row) => push_closed(changes, view.tree(), true, leaf, row),
        None => Ok(()),
    }
}

fn close_below(changes: &mut Changes, view: &View<'_>, top: NodeId) -> Result<(), AllocError>
    requires { is_leaf view.now.tables.nodes top ≡ false }
    ensures { OnOk result (changes.new ≡ changes.old ++ closed_under view.now.tables.nodes view.now.tables.shares top) }
{
    for share in view.shares().rows() {
        push_closed(changes, view.tree(), false, top, share)?;
    }
    Ok(())
}

/// A share of a node under the top is ended, where it wasn't.
fn push_closed(
    changes: &mut Changes,
    tree: &Tree,
    is_empty: bool,
    top: NodeId,
    share: &ShareRow,
) -> Result<(), AllocError>
    requires { is_empty ≡ is_leaf tree.now.rows top }
    ensures { OnOk result (changes.new ≡ changes.old ++ closed_under tree.now.rows (share.now ∷ []) top) }
{
    if is_closing(tree, is_empty, top, share) {
        changes.push(Change::Put(Row::Share(ended(share)?)))?;
    }
    Ok(())
}

fn is_closing(tree: &Tree, is_empty: bool, top: NodeId, share: &ShareRow) -> bool
    requires { is_empty ≡ is_leaf tree.now.rows top }
    ensures { result ≡ is_closing tree.now.rows top share.now }
{
    !share.ended && is_under(tree, is_empty, share.node, top)
}

/// Whether a node is under the top. Where nothing is in that, no climb is needed, of which there would be one from each share of the site.
#[tactic(auto, using(nf_defs::proofs::Climbs::under_leaf))]
fn is_under(tree: &Tree, is_empty: bool, node: NodeId, top: NodeId) -> bool
    requires { is_empty ≡ is_leaf tree.now.rows top }
    ensures { result ≡ is_under tree.now.rows node top }
{
    if is_empty {
        node == top
    } else {
        tree.under(node, top)
    }
}

// ---- deeds

/// What becomes of the rows by some deeds, one after the other.
fn told_deeds(alloc: Global, view: &View<'_>, deeds: &[Deed]) -> Result<Changes, AllocError>
    requires { TellsDeeds view.now.tables deeds.now }
    ensures { IfOk result (λ changes. changes ≡ told_deeds view.now.tables deeds.now) }
{
    let mut changes = Changes::new(alloc);
    for deed in deeds {
        push_deed(alloc, view, deed, &mut changes)?;
    }
    Ok(changes)
}

/// What becomes of them by one.
fn push_deed(
    alloc: Global,
    view: &View<'_>,
    deed: &Deed,
    changes: &mut Changes,
) -> Result<(), AllocError>
    ensures { OnOk result (changes.new ≡ changes.old ++ told_first view.now.tables deed.now) }
{
    match deed {
        Deed::Discard(item) => push_discarded(view, item, changes),
        Deed::Purge(node) => push_purged(alloc, view, *node, changes),
        Deed::Restore { node, folder, name } => {
            changes.push(Change::Drop(RowKey::Item(*node)))?;
            push_relinked(view, *node, *folder, name, changes)
        }
        Deed::Relink { node, folder, name } => push_relinked(view, *node, *folder, name, changes),
        Deed::Join(rows) => put_all(changes, rows.rows()),
        Deed::Requote(row) => changes.push(Change::Put(Row::User(row.clone()?))),
        Deed::Forget { node, at } => changes.push(dropped(*node, *at)),
        Deed::Store(stored) => push_all(changes, stored.copy(alloc)?),
        Deed::Abandon { user, dir } => push_abandoned(view, *user, dir, changes),
    }
}

/// Some changes as they are.
fn push_all(changes: &mut Changes, all: Changes) -> Result<(), AllocError>
    ensures { OnOk result (changes.new ≡ changes.old ++ all) }
{
    for change in all.into_vec() {
        changes.push(change)?;
    }
    Ok(())
}

/// The chunks of an upload are dropped, and then the upload.
fn push_abandoned(
    view: &View<'_>,
    user: UserId,
    dir: &Name,
    changes: &mut Changes,
) -> Result<(), AllocError>
    ensures { OnOk result (changes.new ≡ changes.old ++ told_deed view.now.tables (deeds.Abandon user dir.now)) }
{
    for chunk in view.uploads().chunks_of(user, dir) {
        changes.push(Change::Drop(RowKey::Chunk {
            user: chunk.user,
            dir: chunk.dir.copy()?,
            number: chunk.number,
        }))?;
    }
    changes.push(Change::Drop(RowKey::Upload {
        user,
        dir: dir.copy()?,
    }))
}

/// The node of an item is in the trash, the item is there, and the shares of what is under the node are ended.
fn push_discarded(view: &View<'_>, item: &ItemRow, changes: &mut Changes) -> Result<(), AllocError>
    ensures { OnOk result (changes.new ≡ changes.old ++ told_deed view.now.tables (deeds.Discard item.now)) }
{
    push_trashed(view, item.node, changes)?;
    changes.push(Change::Put(Row::Item(copy_item(item)?)))?;
    close_under(changes, view, item.node)
}

/// A node's row is put in the trash, if the node is there.
fn push_trashed(view: &View<'_>, node: NodeId, changes: &mut Changes) -> Result<(), AllocError>
    ensures { OnOk result (changes.new ≡ changes.old ++ told_node (node_row view.now.tables.nodes node) trashed) }
{
    if let Some(row) = view.tree().node(node) {
        changes.push(Change::Put(Row::Node(in_trash(row)?)))?;
    }
    Ok(())
}

/// A node's row is put in its new place, if the node is there.
fn push_relinked(
    view: &View<'_>,
    node: NodeId,
    folder: NodeId,
    name: &Name,
    changes: &mut Changes,
) -> Result<(), AllocError>
    ensures { OnOk result (changes.new ≡ changes.old ++ told_node (node_row view.now.tables.nodes node) (relinked folder name.now)) }
{
    if let Some(row) = view.tree().node(node) {
        changes.push(Change::Put(Row::Node(relinked(row, folder, name)?)))?;
    }
    Ok(())
}

/// A node goes for good with all under it, and with its item. Of what is in the trash no share is left to end, so that for an item the
/// shares of the site aren't gone through.
fn push_purged(
    alloc: Global,
    view: &View<'_>,
    node: NodeId,
    changes: &mut Changes,
) -> Result<(), AllocError>
    ensures { OnOk result (changes.new ≡ changes.old ++ told_gone view.now.tables node) }
{
    let nodes = view.tree().subtree(alloc, node)?;
    forget_all(changes, view, &nodes)?;
    match item_row(view, node) {
        Some(_) => push_item_gone(alloc, view, node, changes),
        None => push_gone(alloc, view, node, changes),
    }
}

/// A row in the trash.
fn in_trash(row: &NodeRow) -> Result<NodeRow, AllocError>
    ensures { IfOk result (λ moved. moved ≡ trashed row.now) }
{
    let mut row = copy(row)?;
    row.place = Place::Trash;
    Ok(row)
}

/// A node is dropped with all under it, and so is its item.
fn push_item_gone(
    alloc: Global,
    view: &View<'_>,
    node: NodeId,
    changes: &mut Changes,
) -> Result<(), AllocError>
    ensures { OnOk result (changes.new ≡ changes.old ++ dropped_under view.now.tables.nodes node ++ change.Drop (keys.Item node) ∷ []) }
{
    let nodes = view.tree().subtree(alloc, node)?;
    drop_all(changes, &nodes)?;
    changes.push(Change::Drop(RowKey::Item(node)))
}

// ---- the other parts of an act

/// The meta row after an act: its counters, and the moment.
fn meta_after(view: &View<'_>, moment: Moment, act: &Allowed) -> MetaRow
    requires { BearsAct view.now.tables act.now }
    ensures { result ≡ meta_after view.now.tables moment act.now }
{
    let meta = view.meta();
    match act {
        Allowed::Change { changes, blob, .. } => raised(meta, moment, changes.as_slice(), *blob),
        Allowed::Deeds { deeds, .. } => MetaRow {
            last: moment,
            ..counted_by(meta, deeds.as_slice())
        },
        Allowed::Get { .. }
        | Allowed::List(_)
        | Allowed::Put { .. }
        | Allowed::Chunk { .. }
        | Allowed::Close => MetaRow {
            last: moment,
            ..*meta
        },
    }
}

/// The meta row with its counters after some deeds.
fn counted_by(meta: &MetaRow, deeds: &[Deed]) -> MetaRow
    requires { CountsDeeds meta.now deeds.now }
    ensures { result ≡ counted_by meta.now deeds.now }
{
    let mut counted = *meta;
    for deed in deeds {
        counted = counted_with(&counted, deed);
    }
    counted
}

/// And after one.
fn counted_with(meta: &MetaRow, deed: &Deed) -> MetaRow
    requires { CountsDeed meta.now deed.now }
    ensures { result ≡ counted_with meta.now deed.now }
{
    match deed {
        Deed::Join(rows) => MetaRow {
            next_node: NodeId::new(meta.next_node.number() + rows.rows().len() as u64),
            ..*meta
        },
        Deed::Store(changes) => counted(meta, changes.as_slice()),
        Deed::Discard(_)
        | Deed::Purge(_)
        | Deed::Restore { .. }
        | Deed::Relink { .. }
        | Deed::Requote(_)
        | Deed::Forget { .. }
        | Deed::Abandon { .. } => *meta,
    }
}

/// How many nodes are made by some deeds.
fn nodes_joined(deeds: &[Deed]) -> usize
    ensures { result ≡ nodes_joined deeds.now }
{
    let mut count: usize = 0;
    for deed in deeds {
        count = count.saturating_add(rows_joined(deed));
    }
    count
}

/// How many are made by one.
fn rows_joined(deed: &Deed) -> usize
    ensures { result ≡ rows_joined deed.now }
{
    match deed {
        Deed::Join(rows) => rows.rows().len(),
        Deed::Store(_)
        | Deed::Discard(_)
        | Deed::Purge(_)
        | Deed::Restore { .. }
        | Deed::Relink { .. }
        | Deed::Requote(_)
        | Deed::Forget { .. }
        | Deed::Abandon { .. } => 0,
    }
}

/// How many rows an act adds at most.
pub fn added_by(view: &View<'_>, act: &Allowed) -> RowCounts
    ensures { result ≡ added_by view.now.tables act.now }
{
    match act {
        Allowed::Change { changes, .. } => added_of(view.meta().next_node, changes.as_slice()),
        Allowed::Get { .. }
        | Allowed::List(_)
        | Allowed::Put { .. }
        | Allowed::Chunk { .. }
        | Allowed::Close => { RowCounts::only_nodes(0) }
        Allowed::Deeds { deeds, .. } => added_deeds(view.meta().next_node, deeds.as_slice()),
    }
}

/// How many rows some deeds add at most. Behind changes that are stored nothing is added.
fn added_deeds(next: NodeId, deeds: &[Deed]) -> RowCounts
    ensures { result ≡ added_deeds next deeds.now }
{
    match deeds.first() {
        Some(Deed::Store(changes)) => added_of(next, changes.as_slice()),
        _ => added_otherwise(deeds),
    }
}

/// What deeds add where none stores changes: copies, items of the trash, and a user.
fn added_otherwise(deeds: &[Deed]) -> RowCounts
    ensures { result ≡ record (only_nodes (nodes_joined deeds.now)) { users = count_by requotes deeds.now; items = count_by discards deeds.now } }
{
    RowCounts {
        items: deeds.iter().filter(|deed| discards(deed)).count(),
        users: deeds.iter().filter(|deed| requotes(deed)).count(),
        ..RowCounts::only_nodes(nodes_joined(deeds))
    }
}

fn discards(deed: &Deed) -> bool
    ensures { result ≡ discards deed.now }
{
    matches!(deed, Deed::Discard(_))
}

fn requotes(deed: &Deed) -> bool
    ensures { result ≡ requotes deed.now }
{
    matches!(deed, Deed::Requote(_))
}

/// How many rows some changes add at most: nodes of numbers that weren't given yet, and rows of the other kinds.
fn added_of(next: NodeId, changes: &[Change]) -> RowCounts
    ensures { result ≡ added_of next changes.now }
{
    RowCounts {
        users: change_count(&Counted::User, changes),
        tokens: change_count(&Counted::Token, changes),
        groups: change_count(&Counted::Group, changes),
        members: change_count(&Counted::Member, changes),
        nodes: change_count(&Counted::Fresh(next), changes),
        shares: change_count(&Counted::Share, changes),
        mounts: change_count(&Counted::Mount, changes),
        versions: change_count(&Counted::Version, changes),
        items: change_count(&Counted::Item, changes),
        uploads: change_count(&Counted::Upload, changes),
        chunks: change_count(&Counted::Chunk, changes),
    }
}

/// How many of the changes are counted.
fn change_count(counted: &Counted, changes: &[Change]) -> usize
    ensures { result ≡ count_by (is_counted counted.now) changes.now }
{
    let mut count = 0;
    for change in changes {
        if is_counted(counted, change) {
            count += 1;
        }
    }
    count
}

/// Whether the change puts a row that is counted.
fn is_counted(counted: &Counted, change: &Change) -> bool
    ensures { result ≡ is_counted counted.now change.now }
{
    match counted {
        Counted::Fresh(next) => is_fresh(*next, change),
        Counted::Share => puts_share(change),
        Counted::Mount => puts_mount(change),
        Counted::Version => puts_version(change),
        Counted::Item => puts_item(change),
        Counted::Upload => puts_upload(change),
        Counted::Chunk => puts_chunk(change),
        Counted::User => puts_user(change),
        Counted::Token => puts_token(change),
        Counted::Group => puts_group(change),
        Counted::Member => puts_member(change),
    }
}

/// Whether a node is put whose number wasn't given yet.
fn is_fresh(next: NodeId, change: &Change) -> bool
    ensures { result ≡ is_fresh next change.now }
{
    match change {
        Change::Put(Row::Node(row)) => row.id >= next,
        Change::Put(_) | Change::Drop(_) => false,
    }
}

fn puts_share(change: &Change) -> bool
    ensures { result ≡ puts_share change.now }
{
    matches!(change, Change::Put(Row::Share(_)))
}

fn puts_mount(change: &Change) -> bool
    ensures { result ≡ puts_mount change.now }
{
    matches!(change, Change::Put(Row::Mount(_)))
}

fn puts_version(change: &Change) -> bool
    ensures { result ≡ puts_version change.now }
{
    matches!(change, Change::Put(Row::Version(_)))
}

fn puts_item(change: &Change) -> bool
    ensures { result ≡ puts_item change.now }
{
    matches!(change, Change::Put(Row::Item(_)))
}

fn puts_upload(change: &Change) -> bool
    ensures { result ≡ puts_upload change.now }
{
    matches!(change, Change::Put(Row::Upload(_)))
}

fn puts_chunk(change: &Change) -> bool
    ensures { result ≡ puts_chunk change.now }
{
    matches!(change, Change::Put(Row::Chunk(_)))
}

fn puts_user(change: &Change) -> bool
    ensures { result ≡ puts_user change.now }
{
    matches!(change, Change::Put(Row::User(_)))
}

fn puts_token(change: &Change) -> bool
    ensures { result ≡ puts_token change.now }
{
    matches!(change, Change::Put(Row::Token(_)))
}

fn puts_group(change: &Change) -> bool
    ensures { result ≡ puts_group change.now }
{
    matches!(change, Change::Put(Row::Group(_)))
}

fn puts_member(change: &Change) -> bool
    ensures { result ≡ puts_member change.now }
{
    matches!(change, Change::Put(Row::Member(_)))
}

/// The blob that an act stores.
pub fn blob_of(act: &Allowed) -> Option<BlobId>
    ensures { result ≡ blob_of act.now }
{
    match act {
        Allowed::Change { blob, .. } => *blob,
        Allowed::Get { .. }
        | Allowed::List(_)
        | Allowed::Put { .. }
        | Allowed::Chunk { .. }
        | Allowed::Deeds { .. }
        | Allowed::Close => None,
    }
}

/// What a seat holds for what an act grants. It copies the key.
pub fn hold_of(act: &Allowed) -> Result<Option<Hold>, AllocError>
    ensures { IfOk result (λ hold. hold ≡ hold_of act.now) }
{
    match act {
        Allowed::Get { node, .. } => Ok(Some(beside(*node))),
        Allowed::Put { key, .. } => Ok(Some(alone(key)?)),
        Allowed::List(_)
        | Allowed::Chunk { .. }
        | Allowed::Change { .. }
        | Allowed::Deeds { .. }
        | Allowed::Close => Ok(None),
    }
}

/// A file that is held beside others who read it.
fn beside(node: NodeId) -> Hold
    ensures { result ≡ record { key = lock_keys.Node node; mode = Shared } }
{
    Hold {
        key: LockKey::Node(node),
        mode: Mode::Shared,
    }
}

/// A key that is held alone.
fn alone(key: &LockKey) -> Result<Hold, AllocError>
    ensures { IfOk result (λ hold. hold ≡ record { key = key.now; mode = Exclusive }) }
{
    Ok(Hold {
        key: key.copy()?,
        mode: Mode::Exclusive,
    })
}
