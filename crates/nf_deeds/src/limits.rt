//! The limits of the site.

ghost use Rattle.std.specs.Prelude.{◌≡◌, ◌+◌, ◌≤◌, ◌||◌, filter, is_none, length, nat_lt, option_and_then, option_copied, IfOk, IsSome};
ghost use Rattle.nf_base.specs.declared.limits.TheConstants.{MAX_DEPTH, MAX_PIECES};
ghost use Rattle.nf_access.specs.Mounts.{mount_row};
ghost use Rattle.nf_defs.specs.Tree.{content_of, node_row, walk_of};
ghost use Rattle.nf_words.specs.Versions.{version_row};
ghost use Rattle.nf_words.specs.Limits.{back_limit, carry_limit, copy_limit, count_of, deepest, deepest_in, last_number, limit_at, limit_passed, limit_with, mount_limit, move_limit, pieces_in, pieces_of, restore_limit, versions_added};
ghost use Rattle.nf_words.specs.Contents.{stored_pieces};
ghost use Rattle.nf_words.specs.People.{are_many_groups, are_many_nodes, are_many_tokens, are_many_users, new_user_limit};
ghost use Rattle.nf_words.specs.Sharing.{offer_limit};
ghost use Rattle.nf_words.specs.Sound.{AreSound};
ghost use Rattle.nf_words.specs.declared.answer.Limit.TheVariants.{Members, Pieces, Shares};

use crate::receiving::mounts_for;
use crate::refilling::becomes_version;
use nf_base::{ItemRow, Moment, MountRow, NodeId};
use nf_defs::Found;
use nf_mounts::Mounts;
use nf_tree::Tree;
use nf_view::{View, crosses, home_of, version_row};
use nf_words::{Limit, Offer, Transfer};
use std::alloc::{AllocError, Global};

/// The limit that is passed where a content of so many pieces, all in new blobs, is put there.
pub fn limit_at(view: &View<'_>, place: &Found, pieces: u64) -> Option<Limit>
    ensures { result ≡ limit_at view.now.tables pieces place.now }
{
    limit_with(view, place, u128::from(pieces), pieces)
}

/// The same where so many of them are in new blobs.
pub fn limit_with(view: &View<'_>, place: &Found, pieces: u128, blobs: u64) -> Option<Limit>
    ensures { result ≡ limit_with view.now.tables pieces blobs place.now }
{
    match place {
        Found::At(node) => {
            let versions = versions_added(view, *node, None);
            limit_passed(view, 0, 0, versions, pieces, blobs)
        }
        Found::Free { folder } => {
            let deep = view.tree().depth(*folder) + 1;
            limit_passed(view, 1, deep, 0, pieces, blobs)
        }
        Found::Missing { .. } => None,
    }
}

/// The limit that is passed by what is moved: to another owner it is copied, and what goes then still counts.
pub fn carry_limit(
    alloc: Global,
    view: &View<'_>,
    transfer: &Transfer,
) -> Result<Option<Limit>, AllocError>
    ensures { IfOk result (λ limit. limit ≡ carry_limit view.now.tables transfer.now) }
{
    if crosses(view.tree(), transfer) {
        copy_limit(alloc, view, transfer)
    } else {
        move_limit(alloc, view, transfer)
    }
}

/// The limit that a move passes.
fn move_limit(
    alloc: Global,
    view: &View<'_>,
    transfer: &Transfer,
) -> Result<Option<Limit>, AllocError>
    ensures { IfOk result (λ limit. limit ≡ move_limit view.now.tables transfer.now) }
{
    let nodes = view.tree().subtree(alloc, transfer.node)?;
    let deep = deepest_in(view.tree(), &nodes, transfer);
    Ok(limit_passed(view, 0, deep, 0, 0, 0))
}

/// The limit that is passed by what comes back: it is moved there.
fn restore_limit(
    alloc: Global,
    view: &View<'_>,
    item: &ItemRow,
) -> Result<Option<Limit>, AllocError>
    ensures { IfOk result (λ limit. limit ≡ restore_limit view.now.tables item.now) }
{
    let transfer = Transfer {
        node: item.node,
        folder: home_of(view, item),
        replaced: None,
    };
    move_limit(alloc, view, &transfer)
}

/// The same of an item, if there is one.
pub fn restored_limit(
    alloc: Global,
    view: &View<'_>,
    item: Option<&ItemRow>,
) -> Result<Option<Limit>, AllocError>
    ensures { IfOk result (λ limit. limit ≡ option_and_then (restore_limit view.now.tables) (option_copied item.entry)) }
{
    match item {
        Some(row) => restore_limit(alloc, view, row),
        None => Ok(None),
    }
}

/// The limit that a copy passes. What it replaces still counts.
pub fn copy_limit(
    alloc: Global,
    view: &View<'_>,
    transfer: &Transfer,
) -> Result<Option<Limit>, AllocError>
    ensures { IfOk result (λ limit. limit ≡ copy_limit view.now.tables transfer.now) }
{
    let nodes = view.tree().subtree(alloc, transfer.node)?;
    let deep = deepest_in(view.tree(), &nodes, transfer);
    let pieces = pieces_in(view.tree(), &nodes);
    Ok(limit_passed(view, nodes.len() as u64, deep, 0, pieces, 0))
}

/// The limit that is passed by a new share, and by the mounts that it needs.
pub fn offer_limit(
    alloc: Global,
    view: &View<'_>,
    offer: &Offer,
) -> Result<Option<Limit>, AllocError>
    requires sound { AreSound view.now.tables }
    requires there { IsSome (node_row view.now.tables.nodes offer.now.node) }
    ensures { IfOk result (λ limit. limit ≡ offer_limit view.now.tables offer.now) }
{
    if are_many_shares(view) {
        return Ok(Some(Limit::Shares));
    }
    Ok(mount_limit(view, &mounts_for(alloc, view, offer)?))
}

fn are_many_shares(view: &View<'_>) -> bool
    ensures { result ≡ (nat_lt (count_of Shares) (length view.now.tables.shares + 1) || nat_lt last_number (view.now.tables.meta.next_share + 1)) }
{
    let shares = view.shares().count() as u128 + 1;
    passes(shares, Limit::Shares) || view.meta().next_share.number() > u64::MAX - 1
}

/// The limit that is passed by some rows of mounts; one that was left has its row already.
pub(crate) fn mount_limit(view: &View<'_>, rows: &[MountRow]) -> Option<Limit>
    ensures { result ≡ mount_limit view.now.tables.mounts rows.now }
{
    let count = view.mounts().count() as u128 + new_mounts(view.mounts(), rows) as u128;
    if passes(count, Limit::Mounts) {
        Some(Limit::Mounts)
    } else {
        None
    }
}

/// How many of the rows are of mounts that have none.
fn new_mounts(mounts: &Mounts, rows: &[MountRow]) -> usize
    ensures { result ≡ length (filter (λ row. is_none (mount_row mounts.now.rows row.user row.node)) rows.now) }
{
    rows.iter()
        .filter(|row| mounts.row(row.user, row.node).is_none())
        .count()
}

// ---- the limits of people

/// The limit that is passed by a new user, with its token and its root.
pub(crate) fn new_user_limit(view: &View<'_>) -> Option<Limit>
    ensures { result ≡ new_user_limit view.now.tables }
{
    if are_many_users(view) {
        Some(Limit::Users)
    } else if are_many_tokens(view) {
        Some(Limit::Tokens)
    } else if are_many_nodes(view) {
        Some(Limit::Nodes)
    } else {
        None
    }
}

fn are_many_users(view: &View<'_>) -> bool
    ensures { result ≡ are_many_users view.now.tables }
{
    let users = view.people().counts().users as u128 + 1;
    passes(users, Limit::Users) || view.meta().next_user.number() > u32::MAX - 1
}

/// Whether one group more is too many.
pub(crate) fn are_many_groups(view: &View<'_>) -> bool
    ensures { result ≡ are_many_groups view.now.tables }
{
    let groups = view.people().counts().groups as u128 + 1;
    passes(groups, Limit::Groups) || view.meta().next_group.number() > u32::MAX - 1
}

/// Whether one token more is.
pub(crate) fn are_many_tokens(view: &View<'_>) -> bool
    ensures { result ≡ are_many_tokens view.now.tables }
{
    let tokens = view.people().counts().tokens as u128 + 1;
    passes(tokens, Limit::Tokens)
}

/// Whether one member more is.
pub(crate) fn are_many_members(view: &View<'_>) -> bool
    ensures { result ≡ nat_lt (count_of Members) (length view.now.tables.members + 1) }
{
    let members = view.people().counts().members as u128 + 1;
    passes(members, Limit::Members)
}

fn are_many_nodes(view: &View<'_>) -> bool
    ensures { result ≡ are_many_nodes view.now.tables }
{
    let nodes = view.tree().count() as u128 + 1;
    passes(nodes, Limit::Nodes) || view.meta().next_node.number() > u64::MAX - 1
}

// ---- how much is moved and copied

/// How deep the deepest of the nodes under a node would be, with that in the folder.
fn deepest_in(tree: &Tree, nodes: &[NodeId], transfer: &Transfer) -> u32
    requires { nodes.now ≡ walk_of tree.now.rows transfer.now.node }
    ensures { result ≡ deepest_in tree.now.rows transfer.now.node transfer.now.folder }
{
    let below = deepest(tree, nodes).saturating_sub(tree.depth(transfer.node));
    tree.depth(transfer.folder) + 1 + below
}

/// How deep the deepest of some nodes is.
fn deepest(tree: &Tree, nodes: &[NodeId]) -> u32
    ensures depth { result ≡ deepest tree.now.rows nodes.now }
    ensures few { result ≤ MAX_DEPTH }
{
    let mut deep = 0;
    for node in nodes {
        deep = tree.depth(*node).max(deep);
    }
    deep
}

/// How many pieces some nodes name, with repeats. No sum of these passes a u128.
fn pieces_in(tree: &Tree, nodes: &[NodeId]) -> u128
    ensures { result ≡ pieces_in tree.now.rows nodes.now }
{
    let mut count = 0;
    for node in nodes {
        count += u128::from(pieces_at(tree, *node));
    }
    count
}

/// How many pieces a node names.
fn pieces_at(tree: &Tree, node: NodeId) -> u32
    ensures count { result ≡ length (content_of tree.now.rows node) }
    ensures few { result ≤ MAX_PIECES }
{
    match tree.node(node) {
        Some(row) => row.content.pieces().len() as u32,
        None => 0,
    }
}

/// How many versions there are more where the content of a file becomes another.
fn versions_added(view: &View<'_>, node: NodeId, back: Option<Moment>) -> u64
    ensures { result ≡ versions_added view.now.tables node back }
{
    match view.tree().node(node) {
        Some(row) if becomes_version(view, row, back) => 1,
        Some(_) | None => 0,
    }
}

/// The limit that is passed by a version that is a file's content again. It still counts as a version.
pub fn back_limit(view: &View<'_>, node: NodeId, at: Moment) -> Option<Limit>
    ensures { result ≡ option_and_then (back_limit view.now.tables node) (version_row view.now.tables.versions node at) }
{
    let version = version_row(view, node, at)?;
    let versions = versions_added(view, node, Some(version.at));
    let pieces = version.content.pieces().len() as u128;
    limit_passed(view, 0, 0, versions, pieces, 0)
}

/// The first limit that is passed by so many nodes more, the deepest of them so deep, so many versions and pieces more, and so many new
/// blobs.
pub(crate) fn limit_passed(
    view: &View<'_>,
    nodes: u64,
    deep: u32,
    versions: u64,
    pieces: u128,
    blobs: u64,
) -> Option<Limit>
    ensures { result ≡ limit_passed view.now.tables nodes deep versions pieces blobs }
{
    let meta = view.meta();
    let all_nodes = view.tree().count() as u128 + u128::from(nodes);
    if passes(all_nodes, Limit::Nodes) || meta.next_node.number() > u64::MAX - nodes {
        return Some(Limit::Nodes);
    }
    if passes(u128::from(deep), Limit::Depth) {
        return Some(Limit::Depth);
    }
    let all_versions = view.versions().count() as u128 + u128::from(versions);
    if passes(all_versions, Limit::Versions) {
        return Some(Limit::Versions);
    }
    if are_many(view, pieces) || meta.next_blob.number() > u64::MAX - blobs {
        return Some(Limit::Pieces);
    }
    None
}

/// Whether so many pieces more are too many.
fn are_many(view: &View<'_>, pieces: u128) -> bool
    ensures { result ≡ nat_lt (count_of Pieces) (stored_pieces view.now.tables + pieces) }
{
    let all_pieces = pieces.saturating_add(view.stored_pieces());
    passes(all_pieces, Limit::Pieces)
}

pub fn passes(count: u128, limit: Limit) -> bool
    ensures { result ≡ nat_lt (count_of limit) count }
{
    count > u128::from(limit.count())
}

/// The pieces of a body of so many bytes.
pub fn pieces_of(length: u64) -> u64
    ensures { result ≡ pieces_of length }
{
    if length == 0 { 0 } else { 1 }
}
