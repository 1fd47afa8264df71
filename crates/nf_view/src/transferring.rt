//! What is moved or copied, and where to.

ghost use Rattle.std.specs.Prelude.{◌≡◌, false};
ghost use Rattle.std.specs.Option.{option_map_or};
ghost use Rattle.nf_words.specs.Places.{crosses, folder_at, folder_in, folder_seen, is_free_in, is_inside, is_off_mount, is_root_at, is_same, misplaced, misplaced_by, transfer_between, transfer_by, transfer_of, transfer_to, unfit, unfit_between};

use crate::asked::{is_transfer, node_at, node_found};
use crate::nodes::{is_root, owner_of, parent_of};
use nf_base::NodeId;
use nf_defs::Found;
use nf_reach::{Way, Ways, place_at};
use nf_tree::Tree;
use nf_words::{Asked, Places, TargetFault, Transfer};

/// From the node at the source to the place of the target, where that is in a folder.
pub fn transfer_of(tree: &Tree, places: &Places) -> Option<Transfer>
    ensures { result ≡ transfer_of tree.now.rows places.now }
{
    let node = node_at(places.source)?;
    transfer_to(tree, node, &places.target?)
}

/// From a node to a place that is in a folder.
fn transfer_to(tree: &Tree, node: NodeId, place: &Found) -> Option<Transfer>
    ensures { result ≡ transfer_to tree.now.rows node place.now }
{
    Some(Transfer {
        node,
        folder: folder_at(tree, place)?,
        replaced: node_found(place),
    })
}

/// The folder of what is put at a place.
fn folder_at(tree: &Tree, place: &Found) -> Option<NodeId>
    ensures { result ≡ folder_at tree.now.rows place.now }
{
    match place {
        Found::At(node) => parent_of(tree, *node),
        Found::Free { folder } => Some(*folder),
        Found::Missing { .. } => None,
    }
}

/// Whether the node and the folder that it is put into are of two owners.
pub fn crosses(tree: &Tree, transfer: &Transfer) -> bool
    ensures { result ≡ crosses tree.now.rows transfer.now }
{
    owner_of(tree, transfer.node) != owner_of(tree, transfer.folder)
}

// ---- by ways

/// The folder of what is at the end of a way or is put there: a mount is in the root of its user.
fn folder_in(tree: &Tree, root: NodeId, way: &Way) -> Option<NodeId>
    ensures { result ≡ folder_in tree.now.rows root way.now }
{
    if way.itself {
        Some(root)
    } else {
        folder_seen(tree, root, &way.place)
    }
}

/// The folder at a place, as who asks sees it: what the paths lead from is in none.
fn folder_seen(tree: &Tree, root: NodeId, place: &Found) -> Option<NodeId>
    ensures { result ≡ folder_seen tree.now.rows root place.now }
{
    match place {
        Found::At(node) if *node == root => None,
        place => folder_at(tree, place),
    }
}

/// From a node to the end of a way that is in a folder.
fn transfer_by(tree: &Tree, root: NodeId, node: NodeId, way: &Way) -> Option<Transfer>
    ensures { result ≡ transfer_by tree.now.rows root node way.now }
{
    Some(Transfer {
        node,
        folder: folder_in(tree, root, way)?,
        replaced: node_found(&way.place),
    })
}

fn transfer_between(tree: &Tree, root: NodeId, ways: &Ways) -> Option<Transfer>
    ensures { result ≡ transfer_between tree.now.rows root ways.now }
{
    let node = node_at(place_at(&ways.source))?;
    transfer_by(tree, root, node, ways.target.as_ref()?)
}

/// What may not be done: a transfer that doesn't fit, or the removal of a root.
pub fn unfit(tree: &Tree, root: NodeId, asked: &Asked<'_>, ways: &Ways) -> Option<TargetFault>
    ensures { result ≡ unfit tree.now.rows root asked.now ways.now }
{
    let renames = ways.is_mount_asked(asked);
    if is_transfer(&asked.makes) {
        return unfit_between(tree, root, renames, ways);
    }
    if asked.removes && !renames && is_root_at(tree, root, &ways.source) {
        return Some(TargetFault::Root);
    }
    None
}

/// Why what is at the source can't be put at the target: the first of root, same, inside and mount.
fn unfit_between(tree: &Tree, root: NodeId, renames: bool, ways: &Ways) -> Option<TargetFault>
    ensures { result ≡ unfit_between tree.now.rows root renames ways.now }
{
    if !renames && is_root_at(tree, root, &ways.source) {
        return Some(TargetFault::Root);
    }
    match transfer_between(tree, root, ways) {
        Some(transfer) => misplaced_by(tree, goes_off(root, renames, &ways.target), &transfer),
        None => Some(TargetFault::Root),
    }
}

/// Whether a user's root is there, or what the paths lead from.
fn is_root_at(tree: &Tree, root: NodeId, way: &Option<Way>) -> bool
    ensures { result ≡ is_root_at tree.now.rows root way.now }
{
    match node_at(place_at(way)) {
        Some(node) => node == root || is_root(tree, node),
        None => false,
    }
}

/// Whether a mount would be replaced, or one that is renamed would leave its root.
fn goes_off(root: NodeId, renames: bool, target: &Option<Way>) -> bool
    ensures { result ≡ option_map_or (is_off_mount root renames) target.now false }
{
    match target {
        Some(way) if renames => !is_free_in(root, &way.place),
        Some(way) => way.itself,
        None => false,
    }
}

/// Whether the place is a free name in that folder.
fn is_free_in(folder: NodeId, place: &Found) -> bool
    ensures { result ≡ is_free_in folder place.now }
{
    match place {
        Found::Free { folder: other } => *other == folder,
        Found::At(_) | Found::Missing { .. } => false,
    }
}

fn misplaced_by(tree: &Tree, off: bool, transfer: &Transfer) -> Option<TargetFault>
    ensures { result ≡ misplaced_by tree.now.rows off transfer.now }
{
    match misplaced(tree, transfer) {
        Some(fault) => Some(fault),
        None if off => Some(TargetFault::Mount),
        None => None,
    }
}

fn misplaced(tree: &Tree, transfer: &Transfer) -> Option<TargetFault>
    ensures { result ≡ misplaced tree.now.rows transfer.now }
{
    if is_same(transfer) {
        Some(TargetFault::Same)
    } else if is_inside(tree, transfer) {
        Some(TargetFault::Inside)
    } else {
        None
    }
}

/// Whether what is there and has to go is the node itself.
fn is_same(transfer: &Transfer) -> bool
    ensures { result ≡ is_same transfer.now }
{
    match transfer.replaced {
        Some(node) => node == transfer.node,
        None => false,
    }
}

/// Whether the folder is under the node, or the node under what has to go.
fn is_inside(tree: &Tree, transfer: &Transfer) -> bool
    ensures { result ≡ is_inside tree.now.rows transfer.now }
{
    if tree.under(transfer.folder, transfer.node) {
        return true;
    }
    match transfer.replaced {
        Some(node) => tree.under(transfer.node, node),
        None => false,
    }
}
