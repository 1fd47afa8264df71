//! Look-ups and walks in rows by rising number.

ghost use Rattle.std.specs.Prelude.{◌≡◌, false, ◌≤◌, ◌<◌, length, option_copied, IfOk};
ghost use Rattle.nf_base.specs.declared.limits.TheConstants.{MAX_NODES, MAX_PIECES};
ghost use Rattle.nf_defs.specs.Tree.{node_row, is_folder, is_root, folder_of, parent_of, is_under, is_rooted, depth, piece_count, is_folder_kind, filled};
ghost use Rattle.nf_tree.specs.Held.{AreSmall};
ghost use Rattle.nf_tree.specs.Order.{AreRisingNodes, placed};

use nf_base::{Content, MAX_DEPTH, Moment, Name, NodeId, NodeKind, NodeRow, Place};
use nf_charge::rows::{folder_of, index_of};
use std::alloc::AllocError;

pub(crate) fn node_row(rows: &[NodeRow], node: NodeId) -> Option<&NodeRow>
    requires { AreRisingNodes rows.now }
    ensures { option_copied result ≡ node_row rows.now node }
{
    match index_of(rows, node) {
        Some(at) => Some(&rows[at]),
        None => None,
    }
}

pub(crate) fn is_folder(rows: &[NodeRow], node: NodeId) -> bool
    requires { AreRisingNodes rows.now }
    ensures { result ≡ is_folder rows.now node }
{
    match node_row(rows, node) {
        Some(row) => row.kind == NodeKind::Folder,
        None => false,
    }
}

fn is_root(rows: &[NodeRow], node: NodeId) -> bool
    requires { AreRisingNodes rows.now }
    ensures { result ≡ is_root rows.now node }
{
    match node_row(rows, node) {
        Some(row) => row.place == Place::Root,
        None => false,
    }
}

/// The folder that a node is in.
fn parent_of(rows: &[NodeRow], node: NodeId) -> Option<NodeId>
    requires { AreRisingNodes rows.now }
    ensures { result ≡ parent_of rows.now node }
{
    folder_of(node_row(rows, node)?.place)
}

/// Puts a row elsewhere, under another name where one is given.
pub(crate) fn place(row: &mut NodeRow, place: Place, name: Option<Name>)
    ensures { row.new ≡ placed place name row.old }
{
    row.place = place;
    if let Some(name) = name {
        row.name = name;
    }
}

/// Gives a file's row another content. The old one is answered.
pub(crate) fn refill(row: &mut NodeRow, content: Content, changed: Moment) -> Content
    requires { is_folder_kind row.old.kind ≡ false }
    ensures row { row.new ≡ filled content changed row.old }
    ensures content { result ≡ row.old.content }
{
    row.changed = changed;
    std::mem::replace(&mut row.content, content)
}

/// An equal row.
pub(crate) fn copy_row(row: &NodeRow) -> Result<NodeRow, AllocError>
    ensures { IfOk result (λ copy. copy ≡ row.now) }
{
    row.clone()
}

/// How many pieces a row has.
pub(crate) fn pieces_of(row: &NodeRow) -> usize
    ensures count { result ≡ length row.now.content }
    ensures few { result ≤ MAX_PIECES }
{
    row.content.pieces().len()
}

/// How many pieces the rows have, with repeats.
pub(crate) fn piece_count(rows: &[NodeRow]) -> usize
    requires { length rows.now ≤ MAX_NODES }
    ensures count { result ≡ piece_count rows.now }
    ensures small { AreSmall rows.now }
{
    let mut count = 0;
    for row in rows {
        count += pieces_of(row);
    }
    count
}

/// Whether the node is the top, or in a folder under it.
pub(crate) fn is_under(rows: &[NodeRow], node: NodeId, top: NodeId) -> bool
    requires { AreRisingNodes rows.now }
    ensures { result ≡ is_under rows.now node top }
{
    let mut at = node;
    for step in 0..MAX_DEPTH {
        let _ = step;
        if at == top {
            return true;
        }
        match parent_of(rows, at) {
            Some(parent) => at = parent,
            None => return false,
        }
    }
    at == top
}

/// Whether the node leads to a root.
pub(crate) fn is_rooted(rows: &[NodeRow], node: NodeId) -> bool
    requires { AreRisingNodes rows.now }
    ensures { result ≡ is_rooted rows.now node }
{
    let mut at = node;
    for step in 0..MAX_DEPTH {
        let _ = step;
        if is_root(rows, at) {
            return true;
        }
        match parent_of(rows, at) {
            Some(parent) => at = parent,
            None => return false,
        }
    }
    is_root(rows, at)
}

/// How many folders are above a node, `MAX_DEPTH` at most.
pub(crate) fn depth(rows: &[NodeRow], node: NodeId) -> u32
    requires { AreRisingNodes rows.now }
    ensures depth { result ≡ depth rows.now node }
    ensures few { result ≤ MAX_DEPTH }
{
    let mut at = node;
    for step in 0..MAX_DEPTH {
        match parent_of(rows, at) {
            Some(parent) => at = parent,
            None => return step,
        }
    }
    MAX_DEPTH
}
