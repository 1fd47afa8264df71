//! The places of the rows in the order of their keys: by folder, then name, then number.

ghost use Rattle.std.specs.Prelude.{◌≡◌, [], Some, ◌<◌, ◌≤◌, ◌+◌, ◌&&◌, bytes_eq, length, All, IfOk, map, filter, nat_lt, option_copied, slice_get, slice_index, vec_len, vec_capacity};
ghost use Rattle.std.specs.List.{range_with_len};
ghost use Rattle.nf_defs.specs.Tree.{child_of, children_of, is_in, is_leaf};
ghost use Rattle.nf_tree.specs.Order.{AreRisingNodes, AreInOrder, IsCut, IsIndex, LacksOnly, key_cmp, key_of, key_at, lowered};

use nf_base::{NodeId, NodeRow, Place};
use nf_charge::rows::folder_of;
use std::alloc::{AllocError, Global};
use std::cmp::Ordering;

pub(crate) fn is_in(folder: NodeId, row: &NodeRow) -> bool
    ensures { result ≡ is_in folder row.now }
{
    match row.place {
        Place::Inside(parent) => parent == folder,
        Place::Root | Place::Trash => false,
    }
}

fn get_row(rows: &[NodeRow], at: usize) -> Option<&NodeRow>
    ensures { option_copied result ≡ slice_get rows.now at }
{
    rows.get(at)
}

/// The key of the row at a place. What is past the end comes before all rows.
fn key_at(rows: &[NodeRow], at: usize) -> (Option<NodeId>, &[u8], NodeId)
    ensures { key_at rows.now at ≡ record { folder = result.0; name = result.1.now; id = result.2 } }
{
    match get_row(rows, at) {
        Some(row) => (folder_of(row.place), row.name.as_bytes(), row.id),
        None => (None, b"", NodeId::new(0)),
    }
}

/// How the key of the row at a place stands to another key.
fn compare(
    rows: &[NodeRow],
    at: usize,
    folder: &Option<NodeId>,
    name: &[u8],
    id: NodeId,
) -> Ordering
    ensures { result ≡ key_cmp (key_at rows.now at) (record { folder = folder.now; name = name.now; id = id }) }
{
    let (first_folder, first_name, first_id) = key_at(rows, at);
    match first_folder.cmp(folder) {
        Ordering::Equal => match first_name.cmp(name) {
            Ordering::Equal => first_id.cmp(&id),
            other => other,
        },
        other => other,
    }
}

/// How many places have keys before that one.
fn cut(rows: &[NodeRow], order: &[usize], folder: &Option<NodeId>, name: &[u8], id: NodeId) -> usize
    requires { AreInOrder rows.now order.now }
    ensures { IsCut rows.now order.now (record { folder = folder.now; name = name.now; id = id }) result }
{
    order.partition_point(|at| compare(rows, *at, folder, name, id).is_lt())
}

/// The place in the order where the children of a folder begin.
pub(crate) fn first_in(rows: &[NodeRow], order: &[usize], folder: NodeId) -> usize
    requires { AreInOrder rows.now order.now }
    ensures { IsCut rows.now order.now (record { folder = Some folder; name = []; id = 0 }) result }
{
    cut(rows, order, &Some(folder), b"", NodeId::new(0))
}

/// How many places have keys before that of a row.
fn cut_at(rows: &[NodeRow], order: &[usize], row: &NodeRow) -> usize
    requires { AreInOrder rows.now order.now }
    ensures { IsCut rows.now order.now (key_of row.now) result }
{
    cut(
        rows,
        order,
        &folder_of(row.place),
        row.name.as_bytes(),
        row.id,
    )
}

/// Puts in the place that the order lacks.
pub(crate) fn put(rows: &[NodeRow], order: &mut Vec<usize>, at: usize)
    requires rising { AreRisingNodes rows.now }
    requires there { at < length rows.now }
    requires lacks { LacksOnly rows.now order.old.items at }
    requires room { vec_len order.old < vec_capacity order.old }
    ensures index { IsIndex rows.now order.new.items }
    ensures room { vec_capacity order.new ≡ vec_capacity order.old }
{
    let to = cut_at(rows, order, &rows[at]);
    order.insert(to, at).unwrap();
}

/// Takes a place out.
pub(crate) fn take(rows: &[NodeRow], order: &mut Vec<usize>, at: usize)
    requires rising { AreRisingNodes rows.now }
    requires there { at < length rows.now }
    requires index { IsIndex rows.now order.old.items }
    ensures lacks { LacksOnly rows.now order.new.items at }
    ensures length { vec_len order.new + 1 ≡ vec_len order.old }
    ensures room { vec_capacity order.new ≡ vec_capacity order.old }
{
    let from = cut_at(rows, order, &rows[at]);
    order.remove(from);
}

/// Lowers the places above one whose row is gone.
pub(crate) fn lower(order: &mut Vec<usize>, gone: usize)
    ensures order { order.new.items ≡ map (lowered gone) order.old.items }
    ensures room { vec_capacity order.new ≡ vec_capacity order.old }
{
    for at in 0..order.len() {
        order[at] = lowered(gone, order[at]);
    }
}

/// A place when the row at another is gone.
fn lowered(gone: usize, at: usize) -> usize
    ensures { result ≡ lowered gone at }
{
    if gone < at { at - 1 } else { at }
}

/// Which of the rows at two places comes first.
fn compare_places(rows: &[NodeRow], a: usize, b: usize) -> Ordering
    ensures { result ≡ key_cmp (key_at rows.now a) (key_at rows.now b) }
{
    let (folder, name, id) = key_at(rows, b);
    compare(rows, a, &folder, name, id)
}

/// The places of the rows in order.
pub(crate) fn of(alloc: Global, rows: &[NodeRow]) -> Result<Vec<usize>, AllocError>
    requires { AreRisingNodes rows.now }
    ensures index { IfOk result (λ order. IsIndex rows.now order.items) }
    ensures room { IfOk result (λ order. length rows.now ≤ vec_capacity order) }
{
    let mut order = Vec::new(alloc);
    order.reserve(rows.len())?;
    for at in 0..rows.len() {
        order.push_reserved(at);
    }
    sort(rows, &mut order);
    Ok(order)
}

/// Sorts all the places.
fn sort(rows: &[NodeRow], order: &mut Vec<usize>)
    requires rising { AreRisingNodes rows.now }
    requires all { order.old.items ≡ range_with_len 0 (length rows.now) }
    ensures index { IsIndex rows.now order.new.items }
    ensures room { vec_capacity order.new ≡ vec_capacity order.old }
{
    order.sort_unstable_by(|a, b| compare_places(rows, *a, *b));
}

/// Drops the places of the rows that go, and puts the others to where their rows go.
pub(crate) fn renumber(order: &mut Vec<usize>, fates: &[usize])
    requires { All (λ at. at < length fates.now) order.old.items }
    ensures order { order.new.items ≡ filter (λ to. nat_lt to (length fates.now)) (map (slice_index fates.now) order.old.items) }
    ensures room { vec_capacity order.new ≡ vec_capacity order.old }
{
    for at in 0..order.len() {
        order[at] = fates[order[at]];
    }
    let end = fates.len();
    order.retain(|to| *to < end);
}

fn is_child(folder: NodeId, name: &[u8], row: &NodeRow) -> bool
    ensures { result ≡ (is_in folder row.now && bytes_eq row.now.name name.now) }
{
    is_in(folder, row) && row.name.as_bytes() == name
}

/// The folder's child of that name.
pub(crate) fn child_of(
    rows: &[NodeRow],
    order: &[usize],
    folder: NodeId,
    name: &[u8],
) -> Option<NodeId>
    requires rising { AreRisingNodes rows.now }
    requires index { IsIndex rows.now order.now }
    ensures { result ≡ child_of rows.now folder name.now }
{
    let at = cut(rows, order, &Some(folder), name, NodeId::new(0));
    if at < order.len() {
        let row = &rows[order[at]];
        if is_child(folder, name, row) {
            return Some(row.id);
        }
    }
    None
}

/// Whether no row is in the node.
pub(crate) fn is_leaf(rows: &[NodeRow], order: &[usize], node: NodeId) -> bool
    requires rising { AreRisingNodes rows.now }
    requires index { IsIndex rows.now order.now }
    ensures { result ≡ is_leaf rows.now node }
{
    let at = first_in(rows, order, node);
    at == order.len() || !is_in(node, &rows[order[at]])
}

/// The children of a folder, by name.
pub(crate) fn children_of(
    alloc: Global,
    rows: &[NodeRow],
    order: &[usize],
    folder: NodeId,
) -> Result<Vec<NodeId>, AllocError>
    requires rising { AreRisingNodes rows.now }
    requires index { IsIndex rows.now order.now }
    ensures { IfOk result (λ children. children.items ≡ children_of rows.now folder) }
{
    let mut children = Vec::new(alloc);
    let mut at = first_in(rows, order, folder);
    while at < order.len() {
        let row = &rows[order[at]];
        if !is_in(folder, row) {
            return Ok(children);
        }
        children.push(row.id)?;
        at += 1;
    }
    Ok(children)
}
