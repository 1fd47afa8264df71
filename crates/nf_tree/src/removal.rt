//! What goes with a node that is taken out, and where the rows that stay go.

ghost use Rattle.std.specs.Prelude.{◌≡◌, ◌==◌, ◌+◌, ◌≤◌, All, Bool, [], ◌∷◌, false, filter, length, slice_index, vec_len, vec_capacity};
ghost use Rattle.std.specs.List.{position};
ghost use Rattle.std.specs.Option.{option_map_or};
ghost use Rattle.nf_base.specs.declared.limits.TheConstants.{MAX_NODES};
ghost use Rattle.nf_base.specs.declared.rows.NodeRow.{NodeRow};
ghost use Rattle.nf_charge.specs.Sums.{AreSums, LeadUp};
ghost use Rattle.nf_charge.specs.Totals.{AreTotals};
ghost use Rattle.nf_defs.specs.Tree.{piece_count, trashed, walk_within, with_node, without_all};
ghost use Rattle.nf_tree.specs.Order.{AreFates, AreMarked, AreMarkedBy, AreRisingNodes, IsIndex, all_lifted, goes, outstays};

use crate::{nodes, order};
use nf_base::{MAX_DEPTH, NodeId, NodeRow, Place};
use nf_charge::rows::index_of;
use nf_charge::{Sums, Totals};

/// Drops the rows of the nodes under some tops and their sums, and tells where each row goes. How many pieces they had is
/// answered.
pub(crate) fn drop_under(
    rows: &mut Vec<NodeRow>,
    order: &[usize],
    fates: &mut Vec<usize>,
    sums: &mut Sums,
    totals: &mut Totals,
    tops: &[NodeId],
) -> usize
    requires rising { AreRisingNodes rows.old.items }
    requires index { IsIndex rows.old.items order.now }
    requires room { vec_len rows.old ≤ vec_capacity fates.old }
    requires few { vec_len rows.old ≤ MAX_NODES }
    requires leads { LeadUp rows.old.items }
    requires sums { AreSums rows.old.items sums.old.sums }
    requires totals { AreTotals rows.old.items totals.old }
    ensures rows { rows.new.items ≡ without_all rows.old.items tops.now }
    ensures rows_room { vec_capacity rows.new ≡ vec_capacity rows.old }
    ensures totals { AreTotals rows.new.items totals.new }
    ensures fates { AreFates (outstays rows.old.items tops.now) rows.old.items (vec_len rows.old) fates.new.items }
    ensures fates_room { vec_capacity fates.new ≡ vec_capacity fates.old }
    ensures sums { AreSums rows.new.items sums.new.sums }
    ensures sums_room { sums.new.room ≡ sums.old.room }
    ensures pieces { result + piece_count rows.new.items ≡ piece_count rows.old.items }
{
    settle(rows, order, fates, tops);
    take_all(rows, fates, totals);
    lift_all(rows, sums, tops);
    let end = rows.len();
    let mut kept = 0;
    let mut gone = 0;
    for at in 0..end {
        if fates[at] < end {
            // A row before the first that goes stays where it is. Most often what goes came late, and few rows move.
            if kept < at {
                rows.swap(kept, at);
                sums.swap(kept, at);
            }
            kept += 1;
        } else {
            gone += nodes::pieces_of(&rows[at]);
        }
    }
    rows.truncate(kept);
    sums.truncate(kept);
    gone
}

/// No longer counts the rows that go for their owners.
fn take_all(rows: &[NodeRow], fates: &[usize], totals: &mut Totals)
    requires long { length fates.now ≡ length rows.now }
    ensures { (kept : NodeRow → Bool) → AreFates kept rows.now (length rows.now) fates.now → AreTotals rows.now totals.old → AreTotals (filter kept rows.now) totals.new }
{
    let end = rows.len();
    for at in 0..end {
        if fates[at] >= end {
            let row = &rows[at];
            totals.take(row.owner, row.content.size());
        }
    }
}

/// Takes some nodes out of their folders, whose sums no longer count them. Their places in the order stay.
fn lift_all(rows: &mut Vec<NodeRow>, sums: &mut Sums, tops: &[NodeId])
    requires rising { AreRisingNodes rows.old.items }
    requires few { vec_len rows.old ≤ MAX_NODES }
    requires leads { LeadUp rows.old.items }
    requires sums { AreSums rows.old.items sums.old.sums }
    ensures rows { rows.new.items ≡ all_lifted rows.old.items tops.now }
    ensures long { vec_len rows.new ≡ vec_len rows.old }
    ensures rows_room { vec_capacity rows.new ≡ vec_capacity rows.old }
    ensures sums { AreSums rows.new.items sums.new.sums }
    ensures sums_room { sums.new.room ≡ sums.old.room }
{
    for top in tops {
        lift(rows, sums, *top);
    }
}

/// Takes a node out of its folder, if it is there. One that is in no folder costs no more than to find it.
fn lift(rows: &mut Vec<NodeRow>, sums: &mut Sums, top: NodeId)
    requires rising { AreRisingNodes rows.old.items }
    requires few { vec_len rows.old ≤ MAX_NODES }
    requires leads { LeadUp rows.old.items }
    requires sums { AreSums rows.old.items sums.old.sums }
    ensures rows { rows.new.items ≡ with_node rows.old.items top trashed }
    ensures rows_room { vec_capacity rows.new ≡ vec_capacity rows.old }
    ensures sums { AreSums rows.new.items sums.new.sums }
    ensures sums_room { sums.new.room ≡ sums.old.room }
{
    if let Some(at) = index_of(rows, top) {
        sums.leave(rows, at);
        nodes::place(&mut rows[at], Place::Trash, None);
    }
}

/// Finds out where each row goes.
fn settle(rows: &[NodeRow], order: &[usize], fates: &mut Vec<usize>, tops: &[NodeId])
    requires rising { AreRisingNodes rows.now }
    requires index { IsIndex rows.now order.now }
    requires leads { LeadUp rows.now }
    requires room { length rows.now ≤ vec_capacity fates.old }
    ensures fates { AreFates (outstays rows.now tops.now) rows.now (length rows.now) fates.new.items }
    ensures room { vec_capacity fates.new ≡ vec_capacity fates.old }
{
    let end = rows.len();
    blank(fates, end);
    mark_all(rows, order, fates, tops);
    let mut kept = 0;
    for at in 0..end {
        if fates[at] < end {
            fates[at] = kept;
            kept += 1;
        }
    }
}

/// Makes a list of so many marks, none of which is set.
fn blank(marks: &mut Vec<usize>, count: usize)
    requires { count ≤ vec_capacity marks.old }
    ensures marks { All (λ mark. mark ≡ 0) marks.new.items }
    ensures long { vec_len marks.new ≡ count }
    ensures room { vec_capacity marks.new ≡ vec_capacity marks.old }
{
    marks.clear();
    for at in 0..count {
        let _ = at;
        marks.push_reserved(0);
    }
}

/// Marks the rows of what is under some tops. What is under a top that is marked is marked already.
fn mark_all(rows: &[NodeRow], order: &[usize], marks: &mut Vec<usize>, tops: &[NodeId])
    requires rising { AreRisingNodes rows.now }
    requires index { IsIndex rows.now order.now }
    requires leads { LeadUp rows.now }
    requires long { vec_len marks.old ≡ length rows.now }
    requires blank { All (λ mark. mark ≡ 0) marks.old.items }
    ensures marks { AreMarkedBy (goes rows.now tops.now) rows.now marks.new.items }
    ensures room { vec_capacity marks.new ≡ vec_capacity marks.old }
{
    for top in tops {
        if !is_marked(rows, marks, *top) {
            mark(rows, order, marks, MAX_DEPTH, *top);
        }
    }
}

/// Whether a node is there, and marked.
fn is_marked(rows: &[NodeRow], marks: &[usize], node: NodeId) -> bool
    requires rising { AreRisingNodes rows.now }
    requires long { length marks.now ≡ length rows.now }
    ensures { result ≡ option_map_or (λ at. slice_index marks.now at == length rows.now) (position (λ row. row.id == node) rows.now) false }
{
    match index_of(rows, node) {
        Some(at) => marks[at] == rows.len(),
        None => false,
    }
}

/// Marks a node's row and those of what is so many folders under it at most, by the number of all rows. It goes down from
/// folder to folder, since a climb from each row of the site would cost far more than the few rows that go.
fn mark(rows: &[NodeRow], order: &[usize], marks: &mut Vec<usize>, down: u32, node: NodeId)
    requires rising { AreRisingNodes rows.now }
    requires index { IsIndex rows.now order.now }
    requires long { vec_len marks.old ≡ length rows.now }
    ensures marks { AreMarked rows.now (walk_within down rows.now node) marks.old.items marks.new.items }
    ensures room { vec_capacity marks.new ≡ vec_capacity marks.old }
{
    mark_row(rows, marks, node);
    if down > 0 {
        let mut at = order::first_in(rows, order, node);
        while at < order.len() {
            let row = &rows[order[at]];
            if !order::is_in(node, row) {
                return;
            }
            mark(rows, order, marks, down - 1, row.id);
            at += 1;
        }
    }
}

/// Marks a node's row.
fn mark_row(rows: &[NodeRow], marks: &mut Vec<usize>, node: NodeId)
    requires rising { AreRisingNodes rows.now }
    requires long { vec_len marks.old ≡ length rows.now }
    ensures marks { AreMarked rows.now (node ∷ []) marks.old.items marks.new.items }
    ensures room { vec_capacity marks.new ≡ vec_capacity marks.old }
{
    if let Some(at) = index_of(rows, node) {
        marks[at] = rows.len();
    }
}
