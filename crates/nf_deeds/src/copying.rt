//! Copies of a node and of all under it.

ghost use Rattle.std.specs.Prelude.{◌≡◌, ◌+◌, ◌≤◌, ◌++◌, None, length, vec_len, IfOk, OnOk};
ghost use Rattle.nf_defs.specs.Tree.{walk_within};
ghost use Rattle.nf_words.specs.Prelude.{copied_row, copies_to, copies_within, copy_limit, last_number, renamed};

use nf_base::{MAX_DEPTH, Moment, Name, NodeId, NodeRow, Place, UserId};
use nf_tree::Tree;
use nf_view::{View, owner_of};
use nf_words::{NodeRows, Transfer};
use std::alloc::{AllocError, Global};

/// Copies in the folder of the new place, the first under that name: each after the folder that it is in, with the next numbers.
pub(crate) fn copies_to(
    alloc: Global,
    view: &View<'_>,
    moment: Moment,
    transfer: &Transfer,
    name: Name,
) -> Result<NodeRows, AllocError>
    requires { copy_limit view.now.tables transfer.now ≡ None }
    ensures { IfOk result (λ rows. rows ≡ copies_to view.now.tables moment transfer.now name) }
{
    let copier = Copier {
        tree: view.tree(),
        owner: owner_of(view.tree(), transfer.folder),
        moment,
        first: view.meta().next_node,
    };
    let mut rows = Vec::new(alloc);
    copier.copy_node(alloc, MAX_DEPTH, transfer.node, transfer.folder, &mut rows)?;
    rename(&mut rows, name);
    Ok(NodeRows::new(rows))
}

/// Gives the first of some rows another name.
fn rename(rows: &mut [NodeRow], name: Name)
    ensures { rows.new ≡ renamed name rows.old }
{
    if !rows.is_empty() {
        let first = &mut rows[0];
        first.name = name;
    }
}

/// Where copies come from, and what they have in common. The copy behind so many others has the first number and that many more.
#[derive(Drop)]
struct Copier<'a> {
    tree: &'a Tree,
    owner: UserId,
    moment: Moment,
    first: NodeId,
}

impl<'a> Copier<'a> {
    /// Puts the copy of a node at the end, and of what is so many folders under it at most.
    fn copy_node(
        &self,
        alloc: Global,
        down: u32,
        node: NodeId,
        folder: NodeId,
        rows: &mut Vec<NodeRow>,
    ) -> Result<(), AllocError>
        requires { self.now.first + vec_len rows.old + length (walk_within down self.now.tree.now.rows node) ≤ last_number }
        ensures { OnOk result (rows.new.items ≡ rows.old.items ++ copies_within down self.now.tree.now.rows self.now.owner self.now.moment (self.now.first + vec_len rows.old) folder node) }
    {
        let Some(row) = self.tree.node(node) else {
            return Ok(());
        };
        let id = NodeId::new(self.first.number() + rows.len() as u64);
        rows.push(self.copy_row(row, id, folder)?)?;
        if down > 0 {
            let children = self.tree.children(alloc, node)?;
            for child in &children {
                self.copy_node(alloc, down - 1, *child, id, rows)?;
            }
        }
        Ok(())
    }

    /// The copy of a row, with that number and in that folder.
    fn copy_row(&self, row: &NodeRow, id: NodeId, folder: NodeId) -> Result<NodeRow, AllocError>
        ensures { IfOk result (λ copy. copy ≡ copied_row self.now.owner self.now.moment id folder row.now) }
    {
        row.keeps();
        Ok(NodeRow {
            id,
            owner: self.owner,
            place: Place::Inside(folder),
            name: row.name.copy()?,
            kind: row.kind,
            content: row.content.clone()?,
            changed: self.moment,
        })
    }
}
