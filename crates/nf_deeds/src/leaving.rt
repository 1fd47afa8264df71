//! How a node leaves the place where it is, for the trash or for good.

ghost use Rattle.std.specs.Prelude.{◌≡◌, ◌==◌, ◌++◌, [], ◌∷◌, filter, if◌then◌else◌, not, IfOk, option_copied};
ghost use Rattle.std.specs.List.{list_any};
ghost use Rattle.nf_words.specs.Prelude.{AreSound, beside, besides, discard, discards, row_at};
ghost use Rattle.nf_words.specs.declared.answer.Deed.TheVariants as deed;

use crate::discarding::{item_for, push_purges};
use crate::going::gone_with;
use nf_base::{ItemRow, Moment, NodeId, NodeRow};
use nf_view::View;
use nf_words::Deed;
use std::alloc::{AllocError, Global};

/// The deed by which a node leaves its place, if it is there, and those by which items go for good beside it.
#[derive(Drop)]
pub(crate) struct Leaving {
    deeds: Vec<Deed>,
    beside: Vec<Deed>,
}

/// How that node does that may be there.
pub(crate) fn leaves(
    alloc: Global,
    view: &View<'_>,
    moment: Moment,
    node: Option<NodeId>,
) -> Result<Leaving, AllocError>
    requires { AreSound view.now.tables }
    ensures deeds { IfOk result (λ leaving. leaving.deeds.items ≡ discards view.now.tables moment node) }
    ensures beside { IfOk result (λ leaving. leaving.beside.items ≡ besides view.now.tables moment node) }
{
    match row_of(view, node) {
        Some(row) => row_leaves(alloc, view, moment, row),
        None => Ok(Leaving {
            deeds: Vec::new(alloc),
            beside: Vec::new(alloc),
        }),
    }
}

/// The row of a node, if there is one.
fn row_of<'a>(view: &'a View<'_>, node: Option<NodeId>) -> Option<&'a NodeRow>
    ensures { option_copied result ≡ row_at view.now.tables node }
{
    view.tree().node(node?)
}

/// It is put in the trash, unless the trash can't hold it.
fn row_leaves(
    alloc: Global,
    view: &View<'_>,
    moment: Moment,
    row: &NodeRow,
) -> Result<Leaving, AllocError>
    requires { AreSound view.now.tables }
    ensures deeds { IfOk result (λ leaving. leaving.deeds.items ≡ discard view.now.tables moment row.now ∷ []) }
    ensures beside { IfOk result (λ leaving. leaving.beside.items ≡ beside view.now.tables moment row.now) }
{
    let item = item_for(moment, row)?;
    let mut gone = gone_with(alloc, view, moment, &item)?;
    let mut deeds = Vec::new(alloc);
    deeds.push(discard(item, &gone))?;
    leave_out(&mut gone, row.id);
    let mut beside = Vec::new(alloc);
    push_purges(&mut beside, &gone)?;
    Ok(Leaving { deeds, beside })
}

/// What is done with a node that is put in the trash as that item, where those nodes go for good then.
fn discard(item: ItemRow, gone: &[NodeId]) -> Deed
    ensures { result ≡ (if list_any (λ node. node == item.node) gone.now then deed.Purge item.node else deed.Discard item) }
{
    if gone.contains(&item.node) {
        Deed::Purge(item.node)
    } else {
        Deed::Discard(item)
    }
}

/// Leaves a node out.
fn leave_out(nodes: &mut Vec<NodeId>, but: NodeId)
    ensures { nodes.new.items ≡ filter (λ node. not (node == but)) nodes.old.items }
{
    nodes.retain(|node| *node != but)
}

impl Leaving {
    /// It leaves, and what goes beside it goes.
    pub(crate) fn alone(self) -> Result<Vec<Deed>, AllocError>
        ensures { IfOk result (λ deeds. deeds.items ≡ self.deeds.items ++ self.beside.items) }
    {
        let Leaving {
            mut deeds,
            mut beside,
        } = self;
        deeds.append(&mut beside)?;
        Ok(deeds)
    }

    /// It leaves, then that deed is done, and what goes beside it goes last.
    pub(crate) fn before(self, deed: Deed) -> Result<Vec<Deed>, AllocError>
        ensures { IfOk result (λ deeds. deeds.items ≡ self.deeds.items ++ deed ∷ self.beside.items) }
    {
        let Leaving {
            mut deeds,
            mut beside,
        } = self;
        deeds.push(deed)?;
        deeds.append(&mut beside)?;
        Ok(deeds)
    }

    /// It leaves, then that deed is done, then another node leaves, and what goes beside both goes last.
    pub(crate) fn before_both(self, deed: Deed, other: Leaving) -> Result<Vec<Deed>, AllocError>
        ensures { IfOk result (λ deeds. deeds.items ≡ self.deeds.items ++ deed ∷ (other.deeds.items ++ (self.beside.items ++ other.beside.items))) }
    {
        let Leaving {
            mut deeds,
            mut beside,
        } = self;
        let Leaving {
            deeds: mut others,
            beside: mut last,
        } = other;
        beside.append(&mut last)?;
        others.append(&mut beside)?;
        deeds.push(deed)?;
        deeds.append(&mut others)?;
        Ok(deeds)
    }
}
