//! What goes for good of a user's trash: found from the oldest items on, without a look at those that stay.

ghost use Rattle.std.specs.Prelude.{◌≡◌, Some, map, IfOk, OnOk, ◌∷◌};
ghost use Rattle.nf_defs.specs.Prelude.{item_row};
ghost use Rattle.nf_trash.specs.Outgoing.{all_passed};
ghost use Rattle.nf_words.specs.Prelude.{AreSound, gone_beside, gone_of, items_of, quota_of};
ghost use Rattle.nf_deeds.specs.Going.{seen_of};

use crate::discarding::trashed;
use crate::quotas::quota_of;
use nf_base::{ItemRow, Moment, NodeId, UserId};
use nf_retention::{Trashed, trash_bound};
use nf_trash::{Aged, Outgoing};
use nf_view::View;
use std::alloc::{AllocError, Global};

/// What goes of a user's trash with that quota.
pub(crate) fn gone_by(
    alloc: Global,
    view: &View<'_>,
    moment: Moment,
    quota: u64,
    user: UserId,
) -> Result<Vec<NodeId>, AllocError>
    requires { AreSound view.now.tables }
    ensures { IfOk result (λ nodes. nodes.items ≡ gone_of view.now.tables moment quota (items_of view.now.tables user)) }
{
    let total = view.trashed(user);
    let mut walk = Outgoing::new(alloc, total, moment, trash_bound(quota));
    pass_all(view, &mut walk, view.items().oldest_first(user))?;
    Ok(walk.into_nodes())
}

/// What goes of it with a node that is put there.
pub(crate) fn gone_with(
    alloc: Global,
    view: &View<'_>,
    moment: Moment,
    item: &ItemRow,
) -> Result<Vec<NodeId>, AllocError>
    requires { AreSound view.now.tables }
    ensures { IfOk result (λ nodes. nodes.items ≡ gone_of view.now.tables moment (quota_of view.now.tables item.now.owner) (item.now ∷ items_of view.now.tables item.now.owner)) }
{
    let total = view.trashed(item.owner) + u128::from(view.size(item.node));
    let bound = trash_bound(quota_of(view, item.owner));
    let mut walk = Outgoing::new(alloc, total, moment, bound);
    let (older, newer) = view.items().around(item);
    pass_all(view, &mut walk, older)?;
    walk.pass(&trashed(view, item))?;
    pass_all(view, &mut walk, newer)?;
    Ok(walk.into_nodes())
}

/// What goes of it beside an item that is there no more.
pub(crate) fn gone_beside(
    alloc: Global,
    view: &View<'_>,
    moment: Moment,
    item: &ItemRow,
) -> Result<Vec<NodeId>, AllocError>
    requires sound { AreSound view.now.tables }
    requires there { item_row view.now.tables.items item.now.node ≡ Some item.now }
    ensures { IfOk result (λ nodes. nodes.items ≡ gone_beside view.now.tables moment item.now) }
{
    let total = view.trashed(item.owner) - u128::from(view.size(item.node));
    let bound = trash_bound(quota_of(view, item.owner));
    let mut walk = Outgoing::new(alloc, total, moment, bound);
    let (older, newer) = view.items().around(item);
    // The last of these is the item.
    pass_all(view, &mut walk, &older[..older.len() - 1])?;
    pass_all(view, &mut walk, newer)?;
    Ok(walk.into_nodes())
}

/// Comes to some items one after the other, as long as all go.
fn pass_all(view: &View<'_>, walk: &mut Outgoing, items: &[Aged]) -> Result<(), AllocError>
    requires { AreSound view.now.tables }
    ensures { OnOk result (walk.new ≡ all_passed walk.old (map (seen_of view.now.tables) items.now)) }
{
    for item in items {
        if walk.has_ended() {
            return Ok(());
        }
        walk.pass(&seen(view, item))?;
    }
    Ok(())
}

/// What the rules of the trash see of an item.
fn seen(view: &View<'_>, item: &Aged) -> Trashed
    requires { AreSound view.now.tables }
    ensures { result ≡ seen_of view.now.tables item.now }
{
    Trashed {
        node: item.node,
        at: item.at,
        size: view.size(item.node),
    }
}
