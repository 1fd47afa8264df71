//! What is put in the trash and comes back from there, and what goes for good beside it.

ghost use Rattle.std.specs.Prelude.{◌≡◌, ◌++◌, Some, map, unwrap_or, IfOk, OnOk};
ghost use Rattle.nf_defs.specs.Prelude.{folder_of, item_row};
ghost use Rattle.nf_retention.specs.Trash.{trashed};
ghost use Rattle.nf_words.specs.Prelude.{AreSound, done, item_dropped, item_for, item_restored, item_size, items_of, purges, requoted};
ghost use Rattle.nf_words.specs.declared.answer.Allowed.TheVariants as allowed;
ghost use Rattle.nf_words.specs.declared.answer.Deed.TheVariants as deed;
ghost use Rattle.nf_words.specs.declared.answer.Report.TheVariants as report;

use crate::acting::nothing_done;
use crate::going::{gone_beside, gone_by};
use crate::settling::{Charged, owner_charged, settle};
use nf_base::{ItemRow, Moment, NodeId, NodeRow, Place, UserId, UserRow};
use nf_retention::Trashed;
use nf_view::{View, home_of, name_back};
use nf_words::{Allowed, Deed, Deeds, Report};
use std::alloc::{AllocError, Global};

/// What a node is in the trash, when it is put there.
pub(crate) fn item_for(moment: Moment, row: &NodeRow) -> Result<ItemRow, AllocError>
    ensures { IfOk result (λ item. item ≡ item_for moment row.now) }
{
    Ok(ItemRow {
        node: row.id,
        owner: row.owner,
        name: row.name.copy()?,
        from: folder_in(row.place),
        at: moment,
    })
}

/// The folder of a place, and no node's number where there is none.
fn folder_in(place: Place) -> NodeId
    ensures { result ≡ unwrap_or (folder_of place) 0 }
{
    match place {
        Place::Inside(folder) => folder,
        Place::Root | Place::Trash => NodeId::new(0),
    }
}

/// What the rules of the trash see of an item.
pub(crate) fn trashed(view: &View<'_>, item: &ItemRow) -> Trashed
    requires { AreSound view.now.tables }
    ensures { result ≡ trashed (item_size view.now.tables) item.now }
{
    Trashed {
        node: item.node,
        at: item.at,
        size: view.size(item.node),
    }
}

/// What they see of a user's items.
pub fn trash_of(alloc: Global, view: &View<'_>, user: UserId) -> Result<Vec<Trashed>, AllocError>
    requires { AreSound view.now.tables }
    ensures { IfOk result (λ carried. carried.items ≡ map (trashed (item_size view.now.tables)) (items_of view.now.tables user)) }
{
    view.items()
        .rows()
        .iter()
        .filter(|item| item.owner == user)
        .map(|item| trashed(view, item))
        .collect(alloc)
}

// ---- what goes

/// Puts the deeds by which some nodes go for good at the end.
pub(crate) fn push_purges(deeds: &mut Vec<Deed>, nodes: &[NodeId]) -> Result<(), AllocError>
    ensures { OnOk result (deeds.new.items ≡ deeds.old.items ++ purges nodes.now) }
{
    for node in nodes {
        deeds.push(Deed::Purge(*node))?;
    }
    Ok(())
}

// ---- what is done

/// These deeds are done, and told so.
pub fn done(deeds: Vec<Deed>, report: Report) -> Allowed
    ensures { result ≡ allowed.Deeds deeds.items report }
{
    Allowed::Deeds {
        deeds: Deeds::new(deeds),
        report,
    }
}

/// An item goes for good.
pub fn item_dropped(
    alloc: Global,
    view: &View<'_>,
    moment: Moment,
    item: &ItemRow,
) -> Result<Allowed, AllocError>
    requires sound { AreSound view.now.tables }
    requires there { item_row view.now.tables.items item.now.node ≡ Some item.now }
    ensures { IfOk result (λ allowed. allowed ≡ item_dropped view.now.tables moment item.now) }
{
    let mut deeds = Vec::new(alloc);
    deeds.push(Deed::Purge(item.node))?;
    push_purges(&mut deeds, &gone_beside(alloc, view, moment, item)?)?;
    Ok(done(deeds, Report::Done))
}

/// An item comes back.
pub fn item_restored(
    alloc: Global,
    view: &View<'_>,
    moment: Moment,
    item: &ItemRow,
) -> Result<Allowed, AllocError>
    requires sound { AreSound view.now.tables }
    requires there { item_row view.now.tables.items item.now.node ≡ Some item.now }
    ensures { IfOk result (λ allowed. allowed ≡ item_restored view.now.tables moment item.now) }
{
    let deed = Deed::Restore {
        node: item.node,
        folder: home_of(view, item),
        name: name_back(alloc, view, item)?,
    };
    let mut deeds = Vec::new(alloc);
    deeds.push(deed)?;
    push_purges(&mut deeds, &gone_beside(alloc, view, moment, item)?)?;
    let charged = owner_charged(view, item.owner, 0, view.size(item.node));
    settle(alloc, view, &charged, &mut deeds)?;
    Ok(done(deeds, Report::Made))
}

/// All items of a user's go for good.
pub fn emptied(alloc: Global, view: &View<'_>, user: UserId) -> Result<Allowed, AllocError>
    ensures { IfOk result (λ act. act ≡ done (purges (map (λ item. item.node) (items_of view.now.tables user))) report.Done) }
{
    let mut deeds = Vec::new(alloc);
    push_purges(&mut deeds, &nodes_of(alloc, view, user)?)?;
    Ok(done(deeds, Report::Done))
}

/// Their nodes.
fn nodes_of(alloc: Global, view: &View<'_>, user: UserId) -> Result<Vec<NodeId>, AllocError>
    ensures { IfOk result (λ nodes. nodes.items ≡ map (λ item. item.node) (items_of view.now.tables user)) }
{
    view.items()
        .rows()
        .iter()
        .filter(|item| item.owner == user)
        .map(|item| item.node)
        .collect(alloc)
}

/// A user has another quota, if it is another, and of the user's trash what is beyond it goes.
pub(crate) fn requoted(
    alloc: Global,
    view: &View<'_>,
    moment: Moment,
    quota: u64,
    row: &UserRow,
) -> Result<Allowed, AllocError>
    requires { AreSound view.now.tables }
    ensures { IfOk result (λ allowed. allowed ≡ requoted view.now.tables moment quota row.now) }
{
    if row.quota == quota {
        return Ok(nothing_done(alloc));
    }
    let gone = gone_by(alloc, view, moment, quota, row.id)?;
    let mut deeds = Vec::new(alloc);
    deeds.push(Deed::Requote(with_quota(row, quota)?))?;
    push_purges(&mut deeds, &gone)?;
    let charged = Charged {
        owner: row.id,
        charge: u128::from(view.charge(row.id)),
        quota,
    };
    settle(alloc, view, &charged, &mut deeds)?;
    Ok(done(deeds, Report::Plain))
}

/// The row of a user with another quota.
fn with_quota(row: &UserRow, quota: u64) -> Result<UserRow, AllocError>
    ensures { IfOk result (λ other. other ≡ record row.now { quota = quota }) }
{
    Ok(UserRow {
        id: row.id,
        name: row.name.copy()?,
        quota,
        root: row.root,
    })
}
