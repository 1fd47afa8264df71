//! What each act may do where its paths lead. Where a rule refuses it, nothing.

ghost use Rattle.std.specs.Prelude.{◌≡◌, ◌≢◌, ℕ, IfOk, IfSome, IsSome, None, Some, [], ◌∷◌, if◌then◌else◌};
ghost use Rattle.nf_base.specs.declared.changes.Change.TheVariants.{Put};
ghost use Rattle.nf_base.specs.declared.rows.Row.TheVariants as kinds;
ghost use Rattle.nf_base.specs.Kept.{IsPlain};
ghost use Rattle.nf_defs.specs.declared.Found.TheVariants.{Free};
ghost use Rattle.nf_words.specs.Prelude.{AreSound, carries, carry_limit, charged_for, copied, copies, copies_settled, copy_limit, crossing, deleted, last_name, made_folder, made_or_done, makes, moved, moves, new_node, stored, nothing_done};
ghost use Rattle.nf_words.specs.declared.answer.Allowed.TheVariants as allowed;
ghost use Rattle.nf_words.specs.declared.answer.Report.TheVariants as report;

use crate::copying::copies_to;
use crate::discarding::done;
use crate::leaving::leaves;
use crate::quotas::size_replaced;
use crate::settling::{Charged, owner_charged, settle};
use nf_base::{
    BlobId, Change, Changes, Content, Moment, Name, NodeId, NodeKind, NodeRow, Place, Row,
};
use nf_defs::Found;
use nf_view::{View, crosses, owner_of};
use nf_words::{Allowed, By, Deed, LockKey, Report, Spot, Transfer};
use std::alloc::{AllocError, Global};

/// PUT stores over the file that is there, or under the name that is free.
pub fn stored(by: By, spot: &Spot, length: u64, place: Option<Found>) -> Result<Allowed, AllocError>
    requires { (folder : ℕ) → place ≡ Some (Free folder) → spot.now.path ≢ [] }
    ensures { IfOk result (λ allowed. allowed ≡ stored by (last_name spot.now) length place) }
{
    let Some(place) = place else {
        return Ok(Allowed::Close);
    };
    let key = match place {
        Found::At(node) => LockKey::Node(node),
        Found::Free { folder } => LockKey::Slot {
            folder,
            name: last_name(spot)?,
        },
        Found::Missing { .. } => return Ok(Allowed::Close),
    };
    Ok(Allowed::Put { by, key, length })
}

/// A new node is made, whose body is in that blob.
pub(crate) fn makes(
    alloc: Global,
    row: NodeRow,
    blob: Option<BlobId>,
) -> Result<Allowed, AllocError>
    ensures { IfOk result (λ allowed. allowed ≡ makes row blob) }
{
    Ok(Allowed::Change {
        changes: only(alloc, row)?,
        blob,
        report: Report::Made,
    })
}

/// The change that puts a node's row.
pub(crate) fn only(alloc: Global, row: NodeRow) -> Result<Changes, AllocError>
    ensures { IfOk result (λ changes. changes ≡ Put (kinds.Node row) ∷ []) }
{
    let mut changes = Changes::new(alloc);
    changes.push(Change::Put(Row::Node(row)))?;
    Ok(changes)
}

/// MKCOL makes a folder under the name that is free.
pub fn made_folder(
    alloc: Global,
    view: &View<'_>,
    moment: Moment,
    spot: &Spot,
    place: Option<Found>,
) -> Result<Allowed, AllocError>
    requires { (folder : ℕ) → place ≡ Some (Free folder) → spot.now.path ≢ [] }
    ensures { IfOk result (λ allowed. allowed ≡ made_folder view.now.tables moment (last_name spot.now) place) }
{
    let Some(place) = place else {
        return Ok(Allowed::Close);
    };
    match place {
        Found::Free { folder } => {
            let name = last_name(spot)?;
            let content = Content::empty(alloc);
            let row = new_node(view, moment, folder, name, NodeKind::Folder, content);
            makes(alloc, row, None)
        }
        Found::At(_) | Found::Missing { .. } => Ok(Allowed::Close),
    }
}

/// DELETE puts the node that is there in the trash, with all under it, unless the trash can't hold it.
pub fn deleted(
    alloc: Global,
    view: &View<'_>,
    moment: Moment,
    node: Option<NodeId>,
) -> Result<Allowed, AllocError>
    requires { AreSound view.now.tables }
    ensures { IfOk result (λ allowed. allowed ≡ deleted view.now.tables moment node) }
{
    let deeds = leaves(alloc, view, moment, node)?.alone()?;
    Ok(done(deeds, Report::Done))
}

/// MOVE puts the node that is there into the target's folder, under the target's name, and what is replaced in the trash. What goes to
/// another owner is copied there, and is then put in the trash of its owner.
pub fn moved(
    alloc: Global,
    view: &View<'_>,
    moment: Moment,
    spot: &Spot,
    transfer: Option<Transfer>,
) -> Result<Allowed, AllocError>
    requires sound { AreSound view.now.tables }
    requires named { IsSome transfer → spot.now.path ≢ [] }
    requires few { IfSome transfer (λ transfer. carry_limit view.now.tables transfer ≡ None) }
    ensures { IfOk result (λ allowed. allowed ≡ moved view.now.tables moment (last_name spot.now) transfer) }
{
    let Some(transfer) = transfer else {
        return Ok(Allowed::Close);
    };
    let deeds = carries(alloc, view, moment, last_name(spot)?, &transfer)?;
    Ok(done(deeds, made_or_done(transfer.replaced)))
}

fn carries(
    alloc: Global,
    view: &View<'_>,
    moment: Moment,
    name: Name,
    transfer: &Transfer,
) -> Result<Vec<Deed>, AllocError>
    requires sound { AreSound view.now.tables }
    requires few { carry_limit view.now.tables transfer.now ≡ None }
    ensures { IfOk result (λ deeds. deeds.items ≡ carries view.now.tables moment name transfer.now) }
{
    if !crosses(view.tree(), transfer) {
        return moves(alloc, view, moment, name, transfer);
    }
    let mut deeds = crossing(alloc, view, moment, name, transfer)?;
    settle(alloc, view, &charged_at(view, transfer), &mut deeds)?;
    Ok(deeds)
}

fn moves(
    alloc: Global,
    view: &View<'_>,
    moment: Moment,
    name: Name,
    transfer: &Transfer,
) -> Result<Vec<Deed>, AllocError>
    requires { AreSound view.now.tables }
    ensures { IfOk result (λ deeds. deeds.items ≡ moves view.now.tables moment name transfer.now) }
{
    let deed = Deed::Relink {
        node: transfer.node,
        folder: transfer.folder,
        name,
    };
    leaves(alloc, view, moment, transfer.replaced)?.before(deed)
}

fn copies(
    alloc: Global,
    view: &View<'_>,
    moment: Moment,
    name: Name,
    transfer: &Transfer,
) -> Result<Vec<Deed>, AllocError>
    requires sound { AreSound view.now.tables }
    requires few { copy_limit view.now.tables transfer.now ≡ None }
    ensures { IfOk result (λ deeds. deeds.items ≡ copies view.now.tables moment name transfer.now) }
{
    let deed = Deed::Join(copies_to(alloc, view, moment, transfer, name)?);
    leaves(alloc, view, moment, transfer.replaced)?.before(deed)
}

fn crossing(
    alloc: Global,
    view: &View<'_>,
    moment: Moment,
    name: Name,
    transfer: &Transfer,
) -> Result<Vec<Deed>, AllocError>
    requires sound { AreSound view.now.tables }
    requires few { copy_limit view.now.tables transfer.now ≡ None }
    ensures { IfOk result (λ deeds. deeds.items ≡ crossing view.now.tables moment name transfer.now) }
{
    let deed = Deed::Join(copies_to(alloc, view, moment, transfer, name)?);
    let replaced = leaves(alloc, view, moment, transfer.replaced)?;
    let source = leaves(alloc, view, moment, Some(transfer.node))?;
    replaced.before_both(deed, source)
}

/// Who is charged for copies: the owner of their folder, in the place of what they replace.
fn charged_at(view: &View<'_>, transfer: &Transfer) -> Charged
    requires { AreSound view.now.tables }
    ensures { result ≡ charged_for view.now.tables transfer.now }
{
    let old = size_replaced(view, &transfer.replaced);
    let owner = owner_of(view.tree(), transfer.folder);
    owner_charged(view, owner, old, view.size(transfer.node))
}

/// Copies, and what goes of the versions of who is charged for them.
fn copies_settled(
    alloc: Global,
    view: &View<'_>,
    moment: Moment,
    name: Name,
    transfer: &Transfer,
) -> Result<Vec<Deed>, AllocError>
    requires sound { AreSound view.now.tables }
    requires few { copy_limit view.now.tables transfer.now ≡ None }
    ensures { IfOk result (λ deeds. deeds.items ≡ copies_settled view.now.tables moment name transfer.now) }
{
    let mut deeds = copies(alloc, view, moment, name, transfer)?;
    settle(alloc, view, &charged_at(view, transfer), &mut deeds)?;
    Ok(deeds)
}

/// What is put at a place is made, where nothing was there.
fn made_or_done(replaced: Option<NodeId>) -> Report
    ensures { result ≡ made_or_done replaced }
{
    match replaced {
        Some(_) => Report::Done,
        None => Report::Made,
    }
}

/// COPY puts copies of the node that is there, and of all under it, into the target's folder, under the target's name, and what is
/// replaced in the trash.
pub fn copied(
    alloc: Global,
    view: &View<'_>,
    moment: Moment,
    spot: &Spot,
    transfer: Option<Transfer>,
) -> Result<Allowed, AllocError>
    requires sound { AreSound view.now.tables }
    requires named { IsSome transfer → spot.now.path ≢ [] }
    requires few { IfSome transfer (λ transfer. copy_limit view.now.tables transfer ≡ None) }
    ensures { IfOk result (λ allowed. allowed ≡ copied view.now.tables moment (last_name spot.now) transfer) }
{
    let Some(transfer) = transfer else {
        return Ok(Allowed::Close);
    };
    let deeds = copies_settled(alloc, view, moment, last_name(spot)?, &transfer)?;
    Ok(done(deeds, made_or_done(transfer.replaced)))
}

/// A new node in a folder, with the next number and the folder's owner.
pub(crate) fn new_node(
    view: &View<'_>,
    moment: Moment,
    folder: NodeId,
    name: Name,
    kind: NodeKind,
    content: Content,
) -> NodeRow
    requires { IsPlain kind content }
    ensures { result ≡ new_node view.now.tables moment folder name kind content }
{
    NodeRow {
        id: view.meta().next_node,
        owner: owner_of(view.tree(), folder),
        place: Place::Inside(folder),
        name,
        kind,
        content,
        changed: moment,
    }
}

/// The last name of a path that has one.
pub fn last_name(spot: &Spot) -> Result<Name, AllocError>
    requires { spot.now.path ≢ [] }
    ensures { IfOk result (λ name. name ≡ last_name spot.now) }
{
    spot.path.names().last().unwrap().copy()
}

/// Nothing is done.
pub fn nothing_done(alloc: Global) -> Allowed
    ensures { result ≡ nothing_done }
{
    Allowed::Change {
        changes: Changes::new(alloc),
        blob: None,
        report: Report::Plain,
    }
}
