//! The End of a request in two steps, decided by the tables of its own moment.

ghost use Rattle.std.specs.Prelude.{◌≡◌, ◌≤◌, ◌==◌, ◌&&◌, false, IfOk, None, Some, option_map, if◌then◌else◌};
ghost use Rattle.std.specs.Option.{ForSome, option_or};
ghost use Rattle.nf_base.specs.declared.limits.TheConstants.{MAX_BODY};
ghost use Rattle.nf_base.specs.declared.rows.NodeKind.TheVariants.{File};
ghost use Rattle.nf_words.specs.Prelude.{access_of, AreSound, blob_for, content_in, end_lost, end_refusal, end_unfit, ends_goal, excess_at, IsGoalSound, IsHeld, IsStorable, limit_at, MayBring, needed_by, new_file, new_node, node_of_key, pieces_of, place_of, stored_at, stored_new, stores};
ghost use Rattle.nf_words.specs.declared.answer.By.{By as TheBy};
ghost use Rattle.nf_words.specs.declared.answer.Denial.TheVariants.{Limit, NotFound, Quota};
ghost use Rattle.nf_reach.specs.Asking.{refusal_for};
ghost use Rattle.nf_deeds.specs.Ending.{unreached_unless_owner};

use crate::acting::{new_node, only};
use crate::chunks::{Chunk, store_chunk};
use crate::limits::{limit_at, pieces_of};
use crate::quotas::excess_at;
use crate::refilling::{push_dropped, stored_over};
use crate::settling::{owner_charged, settled};
use nf_base::{Act, BlobId, Changes, Content, Digest, Moment, Name, NodeId, NodeKind, Piece};
use nf_defs::Found;
use nf_reach::Asker;
use nf_view::{View, is_root, owner_of};
use nf_words::{Allowed, By, Denial, Goal, LockKey, Outcome, Report};
use std::alloc::{AllocError, Global};

/// What the End of a goal may do, or its refusal.
pub fn decide_end(
    alloc: Global,
    view: &View<'_>,
    moment: Moment,
    goal: &Goal,
    outcome: &Outcome,
) -> Result<Result<Allowed, Denial>, AllocError>
    requires rows { AreSound view.now.tables }
    requires sound { IsGoalSound view.now.tables goal.now }
    requires held { IsStorable view.now.tables goal.now }
    requires brought { MayBring goal.now outcome.now }
    requires late { view.now.tables.meta.last ≤ moment }
    ensures { IfOk result (λ decision. decision ≡ ends_goal (access_of view.now) view.now.tables moment outcome.now goal.now) }
{
    match outcome {
        Outcome::Sent | Outcome::Gone => Ok(Ok(Allowed::Close)),
        Outcome::Body { digest, length } => match goal {
            Goal::Serve(_) => Ok(Ok(Allowed::Close)),
            Goal::Store { by, key, .. } => store(alloc, view, moment, by, key, digest, *length),
            Goal::Chunk {
                user,
                dir,
                number,
                ..
            } => {
                let chunk = Chunk {
                    user: *user,
                    dir,
                    number: *number,
                };
                store_chunk(alloc, view, moment, &chunk, digest, *length)
            }
        },
    }
}

fn store(
    alloc: Global,
    view: &View<'_>,
    moment: Moment,
    by: &By,
    key: &LockKey,
    digest: &Digest,
    length: u64,
) -> Result<Result<Allowed, Denial>, AllocError>
    requires rows { AreSound view.now.tables }
    requires few { length ≤ MAX_BODY }
    requires held { IsHeld view.now.tables key.now }
    requires late { view.now.tables.meta.last ≤ moment }
    ensures { IfOk result (λ decision. decision ≡ stores (access_of view.now) view.now.tables moment by.now key.now digest.now length) }
{
    match end_refusal(view, moment, by, key, length) {
        Some(refusal) => Ok(Err(refusal)),
        None => Ok(Ok(stored_at(alloc, view, moment, key, digest, length)?)),
    }
}

/// The first rule that refuses the End of a PUT: those of access, of a name that a mount took, of the limits and of the quotas.
fn end_refusal(
    view: &View<'_>,
    moment: Moment,
    by: &By,
    key: &LockKey,
    length: u64,
) -> Option<Denial>
    requires rows { AreSound view.now.tables }
    ensures { result ≡ end_refusal (access_of view.now) view.now.tables moment by.now key.now length }
{
    // An End goes by no path, so that it doesn't matter what its paths would lead from.
    let asker = view.asker(by.seeker, NodeId::new(0), moment);
    match end_unreached(&asker, by.mount, node_of(key)) {
        Some(refusal) => Some(refusal),
        None => match end_unallowed(&asker, by.mount, key) {
            Some(refusal) => Some(refusal),
            None => end_lost(view, key, length),
        },
    }
}

/// The node that is stored over, or the folder of the free name.
fn node_of(key: &LockKey) -> NodeId
    ensures { result ≡ node_of_key key.now }
{
    match key {
        LockKey::Node(node) => *node,
        LockKey::Slot { folder, name: _ } => *folder,
    }
}

/// Why who stores isn't reached any more by the mount that it was granted by. Of an owner that isn't asked.
fn end_unreached(asker: &Asker<'_>, mount: Option<NodeId>, node: NodeId) -> Option<Denial>
    ensures { result ≡ unreached_unless_owner asker.now mount node }
{
    if asker.owns(node) {
        return None;
    }
    asker.unreached(mount?)
}

/// Why what was granted may not be done any more.
fn end_unallowed(asker: &Asker<'_>, mount: Option<NodeId>, key: &LockKey) -> Option<Denial>
    ensures { (by : TheBy) → by.mount ≡ mount → result ≡ refusal_for asker.now (needed_by by key.now) }
{
    match key {
        LockKey::Node(node) => asker.refused(Act::Update, *node, mount),
        LockKey::Slot { folder, name: _ } => asker.refused(Act::Create, *folder, mount),
    }
}

/// What isn't so any more: a mount took the name meanwhile, or the body doesn't fit.
fn end_lost(view: &View<'_>, key: &LockKey, length: u64) -> Option<Denial>
    requires { AreSound view.now.tables }
    ensures { result ≡ option_or (end_lost view.now.tables key.now) (end_unfit view.now.tables key.now length) }
{
    if is_mounted(view, key) {
        Some(Denial::NotFound)
    } else {
        end_unfit(view, &place_of(key), length)
    }
}

/// The limit that a body would pass there, or else how it would pass a quota.
fn end_unfit(view: &View<'_>, place: &Found, length: u64) -> Option<Denial>
    requires { AreSound view.now.tables }
    ensures { result ≡ option_or (option_map Limit (limit_at view.now.tables (pieces_of length) place.now)) (option_map Quota (excess_at view.now.tables length place.now)) }
{
    match limit_at(view, place, pieces_of(length)) {
        Some(limit) => Some(Denial::Limit(limit)),
        None => Some(Denial::Quota(excess_at(view, place, length)?)),
    }
}

/// Whether a mount took the name.
fn is_mounted(view: &View<'_>, key: &LockKey) -> bool
    ensures { end_lost view.now.tables key.now ≡ (if result then Some NotFound else None) }
{
    match key {
        LockKey::Node(_) => false,
        LockKey::Slot { folder, name } => {
            let tree = view.tree();
            is_root(tree, *folder) && view.mounts().at(owner_of(tree, *folder), name).is_some()
        }
    }
}

fn place_of(key: &LockKey) -> Found
    ensures { result ≡ place_of key.now }
{
    match key {
        LockKey::Node(node) => Found::At(*node),
        LockKey::Slot { folder, name: _ } => Found::Free { folder: *folder },
    }
}

/// What storing a body does.
fn stored_at(
    alloc: Global,
    view: &View<'_>,
    moment: Moment,
    key: &LockKey,
    digest: &Digest,
    length: u64,
) -> Result<Allowed, AllocError>
    requires few { length ≤ MAX_BODY }
    requires held { IsHeld view.now.tables key.now }
    requires sound { AreSound view.now.tables }
    requires late { view.now.tables.meta.last ≤ moment }
    ensures { IfOk result (λ allowed. allowed ≡ stored_at view.now.tables moment key.now digest.now length) }
{
    let blob = blob_for(view.meta().next_blob, length);
    let content = content_in(alloc, &blob, digest, length)?;
    match key {
        LockKey::Node(node) => stored_over(alloc, view, moment, *node, content, blob),
        LockKey::Slot { folder, name } => {
            stored_under(alloc, view, moment, *folder, name, content, blob)
        }
    }
}

/// A file under a free name, whose body is in that blob. Versions go that are beyond their bound then.
fn stored_under(
    alloc: Global,
    view: &View<'_>,
    moment: Moment,
    folder: NodeId,
    name: &Name,
    content: Content,
    blob: Option<BlobId>,
) -> Result<Allowed, AllocError>
    requires { AreSound view.now.tables }
    ensures { IfOk result (λ allowed. allowed ≡ stored_new view.now.tables (new_node view.now.tables moment folder name.now File content) blob) }
{
    Ok(Allowed::Change {
        changes: new_file(alloc, view, moment, folder, name.copy()?, content)?,
        blob,
        report: Report::Made,
    })
}

/// What becomes of the rows by a new file: its own, and those of the versions that go for it.
pub fn new_file(
    alloc: Global,
    view: &View<'_>,
    moment: Moment,
    folder: NodeId,
    name: Name,
    content: Content,
) -> Result<Changes, AllocError>
    requires { AreSound view.now.tables }
    ensures { IfOk result (λ changes. changes ≡ new_file view.now.tables (new_node view.now.tables moment folder name File content)) }
{
    let charged = owner_charged(view, owner_of(view.tree(), folder), 0, content.size());
    let gone = settled(alloc, view, &charged)?;
    let row = new_node(view, moment, folder, name, NodeKind::File, content);
    let mut changes = only(alloc, row)?;
    push_dropped(&mut changes, &gone)?;
    Ok(changes)
}

/// The blob of a body: the next one, or none for an empty body.
pub(crate) fn blob_for(next: BlobId, length: u64) -> Option<BlobId>
    ensures { result ≡ blob_for next length }
{
    if length == 0 { None } else { Some(next) }
}

/// The content of a body in its blob.
pub(crate) fn content_in(
    alloc: Global,
    blob: &Option<BlobId>,
    digest: &Digest,
    length: u64,
) -> Result<Content, AllocError>
    requires some { ForSome blob.now (λ _. 1 ≤ length) }
    requires few { length ≤ MAX_BODY }
    ensures { IfOk result (λ content. content ≡ content_in blob.now digest.now length) }
{
    let Some(blob) = blob else {
        return Ok(Content::empty(alloc));
    };
    let piece = Piece {
        blob: *blob,
        size: length as u32,
        digest: *digest,
    };
    Ok(Content::new(vec![in alloc; piece]?))
}
