//! The steps of a seat: each is planned, told to the keeper where it changes something, and then adopted.

ghost use Rattle.std.specs.Prelude.{◌≡◌, ◌≢◌, [], All, IfOk, OnOk, OnErr};
ghost use Rattle.sha2.specs.Sha256.{sha256};
ghost use Rattle.nf_desk.specs.Stepping.{Asks, IsEmpty, Makes, Starts, Steps, standing, stored_by, told_by};
ghost use Rattle.nf_keeper.specs.Keeping.{Counts};
ghost use Rattle.nf_keeper.specs.Views.{stored_in};
ghost use Rattle.nf_session.specs.Book.{event_of_body};
ghost use Rattle.nf_site.specs.Held.{HasEntryRoom};
ghost use Rattle.nf_told.specs.Told.{FitsChange};
ghost use Rattle.nf_words.specs.Prelude.{blob_by, MayAsk};
ghost use Rattle.nf_words.specs.declared.history.Event.TheVariants.{Begin, End};
ghost use Rattle.nf_words.specs.declared.history.Mark.TheVariants as mark;

use nf_base::{BlobId, Digest, Moment};
use nf_keeper::{KeepFault, Keeper, NewBlob};
use nf_site::{Plan, RoomFault, Site};
use nf_words::{Answer, Denial, Event, Mark, Outcome, Request, Words};
use std::alloc::{AllocError, Global};

/// The Begin of a request. Where the run has no room for it or there is no memory, nothing is done.
pub(crate) fn begin<K: Keeper>(
    alloc: Global,
    site: &mut Site,
    keeper: &mut K,
    seat: u64,
    now: Moment,
    words: Words,
    request: Request,
) -> Answer
    requires { MayAsk site.old.kept.state seat (Begin words request) }
    ensures { Asks seat (standing site.old.kept (K.told keeper.old) (K.faults keeper.old))
        (standing site.new.kept (K.told keeper.new) (K.faults keeper.new)) now words request result }
{
    start(
        alloc,
        site,
        keeper,
        seat,
        now,
        Event::Begin { words, request },
    )
}

/// What a seat begins. Where the run has no room for it or there is no memory, nothing is done.
#[tactic(auto, using(crate::proofs::Turns::any_room))]
pub(crate) fn start<K: Keeper>(
    alloc: Global,
    site: &mut Site,
    keeper: &mut K,
    seat: u64,
    now: Moment,
    event: Event,
) -> Answer
    requires { MayAsk site.old.kept.state seat event }
    ensures { Starts seat (standing site.old.kept (K.told keeper.old) (K.faults keeper.old))
        (standing site.new.kept (K.told keeper.new) (K.faults keeper.new)) now event result }
{
    match site.room() {
        Ok(()) => match step(alloc, site, keeper, seat, now, event, &[]) {
            Ok(answer) => answer,
            Err(AllocError) => Err(Denial::Memory),
        },
        Err(RoomFault::Full) => Err(Denial::RunFull),
        Err(RoomFault::Memory) => Err(Denial::Memory),
    }
}

/// The End of what brings nothing. It takes no memory, and the keeper has nothing to do.
pub(crate) fn finish(
    alloc: Global,
    site: &mut Site,
    seat: u64,
    now: Moment,
    outcome: Outcome,
) -> Answer
    requires asked { MayAsk site.old.kept.state seat (End outcome) }
    requires empty { IsEmpty outcome }
    ensures { Makes seat site.old.kept site.new.kept now (End outcome) mark.Answered result }
{
    let plan = site.plan(alloc, seat, now, Event::End(outcome)).unwrap();
    site.adopt(plan)
}

/// The End of a PUT with its body. Where there is no memory for it, the history says so.
pub(crate) fn store<K: Keeper>(
    alloc: Global,
    site: &mut Site,
    keeper: &mut K,
    seat: u64,
    now: Moment,
    digest: Digest,
    body: &[u8],
) -> Answer
    requires digest { digest ≡ sha256 body.now }
    requires asked { MayAsk site.old.kept.state seat (event_of_body body.now) }
    ensures { Steps seat (standing site.old.kept (K.told keeper.old) (K.faults keeper.old))
        (standing site.new.kept (K.told keeper.new) (K.faults keeper.new)) now (event_of_body body.now) body.now result }
{
    match step(alloc, site, keeper, seat, now, event_of(digest, body), body) {
        Ok(answer) => answer,
        Err(AllocError) => {
            site.fail(seat, now, event_of(digest, body), Mark::Memory);
            Err(Denial::Memory)
        }
    }
}

/// The seat's step of an event with the bytes that it brings. Where the keeper fails, the history says so. For want of memory nothing
/// is done.
fn step<K: Keeper>(
    alloc: Global,
    site: &mut Site,
    keeper: &mut K,
    seat: u64,
    now: Moment,
    event: Event,
    body: &[u8],
) -> Result<Answer, AllocError>
    requires asked { MayAsk site.old.kept.state seat event }
    requires room { HasEntryRoom site.old event }
    ensures ok { IfOk result (λ answer. Steps seat (standing site.old.kept (K.told keeper.old) (K.faults keeper.old))
        (standing site.new.kept (K.told keeper.new) (K.faults keeper.new)) now event body.now answer) }
    ensures err { OnErr result (standing site.new.kept (K.told keeper.new) (K.faults keeper.new)
        ≡ standing site.old.kept (K.told keeper.old) (K.faults keeper.old)) }
{
    let plan = site.plan(alloc, seat, now, event)?;
    match tell(keeper, &plan, body) {
        Ok(()) => Ok(site.adopt(plan)),
        Err(KeepFault::Failed) => {
            site.fail(seat, now, plan.into_event(), Mark::Store);
            Ok(Err(Denial::Store))
        }
        Err(KeepFault::Memory) => Err(AllocError),
    }
}

/// Has the keeper make what a step changes, where it changes something.
fn tell<K: Keeper>(keeper: &mut K, plan: &Plan, body: &[u8]) -> Result<(), KeepFault>
    ensures made { OnOk result (K.told keeper.new ≡ told_by plan.now.changes (stored_by (blob_by plan.now.decision) body.now) (K.told keeper.old)) }
    ensures fits { OnOk result (All FitsChange plan.now.changes) }
    ensures some { OnErr result (plan.now.changes ≢ []) }
    ensures same { OnErr result (K.told keeper.new ≡ K.told keeper.old) }
    ensures count { Counts (K.faults keeper.old) (K.faults keeper.new) result }
{
    if plan.changes().is_empty() {
        return Ok(());
    }
    let blob = new_blob(plan.blob(), body);
    keeper.apply(plan.changes(), blob.as_ref())
}

/// The body under that number, if there is one.
fn new_blob(id: Option<BlobId>, body: &[u8]) -> Option<NewBlob<'_>>
    ensures { stored_in result ≡ stored_by id body.now }
{
    id.map(|id| NewBlob { id, bytes: body })
}

/// The End that brings a body of that digest.
fn event_of(digest: Digest, body: &[u8]) -> Event
    requires { digest ≡ sha256 body.now }
    ensures { result ≡ event_of_body body.now }
{
    Event::End(Outcome::Body {
        digest,
        length: body.len() as u64,
    })
}
