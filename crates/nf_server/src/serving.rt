//! A session through a seat.

ghost use Rattle.std.specs.Prelude.{◌≡◌, ◌<◌, ◌≤◌, ℕ, List, [], length, None, Some};
ghost use Rattle.nf_base.specs.declared.limits.TheConstants.{MAX_ENTRIES, MAX_HEAD};
ghost use Rattle.nf_hub.specs.Seats.{IsSeat, book, memory_of, steady};
ghost use Rattle.nf_outside.specs.Lent.{lent, takes};
ghost use Rattle.nf_server.specs.Links.{scene_at};
ghost use Rattle.nf_session.specs.Prelude.{entries_wanted, held, Session};
ghost use Rattle.nf_session.specs.declared.ended.Ended.TheVariants as ended;

use crate::link::Link;
use nf_hub::{Hub, Seat, Visit};
use nf_keeper::Keeper;
use nf_outside::{Clock, Dice, Sink, Source};
use nf_routes::Routes;
use nf_session::{Ended, serve_session};
use std::alloc::Global;
use std::sync::Wait;

/// How a session ended, and the seat that it had.
#[derive(Drop)]
pub struct Served<K: Keeper + Drop> {
    /// None says that `MAX_MESSAGES` messages were answered, and that none ended the session.
    pub ended: Option<Ended>,
    pub seat: Seat<K>,
}

/// Serves the messages of one connection through a seat, which is the session's while it lasts.
///
/// Up to `MAX_HEAD` bytes may have been read behind the last message that was taken; they are lost with the session.
pub fn serve_link<R: Wait, K: Keeper + Drop, S: Source, O: Sink, C: Clock, Q: Dice>(
    rt: &R,
    alloc: Global,
    routes: &Routes,
    hub: &Hub<K>,
    seat: Seat<K>,
    link: &mut Link<S, O>,
    clock: &mut C,
    dice: &mut Q,
) -> Served<K>
    requires seat { IsSeat K.Keeper hub.now seat }
    requires idle { held (book K.Keeper hub.now seat) ≡ None }
    ensures seat { IsSeat K.Keeper hub.now result.seat }
    ensures idle { held (book K.Keeper hub.now result.seat) ≡ None }
    ensures steady { steady (memory_of K.Keeper hub.now result.seat) ≡ steady (memory_of K.Keeper hub.now seat) }
    ensures session { (kept : List ℕ) × (length kept ≤ MAX_HEAD) × Session (takes C.reads Q.draws)
        (scene_at S.Ends O.Ends (book K.Keeper hub.now seat) [] link.old.source link.old.sink (lent clock.old dice.old))
        (scene_at S.Ends O.Ends (book K.Keeper hub.now result.seat) kept link.new.source link.new.sink (lent clock.new dice.new)) result.ended }
    ensures full { result.ended ≡ Some ended.RunFull → MAX_ENTRIES < entries_wanted (book K.Keeper hub.now result.seat) }
{
    serve_ends(
        rt,
        alloc,
        routes,
        hub,
        seat,
        &mut link.source,
        &mut link.sink,
        clock,
        dice,
    )
}

/// The same over the two ends of a connection that aren't held together.
pub fn serve_ends<R: Wait, K: Keeper + Drop, S: Source, O: Sink, C: Clock, Q: Dice>(
    rt: &R,
    alloc: Global,
    routes: &Routes,
    hub: &Hub<K>,
    seat: Seat<K>,
    input: &mut S,
    output: &mut O,
    clock: &mut C,
    dice: &mut Q,
) -> Served<K>
    requires seat { IsSeat K.Keeper hub.now seat }
    requires idle { held (book K.Keeper hub.now seat) ≡ None }
    ensures seat { IsSeat K.Keeper hub.now result.seat }
    ensures idle { held (book K.Keeper hub.now result.seat) ≡ None }
    ensures steady { steady (memory_of K.Keeper hub.now result.seat) ≡ steady (memory_of K.Keeper hub.now seat) }
    ensures session { (kept : List ℕ) × (length kept ≤ MAX_HEAD) × Session (takes C.reads Q.draws)
        (scene_at S.Ends O.Ends (book K.Keeper hub.now seat) [] input.old output.old (lent clock.old dice.old))
        (scene_at S.Ends O.Ends (book K.Keeper hub.now result.seat) kept input.new output.new (lent clock.new dice.new)) result.ended }
    ensures full { result.ended ≡ Some ended.RunFull → MAX_ENTRIES < entries_wanted (book K.Keeper hub.now result.seat) }
{
    let mut visit = Visit::new(rt, hub, seat);
    let ended = serve_session(alloc, routes, input, output, clock, dice, &mut visit);
    Served {
        ended,
        seat: visit.into_seat(),
    }
}
