//! Workers: threads that serve the connections of doors, each through a seat of its own.

ghost use Rattle.std.specs.Prelude.{◌≡◌, ◌≤◌, ◌<◌, ◌+◌, ◌↔◌, ℕ, IsTrue, length, None, Some};
ghost use Rattle.nf_hub.specs.Seats.{IsSeat, book, memory_of};
ghost use Rattle.nf_outside.specs.Lent.{takes};
ghost use Rattle.nf_server.specs.Posts.{Beside};
ghost use Rattle.nf_server.specs.Work.{ServesNext, WorkBeside, Works, both as of_both};
ghost use Rattle.nf_server.specs.declared.workers.Worked.{Worked};
ghost use Rattle.nf_session.specs.Book.{held};
ghost use Rattle.nf_session.specs.declared.ended.Ended.TheVariants as ends;
ghost use Rattle.nf_turn.specs.Prelude.{IsWhole, longer, numbers};
ghost use Rattle.nf_desk.specs.Desk.{meanings};
ghost use denote.Param.Send.{IsSend, IsSync};

use crate::door::Door;
use crate::link::Link;
use crate::serving::{Served, serve_link};
use nf_hub::{Hub, Seat};
use nf_keeper::Keeper;
use nf_outside::{Clock, Dice, Failed};
use nf_routes::Routes;
use nf_session::Ended;
use std::alloc::Global;
use std::marker::Model;
use std::sync::Wait;
use std::thread::{Threads, join_mut};

/// A door whose connections one thread serves, and its clock and dice.
#[derive(Drop)]
pub struct Worker<D: Drop, C: Drop, Q: Drop> {
    pub door: D,
    pub clock: C,
    pub dice: Q,
}

/// How workers ended.
#[derive(Clone, Copy, PartialEq, Eq)]
pub enum Worked {
    /// No door has a connection left, or as many were served as a worker serves.
    All,
    /// A door failed, and counted it.
    DoorFault,
    /// The run has no room for two more entries.
    RunFull,
    /// There was no memory for a worker's routes.
    Memory,
}

impl Worked {
    // A door that failed comes first, then a full run, and then want of memory.
    fn and(self, other: Worked) -> Worked
        ensures { result ≡ of_both self other }
    {
        match (self, other) {
            (Worked::DoorFault, _) | (_, Worked::DoorFault) => Worked::DoorFault,
            (Worked::RunFull, _) | (_, Worked::RunFull) => Worked::RunFull,
            (Worked::Memory, _) | (_, Worked::Memory) => Worked::Memory,
            (Worked::All, Worked::All) => Worked::All,
        }
    }
}

/// Serves the connections of all doors, each door in a thread of its own where one can be made, at most so many of each. Every worker has
/// a seat of its own, which is split from this one and joined into it again. It takes no memory of its own but for the routes that each has.
pub fn serve<R, K, D, C, Q>(
    rt: &R,
    alloc: Global,
    hub: &Hub<K>,
    seat: Seat<K>,
    workers: &mut [Worker<D, C, Q>],
    connections: u64,
) -> (Worked, Seat<K>)
where
    R: Threads + Wait + Sync,
    K: Keeper + Drop + Send,
    D: Door + Drop + Send,
    C: Clock + Drop + Send,
    Q: Dice + Drop + Send,
    D::Source: Send,
    D::Sink: Send,
    requires seat { IsSeat K.Keeper hub.now seat }
    requires idle { held (book K.Keeper hub.now seat) ≡ None }
    requires few { length workers.old ≤ (numbers seat.turns).left }
    ensures seat { IsSeat K.Keeper hub.now result.1 }
    ensures idle { held (book K.Keeper hub.now result.1) ≡ None }
    ensures work { WorkBeside (longer (meanings K.Keeper)) (Works K.Keeper D.Source.Ends D.Sink.Ends (takes C.reads Q.draws) D.Door connections)
        (memory_of K.Keeper hub.now seat) (memory_of K.Keeper hub.now result.1) workers.old workers.new result.0 }
    // A seat from which no other was out has all numbers again.
    ensures whole { IsWhole (numbers seat.turns) → IsWhole (numbers result.1.turns) }
{
    let mut post = Post {
        rt,
        alloc,
        hub,
        connections,
        seat: Some(seat),
    };
    let worked = all(rt, &mut post, workers);
    (worked, post.into_seat())
}

/// Where a worker works, from which other such places can be split off. The borrow checker follows a reference to a type parameter into a
/// thread, and none to what has several parameters: so threads are given these, and not a seat and a `Worker`.
trait Workplace<W> {
    /// How many others can be split off.
    ghost left: { Self → ℕ };

    ghost splits: { Self → Self → Self → Type 0 };

    ghost works: { Self → Self → W → W → Worked → Type 0 };

    ghost joins: { Self → Self → Self → Type 0 };

    /// The other may be joined into it.
    ghost fits: { Self → Self → Type 0 };

    fn split(&mut self) -> Self
        requires left { 0 < left self.old }
        ensures left { left self.new + 1 ≡ left self.old }
        ensures splits { splits self.old self.new result }
        ensures fits { fits self.new result }
        ensures still { (other : Self) → fits self.old other → fits self.new other };

    fn work(&mut self, worker: &mut W) -> Worked
        ensures works { works self.old self.new worker.old worker.new result }
        ensures still { (other : Self) → fits other self.old → fits other self.new };

    fn join(&mut self, other: Self)
        requires fits { fits self.old other }
        ensures joins { joins self.old other self.new }
        ensures still { (next : Self) → fits self.old next → fits self.new next };
}

#[cycle(workers)]
fn all<R, P, W>(rt: &R, place: &mut P, workers: &mut [W]) -> Worked
where
    R: Threads + Sync,
    P: Workplace<W> + Send,
    W: Send,
    requires few { length workers.old ≤ P.left place.old }
    ensures work { Beside P.splits P.works P.joins place.old place.new workers.old workers.new result }
    ensures still { (other : P) → P.fits place.old other → P.fits place.new other }
{
    let Some((first, rest)) = workers.split_first_mut() else {
        return Worked::All;
    };
    let mut mine = place.split();
    let worked = beside(rt, &mut mine, place, first, rest);
    place.join(mine);
    worked
}

#[cycle(workers)]
fn beside<R, P, W>(rt: &R, mine: &mut P, place: &mut P, first: &mut W, rest: &mut [W]) -> Worked
where
    R: Threads + Sync,
    P: Workplace<W> + Send,
    W: Send,
    requires few { length rest.old ≤ P.left place.old }
    ensures work { (one : Worked) × (others : Worked) × P.works mine.old mine.new first.old first.new one
        × Beside P.splits P.works P.joins place.old place.new rest.old rest.new others × (result ≡ of_both one others) }
    ensures still { (other : P) → P.fits other mine.old → P.fits other mine.new }
    ensures too { (other : P) → P.fits place.old other → P.fits place.new other }
{
    let mut one = || -> Worked
        ensures { P.works mine.entry.now mine.exit.now first.entry.now first.exit.now result
            × ((other : P) → P.fits other mine.entry.now → P.fits other mine.exit.now) }
    { mine.work(first) };
    let mut others = || -> Worked
        requires { IsSync R.row × IsSend P.row × IsSend W.row × (length rest.now ≤ P.left place.now) }
        ensures { Beside P.splits P.works P.joins place.entry.now place.exit.now rest.entry.now rest.exit.now result
            × ((other : P) → P.fits place.entry.now other → P.fits place.exit.now other) }
    { all(rt, place, rest) };
    let (theirs, its) = join_mut(rt, &mut others, &mut one);
    its.and(theirs)
}

/// A seat, and what a thread needs to work through it.
#[derive(Drop)]
struct Post<'t, R: Wait, K: Keeper + Drop> {
    rt: &'t R,
    alloc: Global,
    hub: &'t Hub<K>,
    connections: u64,
    seat: Option<Seat<K>>,
}

impl<'t, R: Wait, K: Keeper + Drop> Model for Post<'t, R, K> {
    ghost use Rattle.nf_server.specs.Posts.{IsFilled, Posted};

    ghost Value = { Posted K };

    ghost view = { λ post. record { hub = post.hub; connections = post.connections; seat = post.seat } };

    ghost invariant = { λ post. IsFilled K.Keeper post.hub.now post.seat };
}

impl<'t, R: Wait, K: Keeper + Drop> Post<'t, R, K> {
    ghost use Rattle.nf_server.specs.Posts.{IsFilled};

    fn into_seat(self) -> Seat<K>
        ensures same { self.entry.seat ≡ Some result }
        ensures filled { IsFilled K.Keeper self.entry.hub.now (Some result) }
    {
        let Post {
            rt: _,
            alloc: _,
            hub: _,
            connections: _,
            seat,
        } = self;
        match seat {
            Some(seat) => seat,
            None => unreachable!(),
        }
    }
}

impl<'t, R: Wait, K: Keeper + Drop, D: Door + Drop, C: Clock + Drop, Q: Dice + Drop> Workplace<
    Worker<D, C, Q>,
> for Post<'t, R, K> {
    ghost use Rattle.nf_server.specs.Posts.{IsBeside, JoinsIn, SplitsOff, WorksThrough, left_at};

    ghost left = { λ p. left_at K.Keeper p.seat };

    ghost splits = { SplitsOff K.Keeper };

    ghost works = { λ p q a b result. WorksThrough K.Keeper
        (λ connections m n. Works K.Keeper D.Source.Ends D.Sink.Ends (takes C.reads Q.draws) D.Door connections m n a b result) p q };

    ghost joins = { JoinsIn K.Keeper };

    ghost fits = { IsBeside };

    fn split(&mut self) -> Self {
        let Some(mut seat) = self.seat.take() else {
            unreachable!()
        };
        let Some(other) = self.hub.split(&mut seat) else {
            unreachable!()
        };
        self.seat = Some(seat);
        Post {
            rt: self.rt,
            alloc: self.alloc,
            hub: self.hub,
            connections: self.connections,
            seat: Some(other),
        }
    }

    fn work(&mut self, worker: &mut Worker<D, C, Q>) -> Worked {
        // Routes can't be shared by threads, so each has its own.
        let Ok(routes) = Routes::new(self.alloc) else {
            // Else the others would serve on, and nobody would learn that one is missing.
            worker.door.close();
            return Worked::Memory;
        };
        let Some(seat) = self.seat.take() else {
            unreachable!()
        };
        let (worked, seat) = work(
            self.rt,
            self.alloc,
            &routes,
            self.hub,
            self.connections,
            seat,
            worker,
        );
        self.seat = Some(seat);
        worked
    }

    fn join(&mut self, other: Self) {
        let Post {
            rt: _,
            alloc: _,
            hub: _,
            connections: _,
            seat: other,
        } = other;
        let (Some(mut seat), Some(other)) = (self.seat.take(), other) else {
            unreachable!()
        };
        self.hub.join(&mut seat, other);
        self.seat = Some(seat);
    }
}

// Serves the connections of one door, one after the other.
fn work<R, K, D, C, Q>(
    rt: &R,
    alloc: Global,
    routes: &Routes,
    hub: &Hub<K>,
    connections: u64,
    seat: Seat<K>,
    worker: &mut Worker<D, C, Q>,
) -> (Worked, Seat<K>)
where
    R: Wait,
    K: Keeper + Drop,
    D: Door + Drop,
    C: Clock + Drop,
    Q: Dice + Drop,
    requires seat { IsSeat K.Keeper hub.now seat }
    requires idle { held (book K.Keeper hub.now seat) ≡ None }
    ensures seat { IsSeat K.Keeper hub.now result.1 }
    ensures idle { held (book K.Keeper hub.now result.1) ≡ None }
    ensures works { Works K.Keeper D.Source.Ends D.Sink.Ends (takes C.reads Q.draws) D.Door connections
        (memory_of K.Keeper hub.now seat) (memory_of K.Keeper hub.now result.1) worker.old worker.new result.0 }
{
    let mut seat = seat;
    for _ in 0..connections {
        match worker.door.next() {
            Ok(Some(link)) => {
                let served = serve_next(rt, alloc, routes, hub, seat, worker, link);
                seat = served.seat;
                if is_full(served.ended) {
                    worker.door.close();
                    return (Worked::RunFull, seat);
                }
            }
            Ok(None) => return (Worked::All, seat),
            Err(Failed) => return (Worked::DoorFault, seat),
        }
    }
    (Worked::All, seat)
}

fn is_full(ended: Option<Ended>) -> bool
    ensures { IsTrue result ↔ (ended ≡ Some ends.RunFull) }
{
    matches!(ended, Some(Ended::RunFull))
}

// Serves a connection, and gives it back to its door.
fn serve_next<R, K, D, C, Q>(
    rt: &R,
    alloc: Global,
    routes: &Routes,
    hub: &Hub<K>,
    seat: Seat<K>,
    worker: &mut Worker<D, C, Q>,
    link: Link<D::Source, D::Sink>,
) -> Served<K>
where
    R: Wait,
    K: Keeper + Drop,
    D: Door + Drop,
    C: Clock + Drop,
    Q: Dice + Drop,
    requires seat { IsSeat K.Keeper hub.now seat }
    requires idle { held (book K.Keeper hub.now seat) ≡ None }
    requires room { D.has_room worker.old.door }
    ensures seat { IsSeat K.Keeper hub.now result.seat }
    ensures idle { held (book K.Keeper hub.now result.seat) ≡ None }
    ensures serves { ServesNext K.Keeper D.Source.Ends D.Sink.Ends (takes C.reads Q.draws) D.Door
        (memory_of K.Keeper hub.now seat) (memory_of K.Keeper hub.now result.seat) worker.old worker.new link result.ended }
{
    let mut link = link;
    let (clock, dice) = (&mut worker.clock, &mut worker.dice);
    let served = serve_link(rt, alloc, routes, hub, seat, &mut link, clock, dice);
    worker.door.back(link);
    served
}
