//! What is done over a hub by two threads: its seats are served, and swept beside.

ghost use Rattle.std.specs.Prelude.{◌≡◌, None};
ghost use Rattle.nf_hub.specs.Seats.{IsSeat, book};
ghost use Rattle.nf_server.specs.Posts.{IsFilled};
ghost use Rattle.nf_session.specs.Book.{held};
ghost use denote.Param.Send.{IsSend, IsSync};

use crate::events::SeatWorker;
use crate::stage::Stage;
use case_files::{Step, StepKind};
use nf_base::Moment;
use nf_desk::Swept;
use nf_hub::{Hub, Seat};
use nf_keeper::Keeper;
use nf_server::serve;
use std::alloc::{AllocError, Global};
use std::sync::Wait;
use std::thread::{Threads, join_mut};

/// Who takes part in a case, and its sweeps.
#[derive(Drop)]
pub struct Cast<'s> {
    pub workers: Vec<SeatWorker<'s>>,
    pub sweeps: Vec<Sweep>,
}

/// Serves the messages through the first seat and sweeps through the second; then one seat is joined into the other.
pub fn act<'s, R: Threads + Wait + Sync, K: Keeper + Drop + Send>(
    rt: &R,
    alloc: Global,
    hub: &Hub<K>,
    seats: (Seat<K>, Seat<K>),
    stage: &'s Stage,
    cast: Cast<'s>,
) -> (Seat<K>, Cast<'s>)
    requires seats { IsSeat K.Keeper hub.now seats.0 × IsSeat K.Keeper hub.now seats.1 }
    requires idle { (held (book K.Keeper hub.now seats.0) ≡ None) × (held (book K.Keeper hub.now seats.1) ≡ None) }
    ensures seat { IsSeat K.Keeper hub.now result.0 }
    ensures idle { held (book K.Keeper hub.now result.0) ≡ None }
{
    let mut seat = Some(seats.0);
    let mut workers = cast.workers;
    let mut sweeping = Sweeping {
        stage,
        seat: Some(seats.1),
        sweeps: cast.sweeps,
    };
    let mut serving = ||
        requires { IsSync R.row × IsSend K.row × IsFilled K.Keeper hub.now seat }
        ensures { IsFilled K.Keeper hub.entry.now seat.exit }
    { serve_all(rt, alloc, hub, &mut seat, &mut workers) };
    do_beside(rt, hub, &mut sweeping, &mut serving);
    let (Some(mut seat), Some(other)) = (seat, sweeping.seat) else {
        unreachable!()
    };
    hub.join(&mut seat, other);
    let cast = Cast {
        workers,
        sweeps: sweeping.sweeps,
    };
    (seat, cast)
}

/// What a thread does over a hub. It is given references to type parameters, and none to what has parameters of its own.
pub trait Job<R, H> {
    /// It has a seat of that hub, which holds nothing.
    ghost ready: { H → Self → Type 0 };

    fn work(&mut self, rt: &R, hub: &H)
        requires { ready hub.now self.old }
        ensures { ready hub.now self.new };
}

/// Does a job in a thread of its own, and something else here.
pub fn do_beside<R: Threads + Sync, H: Sync, J: Job<R, H> + Send, F: FnMut()>(
    rt: &R,
    hub: &H,
    there: &mut J,
    here: &mut F,
)
    requires there { J.ready hub.now there.old }
    requires here { F.pre here.old }
    ensures there { J.ready hub.now there.new }
    ensures here { F.step here.old tt here.new }
{
    let mut first = ||
        requires { J.ready hub.now there.now }
        ensures { J.ready hub.entry.now there.exit.now }
    { there.work(rt, hub) };
    join_mut(rt, &mut first, here);
}

// The seats' messages are served. A hub has more seats than a case; with fewer nothing is served.
fn serve_all<R: Threads + Wait + Sync, K: Keeper + Drop + Send>(
    rt: &R,
    alloc: Global,
    hub: &Hub<K>,
    place: &mut Option<Seat<K>>,
    workers: &mut [SeatWorker<'_>],
)
    requires { IsFilled K.Keeper hub.now place.old }
    ensures { IsFilled K.Keeper hub.now place.new }
{
    let Some(seat) = place.take() else {
        unreachable!()
    };
    if workers.len() > seat.left() {
        *place = Some(seat);
        return;
    }
    let (_, seat) = serve(rt, alloc, hub, seat, workers, u64::MAX);
    *place = Some(seat);
}

/// A sweep, and what went by it, once it was made.
#[derive(Drop)]
pub struct Sweep {
    pub step: usize,
    pub swept: Option<Swept>,
}

/// The sweeps of a case, in the order of its steps.
pub fn sweeps_of(alloc: Global, steps: &[Step]) -> Result<Vec<Sweep>, AllocError> {
    let mut sweeps = Vec::new(alloc);
    for (index, step) in steps.iter().enumerate() {
        if step.kind == StepKind::Sweep {
            sweeps.push(Sweep {
                step: index,
                swept: None,
            })?;
        }
    }
    Ok(sweeps)
}

/// The hub is swept, through a seat of its own, whenever such a step comes.
#[derive(Drop)]
pub struct Sweeping<'s, K: Keeper + Drop> {
    pub stage: &'s Stage,
    pub seat: Option<Seat<K>>,
    pub sweeps: Vec<Sweep>,
}

impl<'s, R: Wait, K: Keeper + Drop> Job<R, Hub<K>> for Sweeping<'s, K> {
    ghost ready = { λ hub sweeping. IsFilled K.Keeper hub sweeping.seat };

    fn work(&mut self, rt: &R, hub: &Hub<K>) {
        let Some(seat) = self.seat.take() else {
            unreachable!()
        };
        self.seat = Some(sweep_in_turn(rt, hub, seat, self.stage, &mut self.sweeps));
    }
}

fn sweep_in_turn<R: Wait, K: Keeper + Drop>(
    rt: &R,
    hub: &Hub<K>,
    seat: Seat<K>,
    stage: &Stage,
    sweeps: &mut [Sweep],
) -> Seat<K>
    requires seat { IsSeat K.Keeper hub.now seat }
    requires idle { held (book K.Keeper hub.now seat) ≡ None }
    ensures seat { IsSeat K.Keeper hub.now result }
    ensures idle { held (book K.Keeper hub.now result) ≡ None }
{
    let mut seat = seat;
    for sweep in sweeps {
        if stage.wait_for(sweep.step) {
            sweep.swept = hub.sweep(rt, &mut seat, Moment::new(stage.now())).ok();
        }
        stage.leave(sweep.step);
    }
    seat
}
