//! The command that serves the connections of doors.

ghost use Rattle.std.specs.Prelude.{◌≡◌, ◌<◌, length, [], IfSome};
ghost use Rattle.nf_desk.specs.Desk.{meanings};
ghost use Rattle.nf_outside.specs.Lent.{takes};
ghost use Rattle.nf_turn.specs.Book.{IsFresh};
ghost use Rattle.filesd.specs.Doors.{RunsDoors, ServesDesk};
ghost use Rattle.filesd.specs.Reopening.{Leaves, Pays};

use crate::opening::status_of;
use crate::running::{Finished, handed_out, unopened};
use crate::status::{Status, status_of_workers};
use nf_base::MAX_SEATS;
use nf_desk::{Desk, Opening, Unopened};
use nf_hub::Hub;
use nf_keeper::Keeper;
use nf_outside::{Clock, Dice};
use nf_server::{Door, Worker, serve};
use std::alloc::Global;
use std::sync::Wait;
use std::thread::Threads;

/// Serves the workers' doors over the rows that the keeper has, at most so many connections of each.
pub(crate) fn serve_doors<R, K, D, W, V>(
    rt: &R,
    alloc: Global,
    keeper: K,
    workers: &mut [Worker<D, W, V>],
    connections: u64,
) -> Finished<K>
where
    R: Threads + Wait + Sync,
    K: Keeper + Drop + Send,
    D: Door + Drop + Send,
    W: Clock + Drop + Send,
    V: Dice + Drop + Send,
    D::Source: Send,
    D::Sink: Send,
    requires workers { length workers.old < MAX_SEATS }
    ensures runs { RunsDoors K.Keeper D.Source.Ends D.Sink.Ends (takes W.reads V.draws) D.Door connections keeper result.keeper workers.old workers.new result.status result.site }
    ensures leaves { IfSome result.site (λ site. Leaves site.kept (K.told result.keeper)) }
    ensures paid { IfSome result.site (λ site. Pays site.kept (K.faults keeper) (K.faults result.keeper)) }
{
    match Desk::open(alloc, keeper, Opening::Kept) {
        Ok(desk) => serve_over(rt, alloc, desk, workers, connections),
        Err(Unopened { fault, keeper }) => unopened(status_of(fault), keeper),
    }
}

/// The same over a desk that was just opened.
fn serve_over<R, K, D, W, V>(
    rt: &R,
    alloc: Global,
    desk: Desk<K>,
    workers: &mut [Worker<D, W, V>],
    connections: u64,
) -> Finished<K>
where
    R: Threads + Wait + Sync,
    K: Keeper + Drop + Send,
    D: Door + Drop + Send,
    W: Clock + Drop + Send,
    V: Dice + Drop + Send,
    D::Source: Send,
    D::Sink: Send,
    requires workers { length workers.old < MAX_SEATS }
    requires fresh { IsFresh (meanings K.Keeper) desk }
    requires history { desk.site.kept.history ≡ [] }
    requires start { desk.start.value ≡ desk.keeper }
    ensures serves { ServesDesk K.Keeper D.Source.Ends D.Sink.Ends (takes W.reads V.draws) D.Door connections desk result.keeper workers.old workers.new result.status result.site }
    ensures leaves { IfSome result.site (λ site. Leaves site.kept (K.told result.keeper)) }
    ensures paid { IfSome result.site (λ site. Pays site.kept (K.faults desk.keeper) (K.faults result.keeper)) }
{
    match Hub::over(alloc, desk, MAX_SEATS) {
        Ok((hub, seat)) => {
            let (worked, seat) = serve(rt, alloc, &hub, seat, workers, connections);
            let (site, keeper) = hub.close(seat);
            Finished {
                status: status_of_workers(worked),
                keeper,
                site: Some(site),
            }
        }
        Err(desk) => handed_out(Status::Memory, desk),
    }
}
