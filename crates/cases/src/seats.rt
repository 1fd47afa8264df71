//! A case that is served by two seats of one hub, which take turns: each exchange is a session of its own.

ghost use Rattle.std.specs.Prelude.{◌≡◌, IfOk, None};
ghost use Rattle.nf_hub.specs.Seats.{IsSeat, book};
ghost use Rattle.nf_session.specs.Book.{held};

use case_files::Run;
use filesd::demonstration;
use nf_desk::{Opening, Unopened};
use nf_hub::{Hub, Seat};
use nf_keeper::Keeper;
use nf_outside::{ListClock, ListDice, MemSink, MemSource};
use nf_routes::Routes;
use nf_server::{MemLink, serve_link};
use std::alloc::{AllocError, Global};
use std::sync::Wait;

/// What was written, and the keeper that is left.
pub fn serve_by_seats<R: Wait, K: Keeper + Drop>(
    rt: &R,
    alloc: Global,
    case: &Run,
    keeper: K,
) -> Result<(Vec<u8>, K), AllocError> {
    let first = demonstration(alloc)?;
    let routes = Routes::new(alloc)?;
    let (hub, mut seat) = match Hub::start(alloc, keeper, Opening::Either(first), 2) {
        Ok(made) => made,
        Err(Unopened { fault: _, keeper }) => return Ok((Vec::new(alloc), keeper)),
    };
    let Some(other) = hub.split(&mut seat) else {
        return Err(AllocError);
    };
    let mut output = Vec::new(alloc);
    let (mut seat, other) = take_turns(rt, alloc, case, &routes, &hub, (seat, other), &mut output)?;
    hub.join(&mut seat, other);
    if !seat.whole() {
        return Err(AllocError);
    }
    let (_, keeper) = hub.close(seat);
    Ok((output, keeper))
}

// Serves one exchange after the other, each by the seat that didn't serve the one before. What comes behind the end of the run's one
// session has no answer, and isn't served.
fn take_turns<R: Wait, K: Keeper + Drop>(
    rt: &R,
    alloc: Global,
    case: &Run,
    routes: &Routes,
    hub: &Hub<K>,
    seats: (Seat<K>, Seat<K>),
    output: &mut Vec<u8>,
) -> Result<(Seat<K>, Seat<K>), AllocError>
    requires seats { IsSeat K.Keeper hub.now seats.0 × IsSeat K.Keeper hub.now seats.1 }
    requires idle { (held (book K.Keeper hub.now seats.0) ≡ None) × (held (book K.Keeper hub.now seats.1) ≡ None) }
    ensures seats { IfOk result (λ seats. IsSeat K.Keeper hub.now seats.0 × IsSeat K.Keeper hub.now seats.1) }
    ensures idle { IfOk result (λ seats. (held (book K.Keeper hub.now seats.0) ≡ None) × (held (book K.Keeper hub.now seats.1) ≡ None)) }
{
    let (mut next, mut last) = seats;
    let mut clock = ListClock::new(case.clock.as_slice().to_vec(alloc)?);
    let mut dice = ListDice::new(case.dice.as_slice().to_vec(alloc)?);
    for exchange in &case.exchanges {
        if exchange.answer.is_empty() {
            break;
        }
        let mut link = MemLink {
            source: MemSource::new(exchange.send.clone()?, Vec::new(alloc), Vec::new(alloc)),
            sink: MemSink::new(alloc, Vec::new(alloc)),
        };
        let served = serve_link(
            rt, alloc, routes, hub, next, &mut link, &mut clock, &mut dice,
        );
        output.extend_from_slice(link.sink.bytes())?;
        next = last;
        last = served.seat;
    }
    Ok((next, last))
}
