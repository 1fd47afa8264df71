//! A case of several seats: each serves its messages in a thread of its own, by the workers of the server, and makes its steps when they
//! come. One more seat makes the sweeps.

ghost use Rattle.std.specs.Prelude.{◌≡◌, None};
ghost use Rattle.nf_hub.specs.Seats.{IsSeat, book};
ghost use Rattle.nf_session.specs.Book.{held};

use crate::connection::{Answered, Message, SeatClock, SeatDice, Sent};
use crate::jobs::{Cast, act, sweeps_of};
use crate::keeping::{TestKeeper, left_in};
use crate::stage::Stage;
use crate::transcript::output_of;
use case_files::{Outcome, Run, StepKind, Written};
use filesd::demonstration;
use nf_base::MAX_SEATS;
use nf_desk::{Opening, Unopened};
use nf_hub::Hub;
use nf_keeper::Keeper;
use nf_outside::{MemSink, MemSource};
use nf_server::{Link, MemDoor, Worker};
use std::alloc::{AllocError, Global};
use std::sync::Wait;
use std::thread::Threads;

/// A seat with its messages.
pub type SeatWorker<'s> = Worker<MemDoor<Sent<'s>, Answered<'s>>, SeatClock<'s>, SeatDice<'s>>;

/// The status of a case that was served to its end.
const DONE: u8 = 0;

/// The status of a case whose rows can't be opened: no case wants it.
const NOT_OPENED: u8 = 1;

/// Who goes away waits to be told to send the body, and isn't there when it is: so also a PUT of an empty file can break off.
const WAITS: &str = "Expect: 100-continue\r\n";

/// The session skips this one byte behind a granted GET before it reads the file, which so waits for the step that ends it.
const SKIPPED: (&str, &str) = ("Content-Length: 1\r\n", "-");

/// What announces a body.
const LENGTH: &str = "Content-Length:";

/// What the steps came to, and the keeper that is left. Heads are read in such pieces.
pub fn serve_events<R: Threads + Wait + Sync, K: TestKeeper>(
    rt: &R,
    alloc: Global,
    case: &Run,
    keeper: K,
    pieces: &[usize],
) -> Result<(Outcome, K), AllocError> {
    let stage = Stage::new(alloc, case)?;
    let cast = Cast {
        workers: workers_of(alloc, case, &stage, pieces)?,
        sweeps: sweeps_of(alloc, &case.steps)?,
    };
    let (status, mut keeper, cast) = serve_cast(rt, alloc, keeper, &stage, cast)?;
    let outcome = Outcome {
        written: Written {
            output: output_of(alloc, case, &stage, &cast)?,
            left: left_in(alloc, case, &mut keeper)?,
        },
        status,
        fault: None,
    };
    Ok((outcome, keeper))
}

// Serves the seats' messages over one hub, and sweeps it beside: the status, and the keeper that is left.
fn serve_cast<'s, R: Threads + Wait + Sync, K: Keeper + Drop + Send>(
    rt: &R,
    alloc: Global,
    keeper: K,
    stage: &'s Stage,
    cast: Cast<'s>,
) -> Result<(u8, K, Cast<'s>), AllocError> {
    let first = demonstration(alloc)?;
    let (hub, mut seat) = match Hub::start(alloc, keeper, Opening::Either(first), MAX_SEATS) {
        Ok(made) => made,
        Err(Unopened { fault: _, keeper }) => return Ok((NOT_OPENED, keeper, cast)),
    };
    let Some(other) = hub.split(&mut seat) else {
        return Err(AllocError);
    };
    let (seat, cast) = act(rt, alloc, &hub, (seat, other), stage, cast);
    if !seat.whole() {
        return Err(AllocError);
    }
    let (_, keeper) = hub.close(seat);
    Ok((DONE, keeper, cast))
}

// A worker for each number of a seat, up to the greatest one.
fn workers_of<'s>(
    alloc: Global,
    case: &Run,
    stage: &'s Stage,
    pieces: &[usize],
) -> Result<Vec<SeatWorker<'s>>, AllocError> {
    let mut workers = Vec::new(alloc);
    let most = case.steps.iter().map(|step| step.seat).max().unwrap_or(0);
    for seat in 1..=most {
        let messages = messages_of(alloc, case, stage, pieces, seat)?;
        workers.push(Worker {
            door: MemDoor::new(alloc, messages, Vec::new(alloc))?,
            clock: SeatClock { stage, begun: None },
            dice: SeatDice { stage },
        })?;
    }
    Ok(workers)
}

fn messages_of<'s>(
    alloc: Global,
    case: &Run,
    stage: &'s Stage,
    pieces: &[usize],
    seat: u8,
) -> Result<Vec<Message<'s>>, AllocError> {
    let mut messages = Vec::new(alloc);
    for (index, step) in case.steps.iter().enumerate() {
        if step.seat == seat && matches!(step.kind, StepKind::Ask | StepKind::Begin) {
            messages.push(message_of(alloc, case, stage, pieces, index)?)?;
        }
    }
    Ok(messages)
}

// The connection of the message that begins by this step.
fn message_of<'s>(
    alloc: Global,
    case: &Run,
    stage: &'s Stage,
    pieces: &[usize],
    step: usize,
) -> Result<Message<'s>, AllocError> {
    let goes = goes_away(case, stage, step);
    let (head, body) = bytes_of(alloc, case, stage, step)?;
    let source = Sent {
        stage,
        step,
        head: MemSource::new(head, pieces.to_vec(alloc)?, Vec::new(alloc)),
        body: MemSource::new(body, Vec::new(alloc), Vec::new(alloc)),
        goes,
        faults: 0,
    };
    let sink = Answered {
        stage,
        step,
        sink: MemSink::new(alloc, Vec::new(alloc)),
        goes,
        faults: 0,
    };
    Ok(Link { source, sink })
}

// The seat goes away by the step that ends what this one begins.
fn goes_away(case: &Run, stage: &Stage, step: usize) -> bool {
    match stage.end_of(step).and_then(|end| case.steps.get(end)) {
        Some(end) => end.kind == StepKind::Gone,
        None => false,
    }
}

// The bytes of a message, and those behind it, which come with the step that ends what it begins.
fn bytes_of(
    alloc: Global,
    case: &Run,
    stage: &Stage,
    step: usize,
) -> Result<(Vec<u8>, Vec<u8>), AllocError> {
    let head = sent_at(case, step);
    let Some(end) = stage.end_of(step) else {
        return Ok((head.to_vec(alloc)?, Vec::new(alloc)));
    };
    if is_get(head) {
        return bytes_of_get(alloc, head);
    }
    let field = if goes_away(case, stage, step) {
        WAITS
    } else {
        ""
    };
    Ok((
        with_field(alloc, head, field)?,
        sent_at(case, end).to_vec(alloc)?,
    ))
}

// Whether a head asks by GET, behind the empty lines that may stand before it.
fn is_get(head: &[u8]) -> bool {
    head.trim_ascii_start().starts_with(b"GET ")
}

// A GET's head and the bytes that the session skips behind it: its own, where it announces some.
fn bytes_of_get(alloc: Global, head: &[u8]) -> Result<(Vec<u8>, Vec<u8>), AllocError> {
    let (field, skipped) = SKIPPED;
    match announced(head) {
        Some(length) => Ok((
            head.to_vec(alloc)?,
            skipped.repeat(alloc, length)?.into_bytes(),
        )),
        None => Ok((
            with_field(alloc, head, field)?,
            skipped.as_bytes().to_vec(alloc)?,
        )),
    }
}

// The length of the body that a head announces.
fn announced(head: &[u8]) -> Option<usize> {
    let (_, value) = std::str::from_utf8(head).ok()?.split_once(LENGTH)?;
    value.lines().next()?.trim().parse().ok()
}

fn sent_at(case: &Run, step: usize) -> &[u8] {
    match case.exchanges.get(step) {
        Some(exchange) => &exchange.send,
        None => &[],
    }
}

// The field behind all others of a head, whose lines end one way or the other.
fn with_field(alloc: Global, head: &[u8], field: &str) -> Result<Vec<u8>, AllocError> {
    let last = if head.ends_with(b"\r\n\r\n") { 2 } else { 1 };
    let (front, last) = head.split_at(head.len().saturating_sub(last));
    let mut bytes = front.to_vec(alloc)?;
    bytes.extend_from_slice(field.as_bytes())?;
    bytes.extend_from_slice(last)?;
    Ok(bytes)
}
