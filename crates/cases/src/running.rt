//! A run of a case, with all that it depends on in memory.

use crate::events::serve_events;
use crate::faults::fault_of;
use crate::keeping::{TestKeeper, left_in};
use crate::seats::serve_by_seats;
use case_files::{Blob, Kept, Outcome, Run, Start, Written};
use filesd::{Finished, run};
use nf_base::MAX_MESSAGES;
use nf_outside::{ListClock, ListDice, MemSink, MemSource};
use nf_server::{MemDoor, Worker};
use std::alloc::{AllocError, Global};
use std::io;
use std::sync::Wait;
use std::thread::Threads;

/// What a case's next run is over: what the runs before it left, where all input was read whole, where it was read byte by byte, and
/// where two seats took turns.
#[derive(Drop)]
pub struct Keepers<K: TestKeeper> {
    whole: K,
    cut: K,
    seats: K,
}

impl<K: TestKeeper> Keepers<K> {
    /// Keepers with nothing in them.
    pub fn new(alloc: Global) -> io::Result<Keepers<K>> {
        Keepers::over(
            alloc,
            &Start {
                holds: Kept::nothing(alloc),
                failing: Vec::new(alloc),
            },
        )
    }

    fn over(alloc: Global, start: &Start) -> io::Result<Keepers<K>> {
        Ok(Keepers {
            whole: K::beginning(alloc, start)?,
            cut: K::beginning(alloc, start)?,
            seats: K::beginning(alloc, start)?,
        })
    }

    // Those that the run is over: new ones where it has any, and else these.
    fn before(self, alloc: Global, run: &Run) -> io::Result<Keepers<K>> {
        match &run.start {
            Some(start) => Keepers::over(alloc, start),
            None => Ok(self),
        }
    }
}

/// What a run gave, with its input and its output whole and cut into single bytes; what two seats wrote in its place; and the keepers
/// after it.
#[derive(Drop)]
pub struct Served<K: TestKeeper> {
    pub whole: Outcome,
    pub cut: Outcome,
    pub seats: Written,
    pub keepers: Keepers<K>,
}

/// Runs it with its input and its output whole, cut into single bytes, and by two seats: the answers may not depend on that.
pub fn serve<R: Threads + Wait + Sync, K: TestKeeper>(
    rt: &R,
    alloc: Global,
    run: &Run,
    keepers: Keepers<K>,
) -> io::Result<Served<K>> {
    let Keepers { whole, cut, seats } = keepers.before(alloc, run)?;
    let (whole, whole_left) = serve_in_pieces(rt, alloc, run, whole, &[])?;
    let (cut, cut_left) = serve_in_pieces(rt, alloc, run, cut, &[1])?;
    let (seats, seats_left) = serve_in_turn(rt, alloc, run, seats)?;
    Ok(Served {
        whole,
        cut,
        seats,
        keepers: Keepers {
            whole: whole_left,
            cut: cut_left,
            seats: seats_left,
        },
    })
}

// Two seats serve what a `batch` has to serve. Any other words are run as they are, and so are as many messages as end a session.
fn serve_in_turn<R: Threads + Wait + Sync, K: TestKeeper>(
    rt: &R,
    alloc: Global,
    case: &Run,
    mut keeper: K,
) -> io::Result<(Written, K)> {
    if is_batch(&case.words) && case.steps.is_empty() && case.exchanges.len() < MAX_MESSAGES {
        put_damage(alloc, &mut keeper, &case.damage)?;
        let (output, mut keeper) = serve_by_seats(rt, alloc, case, keeper)?;
        let left = left_in(alloc, case, &mut keeper)?;
        return Ok((Written { output, left }, keeper));
    }
    let (outcome, keeper) = serve_in_pieces(rt, alloc, case, keeper, &[])?;
    Ok((outcome.written, keeper))
}

fn serve_in_pieces<R: Threads + Wait + Sync, K: TestKeeper>(
    rt: &R,
    alloc: Global,
    case: &Run,
    mut keeper: K,
    pieces: &[usize],
) -> io::Result<(Outcome, K)> {
    put_damage(alloc, &mut keeper, &case.damage)?;
    if !case.steps.is_empty() {
        return Ok(serve_events(rt, alloc, case, keeper, pieces)?);
    }
    let mut ends = ends_of(alloc, case, pieces)?;
    let finished = run_between(rt, alloc, case, keeper, &mut ends);
    let status = finished.status;
    let mut keeper = finished.keeper;
    let outcome = Outcome {
        written: Written {
            output: ends.output.bytes().to_vec(alloc)?,
            left: left_in(alloc, case, &mut keeper)?,
        },
        status: status.code(),
        fault: fault_of(status),
    };
    Ok((outcome, keeper))
}

/// What a run is lent beside its keeper.
#[derive(Drop)]
struct RunEnds {
    input: MemSource,
    output: MemSink,
    clock: ListClock,
    dice: ListDice,
}

// Whole, where there are no pieces.
fn ends_of(alloc: Global, case: &Run, pieces: &[usize]) -> Result<RunEnds, AllocError> {
    let input = input_of(alloc, case)?;
    let input = MemSource::new(input, pieces.to_vec(alloc)?, Vec::new(alloc));
    let output = MemSink::in_pieces(alloc, pieces.to_vec(alloc)?, Vec::new(alloc));
    let clock = ListClock::new(case.clock.as_slice().to_vec(alloc)?);
    let dice = ListDice::new(case.dice.as_slice().to_vec(alloc)?);
    Ok(RunEnds {
        input,
        output,
        clock,
        dice,
    })
}

fn run_between<R: Threads + Wait + Sync, K: TestKeeper>(
    rt: &R,
    alloc: Global,
    case: &Run,
    keeper: K,
    ends: &mut RunEnds,
) -> Finished<K> {
    let mut nobody: [Worker<MemDoor<MemSource, MemSink>, ListClock, ListDice>; 0] = [];
    run(
        rt,
        alloc,
        &case.words,
        &mut ends.input,
        &mut ends.output,
        keeper,
        &mut ends.clock,
        &mut ends.dice,
        &mut nobody,
    )
}

fn is_batch(words: &[String]) -> bool {
    words.len() == 1 && words[0].as_str() == "batch"
}

fn put_damage<K: TestKeeper>(alloc: Global, keeper: &mut K, damage: &[Blob]) -> io::Result<()> {
    for blob in damage {
        keeper.put_blob(alloc, blob)?;
    }
    Ok(())
}

// The messages one after the other.
fn input_of(alloc: Global, case: &Run) -> Result<Vec<u8>, AllocError> {
    let mut input = Vec::new(alloc);
    for exchange in &case.exchanges {
        input.extend_from_slice(exchange.send.as_slice())?;
    }
    Ok(input)
}
