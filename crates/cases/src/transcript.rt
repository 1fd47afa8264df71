//! What the steps of several seats came to.

use crate::connection::Message;
use crate::events::SeatWorker;
use crate::jobs::{Cast, Sweep};
use crate::stage::Stage;
use case_files::{GONE, GRANTED, Run, Step};
use std::alloc::{AllocError, Global};

/// How an answer says that its session ends. Seats have no sessions, so it isn't wanted.
const CLOSES: &str = "Connection: close\r\n";

/// What the steps came to, one after the other.
pub fn output_of(
    alloc: Global,
    case: &Run,
    stage: &Stage,
    cast: &Cast<'_>,
) -> Result<Vec<u8>, AllocError> {
    let mut output = Vec::new(alloc);
    for (index, step) in case.steps.iter().enumerate() {
        if let Some(message) = message_of(stage, &cast.workers, index, *step) {
            append(stage, message, index, &mut output)?;
        }
        append_sweep(alloc, &cast.sweeps, index, &mut output)?;
    }
    Ok(output)
}

// What went by the sweep that this step is, if it is one.
fn append_sweep(
    alloc: Global,
    sweeps: &[Sweep],
    step: usize,
    output: &mut Vec<u8>,
) -> Result<(), AllocError> {
    for sweep in sweeps {
        if sweep.step == step
            && let Some(gone) = sweep.swept
        {
            let line = format!(in alloc; "items {} uploads {}\n", gone.items, gone.uploads)?;
            output.extend_from_slice(line.as_bytes())?;
        }
    }
    Ok(())
}

// The message that begins or ends by this step.
fn message_of<'w, 's>(
    stage: &Stage,
    workers: &'w [SeatWorker<'s>],
    index: usize,
    step: Step,
) -> Option<&'w Message<'s>> {
    let place = step.seat.checked_sub(1)? as usize;
    for message in workers.get(place)?.door.served() {
        let begun = message.sink.step;
        if begun == index || stage.end_of(begun) == Some(index) {
            return Some(message);
        }
    }
    None
}

// Where something was granted by a message, its answer is that of the step that ended it.
fn append(
    stage: &Stage,
    message: &Message<'_>,
    step: usize,
    output: &mut Vec<u8>,
) -> Result<(), AllocError> {
    let sink = &message.sink;
    let begins = sink.step == step;
    let ends = stage.end_of(sink.step).is_some() && stage.was_granted(sink.step);
    match (begins, ends) {
        (true, true) => output.extend_from_slice(GRANTED.as_bytes())?,
        (false, true) if sink.goes => output.extend_from_slice(GONE.as_bytes())?,
        (true, false) | (false, true) => append_answer(sink.sink.bytes(), output)?,
        (false, false) => {}
    }
    Ok(())
}

fn append_answer(answer: &[u8], output: &mut Vec<u8>) -> Result<(), AllocError> {
    let line = match answer.iter().position(|byte| *byte == b'\n') {
        Some(last) => last + 1,
        None => 0,
    };
    let (line, rest) = answer.split_at(line);
    output.extend_from_slice(line)?;
    output.extend_from_slice(rest.strip_prefix(CLOSES.as_bytes()).unwrap_or(rest))?;
    Ok(())
}
