//! Reads what several seats do, one step after the other.

use crate::case::{Exchange, GONE, GRANTED, Step, StepKind, Unread};
use crate::reading::{bytes, has_only, member, small_number};
use serde_json::Value;
use std::alloc::Global;

/// The most seats that a case has.
const MOST_SEATS: u8 = 9;

/// The steps, and what is sent and wanted at each.
pub(crate) fn events(
    alloc: Global,
    listed: &[Value],
) -> Result<(Vec<Exchange>, Vec<Step>), Unread> {
    let mut exchanges = Vec::new(alloc);
    let mut steps = Vec::new(alloc);
    for event in listed {
        let step = step_of(event)?;
        if !may_follow(&steps, step) {
            return Err(Unread::Malformed);
        }
        exchanges.push(exchange_of(alloc, event, step.kind)?)?;
        steps.push(step)?;
    }
    Ok((exchanges, steps))
}

fn step_of(event: &Value) -> Result<Step, Unread> {
    has_only(event, &["seat", "begin", "end", "gone", "sweep", "answer"])?;
    let seat = small_number(member(event, "seat")?)?;
    let kind = kind_of(event)?;
    if seat == 0 || seat > MOST_SEATS {
        return Err(Unread::Malformed);
    }
    Ok(Step { seat, kind })
}

fn kind_of(event: &Value) -> Result<StepKind, Unread> {
    let answered = event.get("answer").is_some();
    let (begin, end) = (event.get("begin"), event.get("end"));
    match (begin, end, event.get("gone"), event.get("sweep")) {
        (Some(_), None, None, None) if answered => Ok(StepKind::Ask),
        (Some(_), None, None, None) => Ok(StepKind::Begin),
        (None, Some(_), None, None) if answered => Ok(StepKind::End),
        (None, None, Some(gone), None) if !answered && is_true(gone) => Ok(StepKind::Gone),
        (None, None, None, Some(sweep)) if answered && is_true(sweep) => Ok(StepKind::Sweep),
        _ => Err(Unread::Malformed),
    }
}

fn is_true(said: &Value) -> bool {
    said.as_bool() == Some(true)
}

// A seat ends what was granted to it before it does anything else.
fn may_follow(steps: &[Step], step: Step) -> bool {
    let last = steps.iter().rev().find(|one| one.seat == step.seat);
    let granted = match last {
        Some(last) => last.kind == StepKind::Begin,
        None => false,
    };
    granted == matches!(step.kind, StepKind::End | StepKind::Gone)
}

fn exchange_of(alloc: Global, event: &Value, kind: StepKind) -> Result<Exchange, Unread> {
    let send = match kind {
        StepKind::Ask | StepKind::Begin => bytes(alloc, member(event, "begin")?)?,
        StepKind::End => bytes(alloc, member(event, "end")?)?,
        StepKind::Gone | StepKind::Sweep => Vec::new(alloc),
    };
    let answer = match kind {
        StepKind::Ask | StepKind::End | StepKind::Sweep => bytes(alloc, member(event, "answer")?)?,
        StepKind::Begin => GRANTED.as_bytes().to_vec(alloc)?,
        StepKind::Gone => GONE.as_bytes().to_vec(alloc)?,
    };
    Ok(Exchange { send, answer })
}
