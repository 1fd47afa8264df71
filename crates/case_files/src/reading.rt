//! Reads a case from its file.

ghost use Rattle.std.specs.Prelude.{◌≡◌, Some, length, IfOk};
ghost use Rattle.serde_json.specs.Find.{as_array, get};
ghost use Rattle.serde_json.specs.View.{items_view, view};
ghost use Rattle.case_files.specs.Listed.{Lists, ListsRuns, listed};

use crate::case::{Case, Exchange, Run, Start, Step, Unread};
use crate::events::events;
use crate::faults::fault_in;
use crate::keeping::{blobs_in, kept_in};
use crate::kept::Kept;
use crate::texts::bytes_of;
use serde_json::Value;
use std::alloc::Global;

/// The members that a run may have. Nothing depends on `about`.
const MEMBERS: [&str; 14] = [
    "about",
    "words",
    "clock",
    "dice",
    "holds",
    "failing",
    "damage",
    "exchanges",
    "events",
    "input",
    "output",
    "status",
    "fault",
    "leaves",
];

/// The case that a file says. Nothing is left out: what isn't understood is an error.
pub fn case_of(alloc: Global, text: &str) -> Result<Case, Unread>
    ensures { IfOk result (λ case. ListsRuns text.now (length case.runs.items)) }
{
    match Value::from_str(alloc, text) {
        Ok(file) => case_in(alloc, &file),
        Err(error) if error.is_memory() => Err(Unread::Memory),
        Err(_) => Err(Unread::NotJson),
    }
}

fn case_in(alloc: Global, file: &Value) -> Result<Case, Unread>
    ensures { IfOk result (λ case. Lists (view file.now) (length case.runs.items)) }
{
    has_only(file, &["case", "runs"])?;
    let runs = list(file, "runs")?;
    if runs.is_empty() {
        return Err(Unread::NoRuns);
    }
    Ok(Case {
        runs: runs_of(alloc, runs)?,
    })
}

fn runs_of(alloc: Global, listed: &[Value]) -> Result<Vec<Run>, Unread>
    ensures { IfOk result (λ runs. length runs.items ≡ length listed.now) }
{
    let mut runs = Vec::new(alloc);
    for run in listed {
        let start = start_of(alloc, run, runs.is_empty())?;
        runs.push(run_of(alloc, run, start)?)?;
    }
    Ok(runs)
}

// A first run is over a new keeper, and so is one that says what its keeper holds.
fn start_of(alloc: Global, run: &Value, first: bool) -> Result<Option<Start>, Unread> {
    let failing = run.get("failing");
    let holds = match kept_in(alloc, run, "holds")? {
        Some(holds) => holds,
        None if first => Kept::nothing(alloc),
        None if failing.is_some() => return Err(Unread::LateFailing),
        None => return Ok(None),
    };
    let failing = match failing {
        Some(failing) => numbers(alloc, items(failing)?)?,
        None => Vec::new(alloc),
    };
    Ok(Some(Start { holds, failing }))
}

fn run_of(alloc: Global, run: &Value, start: Option<Start>) -> Result<Run, Unread> {
    has_only(run, &MEMBERS)?;
    let status = small_number(member(run, "status")?)?;
    let (exchanges, steps) = script_of(alloc, run)?;
    Ok(Run {
        words: words(alloc, list(run, "words")?)?,
        clock: numbers(alloc, list(run, "clock")?)?,
        dice: dice(alloc, run)?,
        start,
        damage: blobs_in(alloc, run, "damage")?,
        exchanges,
        steps,
        status,
        fault: fault_in(run)?,
        leaves: kept_in(alloc, run, "leaves")?,
    })
}

// The words of the dice, where they are said.
fn dice(alloc: Global, run: &Value) -> Result<Vec<u64>, Unread> {
    match run.get("dice") {
        Some(listed) => numbers(alloc, items(listed)?),
        None => Ok(Vec::new(alloc)),
    }
}

// The events, each as an exchange, or what one session exchanges.
fn script_of(alloc: Global, run: &Value) -> Result<(Vec<Exchange>, Vec<Step>), Unread> {
    match run.get("events") {
        None => Ok((exchanges_of(alloc, run)?, Vec::new(alloc))),
        Some(listed) => match run
            .get("exchanges")
            .or(run.get("input"))
            .or(run.get("output"))
        {
            None => events(alloc, items(listed)?),
            Some(_) => Err(Unread::Malformed),
        },
    }
}

// The exchanges, or the whole input and output as one.
fn exchanges_of(alloc: Global, run: &Value) -> Result<Vec<Exchange>, Unread> {
    match run.get("exchanges") {
        None => Ok(vec![in alloc; exchange_of(alloc, run, "input", "output")?]?),
        Some(listed) => match run.get("input").or(run.get("output")) {
            None => exchanges(alloc, items(listed)?),
            Some(_) => Err(Unread::Malformed),
        },
    }
}

fn exchanges(alloc: Global, listed: &[Value]) -> Result<Vec<Exchange>, Unread> {
    let mut exchanges = Vec::new(alloc);
    for exchange in listed {
        repeat(alloc, exchange, &mut exchanges)?;
    }
    Ok(exchanges)
}

fn repeat(alloc: Global, exchange: &Value, exchanges: &mut Vec<Exchange>) -> Result<(), Unread> {
    has_only(exchange, &["send", "answer", "times"])?;
    for _ in 0..times(exchange)? {
        exchanges.push(exchange_of(alloc, exchange, "send", "answer")?)?;
    }
    Ok(())
}

// Once where it isn't said.
fn times(exchange: &Value) -> Result<u64, Unread> {
    match exchange.get("times") {
        None => Ok(1),
        Some(times) => number(times),
    }
}

// The exchange of the members of these names.
fn exchange_of(alloc: Global, value: &Value, send: &str, answer: &str) -> Result<Exchange, Unread> {
    Ok(Exchange {
        send: bytes(alloc, member(value, send)?)?,
        answer: bytes(alloc, member(value, answer)?)?,
    })
}

fn words(alloc: Global, listed: &[Value]) -> Result<Vec<String>, Unread> {
    let mut words = Vec::new(alloc);
    for word in listed {
        words.push(String::from_str(alloc, text(word)?)?)?;
    }
    Ok(words)
}

fn numbers(alloc: Global, listed: &[Value]) -> Result<Vec<u64>, Unread> {
    let mut numbers = Vec::new(alloc);
    for one in listed {
        numbers.push(number(one)?)?;
    }
    Ok(numbers)
}

pub(crate) fn small_number(value: &Value) -> Result<u8, Unread> {
    u8::try_from(number(value)?).map_err(|_| Unread::Malformed)
}

pub(crate) fn number(value: &Value) -> Result<u64, Unread> {
    value.as_u64().ok_or(Unread::Malformed)
}

pub(crate) fn bytes(alloc: Global, value: &Value) -> Result<Vec<u8>, Unread> {
    bytes_of(alloc, text(value)?)
}

fn text(value: &Value) -> Result<&str, Unread> {
    value.as_str().ok_or(Unread::Malformed)
}

pub(crate) fn list<'a>(value: &'a Value, name: &str) -> Result<&'a [Value], Unread>
    ensures { IfOk result (λ list. listed name.now (view value.now) ≡ Some (items_view list.now)) }
{
    items(member(value, name)?)
}

pub(crate) fn items(value: &Value) -> Result<&[Value], Unread>
    ensures { IfOk result (λ items. as_array (view value.now) ≡ Some (items_view items.now)) }
{
    match value.as_array() {
        Some(items) => Ok(items.as_slice()),
        None => Err(Unread::Malformed),
    }
}

pub(crate) fn member<'a>(value: &'a Value, name: &str) -> Result<&'a Value, Unread>
    ensures { IfOk result (λ found. get name.now (view value.now) ≡ Some (view found.now)) }
{
    value.get(name).ok_or(Unread::Malformed)
}

// A member that isn't known might change what the run means.
pub(crate) fn has_only(value: &Value, known: &[&str]) -> Result<(), Unread> {
    let Some(members) = value.as_object() else {
        return Err(Unread::Malformed);
    };
    for name in members.keys() {
        if !known.iter().any(|one| *one == name.as_str()) {
            return Err(Unread::UnknownMember);
        }
    }
    Ok(())
}
