//! Whether a run gave what its case wants.

ghost use Rattle.std.specs.Prelude.{◌≡◌, ◌≢◌, ◌↔◌, ◌++◌, ℕ, List, IsNone, IfSome, IfOk, MatchOption, Some};
ghost use Rattle.std.specs.Bool.{Decides};
ghost use Rattle.case_files.specs.Answers.{answers, IsFirstDifference};
ghost use Rattle.case_files.specs.Wanted.{EndsAsWanted, IsAsWanted, IsSame, WritesAsWanted};

use crate::case::{Exchange, Fault, Outcome, Run, Written};
use crate::kept::{Blob, Kept, KeptRow};
use crate::showing::{line_of_answer, line_of_fault, line_of_left, line_of_status};
use std::alloc::{AllocError, Global};

/// An answer that differs: the exchange's index, and what came in place of its answer and of all behind it. The index behind the last
/// exchange says that bytes follow the last answer.
#[derive(Drop)]
pub struct Difference<'a> {
    pub index: usize,
    pub got: &'a [u8],
}

/// The first exchange whose answer differs from what was written, where all else was written before it.
pub fn first_difference<'a>(exchanges: &[Exchange], written: &'a [u8]) -> Option<Difference<'a>>
    ensures none { IsNone result ↔ (written.now ≡ answers exchanges.now) }
    ensures first { IfSome result (λ d. IsFirstDifference exchanges.now written.now d.index d.got.now) }
{
    let mut rest = written;
    for (index, exchange) in exchanges.iter().enumerate() {
        match behind(rest, &exchange.answer) {
            Some(behind) => rest = behind,
            None => return Some(Difference { index, got: rest }),
        }
    }
    if rest.is_empty() {
        None
    } else {
        Some(Difference {
            index: exchanges.len(),
            got: rest,
        })
    }
}

// What is behind that front.
fn behind<'a>(bytes: &'a [u8], front: &[u8]) -> Option<&'a [u8]>
    ensures { MatchOption result ((behind : List ℕ) → bytes.now ≢ front.now ++ behind) (λ behind. bytes.now ≡ front.now ++ behind.now) }
{
    bytes.strip_prefix(front)
}

/// Whether a keeper has what it should have.
fn is_same(wanted: &Kept, left: &Kept) -> bool
    ensures { Decides result (IsSame wanted.now left.now) }
{
    are_rows(&wanted.rows, &left.rows) && are_blobs(&wanted.blobs, &left.blobs)
}

fn are_rows(wanted: &[KeptRow], left: &[KeptRow]) -> bool
    ensures { Decides result (left.now ≡ wanted.now) }
{
    left == wanted
}

fn are_blobs(wanted: &[Blob], left: &[Blob]) -> bool
    ensures { Decides result (left.now ≡ wanted.now) }
{
    left == wanted
}

/// Whether rows were refused for what they should be.
fn is_told(wanted: Fault, told: Option<Fault>) -> bool
    ensures { Decides result (told ≡ Some wanted) }
{
    match told {
        Some(told) => told == wanted,
        None => false,
    }
}

/// Whether what is wanted was written and left: a line that says how it differs, if it does.
fn judge_written(
    alloc: Global,
    run: &Run,
    written: &Written,
    cut: &str,
) -> Result<Option<String>, AllocError>
    ensures { IfOk result (λ line. IsNone line ↔ WritesAsWanted run.now written.now) }
{
    if let Some(difference) = first_difference(&run.exchanges, &written.output) {
        return Ok(Some(line_of_answer(alloc, run, &difference, cut)?));
    }
    match &run.leaves {
        Some(wanted) if !is_same(wanted, &written.left) => {
            Ok(Some(line_of_left(alloc, wanted, &written.left, cut)?))
        }
        _ => Ok(None),
    }
}

/// Whether a run ended as is wanted: a line that says how it differs, if it does.
fn judge_end(
    alloc: Global,
    run: &Run,
    outcome: &Outcome,
    cut: &str,
) -> Result<Option<String>, AllocError>
    ensures { IfOk result (λ line. IsNone line ↔ EndsAsWanted run.now outcome.now) }
{
    if outcome.status != run.status {
        return Ok(Some(line_of_status(alloc, run.status, outcome.status, cut)?));
    }
    match run.fault {
        Some(wanted) if !is_told(wanted, outcome.fault) => {
            Ok(Some(line_of_fault(alloc, wanted, outcome.fault, cut)?))
        }
        _ => Ok(None),
    }
}

/// Whether a run gave what is wanted: a line that says how it differs, if it does.
fn judge_one(
    alloc: Global,
    run: &Run,
    outcome: &Outcome,
    cut: &str,
) -> Result<Option<String>, AllocError>
    ensures { IfOk result (λ line. IsNone line ↔ IsAsWanted run.now outcome.now) }
{
    match judge_written(alloc, run, &outcome.written, cut)? {
        Some(line) => Ok(Some(line)),
        None => judge_end(alloc, run, outcome, cut),
    }
}

/// Whether a run gave what is wanted, with its input read whole, cut into small reads, and by two seats; the first line that says how it
/// differs.
pub fn judge(
    alloc: Global,
    run: &Run,
    whole: &Outcome,
    cut: &Outcome,
    seats: &Written,
) -> Result<Option<String>, AllocError>
    ensures { IfOk result (λ line. IsNone line
        ↔ (IsAsWanted run.now whole.now × IsAsWanted run.now cut.now × WritesAsWanted run.now seats.now)) }
{
    if let Some(line) = judge_one(alloc, run, whole, "read whole")? {
        return Ok(Some(line));
    }
    if let Some(line) = judge_one(alloc, run, cut, "read byte by byte")? {
        return Ok(Some(line));
    }
    judge_written(alloc, run, seats, "by two seats")
}
