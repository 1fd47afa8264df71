//! A case, as its file says it.

use crate::kept::{Blob, Kept};
use std::alloc::{AllocError, AllocFailed};

/// Runs one after the other.
#[derive(Drop)]
pub struct Case {
    pub runs: Vec<Run>,
}

/// All that a run depends on, and what it must give.
#[derive(Drop)]
pub struct Run {
    pub words: Vec<String>,
    /// The readings of the clock; the last is repeated.
    pub clock: Vec<u64>,
    /// The words of the dice; the last is repeated.
    pub dice: Vec<u64>,
    /// The new keeper that the run is over. Where there is none it is over what the run before it left; a first run has one.
    pub start: Option<Start>,
    /// What is put into the keeper before the run.
    pub damage: Vec<Blob>,
    pub exchanges: Vec<Exchange>,
    /// Where several seats take part, whose step each exchange is. Else there are none.
    pub steps: Vec<Step>,
    /// The exit status.
    pub status: u8,
    /// Why the keeper's rows are refused, where that is said.
    pub fault: Option<Fault>,
    /// What the keeper has after the run, where that is said.
    pub leaves: Option<Kept>,
}

/// How a keeper begins.
#[derive(Drop)]
pub struct Start {
    pub holds: Kept,
    /// The numbers of its calls that fail. All calls of all runs over it are counted together, from 1 on.
    pub failing: Vec<u64>,
}

/// Why a keeper's rows are none to run over. An index is a place among the rows, from 0 on.
#[derive(Clone, Copy, PartialEq, Eq)]
pub enum Fault {
    /// The row of that index can't be read.
    Row { index: u64, why: RowFault },
    /// The row of that index breaks the rule of that number.
    Rule { index: u64, rule: u64 },
    /// There are rows where there should be none.
    Found,
    /// There are none where there should be some.
    Missing,
}

/// Why a row can't be read. Places count the bytes of key and body joined, from 0.
#[derive(Clone, Copy, PartialEq, Eq)]
pub enum RowFault {
    /// There is no such kind.
    Kind,
    /// It ends before or inside the field that begins there.
    Short { at: u64 },
    /// A byte follows the last field there.
    Long { at: u64 },
    /// The field that begins there has bytes that no value is spelled with.
    Value { at: u64 },
}

/// A seat's step. Its exchange has the message or the body in `send`.
#[derive(Clone, Copy, PartialEq, Eq)]
pub struct Step {
    /// From 1 on.
    pub seat: u8,
    pub kind: StepKind,
}

#[derive(Clone, Copy, PartialEq, Eq)]
pub enum StepKind {
    /// A message that is answered at once.
    Ask,
    /// A message whose request is granted. The seat's next step ends it. Its `answer` is `GRANTED`.
    Begin,
    /// The end of what was granted, with its body where it has one, and its answer.
    End,
    /// The end of what was granted without its body, or unread. Its `answer` is `GONE`.
    Gone,
    /// A sweep. It has no message; its `answer` says what went.
    Sweep,
}

/// What a step is to come to by which something is granted.
pub const GRANTED: &str = "granted\n";

/// What a step is to come to by which what was granted ends without an answer.
pub const GONE: &str = "gone\n";

/// A message and its answer.
#[derive(Drop)]
pub struct Exchange {
    pub send: Vec<u8>,
    pub answer: Vec<u8>,
}

/// Why a case is not run.
#[derive(Clone, Copy, PartialEq, Eq)]
pub enum Unread {
    Memory,
    /// The file is no JSON.
    NotJson,
    /// A member that every case has is missing, or of another kind.
    Malformed,
    /// A member has a name that no case has.
    UnknownMember,
    /// A text has a character above U+00FF, which is no byte.
    NotBytes,
    /// Rows don't stand by rising kind and key.
    NotRising,
    /// There is no run.
    NoRuns,
    /// A run that is over what another left names calls of the keeper that fail.
    LateFailing,
}

impl Unread {
    pub fn word(self) -> &'static str {
        match self {
            Unread::Memory => "no memory",
            Unread::NotJson => "the file is no JSON",
            Unread::Malformed => "a member is missing, or of another kind",
            Unread::UnknownMember => "a member is unknown",
            Unread::NotBytes => "a text has a character above U+00FF",
            Unread::NotRising => "rows don't stand by rising kind and key",
            Unread::NoRuns => "it has no run",
            Unread::LateFailing => "a run over what another left names calls that fail",
        }
    }
}

impl From<AllocError> for Unread {
    ghost use Rattle.std.specs.Prelude.{◌≡◌};
    ghost use Rattle.case_files.specs.declared.case.Unread.TheVariants.{Memory};

    ghost from_gives = { λ _ unread. unread ≡ Memory };

    fn from(_: AllocError) -> Self {
        Unread::Memory
    }
}

impl<T: Drop> From<AllocFailed<T>> for Unread {
    ghost use Rattle.std.specs.Prelude.{◌≡◌};
    ghost use Rattle.case_files.specs.declared.case.Unread.TheVariants.{Memory};

    ghost from_gives = { λ _ unread. unread ≡ Memory };

    fn from(_: AllocFailed<T>) -> Self {
        Unread::Memory
    }
}

/// What a run wrote.
#[derive(Drop)]
pub struct Written {
    pub output: Vec<u8>,
    /// What the keeper has afterwards; nothing, where the case doesn't say what that is.
    pub left: Kept,
}

/// What a run gave.
#[derive(Drop)]
pub struct Outcome {
    pub written: Written,
    /// The exit status.
    pub status: u8,
    /// Why the keeper's rows were refused, if they were.
    pub fault: Option<Fault>,
}
