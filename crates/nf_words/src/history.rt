//! Events, and the entries that record them.

ghost use Rattle.std.specs.Prelude.{◌≡◌};

use crate::{Goal, Hold, Request, Words};
use nf_base::{Digest, Moment};

/// How a granted request ended.
#[derive(Clone, Copy)]
pub enum Outcome {
    /// The content was sent.
    Sent,
    /// It wasn't, or the body to be stored never came whole.
    Gone,
    /// A body of that SHA-256 digest and length is there to be stored.
    Body { digest: Digest, length: u64 },
}

/// What one step of the site is about.
#[derive(Drop)]
pub enum Event {
    Begin { words: Words, request: Request },
    End(Outcome),
    /// Of the trash of each user goes what the trash doesn't hold any more, and so do the uploads that nobody sent a chunk of for a day.
    Sweep,
}

/// What became of a step.
#[derive(Clone, Copy)]
pub enum Mark {
    /// It was made and answered.
    Answered,
    /// The store failed, so no row changed.
    Store,
    /// An End with a body found no memory, so no row changed.
    Memory,
}

/// A step that was taken. A seat is the number of a session.
#[derive(Drop)]
pub struct Entry {
    pub seat: u64,
    pub moment: Moment,
    pub event: Event,
    pub mark: Mark,
}

/// What a granted request may do and holds from its Begin to its End; at most one a seat.
#[derive(Drop)]
pub struct Ticket {
    pub seat: u64,
    pub goal: Goal,
    pub hold: Option<Hold>,
}

impl Ticket {
    ghost use Rattle.nf_words.specs.State.{ticket_for};

    pub fn new(seat: u64, goal: Goal, hold: Option<Hold>) -> Self
        ensures { result ≡ ticket_for seat goal hold }
    {
        Ticket { seat, goal, hold }
    }
}
