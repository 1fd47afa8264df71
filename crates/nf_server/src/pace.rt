//! How long a client may take.

use crate::closing::Closing;
use std::io::{Error, ErrorKind};
use std::time::{Clock, Duration, Instant};

/// The most seconds that one call waits. Then it is looked whether the run is to end.
const MOST_SLICE: u64 = 1;

/// How many seconds a message or an answer that was begun may still take once the run is to end.
const LAST: u64 = 5;

/// How long a client may take.
#[derive(Clone, Copy)]
pub struct Pace {
    /// The longest wait for a byte, or for one to be taken. It isn't zero.
    pub wait: Duration,
    /// What a whole message, and a whole answer, may take from its first byte on,
    pub whole: Duration,
    /// and a second more for each so many bytes of it.
    pub bytes: u64,
}

impl Pace {
    /// The longest that one call may wait.
    pub fn slice(&self) -> Duration {
        self.wait.min(Duration::from_secs(MOST_SLICE))
    }

    // What so many bytes may take in all.
    fn allowed(&self, count: u64) -> Duration {
        let more = Duration::from_secs(count / self.bytes.max(1));
        self.whole.saturating_add(more)
    }
}

/// What one end of a connection has waited for: since when a message or an answer goes on, and how many bytes of it there were.
#[derive(Drop)]
pub struct Patience<C: Clock + Drop> {
    clock: C,
    pace: Pace,
    closing: Closing,
    began: Option<Instant>,
    count: u64,
    /// When it was first seen that the run is to end.
    ending: Option<Instant>,
}

impl<C: Clock + Drop> Patience<C> {
    pub fn new(clock: C, pace: Pace, closing: Closing) -> Patience<C> {
        Patience {
            clock,
            pace,
            closing,
            began: None,
            count: 0,
            ending: None,
        }
    }

    pub fn closing(&self) -> &Closing {
        &self.closing
    }

    /// The next message, or answer, begins with its first byte.
    pub fn renew(&mut self) {
        self.began = None;
        self.count = 0;
    }

    /// So many bytes of it came, or went.
    pub fn pass(&mut self, count: usize) {
        if count > 0 && self.began.is_none() {
            self.began = self.now();
        }
        self.count = self.count.saturating_add(count as u64);
    }

    pub fn now(&self) -> Option<Instant> {
        Instant::now(&self.clock).ok()
    }

    /// Whether it took too long, or the run ends.
    pub fn is_over(&mut self) -> bool {
        self.has_passed(self.began, self.pace.allowed(self.count)) || self.is_ended()
    }

    /// Whether a call that failed so, one of those that wait for the same bytes since then, may be made again.
    pub fn may_wait(&mut self, error: &Error, since: Option<Instant>) -> bool {
        is_wait(error)
            && !self.has_passed(since, self.pace.wait)
            && !self.ends_between()
            && !self.is_over()
    }

    /// Whether the run is to end, and nothing was begun.
    pub fn ends_between(&self) -> bool {
        self.began.is_none() && self.closing.cause().is_some()
    }

    // What was begun when the run was to end may go on for a moment.
    fn is_ended(&mut self) -> bool {
        if self.closing.cause().is_none() {
            return false;
        }
        if self.ending.is_none() {
            self.ending = self.now();
        }
        self.has_passed(self.ending, Duration::from_secs(LAST))
    }

    fn has_passed(&self, since: Option<Instant>, time: Duration) -> bool {
        match (since, self.now()) {
            (Some(since), Some(now)) => now.duration_since(since) >= time,
            _ => false,
        }
    }
}

/// Whether a call failed because nothing came in its time, or because it was disturbed.
pub fn is_wait(error: &Error) -> bool {
    matches!(
        error.kind(),
        ErrorKind::WouldBlock | ErrorKind::TimedOut | ErrorKind::Interrupted
    )
}
