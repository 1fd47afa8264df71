//! The two ends of a connection over TCP.

ghost use Rattle.std.specs.Prelude.{◌≡◌, ◌<◌, length, IfOk, None};
ghost use Rattle.std.specs.Io.{ReadsAtMost, WritesAtMost};

use crate::link::Link;
use crate::pace::Patience;
use crate::tcp::Terms;
use nf_outside::{Ends, Failed, Sink, Source};
use std::alloc::{AllocError, Global};
use std::io::{Read, Write};
use std::sync::Arc;
use std::sync::atomic::{AtomicU64, Ordering};
use std::time::Clock;

/// The most memory that two entries take without their paths.
const ENTRIES: u64 = 1_000;

/// What a name takes beside its bytes.
const NAME: u64 = 56;

/// The most that a path takes: the bytes of a head, and 64 names.
const PATH: u64 = 8_192 + 64 * NAME;

/// How many answers of a connection ended. Both of its ends know it: the next message begins behind an answer.
type Answers = Arc<AtomicU64, Global>;

/// The end that is read. A read that waits too long, and one of a message that takes too long, is a fault.
#[derive(Drop)]
pub struct TcpSource<T: Drop, C: Clock + Drop> {
    stream: T,
    patience: Patience<C>,
    answers: Answers,
    seen: u64,
    faults: u64,
}

/// The end that is written. So is a write that waits too long, or one of an answer that takes too long.
#[derive(Drop)]
pub struct TcpSink<T: Drop, C: Clock + Drop> {
    stream: T,
    patience: Patience<C>,
    answers: Answers,
    faults: u64,
}

/// The ends over a stream and its clone.
pub fn ends_of<T: Drop, C: Clock + Clone + Drop>(
    alloc: Global,
    input: T,
    output: T,
    terms: &Terms<C>,
) -> Result<Link<TcpSource<T, C>, TcpSink<T, C>>, AllocError> {
    let answers = Arc::new(alloc, AtomicU64::new(0))?;
    let source = TcpSource {
        stream: input,
        patience: patience(terms)?,
        answers: Arc::try_clone(&answers)?,
        seen: 0,
        faults: 0,
    };
    let sink = TcpSink {
        stream: output,
        patience: patience(terms)?,
        answers,
        faults: 0,
    };
    Ok(Link { source, sink })
}

fn patience<C: Clock + Clone + Drop>(terms: &Terms<C>) -> Result<Patience<C>, AllocError> {
    Ok(Patience::new(terms.clock.clone()?, terms.pace, terms.closing.share()?))
}

impl<T: Drop, C: Clock + Drop> TcpSource<T, C> {
    pub fn into_inner(self) -> T {
        let TcpSource {
            stream,
            patience: _,
            answers: _,
            seen: _,
            faults: _,
        } = self;
        stream
    }

    // Behind an answer the next message begins.
    fn renew(&mut self)
        ensures { self.new.faults ≡ self.old.faults }
    {
        let answers = self.answers.load(Ordering::SeqCst);
        if answers != self.seen {
            self.seen = answers;
            self.patience.renew();
        }
    }
}

impl<T: Drop, C: Clock + Drop> TcpSink<T, C> {
    pub fn into_inner(self) -> T {
        let TcpSink {
            stream,
            patience: _,
            answers: _,
            faults: _,
        } = self;
        stream
    }
}

impl<T: Drop, C: Clock + Drop> Ends for TcpSource<T, C> {
    ghost left = { λ _. None };

    ghost written = { λ _. None };

    ghost begun = { λ _. None };

    ghost read_faults = { λ source. source.faults };

    ghost write_faults = { λ _. 0 };
}

impl<T: Read + Drop, C: Clock + Drop> Source for TcpSource<T, C> {
    fn read(&mut self, room: &mut [u8]) -> Result<usize, Failed> {
        self.renew();
        // Where the run is to end, no message is begun behind an answer; the first one of a connection that was just accepted is.
        let is_late = self.seen > 0 && self.patience.ends_between();
        if !is_late && let Ok(count) = read_in_time(&mut self.stream, &mut self.patience, room) {
            return Ok(count);
        }
        self.faults = self.faults.saturating_add(1);
        Err(Failed)
    }
}

impl<T: Drop, C: Clock + Drop> Ends for TcpSink<T, C> {
    ghost left = { λ _. None };

    ghost written = { λ _. None };

    ghost begun = { λ _. None };

    ghost read_faults = { λ _. 0 };

    ghost write_faults = { λ sink. sink.faults };
}

impl<T: Write + Drop, C: Clock + Drop> Sink for TcpSink<T, C> {
    fn write(&mut self, bytes: &[u8]) -> Result<usize, Failed> {
        if bytes.starts_with(b"HTTP/1.1 ") {
            let is_want = bytes.starts_with(b"HTTP/1.1 503 ");
            self.patience.closing().answered(is_want);
        }
        if let Ok(count) = write_in_time(&mut self.stream, &mut self.patience, bytes) {
            return Ok(count);
        }
        self.faults = self.faults.saturating_add(1);
        Err(Failed)
    }

    fn begin_answer(&mut self, method: &[u8], target: &[u8]) {
        self.patience.closing().keeps(most_kept(method, target));
        self.patience.renew();
    }

    fn end_answer(&mut self) {
        self.patience.renew();
        self.answers.fetch_add(1, Ordering::SeqCst);
    }
}

// How many bytes of memory the entries of such a request take at most: each name of a path is a text of its own.
fn most_kept(method: &[u8], target: &[u8]) -> u64 {
    let mut names: u64 = 1;
    for byte in target {
        if *byte == b'/' {
            names = names.saturating_add(1);
        }
    }
    let path = names
        .saturating_mul(NAME)
        .saturating_add(target.len() as u64);
    // A MOVE and a COPY have a second path, which isn't known here.
    let other = if matches!(method, b"MOVE" | b"COPY") {
        PATH
    } else {
        0
    };
    ENTRIES.saturating_add(path).saturating_add(other)
}

fn read_in_time<T: Read, C: Clock + Drop>(
    stream: &mut T,
    patience: &mut Patience<C>,
    room: &mut [u8],
) -> Result<usize, Failed>
    ensures { ReadsAtMost result room.new }
{
    let since = patience.now();
    if patience.is_over() {
        return Err(Failed);
    }
    for _ in 0..u64::MAX {
        match stream.read(room) {
            Ok(count) => {
                patience.pass(count);
                return Ok(count);
            }
            Err(error) if patience.may_wait(&error, since) => {}
            Err(_) => break,
        }
    }
    Err(Failed)
}

fn write_in_time<T: Write, C: Clock + Drop>(
    stream: &mut T,
    patience: &mut Patience<C>,
    bytes: &[u8],
) -> Result<usize, Failed>
    ensures bound { WritesAtMost result bytes.now }
    ensures some { IfOk result (λ n. 0 < length bytes.now → 0 < n) }
{
    let since = patience.now();
    if patience.is_over() {
        return Err(Failed);
    }
    // A write that nobody takes for a time is one of an answer that was begun.
    patience.pass(1);
    for _ in 0..u64::MAX {
        match stream.write(bytes) {
            Ok(count) if count > 0 || bytes.is_empty() => {
                patience.pass(count);
                return Ok(count);
            }
            Ok(_) => break,
            Err(error) if patience.may_wait(&error, since) => {}
            Err(_) => break,
        }
    }
    Err(Failed)
}
