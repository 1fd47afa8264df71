//! Connections over TCP: the edge to the real outside, which tells nothing of content.

ghost use Rattle.std.specs.Prelude.{◌≡◌, None};

use crate::closing::{Cause, Closing};
use crate::door::Door;
use crate::ends::{TcpSink, TcpSource, ends_of};
use crate::link::Link;
use crate::pace::{Pace, is_wait};
use nf_outside::Failed;
use std::alloc::Global;
use std::io::{Read, Write};
use std::net::{OpenListener, OpenStream, Shutdown};
use std::time::{Clock, Duration, Instant};

/// How many connections in a row may break off before they can be served: `accept` tells of them, too.
const MOST_BROKEN: u32 = 1_000;

/// How many milliseconds is read of a connection that is closed while its other end still sends, and for each read.
const DRAIN: u64 = 1_750;

const DRAIN_SLICE: u64 = 250;

/// What is read so at most.
const MOST_LEFT: u32 = 512;

/// What a door has to know of its server.
#[derive(Drop)]
pub struct Terms<C: Clock + Drop> {
    pub pace: Pace,
    pub closing: Closing,
    pub clock: C,
}

/// A door over a listener. Several may share its socket, each with a listener of its own. Where its `accept` waits for a time at most, the
/// door looks again and again whether the run is to end.
#[derive(Drop)]
pub struct TcpDoor<L: Drop, C: Clock + Drop> {
    alloc: Global,
    listener: L,
    terms: Terms<C>,
    /// How many connections it still gives.
    left: u64,
    faults: u64,
}

impl<L: Drop, C: Clock + Drop> TcpDoor<L, C> {
    /// It gives so many connections, whatever runs they are served in.
    pub fn new(alloc: Global, listener: L, terms: Terms<C>, connections: u64) -> TcpDoor<L, C> {
        TcpDoor {
            alloc,
            listener,
            terms,
            left: connections,
            faults: 0,
        }
    }

    fn is_closed(&self) -> bool {
        self.left == 0 || self.terms.closing.cause().is_some()
    }
}

/// What came of one `accept`.
#[derive(Drop)]
enum Accepted<K> {
    Link(K),
    /// Nobody came in its time.
    Nobody,
    /// A connection broke off already, or none can be accepted.
    Broken,
}

impl<T, L, C> TcpDoor<L, C>
where
    T: Read + Write + OpenStream + Drop,
    L: OpenListener<Stream = T> + Drop,
    C: Clock + Clone + Drop,
{
    fn accept(&self) -> Accepted<Link<TcpSource<T, C>, TcpSink<T, C>>> {
        match self.listener.accept() {
            Ok((stream, _)) => match self.open(stream) {
                Some(link) => Accepted::Link(link),
                None => Accepted::Broken,
            },
            Err(error) if is_wait(&error) => Accepted::Nobody,
            Err(_) => Accepted::Broken,
        }
    }

    // The ends of a connection that was just made; None where it broke off already.
    fn open(&self, stream: T) -> Option<Link<TcpSource<T, C>, TcpSink<T, C>>> {
        let slice = self.terms.pace.slice();
        stream.set_read_timeout(Some(slice)).ok()?;
        stream.set_write_timeout(Some(slice)).ok()?;
        // Small answers go out at once.
        stream.set_nodelay(true).ok()?;
        let other = stream.try_clone().ok()?;
        ends_of(self.alloc, stream, other, &self.terms).ok()
    }
}

impl<T, L, C> Door for TcpDoor<L, C>
where
    T: Read + Write + OpenStream + Drop,
    L: OpenListener<Stream = T> + Drop,
    C: Clock + Clone + Drop,
{
    type Source = TcpSource<T, C>;

    type Sink = TcpSink<T, C>;

    ghost coming = { λ _. None };

    ghost served = { λ _. None };

    ghost faults = { λ door. door.faults };

    ghost has_room = { λ _. Unit {0} };

    fn next(&mut self) -> Result<Option<Link<TcpSource<T, C>, TcpSink<T, C>>>, Failed> {
        let mut broken: u32 = 0;
        for _ in 0..u64::MAX {
            if self.is_closed() {
                return Ok(None);
            }
            match self.accept() {
                Accepted::Link(link) => {
                    self.left = self.left.saturating_sub(1);
                    return Ok(Some(link));
                }
                Accepted::Nobody => {}
                Accepted::Broken if broken < MOST_BROKEN => broken += 1,
                Accepted::Broken => break,
            }
        }
        self.faults = self.faults.saturating_add(1);
        Err(Failed)
    }

    fn back(&mut self, link: Link<TcpSource<T, C>, TcpSink<T, C>>)
        ensures same { self.new ≡ self.old }
    {
        let Link { source, sink } = link;
        let mut input = source.into_inner();
        let output = sink.into_inner();
        // A run that ends waits for nobody.
        if output.shutdown(Shutdown::Write).is_ok() && self.terms.closing.cause().is_none() {
            drain(&self.terms.clock, &mut input);
        }
    }

    /// Tells all doors that share what it was told to look at, and their connections.
    fn close(&mut self)
        ensures same { self.new ≡ self.old }
    {
        self.terms.closing.tell(Cause::Full);
    }
}

// Reads for a moment what is still on its way: closed with bytes unread, a connection is reset, and a reset can destroy the last answer
// before it is read.
fn drain<T: Read + OpenStream, C: Clock>(clock: &C, input: &mut T) {
    let Ok(began) = Instant::now(clock) else {
        return;
    };
    let slice = Duration::from_millis(DRAIN_SLICE);
    if input.set_read_timeout(Some(slice)).is_err() {
        return;
    }
    let most = Duration::from_millis(DRAIN);
    let mut room = [0; 65_536];
    for _ in 0..MOST_LEFT {
        let is_left = matches!(input.read(&mut room), Ok(count) if count > 0);
        let is_over = match began.elapsed(clock) {
            Ok(passed) => passed >= most,
            Err(_) => true,
        };
        if !is_left || is_over {
            return;
        }
    }
}
