//! What no case of the suite can say of a server: its threads, doors that fail, and a run that becomes full.

ghost use Rattle.std.specs.Prelude.{◌<◌, length, None};
ghost use Rattle.nf_base.specs.declared.limits.TheConstants.{MAX_SEATS};

use crate::words::words_of;
use filesd::{Finished, RowsFault, Status, run};
use nf_keeper::MemKeeper;
use nf_outside::{Ends, Failed, ListClock, ListDice, MemSink, MemSource, Sink, Source};
use nf_server::{Cause, Closing, Door, Link, MemDoor, MemLink, Pace, TcpDoor, Terms, Worker};
use std::alloc::{AllocError, Global};
use std::io::{self, Read, Write};
use std::net::{Ipv4Addr, Shutdown, SocketAddr, TcpListener, TcpStream};
use std::os::fd::OwnedFd;
use std::sync::Wait;
use std::sync::atomic::{AtomicBool, Ordering};
use std::test::Fail;
use std::thread::{Threads, join, sleep};
use std::time::Duration;

const GET_HELLO: &str =
    "GET /remote.php/dav/files/alice/hello.txt HTTP/1.1\r\nAuthorization: Bearer alice-1\r\nConnection: close\r\n\r\n";

const HELLO: &str =
    "HTTP/1.1 200 OK\r\nConnection: close\r\nContent-Type: application/octet-stream\r\nContent-Length: 6\r\n\r\nhello\n";

/// A run by these words over a keeper, with these workers.
fn run_with<R, D>(
    rt: &R,
    alloc: Global,
    words: &[&str],
    keeper: MemKeeper,
    workers: &mut [Worker<D, ListClock, ListDice>],
) -> Result<Finished<MemKeeper>, Fail>
where
    R: Threads + Wait + Sync,
    D: Door + Drop + Send,
    D::Source: Send,
    D::Sink: Send,
    requires workers { length workers.old < MAX_SEATS }
{
    let words = words_of(alloc, words)?;
    let none = Vec::new(alloc);
    let mut input = MemSource::new(none, Vec::new(alloc), Vec::new(alloc));
    let mut output = MemSink::new(alloc, Vec::new(alloc));
    let mut clock = ListClock::new(Vec::new(alloc));
    Ok(run(
        rt,
        alloc,
        &words,
        &mut input,
        &mut output,
        keeper,
        &mut clock,
        &mut ListDice::new(Vec::new(alloc)),
        workers,
    ))
}

type MemWorker = Worker<MemDoor<MemSource, MemSink>, ListClock, ListDice>;

fn mem_worker(
    alloc: Global,
    links: Vec<MemLink>,
    failing: Vec<u64>,
) -> Result<MemWorker, AllocError> {
    Ok(Worker {
        door: MemDoor::new(alloc, links, failing)?,
        clock: ListClock::new(Vec::new(alloc)),
        dice: ListDice::new(Vec::new(alloc)),
    })
}

fn link(alloc: Global, bytes: Vec<u8>) -> MemLink {
    Link {
        source: MemSource::new(bytes, Vec::new(alloc), Vec::new(alloc)),
        sink: MemSink::new(alloc, Vec::new(alloc)),
    }
}

/// A keeper with the demonstration rows.
fn demo_keeper<R: Threads + Wait + Sync>(rt: &R, alloc: Global) -> Result<MemKeeper, Fail> {
    let mut nobody: [MemWorker; 0] = [];
    let keeper = MemKeeper::new(alloc, &[])?;
    Ok(run_with(rt, alloc, &["batch"], keeper, &mut nobody)?.keeper)
}

/// How a run by these words ends over the demonstration rows, with these workers.
pub fn status_of<R, D>(
    rt: &R,
    alloc: Global,
    words: &[&str],
    workers: &mut [Worker<D, ListClock, ListDice>],
) -> Result<Status, Fail>
where
    R: Threads + Wait + Sync,
    D: Door + Drop + Send,
    D::Source: Send,
    D::Sink: Send,
    requires workers { length workers.old < MAX_SEATS }
{
    let keeper = demo_keeper(rt, alloc)?;
    Ok(run_with(rt, alloc, words, keeper, workers)?.status)
}

#[test]
fn a_keeper_without_rows_is_not_served(rt: HostRuntime) -> Result<(), Fail> {
    let alloc = rt.alloc();
    let mut nobody: [MemWorker; 0] = [];
    let finished = run_with(
        &rt,
        alloc,
        &["serve"],
        MemKeeper::new(alloc, &[])?,
        &mut nobody,
    )?;
    assert!(rt; finished.status == Status::BadRows(RowsFault::Missing));
    Ok(())
}

/// The number of connections that a worker serves, if not the default one; and the status, where the door fails at its second call.
const DOORS: [(&[&str], Status); 2] = [
    (&["serve"], Status::DoorFault),
    (&["serve", "--connections", "1"], Status::Done),
];

/// A worker with one connection, whose door fails at its second call.
fn failing_worker(alloc: Global) -> Result<MemWorker, AllocError> {
    let bytes = GET_HELLO.as_bytes().to_vec(alloc)?;
    let links = vec![in alloc; link(alloc, bytes)]?;
    mem_worker(alloc, links, vec![in alloc; 2]?)
}

#[test]
fn a_door_fails_at_its_second_call(rt: HostRuntime) -> Result<(), Fail> {
    let alloc = rt.alloc();
    for (words, status) in DOORS {
        let mut workers = [failing_worker(alloc)?];
        assert!(rt; status_of(&rt, alloc, words, &mut workers)? == status);
        let door = &workers[0].door;
        let served = door.served();
        assert!(rt; served.len() == 1);
        assert!(rt; served[0].sink.bytes() == HELLO.as_bytes());
    }
    Ok(())
}

const LIST: &str =
    "GET /remote.php/dav/files/alice/ HTTP/1.1\r\nAuthorization: Bearer alice-1\r\n\r\n";

/// 10,000 requests for a list.
fn lists(alloc: Global) -> Result<Vec<u8>, AllocError> {
    let mut bytes = Vec::new(alloc);
    for _ in 0..10_000u32 {
        bytes.extend_from_slice(LIST.as_bytes())?;
    }
    Ok(bytes)
}

/// 27 connections with so many requests each, and one with none.
fn links_of_lists(alloc: Global) -> Result<Vec<MemLink>, AllocError> {
    let mut links = Vec::new(alloc);
    for _ in 0..27u32 {
        links.push(link(alloc, lists(alloc)?))?;
    }
    links.push(link(alloc, Vec::new(alloc)))?;
    Ok(links)
}

#[test]
fn a_run_becomes_full(rt: HostRuntime) -> Result<(), Fail> {
    let alloc = rt.alloc();
    let mut workers = [mem_worker(alloc, links_of_lists(alloc)?, Vec::new(alloc))?];
    assert!(rt; status_of(&rt, alloc, &["serve"], &mut workers)? == Status::RunFull);
    let door = &mut workers[0].door;
    // It was closed to the last one.
    assert!(rt; matches!(door.next(), Ok(None)));
    let served = door.served();
    assert!(rt; served.len() == 27);
    // The last answer of a link that had all `MAX_MESSAGES` says that it is the last.
    for one in served.iter().take(26) {
        assert!(rt; one.source.left().is_empty());
    }
    Ok(())
}

/// Gives its body only once a flag is set, if it waits for one, and fails if that never happens.
#[derive(Drop)]
struct Gate<'f> {
    head: MemSource,
    body: MemSource,
    flag: &'f AtomicBool,
    waits: bool,
    faults: u64,
}

impl<'f> Ends for Gate<'f> {
    ghost left = { λ _. None };

    ghost written = { λ _. None };

    ghost begun = { λ _. None };

    ghost read_faults = { λ gate. gate.faults };

    ghost write_faults = { λ _. 0 };
}

impl<'f> Gate<'f> {
    fn opens(&self) -> bool {
        for _ in 0..10_000_000u32 {
            if !self.waits || self.flag.load(Ordering::SeqCst) {
                return true;
            }
        }
        false
    }
}

impl<'f> Source for Gate<'f> {
    fn read(&mut self, room: &mut [u8]) -> Result<usize, Failed> {
        if let Ok(count) = self.head.read(room)
            && count > 0
        {
            return Ok(count);
        }
        if self.opens()
            && let Ok(count) = self.body.read(room)
        {
            return Ok(count);
        }
        self.faults = self.faults.saturating_add(1);
        Err(Failed)
    }
}

/// Sets a flag once something was written.
#[derive(Drop)]
struct Bell<'f> {
    sink: MemSink,
    flag: &'f AtomicBool,
    faults: u64,
}

impl<'f> Ends for Bell<'f> {
    ghost left = { λ _. None };

    ghost written = { λ _. None };

    ghost begun = { λ _. None };

    ghost read_faults = { λ _. 0 };

    ghost write_faults = { λ bell. bell.faults };
}

impl<'f> Sink for Bell<'f> {
    fn write(&mut self, bytes: &[u8]) -> Result<usize, Failed> {
        match self.sink.write(bytes) {
            Ok(count) => {
                self.flag.store(true, Ordering::SeqCst);
                Ok(count)
            }
            Err(failed) => {
                self.faults = self.faults.saturating_add(1);
                Err(failed)
            }
        }
    }

    fn begin_answer(&mut self, _method: &[u8], _target: &[u8]) {}
}

type GateWorker<'f> = Worker<MemDoor<Gate<'f>, Bell<'f>>, ListClock, ListDice>;

/// A worker with one connection, whose answers set the one flag and whose body may wait for the other.
fn gate_worker<'f>(
    alloc: Global,
    head: &str,
    body: &str,
    waits: bool,
    flag: &'f AtomicBool,
    bell: &'f AtomicBool,
) -> Result<GateWorker<'f>, AllocError> {
    let source = Gate {
        head: MemSource::new(
            head.as_bytes().to_vec(alloc)?,
            Vec::new(alloc),
            Vec::new(alloc),
        ),
        body: MemSource::new(
            body.as_bytes().to_vec(alloc)?,
            Vec::new(alloc),
            Vec::new(alloc),
        ),
        flag,
        waits,
        faults: 0,
    };
    let sink = Bell {
        sink: MemSink::new(alloc, Vec::new(alloc)),
        flag: bell,
        faults: 0,
    };
    Ok(Worker {
        door: MemDoor::new(
            alloc,
            vec![in alloc; Link { source, sink }]?,
            Vec::new(alloc),
        )?,
        clock: ListClock::new(Vec::new(alloc)),
        dice: ListDice::new(Vec::new(alloc)),
    })
}

const PUT_HEAD: &str =
    "PUT /remote.php/dav/files/alice/p HTTP/1.1\r\nAuthorization: Bearer alice-1\r\nContent-Length: 5\r\n\r\n";

#[test]
fn workers_run_beside_each_other(rt: HostRuntime) -> Result<(), Fail> {
    let alloc = rt.alloc();
    let (answered, other) = (AtomicBool::new(false), AtomicBool::new(false));
    let mut workers = [
        gate_worker(alloc, PUT_HEAD, "hello", true, &answered, &other)?,
        gate_worker(alloc, GET_HELLO, "", false, &other, &answered)?,
    ];
    assert!(rt; status_of(&rt, alloc, &["serve"], &mut workers)? == Status::Done);
    let (first, second) = (&workers[0].door, &workers[1].door);
    let (put, got) = (first.served(), second.served());
    assert!(rt; put.len() == 1);
    assert!(rt; got.len() == 1);
    let answer = put[0].sink.sink.bytes();
    assert!(rt; answer.starts_with(b"HTTP/1.1 201 Created\r\n"));
    assert!(rt; got[0].sink.sink.bytes() == HELLO.as_bytes());
    Ok(())
}

/// What a server on loopback answers to these bytes. It is told that no more come, or waits for them.
fn ask(rt: &HostRuntime, address: SocketAddr, bytes: &[u8], ends: bool) -> io::Result<Vec<u8>> {
    let mut stream = TcpStream::connect(rt, address)?;
    stream.write_all(bytes)?;
    if ends {
        stream.shutdown(Shutdown::Write)?;
    }
    let mut answer = Vec::new(rt.alloc());
    stream.read_to_end(&mut answer)?;
    Ok(answer)
}

/// What doors are told whose reads wait no longer than the limit, nor for a whole message.
pub fn terms(rt: &HostRuntime, limit: Duration) -> Result<Terms<HostRuntime>, AllocError> {
    Ok(Terms {
        pace: Pace {
            wait: limit,
            whole: limit,
            bytes: 16_384,
        },
        closing: Closing::new(rt.alloc())?,
        clock: rt.clone()?,
    })
}

/// The answer of a server that serves one connection, whose reads wait no longer than the limit; and its status. `threads` is the same
/// runtime, as what may start them.
fn asked<R: Threads + Wait + Sync>(
    rt: &HostRuntime,
    threads: &R,
    limit: Duration,
    bytes: &[u8],
    ends: bool,
) -> Result<(Vec<u8>, Status), Fail> {
    let alloc = rt.alloc();
    let listener = TcpListener::bind(rt, SocketAddr::from((Ipv4Addr::LOCALHOST, 0)))?;
    let address = listener.local_addr()?;
    let mut workers = [Worker {
        door: TcpDoor::new(alloc, listener, terms(rt, limit)?, 1),
        clock: ListClock::new(Vec::new(alloc)),
        dice: ListDice::new(Vec::new(alloc)),
    }];
    let workers = &mut workers;
    let (answer, status) = join(
        threads,
        move || ask(rt, address, bytes, ends),
        move || status_of(threads, alloc, &["serve", "--connections", "1"], workers),
    );
    let status = status?;
    Ok((answer?, status))
}

#[test]
fn a_file_is_served_over_tcp(rt: HostRuntime) -> Result<(), Fail> {
    let (answer, status) = asked(&rt, &rt, Duration::from_secs(5), GET_HELLO.as_bytes(), true)?;
    assert!(rt; answer.as_slice() == HELLO.as_bytes());
    assert!(rt; status == Status::Done);
    Ok(())
}

#[test]
fn a_silent_connection_is_given_up(rt: HostRuntime) -> Result<(), Fail> {
    let half = b"GET /remote.php/dav/files/alice/hello.txt HTTP/1.1\r\n";
    let (answer, status) = asked(&rt, &rt, Duration::from_millis(200), half, false)?;
    assert!(rt; answer.is_empty());
    assert!(rt; status == Status::Done);
    Ok(())
}

const PUT_LONG: &str =
    "PUT /remote.php/dav/files/alice/p HTTP/1.1\r\nAuthorization: Bearer alice-1\r\nContent-Length: 20000000\r\n\r\n";

// Were the connection closed with bytes unread, it would be reset, and the answer could be lost.
#[test]
fn an_answer_reaches_who_still_sends(rt: HostRuntime) -> Result<(), Fail> {
    let alloc = rt.alloc();
    let mut bytes = PUT_LONG.as_bytes().to_vec(alloc)?;
    bytes.extend_from_slice(&vec![in alloc; b'x'; 300_000]?)?;
    let (answer, status) = asked(&rt, &rt, Duration::from_secs(5), &bytes, true)?;
    assert!(rt; answer.starts_with(b"HTTP/1.1 413 "));
    assert!(rt; status == Status::Done);
    Ok(())
}

#[test]
fn a_listener_that_fails_is_told(rt: HostRuntime) -> Result<(), Fail> {
    let alloc = rt.alloc();
    let limit = Duration::from_secs(5);
    let listener = TcpListener::bind(&rt, SocketAddr::from((Ipv4Addr::LOCALHOST, 0)))?;
    let stream = TcpStream::connect(&rt, listener.local_addr()?)?;
    // A connection is no listener.
    let listener = TcpListener::from(OwnedFd::from(stream));
    let mut workers = [Worker {
        door: TcpDoor::new(alloc, listener, terms(&rt, limit)?, 1),
        clock: ListClock::new(Vec::new(alloc)),
        dice: ListDice::new(Vec::new(alloc)),
    }];
    assert!(rt; status_of(&rt, alloc, &["serve"], &mut workers)? == Status::DoorFault);
    Ok(())
}

#[test]
fn a_door_that_was_told_gives_nothing(rt: HostRuntime) -> Result<(), Fail> {
    let alloc = rt.alloc();
    let listener = TcpListener::bind(&rt, SocketAddr::from((Ipv4Addr::LOCALHOST, 0)))?;
    // Somebody waits already.
    let _stream = TcpStream::connect(&rt, listener.local_addr()?)?;
    let terms = terms(&rt, Duration::from_secs(5))?;
    terms.closing.tell(Cause::Store);
    let mut door = TcpDoor::new(alloc, listener, terms, 1);
    assert!(rt; matches!(door.next(), Ok(None)));
    Ok(())
}

/// What comes of sending a byte of a request again and again.
fn drip(rt: &HostRuntime, address: SocketAddr) -> io::Result<usize> {
    let mut stream = TcpStream::connect(rt, address)?;
    for count in 0..100usize {
        if stream.write_all(b"G").is_err() {
            return Ok(count);
        }
        sleep(rt, Duration::from_millis(50));
    }
    Ok(100)
}

/// How many bytes come through so, and the status of the server, whose messages may take 0.3 s.
fn dripped<R: Threads + Wait + Sync>(
    rt: &HostRuntime,
    threads: &R,
) -> Result<(usize, Status), Fail> {
    let alloc = rt.alloc();
    let listener = TcpListener::bind(rt, SocketAddr::from((Ipv4Addr::LOCALHOST, 0)))?;
    let address = listener.local_addr()?;
    let terms = terms(rt, Duration::from_millis(300))?;
    let mut workers = [Worker {
        door: TcpDoor::new(alloc, listener, terms, 1),
        clock: ListClock::new(Vec::new(alloc)),
        dice: ListDice::new(Vec::new(alloc)),
    }];
    let workers = &mut workers;
    let (count, status) = join(
        threads,
        move || drip(rt, address),
        move || status_of(threads, alloc, &["serve", "--connections", "1"], workers),
    );
    let status = status?;
    Ok((count?, status))
}

#[test]
fn a_dripping_connection_is_given_up(rt: HostRuntime) -> Result<(), Fail> {
    let (count, status) = dripped(&rt, &rt)?;
    // No read waited long, but the message took too long.
    assert!(rt; 3 < count);
    assert!(rt; count < 60);
    assert!(rt; status == Status::Done);
    Ok(())
}
