//! What a request holds, seen over sockets: a PUT whose body waits, and amid it another connection.

use crate::doors::{status_of, terms};
use filesd::Status;
use nf_outside::{ListClock, ListDice};
use nf_server::{TcpDoor, Worker};
use std::alloc::{AllocError, Global};
use std::io::{self, Read, Write};
use std::net::{Ipv4Addr, SocketAddr, TcpListener, TcpStream};
use std::sync::Wait;
use std::test::Fail;
use std::thread::{Threads, join};
use std::time::Duration;

/// What is sent, by which of two connections, and the answer. The head of the PUT is answered once it has its hold.
const TALK: [(bool, &str, &str); 5] = [
    (
        false,
        "MKCOL /remote.php/dav/files/alice/d HTTP/1.1\r\nAuthorization: Bearer alice-1\r\n\r\n",
        "HTTP/1.1 201 Created\r\nContent-Length: 0\r\n\r\n",
    ),
    (
        true,
        "PUT /remote.php/dav/files/alice/d/x HTTP/1.1\r\nAuthorization: Bearer alice-1\r\nExpect: 100-continue\r\nContent-Length: 5\r\n\r\n",
        "HTTP/1.1 100 Continue\r\n\r\n",
    ),
    (
        false,
        "DELETE /remote.php/dav/files/alice/d HTTP/1.1\r\nAuthorization: Bearer alice-1\r\n\r\n",
        "HTTP/1.1 423 Locked\r\nContent-Type: application/json\r\nContent-Length: 41\r\n\r\n{\"folder\":5,\"name\":\"x\",\"reason\":\"locked\"}",
    ),
    (
        true,
        "hello",
        "HTTP/1.1 201 Created\r\nContent-Length: 0\r\n\r\n",
    ),
    (
        false,
        "DELETE /remote.php/dav/files/alice/d HTTP/1.1\r\nAuthorization: Bearer alice-1\r\n\r\n",
        "HTTP/1.1 204 No Content\r\n\r\n",
    ),
];

/// Whether the bytes are answered so.
fn answers(alloc: Global, stream: &mut TcpStream, sent: &str, wanted: &str) -> io::Result<bool> {
    stream.write_all(sent.as_bytes())?;
    let mut answer = vec![in alloc; 0; wanted.len()]?;
    stream.read_exact(&mut answer)?;
    Ok(answer.as_slice() == wanted.as_bytes())
}

/// How much of the talk is answered as it should be.
fn talk(rt: &HostRuntime, address: SocketAddr) -> io::Result<usize> {
    let mut other = TcpStream::connect(rt, address)?;
    let mut putting = TcpStream::connect(rt, address)?;
    for (index, (is_put, sent, wanted)) in TALK.iter().enumerate() {
        let stream = if *is_put { &mut putting } else { &mut other };
        if !answers(rt.alloc(), stream, sent, wanted)? {
            return Ok(index);
        }
    }
    Ok(TALK.len())
}

type TcpWorker = Worker<TcpDoor<TcpListener, HostRuntime>, ListClock, ListDice>;

fn worker(rt: &HostRuntime, listener: TcpListener) -> Result<TcpWorker, AllocError> {
    let alloc = rt.alloc();
    Ok(Worker {
        door: TcpDoor::new(alloc, listener, terms(rt, Duration::from_secs(5))?, 1),
        clock: ListClock::new(Vec::new(alloc)),
        dice: ListDice::new(Vec::new(alloc)),
    })
}

/// How much of the talk two workers answer as they should, and their status. `threads` is the same runtime, as what may start them.
fn talked<R: Threads + Wait + Sync>(
    rt: &HostRuntime,
    threads: &R,
) -> Result<(usize, Status), Fail> {
    let alloc = rt.alloc();
    let listener = TcpListener::bind(rt, SocketAddr::from((Ipv4Addr::LOCALHOST, 0)))?;
    let address = listener.local_addr()?;
    let mut workers = [worker(rt, listener.try_clone()?)?, worker(rt, listener)?];
    let workers = &mut workers;
    let (answered, status) = join(
        threads,
        move || talk(rt, address),
        move || status_of(threads, alloc, &["serve", "--connections", "1"], workers),
    );
    let status = status?;
    Ok((answered?, status))
}

#[test]
fn a_folder_waits_for_what_is_stored_in_it(rt: HostRuntime) -> Result<(), Fail> {
    let (answered, status) = talked(&rt, &rt)?;
    assert!(rt; answered == TALK.len());
    assert!(rt; status == Status::Done);
    Ok(())
}
