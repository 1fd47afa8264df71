//! Where connections come from: the doors of a server.

use crate::access_log::{Greeting, LoggedDoor};
use crate::settings::Serving;
use crate::sweeping::Sweeping;
use filesd::Status;
use nf_dice::RealDice;
use nf_outside::RealClock;
use nf_server::{Closing, TcpDoor, Terms, Worker};
use std::io;
use std::net::{TcpListener, TcpStream};
use std::os::fd::OwnedFd;
use std::time::Duration;

/// How many milliseconds a thread waits for a connection, for each thread, before it looks again whether the run is to end. The next run of
/// a server that is full begins after so long, if nobody else has to be waited for; and all idle threads look 200 times a second together.
const LOOK: u64 = 5;

/// A thread that serves connections of the one socket.
pub type SocketWorker = Worker<
    LoggedDoor<TcpDoor<TcpListener, HostRuntime>>,
    RealClock<HostRuntime>,
    RealDice,
>;

/// The workers of a `serve`, which share one socket. Other commands have none.
pub fn workers(
    rt: &HostRuntime,
    serving: &Option<Serving>,
    closing: &Closing,
    sweeping: &Option<Sweeping>,
) -> Result<Vec<SocketWorker>, Status> {
    match serving {
        Some(serving) => listen(rt, serving, closing, sweeping),
        None => Ok(Vec::new(rt.alloc())),
    }
}

fn listen(
    rt: &HostRuntime,
    serving: &Serving,
    closing: &Closing,
    sweeping: &Option<Sweeping>,
) -> Result<Vec<SocketWorker>, Status> {
    let address = serving.address.as_str();
    let listener = match bind(rt, serving) {
        Ok(listener) => listener,
        Err(error) => {
            let _ = eprintln!(rt; "filesd: can't listen on {address}: {error}");
            return Err(Status::DoorFault);
        }
    };
    // The first worker's door has it, which is asked once the rows are judged and the store is served.
    let mut greeting = greeting_of(rt, &listener);
    let mut workers = Vec::new(rt.alloc());
    for _ in 0..serving.workers {
        let (Ok(listener), Some(terms), Some(clock)) = (
            listener.try_clone(),
            terms(rt, serving, closing),
            same(rt),
        ) else {
            return Err(Status::DoorFault);
        };
        let door = TcpDoor::new(rt.alloc(), listener, terms, serving.connections);
        let worker = Worker {
            door: LoggedDoor::new(door, log(rt, serving), greeting.take(), shared(sweeping)),
            clock: RealClock::new(clock),
            dice: dice(rt)?,
        };
        if workers.push(worker).is_err() {
            return Err(Status::Memory);
        }
    }
    Ok(workers)
}

// A socket whose `accept` waits for a moment at most: its timeout is that of a read, which the library sets of a stream alone.
fn bind(rt: &HostRuntime, serving: &Serving) -> io::Result<TcpListener> {
    let listener = TcpListener::bind(rt, serving.address.as_str())?;
    let socket = OwnedFd::from(listener.try_clone()?);
    let look = Duration::from_millis(serving.workers.saturating_mul(LOOK));
    TcpStream::from(socket).set_read_timeout(Some(look))?;
    Ok(listener)
}

fn terms(rt: &HostRuntime, serving: &Serving, closing: &Closing) -> Option<Terms<HostRuntime>> {
    Some(Terms {
        pace: serving.pace,
        closing: closing.share().ok()?,
        clock: same(rt)?,
    })
}

// That the socket listens, and where.
fn greeting_of(rt: &HostRuntime, listener: &TcpListener) -> Option<Greeting> {
    let address = listener.local_addr().ok()?;
    Some(Greeting {
        rt: same(rt)?,
        address,
    })
}

fn shared(sweeping: &Option<Sweeping>) -> Option<Sweeping> {
    sweeping.as_ref()?.share()
}

// The runtime to log by, where answers are logged.
fn log(rt: &HostRuntime, serving: &Serving) -> Option<HostRuntime> {
    if serving.is_logged { same(rt) } else { None }
}

/// Dice with a key of their own.
pub fn dice(rt: &HostRuntime) -> Result<RealDice, Status> {
    RealDice::new(rt).map_err(|error| {
        let _ = eprintln!(rt; "filesd: the system gives no random bytes: {error}");
        Status::ReadFault
    })
}

/// The same runtime, to be kept.
pub fn same(rt: &HostRuntime) -> Option<HostRuntime> {
    let rt: Result<_, _> = rt.clone();
    rt.ok()
}
