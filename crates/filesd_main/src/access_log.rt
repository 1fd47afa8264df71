//! The log, on standard error: where the program listens, and a line for each answer where FILESD_LOG asks for it.

ghost use Rattle.std.specs.Prelude.{◌≡◌, None};

use crate::sweeping::Sweeping;
use crate::version::VERSION;
use jiff::Timestamp;
use log_lines::line;
use nf_outside::{Ends, Failed, Sink};
use nf_server::{Door, Link};
use std::alloc::AllocError;
use std::io::Write;
use std::net::SocketAddr;
use std::time::Instant;

/// The log's first line: which program listens, and where.
#[derive(Drop)]
pub struct Greeting {
    pub rt: HostRuntime,
    pub address: SocketAddr,
}

impl Greeting {
    fn say(&self) {
        let address = self.address;
        let _ = eprintln!(self.rt; "filesd: version {VERSION}, listening on {address}");
    }
}

/// A door that says its greeting when it is first asked, if it has one, looks whether the store is to be swept, if it ever is, and whose
/// connections are logged, where there is a runtime to log them by.
#[derive(Drop)]
pub struct LoggedDoor<D: Drop> {
    inner: D,
    log: Option<HostRuntime>,
    greeting: Option<Greeting>,
    sweeping: Option<Sweeping>,
}

impl<D: Drop> LoggedDoor<D> {
    pub fn new(
        inner: D,
        log: Option<HostRuntime>,
        greeting: Option<Greeting>,
        sweeping: Option<Sweeping>,
    ) -> LoggedDoor<D> {
        LoggedDoor {
            inner,
            log,
            greeting,
            sweeping,
        }
    }
}

impl<D: Door + Drop> Door for LoggedDoor<D> {
    type Source = D::Source;

    type Sink = LoggedSink<D::Sink>;

    ghost coming = { λ _. None };

    ghost served = { λ _. None };

    ghost faults = { λ door. D.faults door.inner };

    ghost has_room = { λ door. D.has_room door.inner };

    fn next(&mut self) -> Result<Option<Link<D::Source, LoggedSink<D::Sink>>>, Failed> {
        if let Some(greeting) = self.greeting.take() {
            greeting.say();
        }
        if let Some(sweeping) = &self.sweeping {
            sweeping.look();
        }
        match self.inner.next()? {
            Some(link) => {
                let Link { source, sink } = link;
                Ok(Some(Link {
                    source,
                    sink: LoggedSink {
                        inner: sink,
                        log: log_by(&self.log),
                    },
                }))
            }
            None => Ok(None),
        }
    }

    fn back(&mut self, link: Link<D::Source, LoggedSink<D::Sink>>)
        requires room { D.has_room self.old.inner }
        ensures faults { D.faults self.new.inner ≡ D.faults self.old.inner }
    {
        let Link { source, sink } = link;
        let LoggedSink { inner, log: _ } = sink;
        self.inner.back(Link {
            source,
            sink: inner,
        });
    }

    fn close(&mut self)
        ensures faults { D.faults self.new.inner ≡ D.faults self.old.inner }
    {
        self.inner.close();
    }
}

// A log by that runtime, if there is one.
fn log_by(rt: &Option<HostRuntime>) -> Option<Log> {
    let rt: Result<_, _> = rt.as_ref()?.clone();
    Some(Log::new(rt.ok()?))
}

/// The end of a connection that is written, and the log of its answers.
#[derive(Drop)]
pub struct LoggedSink<O: Drop> {
    inner: O,
    log: Option<Log>,
}

impl<O: Sink + Drop> Ends for LoggedSink<O> {
    ghost left = { λ sink. O.left sink.inner };

    ghost written = { λ sink. O.written sink.inner };

    ghost begun = { λ sink. O.begun sink.inner };

    ghost read_faults = { λ sink. O.read_faults sink.inner };

    ghost write_faults = { λ sink. O.write_faults sink.inner };
}

impl<O: Sink + Drop> Sink for LoggedSink<O> {
    fn write(&mut self, bytes: &[u8]) -> Result<usize, Failed> {
        let count = self.inner.write(bytes)?;
        if let Some(log) = &mut self.log {
            log.wrote(bytes, count);
        }
        Ok(count)
    }

    fn begin_answer(&mut self, method: &[u8], target: &[u8]) {
        self.inner.begin_answer(method, target);
        if let Some(log) = &mut self.log {
            log.begin(method, target);
        }
    }

    fn end_answer(&mut self) {
        self.inner.end_answer();
        if let Some(log) = &mut self.log {
            log.end();
        }
    }
}

// What is known of the answer that is being written. Between two answers it is empty.
#[derive(Drop)]
struct Log {
    rt: HostRuntime,
    method: Vec<u8>,
    target: Vec<u8>,
    began: Option<Instant>,
    status: Option<[u8; 3]>,
    written: u64,
}

impl Log {
    fn new(rt: HostRuntime) -> Log {
        let alloc = rt.alloc();
        Log {
            rt,
            method: Vec::new(alloc),
            target: Vec::new(alloc),
            began: None,
            status: None,
            written: 0,
        }
    }

    // What there is no memory for isn't shown.
    fn begin(&mut self, method: &[u8], target: &[u8]) {
        let _ = self.method.extend_from_slice(method);
        let _ = self.target.extend_from_slice(target);
        self.began = Instant::now(&self.rt).ok();
    }

    // The status is that of the first head but 100 Continue. What is written behind that is a file's.
    fn wrote(&mut self, bytes: &[u8], count: usize) {
        let waits = match self.status {
            Some(status) => status == *b"100",
            None => true,
        };
        if waits
            && let Some([first, second, third, ..]) = bytes.strip_prefix(b"HTTP/1.1 ".as_slice())
        {
            self.status = Some([*first, *second, *third]);
        }
        self.written = self.written.saturating_add(count as u64);
    }

    // Where nothing was begun and nothing was written, there was no message.
    fn end(&mut self) {
        if self.began.is_some() || self.written > 0 {
            if let Ok(line) = self.line() {
                // By one call, so that the lines of several threads don't mix.
                let _ = self.rt.stderr().write(line.as_bytes());
            }
        }
        self.method.clear();
        self.target.clear();
        self.began = None;
        self.status = None;
        self.written = 0;
    }

    fn line(&self) -> Result<String, AllocError> {
        let moment = Timestamp::now(&self.rt).unwrap_or(Timestamp::UNIX_EPOCH);
        let took = match self.began {
            Some(began) => began.elapsed(&self.rt).ok(),
            None => None,
        };
        let status: &[u8] = match &self.status {
            Some(status) => status,
            None => &[],
        };
        line(
            self.rt.alloc(),
            moment,
            &self.method,
            &self.target,
            status,
            self.written,
            took,
        )
    }
}
