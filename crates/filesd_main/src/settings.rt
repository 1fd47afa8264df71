//! What the environment says. A setting that says what isn't allowed is told, and refused.

use filesd::Status;
use nf_base::MAX_SEATS;
use nf_server::Pace;
use std::env::{self, VarError};
use std::time::Duration;

/// The most threads that may serve.
pub const MOST_WORKERS: u64 = MAX_SEATS as u64 - 1;

/// How many threads serve, where nothing is said.
const WORKERS: u64 = 4;

/// The longest that may be waited, in seconds.
const MOST_TIMEOUT: u64 = 3_600;

/// How long a read or a write may wait where nothing is said.
const TIMEOUT: u64 = 30;

/// How long a whole message or answer may take where nothing is said, in seconds, and how many of its bytes are a second more.
const MESSAGE_TIME: u64 = 30;

const PACE: u64 = 16_384;

/// The most bytes that may be.
const MOST_PACE: u64 = 1_000_000_000;

/// How many hours are between two sweeps of the store, where nothing is said, and at most.
const SWEEP: u64 = 24;

const MOST_SWEEP: u64 = 8_760;

/// How `serve` works.
#[derive(Drop)]
pub struct Serving {
    pub address: String,
    pub workers: u64,
    pub pace: Pace,
    pub is_logged: bool,
    /// How many hours are between two sweeps of the store; 0 for none.
    pub sweep: u64,
    /// How many connections each thread serves.
    pub connections: u64,
}

/// The path of the store, where one is named.
pub fn store(rt: &HostRuntime) -> Result<Option<String>, Status> {
    match env::var(rt, "FILESD_STORE") {
        Ok(path) => Ok(Some(path)),
        Err(VarError::NotPresent) => Ok(None),
        Err(VarError::NotUnicode) => {
            let _ = eprintln!(rt; "filesd: FILESD_STORE is no text");
            Err(Status::StoreFault)
        }
        Err(VarError::OutOfMemory) => Err(Status::Memory),
    }
}

/// What `serve` is told, whose words say how many connections each thread serves.
pub fn read_serving(rt: &HostRuntime, connections: u64) -> Result<Serving, Status> {
    Ok(Serving {
        address: address(rt)?,
        workers: number(rt, "FILESD_WORKERS", 1, MOST_WORKERS, WORKERS)?,
        pace: pace(rt)?,
        is_logged: number(rt, "FILESD_LOG", 0, 1, 0)? == 1,
        sweep: number(rt, "FILESD_SWEEP", 0, MOST_SWEEP, SWEEP)?,
        connections,
    })
}

fn pace(rt: &HostRuntime) -> Result<Pace, Status> {
    let wait = number(rt, "FILESD_TIMEOUT", 1, MOST_TIMEOUT, TIMEOUT)?;
    let whole = number(rt, "FILESD_MESSAGE_TIME", 1, MOST_TIMEOUT, MESSAGE_TIME)?;
    Ok(Pace {
        wait: Duration::from_secs(wait),
        whole: Duration::from_secs(whole),
        bytes: number(rt, "FILESD_PACE", 1, MOST_PACE, PACE)?,
    })
}

fn address(rt: &HostRuntime) -> Result<String, Status> {
    match env::var(rt, "FILESD_LISTEN") {
        Ok(address) => Ok(address),
        Err(VarError::OutOfMemory) => Err(Status::Memory),
        Err(_) => {
            let _ = eprintln!(rt;
                "filesd: FILESD_LISTEN has to be an address and a port, as 127.0.0.1:8080"
            );
            Err(Status::DoorFault)
        }
    }
}

// The number that the variable has, or the other one where it isn't set.
fn number(rt: &HostRuntime, name: &str, least: u64, most: u64, other: u64) -> Result<u64, Status> {
    match env::var(rt, name) {
        Ok(text) => match text.parse::<u64>() {
            Ok(number) if least <= number && number <= most => return Ok(number),
            _ => {}
        },
        Err(VarError::NotPresent) => return Ok(other),
        Err(VarError::NotUnicode) => {}
        Err(VarError::OutOfMemory) => return Err(Status::Memory),
    }
    let _ = eprintln!(rt; "filesd: {name} has to be a number from {least} to {most}");
    Err(Status::Words)
}
