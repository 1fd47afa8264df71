//! What no case of the suite can say: faults of the outside, a PUT that is cut and read again, and the longest body.

use crate::words::words_of;
use filesd::{Finished, Status, run};
use nf_keeper::MemKeeper;
use nf_outside::{ListClock, ListDice, MemSink, MemSource};
use nf_server::{MemDoor, Worker};
use std::alloc::{AllocError, Global};
use std::sync::Wait;
use std::test::Fail;
use std::thread::Threads;

const GET_HELLO: &str =
    "GET /remote.php/dav/files/alice/hello.txt HTTP/1.1\r\nAuthorization: Bearer alice-1\r\n\r\n";

const PUT_HELLO: &str =
    "PUT /remote.php/dav/files/alice/hello.txt HTTP/1.1\r\nAuthorization: Bearer alice-1\r\nContent-Length: 9\r\n\r\ngood bye";

const HELLO: &str =
    "HTTP/1.1 200 OK\r\nContent-Type: application/octet-stream\r\nContent-Length: 6\r\n\r\nhello\n";

fn source(alloc: Global, text: &str) -> Result<MemSource, AllocError> {
    Ok(MemSource::new(
        text.as_bytes().to_vec(alloc)?,
        Vec::new(alloc),
        Vec::new(alloc),
    ))
}

type NoWorker = Worker<MemDoor<MemSource, MemSink>, ListClock, ListDice>;

fn no_workers() -> [NoWorker; 0] {
    []
}

/// A run of `batch` over a keeper.
fn batch_over<R: Threads + Wait + Sync>(
    rt: &R,
    alloc: Global,
    keeper: MemKeeper,
    input: &mut MemSource,
    output: &mut MemSink,
) -> Result<Finished<MemKeeper>, AllocError> {
    let words = words_of(alloc, &["batch"])?;
    let mut clock = ListClock::new(Vec::new(alloc));
    Ok(run(
        rt,
        alloc,
        &words,
        input,
        output,
        keeper,
        &mut clock,
        &mut ListDice::new(Vec::new(alloc)),
        &mut no_workers(),
    ))
}

/// The same, and what it wrote.
fn batch<R: Threads + Wait + Sync>(
    rt: &R,
    alloc: Global,
    keeper: MemKeeper,
    input: MemSource,
) -> Result<(Finished<MemKeeper>, Vec<u8>), AllocError> {
    let mut input = input;
    let mut output = MemSink::new(alloc, Vec::new(alloc));
    let finished = batch_over(rt, alloc, keeper, &mut input, &mut output)?;
    Ok((finished, output.bytes().to_vec(alloc)?))
}

/// What asks for a file, 40 bytes a read, of which the one of this number fails.
fn broken_source(alloc: Global, failing: u64) -> Result<MemSource, AllocError> {
    let bytes = GET_HELLO.as_bytes().to_vec(alloc)?;
    let pieces = vec![in alloc; 40]?;
    Ok(MemSource::new(bytes, pieces, vec![in alloc; failing]?))
}

/// What takes five bytes a write, of which the one of this number fails.
fn broken_sink(alloc: Global, failing: u64) -> Result<MemSink, AllocError> {
    let pieces = vec![in alloc; 5]?;
    Ok(MemSink::in_pieces(alloc, pieces, vec![in alloc; failing]?))
}

/// The calls of the input and of the output that fail, the status, and how many bytes are written all the same.
const FAULTS: [(u64, u64, Status, usize); 4] = [
    (1, 0, Status::ReadFault, 0),
    (2, 0, Status::ReadFault, 0),
    (0, 1, Status::WriteFault, 0),
    (0, 2, Status::WriteFault, 5),
];

#[test]
fn a_fault_of_the_store_is_status_3(rt: HostRuntime) {
    assert!(rt; Status::StoreFault.code() == 3);
}

#[test]
fn faults_of_the_outside(rt: HostRuntime) -> Result<(), Fail> {
    let alloc = rt.alloc();
    for (read, write, status, count) in FAULTS {
        let keeper = MemKeeper::new(alloc, &[])?;
        let mut input = broken_source(alloc, read)?;
        let mut output = broken_sink(alloc, write)?;
        let finished = batch_over(&rt, alloc, keeper, &mut input, &mut output)?;
        assert!(rt; finished.status == status);
        assert!(rt; output.bytes().len() == count);
        assert!(rt; finished.site.is_some());
    }
    Ok(())
}

#[test]
fn a_put_that_is_cut_stores_nothing(rt: HostRuntime) -> Result<(), Fail> {
    let alloc = rt.alloc();
    let keeper = MemKeeper::new(alloc, &[])?;
    let (finished, _) = batch(&rt, alloc, keeper, source(alloc, PUT_HELLO)?)?;
    assert!(rt; finished.status == Status::BadMessage);
    let (finished, bytes) = batch(&rt, alloc, finished.keeper, source(alloc, GET_HELLO)?)?;
    assert!(rt; finished.status == Status::Done);
    assert!(rt; bytes.as_slice() == HELLO.as_bytes());
    Ok(())
}

const PUT_LONGEST: &str =
    "PUT /remote.php/dav/files/alice/hello.txt HTTP/1.1\r\nAuthorization: Bearer alice-1\r\nContent-Length: 16777216\r\n\r\n";

fn put_and_get(alloc: Global, body: &[u8]) -> Result<MemSource, AllocError> {
    let mut bytes = PUT_LONGEST.as_bytes().to_vec(alloc)?;
    bytes.extend_from_slice(body)?;
    bytes.extend_from_slice(GET_HELLO.as_bytes())?;
    Ok(MemSource::new(bytes, Vec::new(alloc), Vec::new(alloc)))
}

#[test]
fn the_longest_body_is_stored_and_read(rt: HostRuntime) -> Result<(), Fail> {
    let alloc = rt.alloc();
    let body = vec![in alloc; b'x'; 16_777_216]?;
    let input = put_and_get(alloc, &body)?;
    let (finished, written) = batch(&rt, alloc, MemKeeper::new(alloc, &[])?, input)?;
    assert!(rt; finished.status == Status::Done);
    assert!(rt; written.ends_with(&body));
    Ok(())
}
