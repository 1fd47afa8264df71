//! Faults of the outside. What is answered of a stream the suite's cases show.

use nf_http::{Buffer, WireFault, next_message, read_body, send, skip_body};
use nf_outside::{Failed, MemSink, MemSource};
use std::alloc::{AllocError, Global};
use std::test::Fail;

/// A source of nine bytes a read, whose second read fails.
fn broken(alloc: Global, bytes: &[u8]) -> Result<MemSource, AllocError> {
    Ok(MemSource::new(bytes.to_vec(alloc)?, [9].to_vec(alloc)?, [2].to_vec(alloc)?))
}

#[test]
fn a_head_is_taken_after_a_fault_of_reading(rt: HostRuntime) -> Result<(), Fail> {
    let alloc = rt.alloc();
    let mut source = broken(alloc, b"GET /a HTTP/1.1\r\nHost: b\r\n\r\n")?;
    let mut buffer = Buffer::new();
    let first = next_message(alloc, &mut source, &mut buffer);
    assert!(rt; matches!(first, Err(WireFault::ReadFault)));
    let second = next_message(alloc, &mut source, &mut buffer);
    assert!(rt; matches!(second, Ok(Some(_))));
    Ok(())
}

#[test]
fn a_fault_of_reading_loses_no_byte_behind_it(rt: HostRuntime) -> Result<(), Fail> {
    let alloc = rt.alloc();
    let mut source = broken(alloc, b"abcdefghiXYZ")?;
    let mut buffer = Buffer::new();
    let body = read_body(alloc, &mut source, &mut buffer, 10);
    assert!(rt; body.err() == Some(WireFault::ReadFault));
    skip_body(&mut source, &mut buffer, 1)?;
    let behind = read_body(alloc, &mut source, &mut buffer, 2)?;
    assert!(rt; behind.as_slice() == b"YZ".as_slice());
    Ok(())
}

/// A sink that takes so many bytes a write, of whose writes these fail.
fn sink(alloc: Global, pieces: &[usize], failing: &[u64]) -> Result<MemSink, AllocError> {
    let pieces = pieces.to_vec(alloc)?;
    Ok(MemSink::in_pieces(alloc, pieces, failing.to_vec(alloc)?))
}

#[test]
fn writes_all_or_tells(rt: HostRuntime) -> Result<(), Fail> {
    let alloc = rt.alloc();
    let cases: [(&[usize], &[u64], Result<(), Failed>, &[u8]); 6] = [
        (&[], &[], Ok(()), b"abcdef"),
        (&[1], &[], Ok(()), b"abcdef"),
        (&[4, 1], &[], Ok(()), b"abcdef"),
        (&[], &[1], Err(Failed), b""),
        (&[4], &[2], Err(Failed), b"abcd"),
        (&[1], &[6], Err(Failed), b"abcde"),
    ];
    for (pieces, failing, want, sent) in cases {
        let mut sink = sink(alloc, pieces, failing)?;
        assert!(rt;
            send(&mut sink, b"abcdef") == want,
            "at {pieces:?} and {failing:?}"
        );
        assert!(rt; sink.bytes() == sent, "at {pieces:?} and {failing:?}");
    }
    Ok(())
}
