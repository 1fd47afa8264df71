//! The adapters of the real outside, of which no contract says what they give.

use nf_dice::RealDice;
use nf_outside::{Clock, Dice, Ends, Failed, Input, Output, RealClock, Sink, Source};
use std::alloc::{AllocError, Global};
use std::io::{self, Error, ErrorKind, Read, Write};
use std::random::RandomSource;
use std::test::Fail;

// All that a source gives to reads of up to four bytes, with a `!` for each that fails.
fn all_of(alloc: Global, source: &mut impl Source) -> Result<Vec<u8>, AllocError> {
    let mut all = Vec::new(alloc);
    for _ in 0..10u32 {
        let mut room = [0; 4];
        match source.read(&mut room) {
            Ok(count) => all.extend_from_slice(&room[..count])?,
            Err(Failed) => all.push(b'!')?,
        }
    }
    Ok(all)
}

#[test]
fn adapts_readers_and_writers(rt: HostRuntime) -> Result<(), Fail> {
    let alloc = rt.alloc();
    let bytes: &[u8] = b"abcdef";
    let mut input = Input::new(bytes);
    let all = all_of(alloc, &mut input)?;
    assert!(rt; all.as_slice() == b"abcdef".as_slice());
    let mut room = [0; 3];
    let mut output = Output::new(&mut room[..]);
    assert!(rt; output.write(b"abcd") == Ok(3));
    assert!(rt; output.write(b"") == Ok(0));
    // A full writer takes nothing.
    assert!(rt; output.write(b"d") == Err(Failed));
    assert!(rt; output.faults() == 1);
    Ok(())
}

// Its first read or write fails, and no other.
#[derive(Drop)]
struct FailsOnce {
    failed: bool,
}

impl Read for FailsOnce {
    fn read(&mut self, _buf: &mut [u8]) -> io::Result<usize> {
        if self.failed {
            return Ok(0);
        }
        self.failed = true;
        Err(Error::from(ErrorKind::TimedOut))
    }
}

impl Write for FailsOnce {
    fn write(&mut self, buf: &[u8]) -> io::Result<usize> {
        if self.failed {
            return Ok(buf.len());
        }
        self.failed = true;
        Err(Error::from(ErrorKind::BrokenPipe))
    }

    fn flush(&mut self) -> io::Result<()> {
        Ok(())
    }
}

// No contract can say that the adapters don't try again: what a reader or writer does isn't told.
#[test]
fn never_tries_again(rt: HostRuntime) {
    let mut input = Input::new(FailsOnce { failed: false });
    let mut output = Output::new(FailsOnce { failed: false });
    assert!(rt; input.read(&mut [0; 4]) == Err(Failed));
    assert!(rt; output.write(b"ab") == Err(Failed));
    assert!(rt; (input.faults(), output.faults()) == (1, 1));
    assert!(rt; output.write(b"ab") == Ok(2));
}

#[test]
fn reads_the_time(rt: HostRuntime) {
    // 2020-01-01T00:00:00Z
    assert!(rt; RealClock::new(rt).now() > 1577836800);
}

// A source that gives zeros alone.
struct Zeros;

impl RandomSource for Zeros {
    fn fill_bytes(&self, buf: &mut [u8]) -> io::Result<()> {
        buf.fill(0);
        Ok(())
    }
}

// A source that gives nothing.
struct Dry;

impl RandomSource for Dry {
    fn fill_bytes(&self, _buf: &mut [u8]) -> io::Result<()> {
        Err(Error::from(ErrorKind::Unsupported))
    }
}

// The words of the key of zeros are those of RFC 8439, appendix A.1, test vector 1.
#[test]
fn draws_words(rt: HostRuntime) -> Result<(), Fail> {
    let mut dice = RealDice::new(&Zeros)?;
    assert!(rt; dice.draw() == 0x903d_f1a0_ade0_b876);
    assert!(rt; dice.draw() == 0x28bd_8653_e56a_5d40);
    assert!(rt; RealDice::new(&Dry).is_err());
    let mut one = RealDice::new(&rt)?;
    let mut other = RealDice::new(&rt)?;
    assert!(rt; (one.draw(), one.draw()) != (other.draw(), other.draw()));
    Ok(())
}
