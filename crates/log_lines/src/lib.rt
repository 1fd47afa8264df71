//! A line of the access log: what is shown of an answer, and how.
#![tactic(auto)]

use bstr::ByteSlice;
use jiff::Timestamp;
use percent_encoding::{AsciiSet, CONTROLS, ascii_set, percent_decode, percent_encode};
use std::alloc::{AllocError, Global};
use std::fmt::Write as WriteText;
use std::time::Duration;

/// The most bytes of a method or a target that are shown.
const MOST_SHOWN: usize = 1_000;

/// What stands before the token of a public link in a path.
const BEFORE_TOKEN: &[u8] = b"/public.php/dav/files/";

/// What is escaped where it is shown, beside all that isn't ASCII: so nothing that is asked for ends a line, or begins another field.
const ESCAPED: AsciiSet = ascii_set!(CONTROLS.add(b' ').add(b'"').add(b'\\'));

/// The line of an answer: the moment, the method, the path, the status, how many bytes were written and how many milliseconds it took. Of
/// what isn't known there is a `-`.
pub fn line(
    alloc: Global,
    moment: Timestamp,
    method: &[u8],
    target: &[u8],
    status: &[u8],
    written: u64,
    took: Option<Duration>,
) -> Result<String, AllocError> {
    let mut line = format!(in alloc; "{moment:.0} ")?;
    push_field(&mut line, method)?;
    line.push(' ')?;
    push_path(&mut line, alloc, target)?;
    line.push(' ')?;
    push_field(&mut line, status)?;
    match took {
        Some(took) => {
            let millis = took.as_millis();
            let tenth = took.subsec_micros() / 100 % 10;
            write!(line, " {written} {millis}.{tenth}\n")?;
        }
        None => write!(line, " {written} -\n")?,
    }
    Ok(line)
}

// The front of some bytes, or a `-` where there are none.
fn push_field(line: &mut String, bytes: &[u8]) -> Result<(), AllocError> {
    if bytes.is_empty() {
        return line.push('-');
    }
    percent_encode(front(bytes), ESCAPED).append_to(line)
}

// The target without its query, and with a `*` for the token of a public link; or a `*` alone where one may stand anywhere in it.
fn push_path(line: &mut String, alloc: Global, target: &[u8]) -> Result<(), AllocError> {
    let path = match target.split_once_str(b"?") {
        Some((path, _)) => path,
        None => target,
    };
    match front(path).split_once_str(BEFORE_TOKEN) {
        Some((before, behind)) if !behind.starts_with(b"/") => { push_link(line, before, behind) }
        _ if is_nearly_public(alloc, path)? => line.push('*'),
        _ => push_field(line, path),
    }
}

fn push_link(line: &mut String, before: &[u8], behind: &[u8]) -> Result<(), AllocError> {
    percent_encode(before, ESCAPED).append_to(line)?;
    percent_encode(BEFORE_TOKEN, ESCAPED).append_to(line)?;
    line.push('*')?;
    if let Some((_, rest)) = behind.split_once_str(b"/") {
        line.push('/')?;
        percent_encode(rest, ESCAPED).append_to(line)?;
    }
    Ok(())
}

// Whether it is a public path that is spelt in another way, with more slashes, other letters or escapes, or a link as browsers have it.
fn is_nearly_public(alloc: Global, path: &[u8]) -> Result<bool, AllocError> {
    let mut bytes = Vec::new(alloc);
    percent_decode(path).append_to(&mut bytes)?;
    bytes.make_ascii_lowercase();
    Ok(bytes.starts_with(b"/s/") || bytes.as_slice().contains_str(b"public.php"))
}

fn front(bytes: &[u8]) -> &[u8] {
    &bytes[..bytes.len().min(MOST_SHOWN)]
}
