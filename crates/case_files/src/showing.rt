//! Lines that say how a run differs. Each is one line, of a readable length.

use crate::case::{Fault, RowFault, Run};
use crate::judging::Difference;
use crate::kept::{Blob, Kept, KeptRow};
use std::alloc::{AllocError, Global};
use std::fmt;

/// How many bytes of a message or an answer are shown.
const SHOWN: usize = 240;

/// That an answer differs. `cut` says how the run was made.
pub fn line_of_answer(
    alloc: Global,
    run: &Run,
    difference: &Difference<'_>,
    cut: &str,
) -> Result<String, AllocError> {
    let got = Shown(difference.got);
    match run.exchanges.get(difference.index) {
        None => format!(in alloc; "{cut}, behind the last answer: got \"{got}\""),
        Some(exchange) => {
            let number = difference.index + 1;
            let sent = Shown(&exchange.send);
            let wanted = Shown(&exchange.answer);
            format!(in alloc;
                "{cut}, exchange {number}: sent \"{sent}\", wanted \"{wanted}\", got \"{got}\""
            )
        }
    }
}

/// That the answers are right and the exit status isn't.
pub fn line_of_status(alloc: Global, wanted: u8, got: u8, cut: &str) -> Result<String, AllocError> {
    format!(in alloc; "{cut}: wanted status {wanted}, got {got}")
}

/// That the status is right and why the rows were refused isn't.
pub fn line_of_fault(
    alloc: Global,
    wanted: Fault,
    got: Option<Fault>,
    cut: &str,
) -> Result<String, AllocError> {
    let wanted = ShownFault(wanted);
    match got {
        Some(got) => format!(in alloc; "{cut}: wanted {wanted}, got {}", ShownFault(got)),
        None => format!(in alloc; "{cut}: wanted {wanted}, got no fault of the rows"),
    }
}

/// That the answers are right and what the keeper has afterwards isn't.
pub fn line_of_left(
    alloc: Global,
    wanted: &Kept,
    got: &Kept,
    cut: &str,
) -> Result<String, AllocError> {
    let index = first_other(&wanted.rows, &got.rows);
    if index < wanted.rows.len() || index < got.rows.len() {
        let wanted = ShownRow(wanted.rows.get(index));
        let got = ShownRow(got.rows.get(index));
        return format!(in alloc; "{cut}, row {index} that is left: wanted {wanted}, got {got}");
    }
    let index = first_other(&wanted.blobs, &got.blobs);
    let wanted = ShownBlob(wanted.blobs.get(index));
    let got = ShownBlob(got.blobs.get(index));
    format!(in alloc; "{cut}, blobs that are left: wanted {wanted}, got {got}")
}

// The first index where others stand than are wanted, or none: that behind the wanted ones, where all of them stand.
fn first_other<T: PartialEq>(wanted: &[T], got: &[T]) -> usize {
    for (index, one) in wanted.iter().enumerate() {
        match got.get(index) {
            Some(other) if other == one => {}
            _ => return index,
        }
    }
    wanted.len()
}

#[derive(Clone, Copy)]
struct ShownFault(Fault);

impl fmt::Display for ShownFault {
    fn fmt<W: fmt::Write>(&self, f: &mut fmt::Formatter<W>) -> fmt::Result {
        match self.0 {
            Fault::Row { index, why } => write!(f, "row {index}, {}", ShownWhy(why)),
            Fault::Rule { index, rule } => write!(f, "row {index}, rule {rule}"),
            Fault::Found => f.write_str("rows found"),
            Fault::Missing => f.write_str("rows missing"),
        }
    }
}

#[derive(Clone, Copy)]
struct ShownWhy(RowFault);

impl fmt::Display for ShownWhy {
    fn fmt<W: fmt::Write>(&self, f: &mut fmt::Formatter<W>) -> fmt::Result {
        match self.0 {
            RowFault::Kind => f.write_str("kind"),
            RowFault::Short { at } => write!(f, "short at {at}"),
            RowFault::Long { at } => write!(f, "long at {at}"),
            RowFault::Value { at } => write!(f, "value at {at}"),
        }
    }
}

#[derive(Clone, Copy)]
struct ShownRow<'a>(Option<&'a KeptRow>);

impl fmt::Display for ShownRow<'_> {
    fn fmt<W: fmt::Write>(&self, f: &mut fmt::Formatter<W>) -> fmt::Result {
        match self.0 {
            Some(row) => {
                let (key, body) = (Shown(row.key()), Shown(row.body()));
                write!(f, "{} \"{key}\" \"{body}\"", row.kind())
            }
            None => f.write_str("none"),
        }
    }
}

#[derive(Clone, Copy)]
struct ShownBlob<'a>(Option<&'a Blob>);

impl fmt::Display for ShownBlob<'_> {
    fn fmt<W: fmt::Write>(&self, f: &mut fmt::Formatter<W>) -> fmt::Result {
        match self.0 {
            Some(blob) => write!(f, "{} \"{}\"", blob.number(), Shown(blob.bytes())),
            None => f.write_str("none"),
        }
    }
}

// The first bytes of a message or an answer, escaped, and how many more there are.
#[derive(Clone, Copy)]
struct Shown<'a>(&'a [u8]);

impl fmt::Display for Shown<'_> {
    fn fmt<W: fmt::Write>(&self, f: &mut fmt::Formatter<W>) -> fmt::Result {
        let bytes = self.0;
        for byte in bytes.iter().take(SHOWN) {
            write_escaped(f, *byte)?;
        }
        if bytes.len() > SHOWN {
            write!(f, "... ({} bytes)", bytes.len())?;
        }
        Ok(())
    }
}

fn write_escaped<W: fmt::Write>(f: &mut fmt::Formatter<W>, byte: u8) -> fmt::Result {
    match byte {
        b'\r' => f.write_str("\\r"),
        b'\n' => f.write_str("\\n"),
        b'"' => f.write_str("\\\""),
        b'\\' => f.write_str("\\\\"),
        b' '..=b'~' => f.write_char(byte as char),
        _ => write!(f, "\\x{byte:02x}"),
    }
}
