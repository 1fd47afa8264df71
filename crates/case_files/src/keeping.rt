//! Reads what a keeper has.

ghost use Rattle.std.specs.Prelude.{◌≡◌, length, IfOk};

use crate::case::Unread;
use crate::kept::{Blob, Kept, KeptRow};
use crate::reading::{bytes, has_only, items, list, member, small_number};
use serde_json::Value;
use std::alloc::Global;

/// The rows and the blobs of that member, if it is there.
pub(crate) fn kept_in(alloc: Global, run: &Value, name: &str) -> Result<Option<Kept>, Unread> {
    let Some(said) = run.get(name) else {
        return Ok(None);
    };
    has_only(said, &["rows", "blobs"])?;
    member(said, "blobs")?;
    Ok(Some(Kept {
        rows: rows_of(alloc, list(said, "rows")?)?,
        blobs: blobs_in(alloc, said, "blobs")?,
    }))
}

fn rows_of(alloc: Global, listed: &[Value]) -> Result<Vec<KeptRow>, Unread>
    ensures { IfOk result (λ rows. length rows.items ≡ length listed.now) }
{
    let mut rows = Vec::new(alloc);
    for said in listed {
        let row = row_of(alloc, said)?;
        if !is_behind(&rows, &row) {
            return Err(Unread::NotRising);
        }
        rows.push(row)?;
    }
    Ok(rows)
}

// Whether a row stands behind the last of some, if there is one.
fn is_behind(rows: &[KeptRow], row: &KeptRow) -> bool {
    match rows.last() {
        Some(last) => last.is_before(row),
        None => true,
    }
}

fn row_of(alloc: Global, said: &Value) -> Result<KeptRow, Unread> {
    match items(said)? {
        [kind, key, body] => Ok(KeptRow::new(
            small_number(kind)?,
            bytes(alloc, key)?,
            bytes(alloc, body)?,
        )),
        _ => Err(Unread::Malformed),
    }
}

/// The blobs of that member by rising number: none where it isn't there.
pub(crate) fn blobs_in(alloc: Global, value: &Value, name: &str) -> Result<Vec<Blob>, Unread> {
    let mut blobs = Vec::new(alloc);
    if let Some(said) = value.get(name) {
        for (number, text) in said.as_object().ok_or(Unread::Malformed)? {
            blobs.push(blob_of(alloc, number.as_str(), text)?)?;
        }
    }
    blobs.sort_by_key(|blob: &Blob| blob.number())?;
    Ok(blobs)
}

fn blob_of(alloc: Global, number: &str, text: &Value) -> Result<Blob, Unread> {
    let number = number.parse().map_err(|_| Unread::Malformed)?;
    Ok(Blob::new(number, bytes(alloc, text)?))
}
