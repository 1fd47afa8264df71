//! The rule that there is one meta row and that no key comes twice.

ghost use Rattle.std.specs.Prelude.{◌≡◌, Some, IfOk};
ghost use Rattle.std.specs.List.{list_any};
ghost use Rattle.nf_rules.specs.Keys.{spelled_key};
ghost use Rattle.nf_rules.specs.Rules.{first_index, is_meta, is_twice};
ghost use Rattle.nf_opening.specs.Judged.{first_twice};

use crate::again::first_again;
use nf_base::Row;
use nf_rows::{RawKey, write_key};
use std::alloc::{AllocError, Global};

/// The first row whose key another has; where all differ, and no meta row is among them, it would come behind the last.
pub(crate) fn first_twice(alloc: Global, rows: &[Row]) -> Result<Option<usize>, AllocError>
    ensures { IfOk result (λ at. at ≡ first_twice rows.now) }
{
    match first_shared(alloc, rows)? {
        None if !has_meta(rows) => Ok(Some(rows.len())),
        at => Ok(at),
    }
}

fn has_meta(rows: &[Row]) -> bool
    ensures { result ≡ list_any is_meta rows.now }
{
    rows.iter().any(|row| matches!(row, Row::Meta(_)))
}

/// The first row whose key another has.
fn first_shared(alloc: Global, rows: &[Row]) -> Result<Option<usize>, AllocError>
    ensures { IfOk result (λ at. at ≡ first_index (is_twice rows.now) rows.now) }
{
    let mut keys = Vec::new(alloc);
    for row in rows {
        keys.push(Some(spelled_key(alloc, row)?))?;
    }
    first_again(alloc, keys)
}

/// The kind of a row and its key, as they are spelled.
fn spelled_key(alloc: Global, row: &Row) -> Result<Vec<u8>, AllocError>
    ensures { IfOk result (λ key. Some key.items ≡ spelled_key row.now) }
{
    let mut raw = RawKey::new(alloc);
    write_key(&row.key()?, &mut raw)?;
    let mut key = vec![in alloc; raw.kind()]?;
    key.extend_from_slice(raw.bytes())?;
    Ok(key)
}
