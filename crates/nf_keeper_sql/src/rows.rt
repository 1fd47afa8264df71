//! The table of rows.

ghost use Rattle.std.specs.Prelude.{◌≡◌, ◌-◌, All, IfOk, IfSome, IsTrue, OnOk, length, slice_get};
ghost use Rattle.std.specs.declared.cmp.Ordering.TheVariants.{Less};
ghost use Rattle.nf_defs.specs.Puts.{key_cmp};
ghost use Rattle.nf_told.specs.Told.{AreRisingRaws, FitsChange, raw_key};

use nf_base::Change;
use nf_keeper::RawRows;
use nf_rows::{RawKey, RawRow, write, write_key};
use sqlite::{Alter, Connection, Error, ErrorCode, Row, Transaction, params};
use std::alloc::Global;
use std::cmp::Ordering;

// The row of kind 255 is the store's own.
const ROWS: &str = "SELECT kind, key, body FROM rows WHERE kind <> 255 ORDER BY kind, key";

const PUT_ROW: &str =
    "INSERT INTO rows (kind, key, body) VALUES (?1, ?2, ?3) ON CONFLICT (kind, key) DO UPDATE SET body = excluded.body";

const DROP_ROW: &str = "DELETE FROM rows WHERE kind = ?1 AND key = ?2";

/// All rows, by rising kind and key. Rows that stand otherwise are refused.
pub(crate) fn rows_of<S: Alter>(
    alloc: Global,
    connection: &mut Connection<S>,
) -> Result<RawRows, Error>
    ensures { IfOk result (λ raws. AreRisingRaws raws) }
{
    let mut raws = RawRows::new(alloc);
    let mut rows = connection.query(ROWS, &[])?;
    for _ in 0..u64::MAX {
        let Some(row) = rows.next()? else {
            return Ok(raws);
        };
        push_above(&mut raws, raw_of(row)?)?;
    }
    Ok(raws)
}

pub(crate) fn raw_of(row: &Row) -> Result<RawRow, Error> {
    let kind: u32 = row.get(0)?;
    let Ok(kind) = u8::try_from(kind) else {
        return Err(Error::IntegralValueOutOfRange(0));
    };
    Ok(RawRow::from_parts(kind, row.get(1)?, row.get(2)?))
}

/// Puts a row behind those that it is above.
#[tactic(auto, using(crate::proofs::Rising::rises_behind))]
fn push_above(raws: &mut RawRows, raw: RawRow) -> Result<(), Error>
    requires { AreRisingRaws raws.old }
    ensures { OnOk result (AreRisingRaws raws.new) }
{
    if !is_above(&raw, raws.rows()) {
        return Err(Error::SqliteFailure(ErrorCode::DatabaseCorrupt));
    }
    raws.push(raw)?;
    Ok(())
}

/// Whether a row is above the last of some, if there is one.
fn is_above(raw: &RawRow, rows: &[RawRow]) -> bool
    ensures { IsTrue result → IfSome (slice_get rows.now (length rows.now - 1)) (λ last. key_cmp (raw_key last) (raw_key raw.now) ≡ Less) }
{
    match rows.last() {
        Some(last) => compare(last, raw) == Ordering::Less,
        None => true,
    }
}

fn compare(raw: &RawRow, other: &RawRow) -> Ordering
    ensures { result ≡ key_cmp (raw_key raw.now) (raw_key other.now) }
{
    raw.kind()
        .cmp(&other.kind())
        .then(raw.key().cmp(other.key()))
}

/// Makes the changes, in their order.
pub(crate) fn make_all<S: Alter>(
    alloc: Global,
    transaction: &mut Transaction<'_, S>,
    changes: &[Change],
) -> Result<(), Error>
    ensures { OnOk result (All FitsChange changes.now) }
{
    for change in changes {
        make(alloc, transaction, change)?;
    }
    Ok(())
}

fn make<S: Alter>(
    alloc: Global,
    transaction: &mut Transaction<'_, S>,
    change: &Change,
) -> Result<(), Error>
    ensures { OnOk result (FitsChange change.now) }
{
    match change {
        Change::Put(row) => {
            let mut spelled = RawRow::new(alloc);
            write(row, &mut spelled)?;
            put(transaction, &spelled)
        }
        Change::Drop(key) => {
            let mut spelled = RawKey::new(alloc);
            write_key(key, &mut spelled)?;
            drop_row(transaction, &spelled)
        }
    }
}

fn put<S: Alter>(transaction: &mut Transaction<'_, S>, row: &RawRow) -> Result<(), Error> {
    let kind = u32::from(row.kind());
    transaction.execute(PUT_ROW, params![kind, row.key(), row.body()])?;
    Ok(())
}

fn drop_row<S: Alter>(transaction: &mut Transaction<'_, S>, key: &RawKey) -> Result<(), Error> {
    let kind = u32::from(key.kind());
    transaction.execute(DROP_ROW, params![kind, key.bytes()])?;
    Ok(())
}
