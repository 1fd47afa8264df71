//! The table of bodies that lie in the database itself.

use crate::fault::Fault;
use nf_base::BlobId;
use sqlite::{Alter, Connection, Error, Transaction, params};
use std::alloc::Global;

const PUT_BODY: &str =
    "INSERT INTO pieces (id, body) VALUES (?1, ?2) ON CONFLICT (id) DO UPDATE SET body = excluded.body";

const DROP_BODY: &str = "DELETE FROM pieces WHERE id = ?1";

const BODY: &str = "SELECT body FROM pieces WHERE id = ?1";

const LENGTHS: &str = "SELECT length(body) FROM pieces";

/// The numbers of the bodies that lie in the database itself.
pub(crate) const BODY_IDS: &str = "SELECT id FROM pieces";

/// A table's number of a blob. Numbers from 2^63 on stand for themselves less 2^64.
pub(crate) fn number(id: BlobId) -> i64 {
    id.number().cast_signed()
}

/// Keeps a body, in place of one that has its number.
pub(crate) fn put<S: Alter>(
    transaction: &mut Transaction<'_, S>,
    id: i64,
    bytes: &[u8],
) -> Result<(), Error> {
    transaction.execute(PUT_BODY, params![id, bytes])?;
    Ok(())
}

/// Drops the body of that number, if it is there.
pub(crate) fn drop_body<S: Alter>(
    transaction: &mut Transaction<'_, S>,
    id: i64,
) -> Result<(), Error> {
    transaction.execute(DROP_BODY, params![id])?;
    Ok(())
}

/// The body of that number, if it is there.
pub(crate) fn body_of<S: Alter>(
    connection: &mut Connection<S>,
    id: i64,
) -> Result<Option<Vec<u8>>, Error> {
    let mut rows = connection.query(BODY, params![id])?;
    match rows.next()? {
        Some(row) => row.get(0).map(Some),
        None => Ok(None),
    }
}

/// How many bytes the bodies have together.
pub(crate) fn total<S: Alter>(connection: &mut Connection<S>) -> Result<u64, Error> {
    let mut total = 0u64;
    let mut rows = connection.query(LENGTHS, &[])?;
    for _ in 0..u64::MAX {
        let Some(row) = rows.next()? else {
            return Ok(total);
        };
        let length: u64 = row.get(0)?;
        total = total.saturating_add(length);
    }
    Ok(total)
}

/// The numbers that a selection of one column gives, by rising number.
pub(crate) fn numbers<S: Alter>(
    alloc: Global,
    connection: &mut Connection<S>,
    selection: &str,
) -> Result<Vec<i64>, Error> {
    let mut numbers = Vec::new(alloc);
    let mut rows = connection.query(selection, &[])?;
    for _ in 0..u64::MAX {
        let Some(row) = rows.next()? else {
            break;
        };
        let id: i64 = row.get(0)?;
        numbers.push(id)?;
    }
    drop(rows);
    numbers.sort_unstable();
    Ok(numbers)
}
