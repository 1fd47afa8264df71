//! Stores of before, whose bodies all lie in the database itself.

use crate::bodies::{BODY_IDS, numbers, total};
use crate::fault::Fault;
use crate::rows::raw_of;
use crate::store::Sizes;
use crate::tables::{Form, begin, form_of};
use nf_rows::RawRow;
use sqlite::{Alter, Connection, Error, Rows, Transaction, params};
use std::alloc::Global;

const ALL_ROWS: &str = "SELECT kind, key, body FROM rows";

const COPY_ROW: &str = "INSERT INTO rows (kind, key, body) VALUES (?1, ?2, ?3)";

/// How many rows are copied by one transaction.
const ROWS_AT_ONCE: usize = 4_096;

/// Whether a database is a store of before, with more bodies than such a one holds now. It is one that has tables, and no mark.
pub fn is_old<S: Alter>(connection: &mut Connection<S>, sizes: Sizes) -> Result<bool, Error> {
    match form_of(connection) {
        Ok(Form::Unmarked) => Ok(total(connection)? > sizes.together),
        Ok(_) => Ok(false),
        // There is no such table yet.
        Err(Error::SqlInputError(_)) => Ok(false),
        Err(error) => Err(error),
    }
}

/// The numbers of all bodies of such a store.
pub fn body_ids<S: Alter>(
    alloc: Global,
    connection: &mut Connection<S>,
) -> Result<Vec<i64>, Error> {
    numbers(alloc, connection, BODY_IDS)
}

/// Copies all rows from one database into another.
pub(crate) fn copy_rows<S: Alter>(
    alloc: Global,
    from: &mut Connection<S>,
    to: &mut Connection<S>,
) -> Result<(), Fault> {
    let mut rows = from.query(ALL_ROWS, &[])?;
    for _ in 0..u64::MAX {
        let some = next_rows(alloc, &mut rows)?;
        if some.is_empty() {
            break;
        }
        put_rows(to, &some)?;
    }
    Ok(())
}

fn next_rows<S: Alter>(alloc: Global, rows: &mut Rows<'_, S>) -> Result<Vec<RawRow>, Error> {
    let mut some = Vec::new(alloc);
    for _ in 0..ROWS_AT_ONCE {
        let Some(row) = rows.next()? else {
            break;
        };
        some.push(raw_of(row)?)?;
    }
    Ok(some)
}

fn put_rows<S: Alter>(to: &mut Connection<S>, rows: &[RawRow]) -> Result<(), Error> {
    let mut transaction = begin(to)?;
    for row in rows {
        put_row(&mut transaction, row)?;
    }
    transaction.commit()
}

fn put_row<S: Alter>(transaction: &mut Transaction<'_, S>, row: &RawRow) -> Result<(), Error> {
    let kind = u32::from(row.kind());
    transaction.execute(COPY_ROW, params![kind, row.key(), row.body()])?;
    Ok(())
}
