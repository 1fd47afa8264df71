//! The tables, and the mark that says which form the store has.

use crate::fault::Fault;
use sqlite::{Alter, Connection, Error, ErrorCode, Transaction};

const TABLES: &str =
    "CREATE TABLE IF NOT EXISTS rows (kind INTEGER NOT NULL, key BLOB NOT NULL, body BLOB NOT NULL, PRIMARY KEY (kind, key)) STRICT;\nCREATE TABLE IF NOT EXISTS pieces (id INTEGER PRIMARY KEY, body BLOB NOT NULL) STRICT;\nCREATE TABLE IF NOT EXISTS extents (id INTEGER PRIMARY KEY, place INTEGER NOT NULL, size INTEGER NOT NULL) STRICT";

const FORMS: &str = "SELECT body FROM rows WHERE kind = 255";

const PUT_FORM: &str = "INSERT INTO rows (kind, key, body) VALUES (255, x'', x'02')";

/// The form that is written: bodies in extents of a file, besides those in the database.
const FORM: [u8; 1] = [2];

/// What the row of a store says of its form.
#[derive(Clone, Copy, PartialEq, Eq)]
pub(crate) enum Form {
    /// No such row: all bodies lie in the database.
    Unmarked,
    /// The form that is written.
    Known,
    /// Another one.
    Other,
}

/// A transaction, where none is open.
pub(crate) fn begin<S: Alter>(connection: &mut Connection<S>) -> Result<Transaction<'_, S>, Error> {
    if connection.is_autocommit() {
        Ok(connection.transaction())
    } else {
        Err(Error::SqliteFailure(ErrorCode::TransactionState))
    }
}

/// Makes the tables that are missing, and marks a store that has no mark. One of another form is refused.
pub(crate) fn make<S: Alter>(connection: &mut Connection<S>) -> Result<(), Fault> {
    make_tables(connection)?;
    match form_of(connection)? {
        Form::Unmarked => Ok(mark(connection)?),
        Form::Known => Ok(()),
        Form::Other => Err(Fault::Form),
    }
}

fn make_tables<S: Alter>(connection: &mut Connection<S>) -> Result<(), Error> {
    let mut transaction = begin(connection)?;
    transaction.execute_batch(TABLES)?;
    transaction.commit()
}

fn mark<S: Alter>(connection: &mut Connection<S>) -> Result<(), Error> {
    let mut transaction = begin(connection)?;
    transaction.execute(PUT_FORM, &[])?;
    transaction.commit()
}

/// Which form the store has.
pub(crate) fn form_of<S: Alter>(connection: &mut Connection<S>) -> Result<Form, Error> {
    let mut rows = connection.query(FORMS, &[])?;
    let Some(row) = rows.next()? else {
        return Ok(Form::Unmarked);
    };
    let form: Vec<u8> = row.get(0)?;
    Ok(if form.as_slice() == FORM.as_slice() {
        Form::Known
    } else {
        Form::Other
    })
}
