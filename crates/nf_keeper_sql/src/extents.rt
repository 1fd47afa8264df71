//! The table of extents: where the bodies lie that have bytes of a file.

use nf_extents::Extent;
use sqlite::{Alter, Connection, Error, Transaction, params};
use std::alloc::Global;

const PUT_EXTENT: &str =
    "INSERT INTO extents (id, place, size) VALUES (?1, ?2, ?3) ON CONFLICT (id) DO UPDATE SET place = excluded.place, size = excluded.size";

const DROP_EXTENT: &str = "DELETE FROM extents WHERE id = ?1";

const EXTENT: &str = "SELECT place, size FROM extents WHERE id = ?1";

const EXTENTS: &str = "SELECT place, size FROM extents";

/// The numbers of the bodies that have bytes of a file.
pub(crate) const EXTENT_IDS: &str = "SELECT id FROM extents";

/// Where the body of a number lies.
#[derive(Clone, Copy)]
pub(crate) struct Placed {
    pub(crate) id: i64,
    pub(crate) extent: Extent,
}

/// Keeps where a body lies, in place of one that has its number.
pub(crate) fn put<S: Alter>(
    transaction: &mut Transaction<'_, S>,
    placed: Placed,
) -> Result<(), Error> {
    let place = placed.extent.place.cast_signed();
    let size = placed.extent.size.cast_signed();
    transaction.execute(PUT_EXTENT, params![placed.id, place, size])?;
    Ok(())
}

/// Drops where the body of that number lies, if it is there.
pub(crate) fn drop_extent<S: Alter>(
    transaction: &mut Transaction<'_, S>,
    id: i64,
) -> Result<(), Error> {
    transaction.execute(DROP_EXTENT, params![id])?;
    Ok(())
}

/// Where the body of that number lies, if it is there.
pub(crate) fn extent_of<S: Alter>(
    connection: &mut Connection<S>,
    id: i64,
) -> Result<Option<Extent>, Error> {
    let mut rows = connection.query(EXTENT, params![id])?;
    match rows.next()? {
        Some(row) => Ok(Some(Extent {
            place: unsigned(row.get(0)?),
            size: unsigned(row.get(1)?),
        })),
        None => Ok(None),
    }
}

/// All extents, in whole sectors.
pub(crate) fn used<S: Alter>(
    alloc: Global,
    connection: &mut Connection<S>,
) -> Result<Vec<Extent>, Error> {
    let mut used = Vec::new(alloc);
    let mut rows = connection.query(EXTENTS, &[])?;
    for _ in 0..u64::MAX {
        let Some(row) = rows.next()? else {
            return Ok(used);
        };
        let extent = Extent {
            place: unsigned(row.get(0)?),
            size: unsigned(row.get(1)?),
        };
        used.push(extent.in_sectors())?;
    }
    Ok(used)
}

/// Whether any body has bytes of a file.
pub fn has_extents<S: Alter>(connection: &mut Connection<S>) -> Result<bool, Error> {
    match connection.query(EXTENTS, &[]) {
        Ok(mut rows) => Ok(rows.next()?.is_some()),
        // There is no such table yet.
        Err(Error::SqlInputError(_)) => Ok(false),
        Err(error) => Err(error),
    }
}

// A number below 0 is one that no extent may have.
fn unsigned(number: i64) -> u64 {
    number.cast_unsigned()
}
