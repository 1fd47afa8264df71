//! Bodies that are written into a file before a transaction names them.

ghost use Rattle.std.specs.Prelude.{List};
ghost use Rattle.nf_extents.specs.Keeping.{SparesUsed};

use crate::extents::Placed;
use crate::fault::Fault;
use crate::tables::begin;
use crate::{bodies, extents};
use nf_extents::{Extent, Pieces};
use sqlite::{Alter, Connection, Error};
use sqlite_disk::Disk;
use std::alloc::Global;
use std::io;

/// Writes a body, and sees to it that it lasts.
pub(crate) fn write_synced<D: Disk>(pieces: &mut Pieces<D>, bytes: &[u8]) -> io::Result<Extent>
    ensures spares { SparesUsed D.seen D.may_leave pieces.old pieces.new }
{
    let extent = pieces.write(bytes)?;
    pieces.sync()?;
    Ok(extent)
}

/// Writes the bodies of these numbers from the database that has them, until they have so many bytes. They last once they are synced.
pub(crate) fn write_all<S: Alter, D: Disk>(
    alloc: Global,
    connection: &mut Connection<S>,
    pieces: &mut Pieces<D>,
    ids: &[i64],
    enough: u64,
) -> Result<Vec<Placed>, Fault>
    ensures spares { SparesUsed D.seen D.may_leave pieces.old pieces.new }
{
    let mut placed = Vec::new(alloc);
    let mut written = 0u64;
    for id in ids {
        if written >= enough {
            break;
        }
        if let Some(body) = bodies::body_of(connection, *id)? {
            let extent = pieces.write(&body)?;
            written = written.saturating_add(extent.size);
            placed.push(Placed { id: *id, extent })?;
        }
    }
    Ok(placed)
}

/// Names bodies by their extents, and no longer in the database itself.
pub(crate) fn name_all<S: Alter>(
    connection: &mut Connection<S>,
    placed: &[Placed],
) -> Result<(), Error> {
    let mut transaction = begin(connection)?;
    for one in placed {
        extents::put(&mut transaction, *one)?;
        bodies::drop_body(&mut transaction, one.id)?;
    }
    transaction.commit()
}
