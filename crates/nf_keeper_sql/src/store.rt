//! A database, the file of its bodies, and what is kept in reserve.

ghost use Rattle.std.specs.Prelude.{◌≡◌, All, IfOk, OnOk, List};
ghost use Rattle.sqlite_disk.specs.Disk.{Follows};
ghost use Rattle.nf_extents.specs.Keeping.{Keeps, SparesUsed};
ghost use Rattle.nf_told.specs.Told.{AreRisingRaws, FitsChange};

use crate::bodies::{BODY_IDS, number};
use crate::extents::{EXTENT_IDS, Placed};
use crate::fault::Fault;
use crate::placing::{name_all, write_all, write_synced};
use crate::reserve::Reserve;
use crate::tables::begin;
use crate::{bodies, extents, old, rows, tables};
use nf_base::{BlobId, Changes};
use nf_extents::{Extent, Gaps, Pieces};
use nf_keeper::{NewBlob, RawRows};
use sqlite::{Alter, Connection, Error, ErrorCode};
use sqlite_disk::{Disk, Files};
use std::alloc::Global;
use std::io;

/// How much of the bodies lies where.
#[derive(Clone, Copy)]
pub struct Sizes {
    /// The most bytes of a body that is kept in the database itself, by the one transaction of its rows.
    pub small: usize,
    /// How many bytes these have together at most, about, before they are moved into the file.
    pub together: u64,
    /// How many bytes of the disk are kept in reserve.
    pub reserve: usize,
}

/// What a club's store has: an opening reads at most 8 MiB of bodies.
pub const SIZES: Sizes = Sizes {
    small: 65_536,
    together: 8_388_608,
    reserve: 8_388_608,
};

/// A database, the file of its bodies, and what is kept in reserve.
#[derive(Drop)]
pub(crate) struct Store<S: Alter, D: Disk> {
    connection: Connection<S>,
    pieces: Pieces<D>,
    reserve: Reserve<D>,
    /// How many bytes were put into the database itself since bodies were last moved, or since that was tried.
    small: u64,
    /// What is to stay as it is for the rest of the run, since a transaction that failed may still be found made.
    lost: Vec<Extent>,
    sizes: Sizes,
    alloc: Global,
}

impl<S: Alter, D: Disk> Store<S, D> {
    /// Over what it asks nothing yet. Until its rows are loaded no byte of the file is free.
    pub(crate) fn over(
        alloc: Global,
        connection: Connection<S>,
        files: Files<D>,
        sizes: Sizes,
    ) -> Store<S, D> {
        let Files { log, db } = files;
        Store {
            connection,
            pieces: Pieces::over(db, Gaps::none(alloc)),
            reserve: Reserve::over(log, sizes.reserve),
            small: 0,
            lost: Vec::new(alloc),
            sizes,
            alloc,
        }
    }

    pub(crate) fn into_parts(self) -> (Connection<S>, Files<D>) {
        let Store {
            connection,
            pieces,
            reserve,
            small: _,
            lost: _,
            sizes: _,
            alloc: _,
        } = self;
        let files = Files {
            log: reserve.into_disk(),
            db: pieces.into_disk(),
        };
        (connection, files)
    }

    /// Whether the reserve has been given up.
    pub(crate) fn is_reserve_given_up(&self) -> bool {
        self.reserve.is_given_up()
    }

    /// Makes the tables that are missing, finds what is free, and gives the rows.
    pub(crate) fn load(&mut self) -> Result<RawRows, Fault>
        ensures rising { IfOk result (λ raws. AreRisingRaws raws) }
        ensures kept { Keeps self.new.pieces.room (D.seen self.old.pieces.disk) (D.seen self.new.pieces.disk) }
        ensures crash { Follows (Keeps self.new.pieces.room) (D.may_leave self.old.pieces.disk) (D.may_leave self.new.pieces.disk) }
    {
        tables::make(&mut self.connection)?;
        self.small = bodies::total(&mut self.connection)?;
        let raws = rows::rows_of(self.alloc, &mut self.connection)?;
        self.free_the_rest()?;
        // Where the disk is full, bodies wait for it.
        let _ = self.reserve.fill(self.alloc);
        Ok(raws)
    }

    /// Makes the changes and keeps the blob, by one transaction.
    pub(crate) fn apply(
        &mut self,
        changes: &Changes,
        blob: Option<&NewBlob<'_>>,
    ) -> Result<(), Fault>
        ensures fits { OnOk result (All FitsChange changes.now) }
        ensures spares { SparesUsed D.seen D.may_leave self.old.pieces self.new.pieces }
    {
        self.may_be_used()?;
        match blob {
            Some(blob) => self.apply_with(changes, blob),
            None => self.apply_rows(changes),
        }
    }

    /// The bytes of a blob, if it is there.
    pub(crate) fn blob(&mut self, id: BlobId) -> Result<Option<Vec<u8>>, Fault>
        ensures spares { SparesUsed D.seen D.may_leave self.old.pieces self.new.pieces }
    {
        self.may_be_used()?;
        let id = number(id);
        if let Some(body) = bodies::body_of(&mut self.connection, id)? {
            return Ok(Some(body));
        }
        match extents::extent_of(&mut self.connection, id)? {
            Some(extent) => Ok(Some(self.pieces.read(self.alloc, extent)?)),
            None => Ok(None),
        }
    }

    // Nothing is asked of a file that a sync of it has failed.
    fn may_be_used(&self) -> Result<(), Fault> {
        if self.pieces.may_be_used() {
            Ok(())
        } else {
            Err(Fault::Pieces(io::Error::other("a sync of it has failed")))
        }
    }

    // What stores no body may have what is kept in reserve.
    fn apply_rows(&mut self, changes: &Changes) -> Result<(), Fault>
        ensures fits { OnOk result (All FitsChange changes.now) }
        ensures pieces { self.new.pieces ≡ self.old.pieces }
    {
        match commit_rows(self.alloc, &mut self.connection, changes) {
            Err(fault) if fault.is_no_room() && self.reserve.give_up() => {
                commit_rows(self.alloc, &mut self.connection, changes)
            }
            done => done,
        }
    }

    // A body is kept where the reserve is whole.
    fn apply_with(&mut self, changes: &Changes, blob: &NewBlob<'_>) -> Result<(), Fault>
        ensures fits { OnOk result (All FitsChange changes.now) }
        ensures spares { SparesUsed D.seen D.may_leave self.old.pieces self.new.pieces }
    {
        self.reserve.fill_in_turn(self.alloc)?;
        if blob.bytes.len() > self.sizes.small {
            return self.apply_large(changes, blob);
        }
        self.apply_small(changes, blob)?;
        if self.small > self.sizes.together {
            self.settle();
        }
        Ok(())
    }

    fn apply_small(&mut self, changes: &Changes, blob: &NewBlob<'_>) -> Result<(), Fault>
        ensures fits { OnOk result (All FitsChange changes.now) }
        ensures pieces { self.new.pieces ≡ self.old.pieces }
    {
        let id = number(blob.id);
        let mut transaction = begin(&mut self.connection)?;
        rows::make_all(self.alloc, &mut transaction, changes.as_slice())?;
        extents::drop_extent(&mut transaction, id)?;
        bodies::put(&mut transaction, id, blob.bytes)?;
        transaction.commit()?;
        self.small = self.small.saturating_add(blob.bytes.len() as u64);
        Ok(())
    }

    fn apply_large(&mut self, changes: &Changes, blob: &NewBlob<'_>) -> Result<(), Fault>
        ensures fits { OnOk result (All FitsChange changes.now) }
        ensures spares { SparesUsed D.seen D.may_leave self.old.pieces self.new.pieces }
    {
        let extent = write_synced(&mut self.pieces, blob.bytes)?;
        // Should the transaction fail, it may still be found made at the next opening.
        self.lost.push(extent)?;
        let placed = Placed {
            id: number(blob.id),
            extent,
        };
        commit_large(self.alloc, &mut self.connection, changes, placed)?;
        self.lost.pop();
        Ok(())
    }

    // Moves bodies from the database into the file. Where that fails it is tried again once as many bytes have come.
    fn settle(&mut self)
        ensures spares { SparesUsed D.seen D.may_leave self.old.pieces self.new.pieces }
    {
        self.small = 0;
        if let Ok(ids) = bodies::numbers(self.alloc, &mut self.connection, BODY_IDS) {
            let _ = self.move_some(&ids);
        }
    }

    // Moves bodies of these numbers, until they have as many bytes as lie in the database.
    fn move_some(&mut self, ids: &[i64]) -> Result<(), Fault>
        ensures spares { SparesUsed D.seen D.may_leave self.old.pieces self.new.pieces }
    {
        let placed = write_all(
            self.alloc,
            &mut self.connection,
            &mut self.pieces,
            ids,
            self.sizes.together,
        )?;
        self.name(&placed)
    }

    // Names bodies that were written, once they last.
    fn name(&mut self, placed: &[Placed]) -> Result<(), Fault>
        ensures spares { SparesUsed D.seen D.may_leave self.old.pieces self.new.pieces }
    {
        self.pieces.sync()?;
        let before = self.lost.len();
        lose_all(&mut self.lost, placed)?;
        name_all(&mut self.connection, placed)?;
        self.lost.truncate(before);
        Ok(())
    }

    /// Makes free what neither a row names nor is to stay, and cuts the file to its end.
    fn free_the_rest(&mut self) -> Result<(), Fault>
        ensures kept { Keeps self.new.pieces.room (D.seen self.old.pieces.disk) (D.seen self.new.pieces.disk) }
        ensures crash { Follows (Keeps self.new.pieces.room) (D.may_leave self.old.pieces.disk) (D.may_leave self.new.pieces.disk) }
    {
        let mut used = extents::used(self.alloc, &mut self.connection)?;
        for lost in &self.lost {
            used.push(lost.in_sectors())?;
        }
        used.sort_unstable_by(|a, b| a.place.cmp(&b.place));
        let Some(gaps) = Gaps::around(self.alloc, &used)? else {
            return Err(Fault::Rows(Error::SqliteFailure(ErrorCode::DatabaseCorrupt)));
        };
        self.pieces.free(gaps)?;
        Ok(())
    }

    /// Drops the blobs that aren't among these. Once that lasts, their place is free.
    pub(crate) fn sweep(&mut self, keep: &[BlobId]) -> Result<(), Fault>
        ensures kept { Keeps self.new.pieces.room (D.seen self.old.pieces.disk) (D.seen self.new.pieces.disk) }
        ensures crash { Follows (Keeps self.new.pieces.room) (D.may_leave self.old.pieces.disk) (D.may_leave self.new.pieces.disk) }
    {
        self.may_be_used()?;
        match drop_others(self.alloc, &mut self.connection, keep) {
            Err(fault) if fault.is_no_room() && self.reserve.give_up() => {
                drop_others(self.alloc, &mut self.connection, keep)?;
            }
            done => done?,
        }
        // What fails here leaves the place as it was, and the rows are dropped all the same.
        let _ = self.free_the_rest();
        Ok(())
    }

    /// Takes all rows of another database.
    pub(crate) fn take_rows(&mut self, other: &mut Connection<S>) -> Result<(), Fault>
        ensures pieces { self.new.pieces ≡ self.old.pieces }
    {
        old::copy_rows(self.alloc, other, &mut self.connection)
    }

    /// Takes bodies of another database, until they have so many bytes, and says how many.
    pub(crate) fn take(
        &mut self,
        other: &mut Connection<S>,
        ids: &[i64],
        enough: u64,
    ) -> Result<usize, Fault>
        ensures spares { SparesUsed D.seen D.may_leave self.old.pieces self.new.pieces }
    {
        let placed = write_all(self.alloc, other, &mut self.pieces, ids, enough)?;
        self.name(&placed)?;
        Ok(placed.len())
    }
}

fn lose_all(lost: &mut Vec<Extent>, placed: &[Placed]) -> Result<(), Fault> {
    for one in placed {
        lost.push(one.extent)?;
    }
    Ok(())
}

fn commit_rows<S: Alter>(
    alloc: Global,
    connection: &mut Connection<S>,
    changes: &Changes,
) -> Result<(), Fault>
    ensures { OnOk result (All FitsChange changes.now) }
{
    let mut transaction = begin(connection)?;
    rows::make_all(alloc, &mut transaction, changes.as_slice())?;
    transaction.commit()?;
    Ok(())
}

fn commit_large<S: Alter>(
    alloc: Global,
    connection: &mut Connection<S>,
    changes: &Changes,
    placed: Placed,
) -> Result<(), Fault>
    ensures { OnOk result (All FitsChange changes.now) }
{
    let mut transaction = begin(connection)?;
    rows::make_all(alloc, &mut transaction, changes.as_slice())?;
    bodies::drop_body(&mut transaction, placed.id)?;
    extents::put(&mut transaction, placed)?;
    transaction.commit()?;
    Ok(())
}

// Drops what isn't among these, wherever it lies.
fn drop_others<S: Alter>(
    alloc: Global,
    connection: &mut Connection<S>,
    keep: &[BlobId],
) -> Result<(), Fault> {
    let mut kept = keep.to_vec(alloc)?;
    kept.sort_unstable();
    let small = bodies::numbers(alloc, connection, BODY_IDS)?;
    let large = bodies::numbers(alloc, connection, EXTENT_IDS)?;
    let mut transaction = begin(connection)?;
    for id in &small {
        if !is_among(&kept, *id) {
            bodies::drop_body(&mut transaction, *id)?;
        }
    }
    for id in &large {
        if !is_among(&kept, *id) {
            extents::drop_extent(&mut transaction, *id)?;
        }
    }
    transaction.commit()?;
    Ok(())
}

fn is_among(kept: &[BlobId], id: i64) -> bool {
    kept.binary_search(&BlobId::new(id.cast_unsigned())).is_ok()
}
