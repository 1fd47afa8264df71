//! The keeper itself.

ghost use Rattle.std.specs.Prelude.{◌≡◌, List, All, IfOk, OnOk, None};
ghost use Rattle.sqlite_disk.specs.Disk.{Follows};
ghost use Rattle.nf_extents.specs.Keeping.{Keeps, SparesUsed};
ghost use Rattle.nf_told.specs.Told.{AreRisingRaws, FitsChange};
ghost use Rattle.nf_keeper.specs.Keeping.{Counts};
ghost use Rattle.nf_keeper_sql.specs.Answering.{answered};

use crate::fault::Fault;
use crate::old;
use crate::store::{Sizes, Store};
use nf_base::{BlobId, Changes};
use nf_keeper::{KeepFault, Keeper, NewBlob, RawRows};
use sqlite::{Alter, Connection};
use sqlite_disk::{Disk, Files};
use std::alloc::Global;

/// Rows in a database, and the bytes of blobs in a file beside it; small ones lie in the database too until they are moved. It tells
/// nothing of them.
///
/// `load` makes the tables that are missing. Each change is one transaction, and what it names of the file was written and synced before.
/// Whatever the database or the file refuses is a failure that is counted, but for want of memory. The connection keeps the plan of each
/// statement once it has compiled it.
#[derive(Drop)]
pub struct SqlKeeper<S: Alter, D: Disk> {
    store: Store<S, D>,
    faults: u64,
    /// Why the last call failed, of those that did.
    why: Option<Fault>,
}

impl<S: Alter, D: Disk> SqlKeeper<S, D> {
    /// A keeper over a connection and two files, `db` for bodies and `log` for what is kept in reserve. It asks them nothing yet. Where a
    /// transaction is open, each change fails.
    pub fn over(alloc: Global, connection: Connection<S>, files: Files<D>, sizes: Sizes) -> Self
        ensures { result.faults ≡ 0 }
    {
        SqlKeeper {
            store: Store::over(alloc, connection, files, sizes),
            faults: 0,
            why: None,
        }
    }

    /// The connection, to be closed, and the files.
    pub fn into_parts(self) -> (Connection<S>, Files<D>) {
        self.store.into_parts()
    }

    /// How often a call failed.
    pub fn faults(&self) -> u64
        ensures { result ≡ self.now.faults }
    {
        self.faults
    }

    /// Why the last call failed, of those that did.
    pub fn why(&self) -> Option<&Fault> {
        self.why.as_ref()
    }

    /// Whether what is kept in reserve of the disk has been given up, so that bodies wait for room.
    pub fn is_reserve_given_up(&self) -> bool {
        self.store.is_reserve_given_up()
    }

    /// Makes the tables of a store that has none.
    pub fn make(&mut self) -> Result<(), Fault>
        ensures kept { Keeps self.new.store.pieces.room (D.seen self.old.store.pieces.disk) (D.seen self.new.store.pieces.disk) }
        ensures crash { Follows (Keeps self.new.store.pieces.room) (D.may_leave self.old.store.pieces.disk) (D.may_leave self.new.store.pieces.disk) }
    {
        self.store.load()?;
        Ok(())
    }

    /// Takes all rows of a store of before. It has none itself yet.
    pub fn take_rows(&mut self, other: &mut Connection<S>) -> Result<(), Fault>
        ensures pieces { self.new.store.pieces ≡ self.old.store.pieces }
    {
        self.store.take_rows(other)
    }

    /// Takes bodies of these numbers from a store of before, until they have so many bytes, and says how many.
    pub fn take_bodies(
        &mut self,
        other: &mut Connection<S>,
        ids: &[i64],
        enough: u64,
    ) -> Result<usize, Fault>
        ensures spares { SparesUsed D.seen D.may_leave self.old.store.pieces self.new.store.pieces }
    {
        self.store.take(other, ids, enough)
    }

    /// What a call answers by what the store answered it, where a failure is counted.
    fn counted<T>(&mut self, answer: Result<T, Fault>) -> Result<T, KeepFault>
        ensures value { result ≡ answered answer }
        ensures count { Counts self.old.faults self.new.faults result }
        ensures store { self.new.store ≡ self.old.store }
    {
        match answer {
            Ok(value) => Ok(value),
            Err(fault) => {
                let kept = fault.kept();
                if kept == KeepFault::Failed {
                    self.faults = self.faults.saturating_add(1);
                    self.why = Some(fault);
                }
                Err(kept)
            }
        }
    }
}

impl<S: Alter, D: Disk> Keeper for SqlKeeper<S, D> {
    ghost told = { λ _. None };

    ghost faults = { λ keeper. keeper.faults };

    ghost calls = { λ _. None };

    fn load(&mut self) -> Result<RawRows, KeepFault>
        ensures rising { IfOk result (λ raws. AreRisingRaws raws) }
        ensures count { Counts self.old.faults self.new.faults result }
        // Of the file nothing changes but what is free from then on, also where a crash cuts it.
        ensures kept { Keeps self.new.store.pieces.room (D.seen self.old.store.pieces.disk) (D.seen self.new.store.pieces.disk) }
        ensures crash { Follows (Keeps self.new.store.pieces.room) (D.may_leave self.old.store.pieces.disk) (D.may_leave self.new.store.pieces.disk) }
    {
        let loaded = self.store.load();
        self.counted(loaded)
    }

    fn apply(&mut self, changes: &Changes, blob: Option<&NewBlob<'_>>) -> Result<(), KeepFault>
        ensures fits { OnOk result (All FitsChange changes.now) }
        ensures count { Counts self.old.faults self.new.faults result }
        // No body that isn't free is touched, also where it fails, or a crash cuts it.
        ensures spares { SparesUsed D.seen D.may_leave self.old.store.pieces self.new.store.pieces }
    {
        let applied = self.store.apply(changes, blob);
        self.counted(applied)
    }

    fn blob(&mut self, id: BlobId) -> Result<Option<Vec<u8>>, KeepFault>
        ensures count { Counts self.old.faults self.new.faults result }
        ensures spares { SparesUsed D.seen D.may_leave self.old.store.pieces self.new.store.pieces }
    {
        let bytes = self.store.blob(id);
        self.counted(bytes)
    }

    fn sweep(&mut self, keep: &[BlobId]) -> Result<(), KeepFault>
        ensures count { Counts self.old.faults self.new.faults result }
        ensures kept { Keeps self.new.store.pieces.room (D.seen self.old.store.pieces.disk) (D.seen self.new.store.pieces.disk) }
        ensures crash { Follows (Keeps self.new.store.pieces.room) (D.may_leave self.old.store.pieces.disk) (D.may_leave self.new.store.pieces.disk) }
    {
        let swept = self.store.sweep(keep);
        self.counted(swept)
    }
}
