//! A keeper in a database in memory, with a disk in memory for its bodies, of which some calls fail.

ghost use Rattle.std.specs.Prelude.{◌≡◌, ◌≤◌, All, OnOk, None};
ghost use Rattle.nf_outside.specs.Causes.{Rose};
ghost use Rattle.nf_keeper.specs.Keeping.{Counts};
ghost use Rattle.nf_told.specs.Told.{FitsChange};

use crate::keeping::{MOST_BLOBS, TestKeeper};
use case_files::{Blob, KeptRow, Start};
use nf_base::{BlobId, Changes};
use nf_keeper::{KeepFault, Keeper, NewBlob, RawRows};
use nf_keeper_sql::{Fault, Sizes, SqlKeeper};
use nf_outside::CallCount;
use sqlite::{Connection, Error, MemStore, params};
use sqlite_disk::{Files, Memory};
use std::alloc::Global;
use std::io;

/// Of the bodies of the cases half have more than six bytes and lie in the file; the others are moved there once they have more than
/// eight together.
const SIZES: Sizes = Sizes {
    small: 6,
    together: 8,
    reserve: 100,
};

const PUT_ROW: &str = "INSERT INTO rows (kind, key, body) VALUES (?1, ?2, ?3)";

/// A keeper over a database. The calls whose numbers are listed fail, as those of a keeper in memory do. It tells nothing.
#[derive(Drop)]
pub struct DatabaseKeeper {
    inner: SqlKeeper<MemStore, Memory>,
    calls: CallCount,
    faults: u64,
    /// Greater than the numbers of all blobs that it was given.
    limit: u64,
}

impl DatabaseKeeper {
    // Makes the next call, which fails where it is listed.
    fn next_call(&mut self) -> Result<(), KeepFault>
        ensures count { Counts self.old.faults self.new.faults result }
    {
        match self.calls.next() {
            Ok(()) => Ok(()),
            Err(_) => self.counted(Err(KeepFault::Failed)),
        }
    }

    // What a call answered, where a failure is counted.
    fn counted<T>(&mut self, answer: Result<T, KeepFault>) -> Result<T, KeepFault>
        ensures same { result ≡ answer }
        ensures count { Counts self.old.faults self.new.faults result }
    {
        if matches!(answer, Err(KeepFault::Failed)) {
            self.fault();
        }
        answer
    }

    fn fault(&mut self)
        ensures rose { Rose self.old.faults self.new.faults }
        ensures grows { self.old.faults ≤ self.new.faults }
    {
        self.faults = self.faults.saturating_add(1);
    }

    // A blob of this number is given.
    fn give(&mut self, id: BlobId)
        ensures { self.new.faults ≡ self.old.faults }
    {
        self.limit = self.limit.max(id.number().saturating_add(1));
    }
}

impl Keeper for DatabaseKeeper {
    ghost told = { λ _. None };

    ghost faults = { λ keeper. keeper.faults };

    ghost calls = { λ _. None };

    fn load(&mut self) -> Result<RawRows, KeepFault> {
        self.next_call()?;
        let raws = self.inner.load();
        self.counted(raws)
    }

    fn apply(&mut self, changes: &Changes, blob: Option<&NewBlob<'_>>) -> Result<(), KeepFault> {
        self.next_call()?;
        if let Some(blob) = blob {
            self.give(blob.id);
        }
        let applied = self.inner.apply(changes, blob);
        self.counted(applied)
    }

    fn blob(&mut self, id: BlobId) -> Result<Option<Vec<u8>>, KeepFault> {
        self.next_call()?;
        let bytes = self.inner.blob(id);
        self.counted(bytes)
    }

    fn sweep(&mut self, keep: &[BlobId]) -> Result<(), KeepFault> {
        self.next_call()?;
        let swept = self.inner.sweep(keep);
        self.counted(swept)
    }
}

impl TestKeeper for DatabaseKeeper {
    fn beginning(alloc: Global, start: &Start) -> io::Result<DatabaseKeeper> {
        let failing = start.failing.as_slice().to_vec(alloc)?;
        let Ok(inner) = holding(alloc, &start.holds.rows) else {
            return Err(io::Error::other("the database refuses a case's rows"));
        };
        let mut keeper = DatabaseKeeper {
            inner,
            calls: CallCount::new(failing),
            faults: 0,
            limit: 0,
        };
        for blob in &start.holds.blobs {
            keeper.put_blob(alloc, blob)?;
        }
        Ok(keeper)
    }

    fn put_blob(&mut self, alloc: Global, blob: &Blob) -> io::Result<()> {
        let id = BlobId::new(blob.number());
        let bytes = blob.bytes();
        self.give(id);
        match self
            .inner
            .apply(&Changes::new(alloc), Some(&NewBlob { id, bytes }))
        {
            Ok(()) => Ok(()),
            Err(_) => Err(io::Error::other("the database refuses a case's blob")),
        }
    }

    fn blob_limit(&self) -> u64 {
        self.limit.min(MOST_BLOBS)
    }
}

// A keeper that has loaded these rows. They are put into its own table as they are, since no change spells those that can't be read.
fn holding(alloc: Global, rows: &[KeptRow]) -> Result<SqlKeeper<MemStore, Memory>, Fault> {
    let connection = Connection::open_in_memory(alloc)?;
    let files = Files {
        log: Memory::new(alloc),
        db: Memory::new(alloc),
    };
    let mut empty = SqlKeeper::over(alloc, connection, files, SIZES);
    empty.make()?;
    let (mut connection, files) = empty.into_parts();
    put_rows(&mut connection, rows)?;
    let mut keeper = SqlKeeper::over(alloc, connection, files, SIZES);
    keeper.make()?;
    Ok(keeper)
}

fn put_rows(connection: &mut Connection<MemStore>, rows: &[KeptRow]) -> Result<(), Error> {
    for row in rows {
        let kind = u32::from(row.kind());
        connection.execute(PUT_ROW, params![kind, row.key(), row.body()])?;
    }
    Ok(())
}
