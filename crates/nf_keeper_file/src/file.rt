//! The keeper in files.

use nf_base::{BlobId, Changes};
use nf_keeper::{KeepFault, Keeper, NewBlob, RawRows};
use nf_keeper_sql::{Fault, SIZES, SqlKeeper};
use nf_watch::Explains;
use sqlite::{Connection, Error, File, FileStore};
use sqlite_disk::Files;
use std::alloc::{AllocError, Global};

/// What is told once the reserve is given up.
const GIVEN_UP: &str =
    "the disk is full: what was kept in reserve is given up, and no body is kept until there is room again";

/// What is told once the reserve is whole again.
const WHOLE_AGAIN: &str = "the disk has room again, and bodies are kept";

/// The keeper in files. It has a type of its own so that the proofs of what is given one don't take its store's type apart; and it
/// lies on the heap, since it is handed from thread to thread with each turn, and is large.
#[derive(Drop)]
pub struct FileKeeper {
    inner: Box<SqlKeeper<FileStore<File>, File>>,
    /// Whether it was told that the reserve is given up, since it was whole.
    is_told: bool,
}

impl FileKeeper {
    pub fn over(
        alloc: Global,
        connection: Connection<FileStore<File>>,
        files: Files<File>,
    ) -> Result<FileKeeper, AllocError> {
        let inner = Box::new(alloc, SqlKeeper::over(alloc, connection, files, SIZES))?;
        Ok(FileKeeper {
            inner,
            is_told: false,
        })
    }

    /// Copies the log back into the database.
    pub fn close(self) -> Result<(), Error> {
        let FileKeeper { inner, is_told: _ } = self;
        let (connection, files) = Box::into_inner(inner).into_parts();
        drop(files);
        connection.close()
    }

    /// Makes the tables of a store that has none.
    pub(crate) fn make(&mut self) -> Result<(), Fault> {
        self.inner.make()
    }

    /// Takes all rows of a store of before.
    pub(crate) fn take_rows(
        &mut self,
        other: &mut Connection<FileStore<File>>,
    ) -> Result<(), Fault> {
        self.inner.take_rows(other)
    }

    /// Takes bodies of a store of before, until they have so many bytes, and says how many.
    pub(crate) fn take_bodies(
        &mut self,
        other: &mut Connection<FileStore<File>>,
        ids: &[i64],
        enough: u64,
    ) -> Result<usize, Fault> {
        self.inner.take_bodies(other, ids, enough)
    }
}

impl Explains for FileKeeper {
    fn explain(&self, alloc: Global) -> Result<String, AllocError> {
        match self.inner.why() {
            Some(fault) => format!(in alloc; "{fault}"),
            None => Ok(String::new(alloc)),
        }
    }

    fn notice(&mut self) -> Option<&'static str> {
        let is_given_up = self.inner.is_reserve_given_up();
        if is_given_up == self.is_told {
            return None;
        }
        self.is_told = is_given_up;
        Some(if is_given_up { GIVEN_UP } else { WHOLE_AGAIN })
    }
}

impl Keeper for FileKeeper {
    ghost told = { λ keeper. ⟦<SqlKeeper<FileStore<File>, File> as Keeper>⟧.told keeper.inner.value };

    ghost faults = { λ keeper. ⟦<SqlKeeper<FileStore<File>, File> as Keeper>⟧.faults keeper.inner.value };

    ghost calls = { λ keeper. ⟦<SqlKeeper<FileStore<File>, File> as Keeper>⟧.calls keeper.inner.value };

    fn load(&mut self) -> Result<RawRows, KeepFault> {
        self.inner.load()
    }

    fn apply(&mut self, changes: &Changes, blob: Option<&NewBlob<'_>>) -> Result<(), KeepFault> {
        self.inner.apply(changes, blob)
    }

    fn blob(&mut self, id: BlobId) -> Result<Option<Vec<u8>>, KeepFault> {
        self.inner.blob(id)
    }

    fn sweep(&mut self, keep: &[BlobId]) -> Result<(), KeepFault> {
        self.inner.sweep(keep)
    }
}
