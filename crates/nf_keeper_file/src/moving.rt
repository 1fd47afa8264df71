//! Stores of before, whose bodies all lie in the database: they are copied into a new one, which takes their place once it is whole.

use crate::file::FileKeeper;
use crate::opening::{OpenFault, Paths, keeper_over};
use nf_keeper_sql::body_ids;
use sqlite::{Connection, Error, ErrorCode, File, FileStore};
use std::alloc::{AllocError, Global};
use std::fs::{self, metadata, remove_file, rename};
use std::io;
use std::path::Path;

/// How many bytes of bodies are copied at once.
const AT_ONCE: u64 = 67_108_864;

/// A store of before that is being copied. It stays whole, and locked, until the new one takes its place, in one step.
#[derive(Drop)]
pub struct Mover {
    old: Box<Connection<FileStore<File>>>,
    new: FileKeeper,
    ids: Vec<i64>,
    moved: usize,
    paths: Paths,
}

impl Mover {
    /// Begins anew, whatever an earlier one left, and copies the rows.
    pub(crate) fn begin(
        rt: &HostRuntime,
        paths: Paths,
        old: Connection<FileStore<File>>,
    ) -> Result<Mover, OpenFault> {
        let mut old = boxed(rt.alloc(), old)?;
        let ids = body_ids(rt.alloc(), &mut old)?;
        remove_new(rt, &paths)?;
        let connection = Connection::open(rt, paths.new.as_str())?;
        let mut new = keeper_over(rt, &paths, connection)?;
        new.make()?;
        new.take_rows(&mut old)?;
        Ok(Mover {
            old,
            new,
            ids,
            moved: 0,
            paths,
        })
    }

    /// How many bodies it has.
    pub fn bodies(&self) -> usize {
        self.ids.len()
    }

    /// How many of them are copied.
    pub fn moved(&self) -> usize {
        self.moved
    }

    /// Copies some more bodies, and says whether there are any left.
    pub fn step(&mut self) -> Result<bool, OpenFault> {
        if self.moved >= self.ids.len() {
            return Ok(false);
        }
        let count = self
            .new
            .take_bodies(&mut self.old, &self.ids[self.moved..], AT_ONCE)?;
        if count == 0 {
            return Err(OpenFault::Rows(Error::SqliteFailure(ErrorCode::DatabaseCorrupt)));
        }
        self.moved = self.moved.saturating_add(count);
        Ok(true)
    }

    /// Puts the new store in the place of the old one, and opens it.
    pub fn finish(self, rt: &HostRuntime) -> Result<FileKeeper, OpenFault> {
        let Mover {
            old,
            new,
            ids: _,
            moved: _,
            paths,
        } = self;
        new.close()?;
        take_place(rt, old, &paths)?;
        remove_new(rt, &paths)?;
        let connection = Connection::open(rt, paths.rows.as_str())?;
        keeper_over(rt, &paths, connection)
    }
}

// Renames the new database over the old one, which is locked until that is done.
fn take_place(
    rt: &HostRuntime,
    old: Box<Connection<FileStore<File>>>,
    paths: &Paths,
) -> Result<(), OpenFault> {
    // The log is empty from here on, so that it says nothing of the database that comes to lie beside it.
    let files = match Box::into_inner(old).close_files() {
        Ok(files) => files,
        Err((error, store)) => {
            drop(store.close());
            return Err(error.into());
        }
    };
    rename(rt, paths.new.as_str(), paths.rows.as_str())?;
    sync_folder(rt, paths.rows.as_str())?;
    drop(files);
    Ok(())
}

fn boxed(
    alloc: Global,
    connection: Connection<FileStore<File>>,
) -> Result<Box<Connection<FileStore<File>>>, AllocError> {
    Ok(Box::new(alloc, connection)?)
}

// Removes what an earlier copy left.
fn remove_new(rt: &HostRuntime, paths: &Paths) -> Result<(), OpenFault> {
    let new = paths.new.as_str();
    remove(rt, new)?;
    remove(rt, format!(in rt.alloc(); "{new}-wal")?.as_str())
}

fn remove(rt: &HostRuntime, path: &str) -> Result<(), OpenFault> {
    if metadata(rt, path).is_ok() {
        remove_file(rt, path)?;
    }
    Ok(())
}

// What was renamed in it lasts from then on.
fn sync_folder(rt: &HostRuntime, path: &str) -> io::Result<()> {
    match Path::new(path).parent() {
        Some(folder) => fs::File::open(rt, folder)?.sync_all(),
        None => Ok(()),
    }
}
