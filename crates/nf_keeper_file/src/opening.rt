//! The files of a store, and how they are opened.

use crate::file::FileKeeper;
use crate::moving::Mover;
use nf_keeper_sql::{Fault, SIZES, has_extents, is_old};
use sqlite::{Connection, Error, ErrorCode, File, FileStore};
use sqlite_disk::Files;
use sqlite_std_file::{OpenError, Unknown};
use std::alloc::AllocError;
use std::fs::{canonicalize, metadata};
use std::{fmt, io};

/// Where the files of a store lie.
#[derive(Drop)]
pub struct Paths {
    /// The database.
    pub rows: String,
    /// Its log.
    pub log: String,
    /// The bodies.
    pub pieces: String,
    /// What a store of before is copied into.
    pub(crate) new: String,
}

impl Paths {
    /// Those of the store at that path, or where it leads if it is a link. It is there.
    pub fn of(rt: &HostRuntime, path: &str) -> io::Result<Paths> {
        let real = canonicalize(rt, path)?;
        let real = real.as_str();
        let alloc = rt.alloc();
        Ok(Paths {
            rows: format!(in alloc; "{real}")?,
            log: format!(in alloc; "{real}-wal")?,
            pieces: format!(in alloc; "{real}.pieces")?,
            new: format!(in alloc; "{real}.new")?,
        })
    }
}

/// Why a store can't be opened.
#[derive(Drop)]
pub enum OpenFault {
    /// The database can't be.
    Rows(Error),
    /// The file of the bodies can't be.
    Pieces(OpenError),
    /// The file of the bodies isn't there, and some bodies are to lie in it.
    NoPieces,
    /// A store of before can't be copied.
    Moving(Fault),
    /// Something else that was asked of the files.
    Files(io::Error),
    Memory,
}

impl fmt::Display for OpenFault {
    fn fmt<W: fmt::Write>(&self, f: &mut fmt::Formatter<W>) -> fmt::Result {
        match self {
            OpenFault::Rows(error) => write!(f, "{error}"),
            OpenFault::Pieces(error) => write!(f, "the file of the bodies: {error}"),
            OpenFault::NoPieces => f.write_str("the file of the bodies isn't there"),
            OpenFault::Moving(fault) => write!(
                f,
                "it can't be moved into the form of now: {fault}"
            ),
            OpenFault::Files(error) => write!(f, "{error}"),
            OpenFault::Memory => f.write_str("there is no memory"),
        }
    }
}

impl From<Error> for OpenFault {
    fn from(error: Error) -> OpenFault {
        match error {
            Error::SqliteFailure(ErrorCode::OutOfMemory) => OpenFault::Memory,
            error => OpenFault::Rows(error),
        }
    }
}

impl From<io::Error> for OpenFault {
    fn from(error: io::Error) -> OpenFault {
        OpenFault::Files(error)
    }
}

impl From<AllocError> for OpenFault {
    fn from(_: AllocError) -> OpenFault {
        OpenFault::Memory
    }
}

impl From<Fault> for OpenFault {
    fn from(fault: Fault) -> OpenFault {
        OpenFault::Moving(fault)
    }
}

/// A store that was opened.
#[derive(Drop)]
pub enum Opened {
    Ready(FileKeeper),
    /// One of before, which has to be copied first.
    Old(Mover),
}

/// Opens the store at that path, which is made where it is missing.
pub fn open(rt: &HostRuntime, path: &str) -> Result<Opened, OpenFault> {
    let mut connection = Connection::open(rt, path)?;
    let paths = Paths::of(rt, path)?;
    if is_old(&mut connection, SIZES)? {
        Ok(Opened::Old(Mover::begin(rt, paths, connection)?))
    } else {
        Ok(Opened::Ready(keeper_over(rt, &paths, connection)?))
    }
}

/// The keeper over a database and the files beside it.
pub(crate) fn keeper_over(
    rt: &HostRuntime,
    paths: &Paths,
    connection: Connection<FileStore<File>>,
) -> Result<FileKeeper, OpenFault> {
    let mut connection = connection;
    if metadata(rt, paths.pieces.as_str()).is_err() && has_extents(&mut connection)? {
        return Err(OpenFault::NoPieces);
    }
    let files = open_pieces(rt, paths)?;
    Ok(FileKeeper::over(rt.alloc(), connection, files)?)
}

// The file of the bodies and the one that is kept in reserve, which are made where they are missing.
fn open_pieces(rt: &HostRuntime, paths: &Paths) -> Result<Files<File>, OpenFault> {
    match sqlite_std_file::open(rt, paths.pieces.as_str(), Unknown) {
        Ok(files) => Ok(files),
        Err(OpenError::OutOfMemory) => Err(OpenFault::Memory),
        Err(error) => Err(OpenFault::Pieces(error)),
    }
}
