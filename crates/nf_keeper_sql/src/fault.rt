//! Why a call gives nothing.

ghost use Rattle.std.specs.Prelude.{◌≡◌};
ghost use Rattle.nf_keeper_sql.specs.Answering.{fault_of};

use nf_keeper::KeepFault;
use sqlite::{Error, ErrorCode};
use std::alloc::{AllocError, AllocFailed};
use std::{fmt, io};

/// What a database or a file refused.
#[derive(Drop)]
pub enum Fault {
    /// The database.
    Rows(Error),
    /// The file of the bodies, or the one that is kept in reserve.
    Pieces(io::Error),
    /// The store has a form that this keeper doesn't know.
    Form,
}

impl Fault {
    /// What a keeper answers: all but want of memory is a failure.
    pub(crate) fn kept(&self) -> KeepFault
        ensures { result ≡ fault_of self.now }
    {
        match self {
            Fault::Rows(Error::SqliteFailure(ErrorCode::OutOfMemory)) => KeepFault::Memory,
            Fault::Pieces(error) if error.kind() == io::ErrorKind::OutOfMemory => KeepFault::Memory,
            _ => KeepFault::Failed,
        }
    }

    /// Whether it is that the disk is full.
    pub(crate) fn is_no_room(&self) -> bool {
        match self {
            Fault::Rows(error) => *error == Error::SqliteFailure(ErrorCode::DiskFull),
            Fault::Pieces(error) => matches!(
                error.kind(),
                io::ErrorKind::StorageFull | io::ErrorKind::QuotaExceeded
            ),
            Fault::Form => false,
        }
    }
}

impl fmt::Display for Fault {
    fn fmt<W: fmt::Write>(&self, f: &mut fmt::Formatter<W>) -> fmt::Result {
        match self {
            Fault::Rows(error) => write!(f, "{error}"),
            Fault::Pieces(error) => write!(f, "the file of the bodies: {error}"),
            Fault::Form => f.write_str("it has a form that this program doesn't know"),
        }
    }
}

impl From<Error> for Fault {
    ghost use Rattle.nf_keeper_sql.specs.declared.fault.Fault.TheVariants.{Rows};

    ghost from_gives = { λ error fault. fault ≡ Rows error };

    fn from(error: Error) -> Fault {
        Fault::Rows(error)
    }
}

impl From<io::Error> for Fault {
    ghost use Rattle.nf_keeper_sql.specs.declared.fault.Fault.TheVariants.{Pieces};

    ghost from_gives = { λ error fault. fault ≡ Pieces error };

    fn from(error: io::Error) -> Fault {
        Fault::Pieces(error)
    }
}

impl From<AllocError> for Fault {
    ghost use Rattle.nf_keeper_sql.specs.declared.fault.Fault.TheVariants.{Rows};
    ghost use Rattle.sqlite.specs.declared.error.Error.TheVariants.{SqliteFailure};
    ghost use Rattle.sqlite.specs.declared.error.ErrorCode.TheVariants.{OutOfMemory};

    ghost from_gives = { λ _ fault. fault ≡ Rows (SqliteFailure OutOfMemory) };

    fn from(_: AllocError) -> Fault {
        Fault::Rows(Error::SqliteFailure(ErrorCode::OutOfMemory))
    }
}

impl<T: Drop> From<AllocFailed<T>> for Fault {
    ghost use Rattle.nf_keeper_sql.specs.declared.fault.Fault.TheVariants.{Rows};
    ghost use Rattle.sqlite.specs.declared.error.Error.TheVariants.{SqliteFailure};
    ghost use Rattle.sqlite.specs.declared.error.ErrorCode.TheVariants.{OutOfMemory};

    ghost from_gives = { λ _ fault. fault ≡ Rows (SqliteFailure OutOfMemory) };

    fn from(_: AllocFailed<T>) -> Fault {
        Fault::Rows(Error::SqliteFailure(ErrorCode::OutOfMemory))
    }
}
