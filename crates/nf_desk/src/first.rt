//! What a desk is opened with, and why it isn't.

ghost use Rattle.std.specs.Prelude.{◌≡◌};

use nf_base::{BlobId, RowList};
use nf_keeper::KeepFault;
use nf_opening::{Broken, SiteFault};
use nf_rows::RowFault;
use std::alloc::AllocError;

/// The number and the bytes of a blob.
#[derive(Drop)]
pub struct FirstBlob {
    pub id: BlobId,
    pub bytes: Vec<u8>,
}

/// What a keeper that has no rows begins with.
#[derive(Drop)]
pub struct First {
    pub rows: RowList,
    pub blob: Option<FirstBlob>,
}

/// What a desk is opened over.
#[derive(Drop)]
pub enum Opening {
    /// The first rows. The keeper has none.
    Fresh(First),
    /// The keeper's rows, or the first ones where it has none.
    Either(First),
    /// The keeper's rows. It has some.
    Kept,
}

/// Why a desk isn't opened.
#[derive(Clone, Copy, PartialEq, Eq)]
pub enum OpenFault {
    /// The keeper failed, and counted it.
    Failed,
    /// The keeper's row of that index, from 0 on, can't be read. Those before it can.
    Unread { index: usize, fault: RowFault },
    /// The keeper's rows break a rule.
    Broken(Broken),
    /// There is no memory.
    Memory,
    /// The keeper has rows, and was to have none.
    Found,
    /// The keeper has no rows, and was to have some.
    Missing,
}

impl From<KeepFault> for OpenFault {
    ghost use Rattle.nf_desk.specs.Faults.{of_keeping};

    ghost from_gives = { λ from fault. fault ≡ of_keeping from };

    fn from(fault: KeepFault) -> Self {
        match fault {
            KeepFault::Failed => OpenFault::Failed,
            KeepFault::Memory => OpenFault::Memory,
        }
    }
}

impl From<SiteFault> for OpenFault {
    ghost use Rattle.nf_desk.specs.Faults.{of_site};

    ghost from_gives = { λ from fault. fault ≡ of_site from };

    fn from(fault: SiteFault) -> Self {
        match fault {
            SiteFault::Broken(broken) => OpenFault::Broken(broken),
            SiteFault::Memory => OpenFault::Memory,
        }
    }
}

impl From<AllocError> for OpenFault {
    ghost use Rattle.nf_desk.specs.declared.first.OpenFault.TheVariants.{Memory};

    ghost from_gives = { λ _ fault. fault ≡ Memory };

    fn from(_: AllocError) -> Self {
        OpenFault::Memory
    }
}

/// Why a desk isn't opened, with its keeper.
#[derive(Drop)]
pub struct Unopened<K> {
    pub fault: OpenFault,
    pub keeper: K,
}
