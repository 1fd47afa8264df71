//! What keeps rows and blobs.

ghost use Rattle.std.specs.Prelude.{◌≡◌, ℕ, All, Option, option_map, IfOk, OnOk, OnErr, option_copied};
ghost use Rattle.nf_told.specs.Told.{AreRisingRaws, FitsChange, Told};
ghost use Rattle.nf_keeper.specs.Keeping.{AreTold, Counts, IsTold, applied, one_more, swept};
ghost use Rattle.nf_keeper.specs.Views.{bytes_in, stored_in};

use crate::raws::RawRows;
use nf_base::{BlobId, Changes};
use std::alloc::AllocError;

/// A blob that a step stores.
#[derive(Clone, Copy)]
pub struct NewBlob<'a> {
    pub id: BlobId,
    pub bytes: &'a [u8],
}

/// Why a call of a keeper gives nothing.
#[derive(Clone, Copy, PartialEq, Eq)]
pub enum KeepFault {
    /// The keeper failed, and counted it.
    Failed,
    /// There is no memory.
    Memory,
}

impl From<AllocError> for KeepFault {
    ghost use Rattle.nf_keeper.specs.declared.keeper.KeepFault.TheVariants.{Memory};

    ghost from_gives = { λ _ fault. fault ≡ Memory };

    fn from(_: AllocError) -> Self {
        KeepFault::Memory
    }
}

/// What keeps the rows of a site and the bytes of its blobs, from one run to the next.
pub trait Keeper {
    /// What it keeps, where it tells it. Whether it does never changes.
    ghost told: { Self → Option Told };

    /// How often it failed.
    ghost faults: { Self → ℕ };

    /// How many calls were made of it, where it counts them.
    ghost calls: { Self → Option ℕ };

    /// The rows, by rising kind and key.
    fn load(&mut self) -> Result<RawRows, KeepFault>
        ensures rows { IfOk result (λ raws. AreTold (told self.old) raws) }
        ensures rising { IfOk result (λ raws. AreRisingRaws raws) }
        ensures same { told self.new ≡ told self.old }
        ensures count { Counts (faults self.old) (faults self.new) result }
        ensures called { calls self.new ≡ one_more (calls self.old) };

    /// Makes the changes, in their order, and keeps the blob. At a fault nothing is changed.
    fn apply(&mut self, changes: &Changes, blob: Option<&NewBlob<'_>>) -> Result<(), KeepFault>
        ensures made { OnOk result (told self.new ≡ option_map (applied changes.now (stored_in (option_copied blob.entry))) (told self.old)) }
        ensures fits { OnOk result (All FitsChange changes.now) }
        ensures same { OnErr result (told self.new ≡ told self.old) }
        ensures count { Counts (faults self.old) (faults self.new) result }
        ensures called { calls self.new ≡ one_more (calls self.old) };

    /// The bytes of a blob, if it has it.
    fn blob(&mut self, id: BlobId) -> Result<Option<Vec<u8>>, KeepFault>
        ensures bytes { IfOk result (λ bytes. IsTold (told self.old) id (bytes_in bytes)) }
        ensures same { told self.new ≡ told self.old }
        ensures count { Counts (faults self.old) (faults self.new) result }
        ensures called { calls self.new ≡ one_more (calls self.old) };

    /// Drops the blobs that aren't among these. At a fault nothing is changed.
    fn sweep(&mut self, keep: &[BlobId]) -> Result<(), KeepFault>
        ensures made { OnOk result (told self.new ≡ option_map (swept keep.now) (told self.old)) }
        ensures same { OnErr result (told self.new ≡ told self.old) }
        ensures count { Counts (faults self.old) (faults self.new) result }
        ensures called { calls self.new ≡ one_more (calls self.old) };
}
