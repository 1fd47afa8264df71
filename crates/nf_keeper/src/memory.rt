//! A keeper in memory, which tells all that it keeps.

ghost use Rattle.std.specs.Prelude.{◌≡◌, [], All, IfOk, OnOk, OnErr, Some, option_map, option_copied};
ghost use Rattle.nf_defs.specs.Blobs.{put_blob};
ghost use Rattle.nf_outside.specs.Calls.{IsNextCall, first_calls};
ghost use Rattle.nf_told.specs.Told.{AreRisingRaws, FitsChange};
ghost use Rattle.nf_keeper.specs.Keeping.{AreTold, Counts, IsTold, applied, one_more, swept};
ghost use Rattle.nf_keeper.specs.Memory.{FailsAsListed, put_raws};
ghost use Rattle.nf_keeper.specs.Views.{bytes_in, stored_in};

use crate::blobs::{Blob, BlobList, bytes_of, copy_of, drop_others, keep, put_bytes};
use crate::keeper::{KeepFault, Keeper, NewBlob};
use crate::raws::RawRows;
use crate::spelled::{KeptRow, copy_rows, make_all, rising_of, spell_all};
use nf_base::{BlobId, Changes};
use nf_outside::CallCount;
use std::alloc::{AllocError, Global};
use std::marker::Model;

/// Rows by rising kind and key and blobs by rising number, which it tells.
///
/// The calls whose numbers are listed fail: `load`, `apply`, `blob` and `sweep` are counted together, and the first
/// call has number 1.
#[derive(Drop)]
pub struct MemKeeper {
    rows: Vec<KeptRow>,
    blobs: Vec<Blob>,
    calls: CallCount,
    alloc: Global,
}

impl Model for MemKeeper {
    ghost use Rattle.nf_defs.specs.Prelude.{blob_key, IsRising};
    ghost use Rattle.nf_told.specs.Told.{AreRisingRaws};
    ghost use Rattle.nf_keeper.specs.Memory.{Memory};

    ghost Value = { Memory };

    ghost view = { λ keeper. record {
      told = record { rows = keeper.rows.items; blobs = keeper.blobs.items };
      calls = keeper.calls;
    } };

    ghost invariant = { λ keeper. AreRisingRaws keeper.rows.items × IsRising blob_key keeper.blobs.items };
}

impl MemKeeper {
    /// A keeper with nothing in it.
    pub fn new(alloc: Global, failing: &[u64]) -> Result<MemKeeper, AllocError>
        ensures { IfOk result (λ keeper. keeper ≡ record { told = record { rows = []; blobs = [] }; calls = first_calls failing.now }) }
    {
        MemKeeper::holding(alloc, RawRows::new(alloc), BlobList::new(alloc), failing)
    }

    /// A keeper that holds these rows and blobs already. Of rows with one key it has the last.
    pub fn holding(
        alloc: Global,
        rows: RawRows,
        blobs: BlobList,
        failing: &[u64],
    ) -> Result<MemKeeper, AllocError>
        ensures { IfOk result (λ keeper. keeper ≡ record { told = record { rows = put_raws [] rows; blobs = blobs }; calls = first_calls failing.now }) }
    {
        let failing = failing.to_vec(alloc)?;
        let rows = rising_of(alloc, rows.into_rows())?;
        Ok(MemKeeper {
            rows,
            blobs: blobs.into_blobs(),
            calls: CallCount::new(failing),
            alloc,
        })
    }

    /// Puts other bytes under a number. This counts as no call. For want of memory nothing is changed.
    pub fn set_blob(&mut self, id: BlobId, bytes: Vec<u8>) -> Result<(), AllocError>
        ensures ok { OnOk result (self.new ≡ record self.old { told = record self.old.told { blobs = put_blob self.old.told.blobs id bytes.items } }) }
        ensures err { OnErr result (self.new ≡ self.old) }
    {
        put_bytes(&mut self.blobs, id, bytes)
    }

    /// How often a call failed.
    pub fn faults(&self) -> u64
        ensures { result ≡ self.now.calls.faults }
    {
        self.calls.faults()
    }
}

impl Keeper for MemKeeper {
    ghost told = { λ keeper. Some keeper.told };

    ghost faults = { λ keeper. keeper.calls.faults };

    ghost calls = { λ keeper. Some keeper.calls.made };

    /// Answers `Failed` where it is listed as a call that fails, and only there.
    fn load(&mut self) -> Result<RawRows, KeepFault>
        ensures rows { IfOk result (λ raws. AreTold (Some self.old.told) raws) }
        ensures rising { IfOk result (λ raws. AreRisingRaws raws) }
        ensures same { self.new.told ≡ self.old.told }
        ensures count { Counts self.old.calls.faults self.new.calls.faults result }
        ensures called { Some self.new.calls.made ≡ one_more (Some self.old.calls.made) }
        ensures next { IsNextCall self.old.calls self.new.calls }
        ensures fails { FailsAsListed self.new.calls result }
    {
        if self.calls.next().is_err() {
            return Err(KeepFault::Failed);
        }
        Ok(copy_rows(self.alloc, &self.rows)?)
    }

    /// Answers `Failed` where it is listed as a call that fails, and only there.
    fn apply(&mut self, changes: &Changes, blob: Option<&NewBlob<'_>>) -> Result<(), KeepFault>
        ensures made { OnOk result (self.new.told ≡ applied changes.now (stored_in (option_copied blob.entry)) self.old.told) }
        ensures fits { OnOk result (All FitsChange changes.now) }
        ensures same { OnErr result (self.new.told ≡ self.old.told) }
        ensures count { Counts self.old.calls.faults self.new.calls.faults result }
        ensures called { Some self.new.calls.made ≡ one_more (Some self.old.calls.made) }
        ensures next { IsNextCall self.old.calls self.new.calls }
        ensures fails { FailsAsListed self.new.calls result }
    {
        if self.calls.next().is_err() {
            return Err(KeepFault::Failed);
        }
        let spelled = spell_all(self.alloc, changes.as_slice())?;
        let stored = copy_of(self.alloc, blob)?;
        self.rows.reserve(spelled.len())?;
        self.blobs.reserve(1)?;
        make_all(&mut self.rows, spelled);
        keep(&mut self.blobs, stored);
        Ok(())
    }

    /// Answers `Failed` where it is listed as a call that fails, and only there.
    fn blob(&mut self, id: BlobId) -> Result<Option<Vec<u8>>, KeepFault>
        ensures bytes { IfOk result (λ bytes. IsTold (Some self.old.told) id (bytes_in bytes)) }
        ensures same { self.new.told ≡ self.old.told }
        ensures count { Counts self.old.calls.faults self.new.calls.faults result }
        ensures called { Some self.new.calls.made ≡ one_more (Some self.old.calls.made) }
        ensures next { IsNextCall self.old.calls self.new.calls }
        ensures fails { FailsAsListed self.new.calls result }
    {
        if self.calls.next().is_err() {
            return Err(KeepFault::Failed);
        }
        Ok(bytes_of(self.alloc, &self.blobs, id)?)
    }

    /// Answers `Failed` where it is listed as a call that fails, and only there.
    fn sweep(&mut self, keep: &[BlobId]) -> Result<(), KeepFault>
        ensures made { OnOk result (self.new.told ≡ swept keep.now self.old.told) }
        ensures same { OnErr result (self.new.told ≡ self.old.told) }
        ensures count { Counts self.old.calls.faults self.new.calls.faults result }
        ensures called { Some self.new.calls.made ≡ one_more (Some self.old.calls.made) }
        ensures next { IsNextCall self.old.calls self.new.calls }
        ensures fails { FailsAsListed self.new.calls result }
    {
        if self.calls.next().is_err() {
            return Err(KeepFault::Failed);
        }
        Ok(drop_others(self.alloc, &mut self.blobs, keep)?)
    }
}
