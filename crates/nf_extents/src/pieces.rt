//! Bodies in a file.

ghost use Rattle.std.specs.Prelude.{◌≡◌, ◌⊎◌, ◌<◌, ◌≤◌, ℕ, IfOk, OnOk, IfErr, OnErr, IsErr, IsErrAnd, IsTrue, List, is_ok, not, length};
ghost use Rattle.std.specs.IoError.{error_kind};
ghost use Rattle.std.specs.declared.io.ErrorKind.{ErrorKind};
ghost use Rattle.sqlite_disk.specs.Disk.{Follows, Holds, Only};
ghost use Rattle.sqlite_disk.specs.Refusal.{finds_no_room};
ghost use Rattle.sqlite_disk.specs.Tally.{CountsRefusal};
ghost use Rattle.nf_extents.specs.Room.{IsAllFree, LacksPlace, Takes, TakesSome, in_sectors, is_free, sectors_of};
ghost use Rattle.nf_extents.specs.Keeping.{HasCause, Keeps, body_at};

use crate::gaps::{Extent, Gaps};
use sqlite_disk::Disk;
use std::alloc::Global;
use std::io;
use std::marker::Model;

/// Bodies in extents of a file. What is free is written over, and what isn't stays as it is, also where a call fails or is cut by a crash.
#[derive(Drop)]
pub struct Pieces<D: Disk> {
    disk: D,
    gaps: Gaps,
}

impl<D: Disk> Model for Pieces<D> {
    ghost use Rattle.nf_extents.specs.Keeping.{Store};

    ghost Value = { Store D };

    ghost view = { λ pieces. record { disk = pieces.disk; room = pieces.gaps } };
}

impl<D: Disk> Pieces<D> {
    /// Over a disk of which this is free.
    pub fn over(disk: D, gaps: Gaps) -> Pieces<D>
        ensures disk { result.disk ≡ disk }
        ensures room { result.room ≡ gaps }
    {
        Pieces { disk, gaps }
    }

    /// The disk.
    pub fn into_disk(self) -> D
        ensures { result ≡ self.disk }
    {
        let Pieces { disk, gaps: _ } = self;
        disk
    }

    /// Whether no sync has failed. After one has, each call fails.
    pub fn may_be_used(&self) -> bool
        ensures { result ≡ D.is_usable self.now.disk }
    {
        self.disk.may_be_used()
    }

    /// Writes a body into sectors that were free. It lasts once `sync` went well. A body of no bytes takes none, and its extent is at 0.
    /// The sectors are not free afterwards, also where the write fails.
    pub fn write(&mut self, bytes: &[u8]) -> io::Result<Extent>
        ensures size { IfOk result (λ extent. extent.size ≡ length bytes.now) }
        ensures free { IfOk result (λ extent. IsAllFree self.old.room (sectors_of extent)) }
        ensures taken { IfOk result (λ extent. Takes (sectors_of extent) self.old.room self.new.room) }
        ensures written { IfOk result (λ extent. 0 < length bytes.now → Holds (D.seen self.new.disk) extent.place bytes.now) }
        ensures empty { length bytes.now ≡ 0 → IfOk result (λ extent. extent.place ≡ 0) × (self.new ≡ self.old) }

        // What isn't free stays, also at `Err`, and in whatever a crash leaves. At `Err` no more than the body's own sectors is lost.
        ensures kept { Keeps self.old.room (D.seen self.old.disk) (D.seen self.new.disk) }
        ensures crash { Follows (Keeps self.old.room) (D.may_leave self.old.disk) (D.may_leave self.new.disk) }
        ensures lost { OnErr result ((self.new.room ≡ self.old.room)
            ⊎ TakesSome (in_sectors (length bytes.now)) self.old.room self.new.room) }
        ensures frees_none { (byte : ℕ) → IsTrue (is_free self.new.room byte) → IsTrue (is_free self.old.room byte) }

        // An error has one of these causes, and says that the disk is full only where it is.
        ensures unusable { IsTrue (not (D.is_usable self.old.disk)) → IsErr result × (self.new ≡ self.old) }
        ensures full { IsTrue (D.is_usable self.old.disk) → 0 < length bytes.now → LacksPlace self.old.room (length bytes.now)
            → IsErrAnd result (λ error. error_kind error ≡ ErrorKind.StorageFull) × (self.new ≡ self.old) }
        ensures fails { OnErr result (HasCause (D.is_usable self.old.disk) (D.faults self.old.disk) (D.faults self.new.disk)
            ⊎ LacksPlace self.old.room (length bytes.now)) }
        ensures told { LacksPlace self.old.room (length bytes.now) ⊎ CountsRefusal result (D.tally_of self.old.disk) (D.tally_of self.new.disk) }
        ensures usable { D.is_usable self.new.disk ≡ D.is_usable self.old.disk }
        ensures clean { D.is_clean self.new.disk ≡ D.is_clean self.old.disk }
    {
        if !self.disk.may_be_used() {
            return Err(no_longer());
        }
        if bytes.is_empty() {
            return Ok(Extent { place: 0, size: 0 });
        }
        let Some(taken) = self.gaps.take_sectors(bytes.len()) else {
            return Err(io::Error::from(io::ErrorKind::StorageFull));
        };
        self.disk.write_at(taken.place as usize, bytes)?;
        Ok(Extent {
            place: taken.place,
            size: bytes.len() as u64,
        })
    }

    /// Sees to it that all that was written lasts. Where this fails, nothing more may be asked of the disk.
    pub fn sync(&mut self) -> io::Result<()>
        ensures durable { OnOk result (Only (D.seen self.old.disk) (D.may_leave self.new.disk)) }
        ensures seen { D.seen self.new.disk ≡ D.seen self.old.disk }
        ensures room { self.new.room ≡ self.old.room }
        ensures crash { (c : List ℕ) → D.may_leave self.new.disk c → D.may_leave self.old.disk c }
        ensures usable { D.is_usable self.new.disk ≡ is_ok result }
        ensures fails { OnErr result (HasCause (D.is_usable self.old.disk) (D.faults self.old.disk) (D.faults self.new.disk)) }
        ensures told { CountsRefusal result (D.tally_of self.old.disk) (D.tally_of self.new.disk) }
        ensures clean { D.is_clean self.new.disk ≡ D.is_clean self.old.disk }
    {
        if !self.disk.may_be_used() {
            return Err(no_longer());
        }
        self.disk.sync()
    }

    /// The body of an extent; of one that reaches past the end of the file, what is there.
    pub fn read(&mut self, alloc: Global, extent: Extent) -> io::Result<Vec<u8>>
        ensures body { IfOk result (λ bytes. IsTrue (D.is_clean self.new.disk) → bytes.items ≡ body_at (D.seen self.old.disk) extent) }
        ensures size { IfOk result (λ bytes. length bytes.items ≤ extent.size) }
        ensures seen { D.seen self.new.disk ≡ D.seen self.old.disk }
        ensures room { self.new.room ≡ self.old.room }
        ensures crash { (c : List ℕ) → D.may_leave self.new.disk c → D.may_leave self.old.disk c }
        ensures usable { D.is_usable self.new.disk ≡ D.is_usable self.old.disk }
        ensures clean { IsTrue (D.is_clean self.new.disk) → IsTrue (D.is_clean self.old.disk) }
        ensures fails { IfErr result (λ error. HasCause (D.is_usable self.old.disk) (D.faults self.old.disk) (D.faults self.new.disk)
            ⊎ (error_kind error ≡ ErrorKind.OutOfMemory)) }
    {
        if !self.disk.may_be_used() {
            return Err(no_longer());
        }
        let place = extent.place as usize;
        let size = (extent.size as usize).min(self.disk.len()?.saturating_sub(place));
        if size == 0 {
            return Ok(Vec::new(alloc));
        }
        let mut bytes = vec![in alloc; 0; size]?;
        self.disk.read_at(place, &mut bytes)?;
        Ok(bytes)
    }

    /// Makes free what these gaps have as free, and nothing else, and cuts the file to their end.
    pub fn free(&mut self, gaps: Gaps) -> io::Result<()>
        ensures room { self.new.room ≡ gaps }
        ensures kept { Keeps gaps (D.seen self.old.disk) (D.seen self.new.disk) }
        ensures crash { Follows (Keeps gaps) (D.may_leave self.old.disk) (D.may_leave self.new.disk) }
        ensures cut { OnOk result (IsTrue (D.is_clean self.new.disk) → length (D.seen self.new.disk) ≤ gaps.end) }
        ensures usable { D.is_usable self.new.disk ≡ D.is_usable self.old.disk }
        ensures clean { IsTrue (D.is_clean self.new.disk) → IsTrue (D.is_clean self.old.disk) }
        ensures fails { OnErr result (HasCause (D.is_usable self.old.disk) (D.faults self.old.disk) (D.faults self.new.disk)) }
        ensures told { IsTrue (not (finds_no_room result)) → (D.tally_of self.new.disk).refused ≡ (D.tally_of self.old.disk).refused }
    {
        self.gaps = gaps;
        if !self.disk.may_be_used() {
            return Err(no_longer());
        }
        let end = self.gaps.end() as usize;
        if self.disk.len()? > end {
            self.disk.set_len(end)?;
        }
        Ok(())
    }
}

/// Why a call fails once a sync has.
fn no_longer() -> io::Error
    ensures { error_kind result ≡ ErrorKind.Other }
{
    io::Error::other("a sync has failed, so nothing more is asked of this file")
}
