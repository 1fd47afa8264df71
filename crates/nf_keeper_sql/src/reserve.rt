//! Bytes of the disk that are kept in reserve.

ghost use Rattle.std.specs.Prelude.{IsTrue};

use sqlite_disk::Disk;
use std::alloc::Global;
use std::io;

/// How many bodies are refused at once behind zeros that found no room, since each try to write them writes as many as the disk has room for.
const REFUSALS: u32 = 7;

/// What is known of the reserve.
#[derive(Clone, Copy, PartialEq, Eq)]
enum State {
    /// It wasn't looked at yet.
    Unknown,
    /// It has all of its bytes.
    Whole,
    /// It was given up, or couldn't be filled: what bytes it had are the disk's again.
    GivenUp,
}

/// A file of zeros. It is given up where the disk is full, so that what needs a few bytes to remove others has them.
#[derive(Drop)]
pub(crate) struct Reserve<D: Disk> {
    disk: D,
    size: usize,
    state: State,
    /// How many bodies are refused before the next try to fill it.
    refusals: u32,
}

impl<D: Disk> Reserve<D> {
    /// Over a file of which nothing is known yet.
    pub(crate) fn over(disk: D, size: usize) -> Reserve<D> {
        Reserve {
            disk,
            size,
            state: State::Unknown,
            refusals: 0,
        }
    }

    pub(crate) fn into_disk(self) -> D {
        let Reserve {
            disk,
            size: _,
            state: _,
            refusals: _,
        } = self;
        disk
    }

    /// Whether it has been given up, or couldn't be filled. One that wasn't looked at yet has not.
    pub(crate) fn is_given_up(&self) -> bool {
        self.state == State::GivenUp
    }

    /// Makes it whole, where the disk has room for all of it, or else gives back what there was. It isn't synced: that the room is taken is
    /// what counts.
    pub(crate) fn fill(&mut self, alloc: Global) -> io::Result<()> {
        if self.state == State::Whole {
            return Ok(());
        }
        if !self.disk.may_be_used() {
            return Err(io::Error::other("the reserve can't be used any more"));
        }
        let filled = self.fill_up(alloc);
        if filled.is_ok() {
            self.state = State::Whole;
        } else {
            self.state = State::GivenUp;
            let _ = self.disk.set_len(0);
        }
        filled
    }

    /// The same for a body that comes. Where there was no room, not each body has it tried again.
    pub(crate) fn fill_in_turn(&mut self, alloc: Global) -> io::Result<()> {
        if self.refusals > 0 {
            self.refusals -= 1;
            return Err(io::Error::other("there was no room for the reserve"));
        }
        self.fill(alloc)
    }

    fn fill_up(&mut self, alloc: Global) -> io::Result<()>
        requires { IsTrue (D.is_usable self.old.disk) }
        ensures { IsTrue (D.is_usable self.new.disk) }
    {
        let len = self.disk.len()?;
        if len < self.size {
            let zeros = vec![in alloc; 0; self.size - len]?;
            self.refusals = REFUSALS;
            self.disk.write_at(len, &zeros)?;
        }
        self.refusals = 0;
        Ok(())
    }

    /// Gives its room back to the disk, and says whether it had any.
    pub(crate) fn give_up(&mut self) -> bool {
        if self.state != State::Whole || !self.disk.may_be_used() {
            return false;
        }
        self.state = State::GivenUp;
        self.disk.set_len(0).is_ok()
    }
}
