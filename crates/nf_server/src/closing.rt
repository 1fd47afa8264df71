//! Whether a run is to end: what doors, their connections and a store share, so that nobody has to be waited for.

use std::alloc::{AllocError, Global};
use std::sync::Arc;
use std::sync::atomic::{AtomicU8, AtomicU64, Ordering};

/// So many answers in a row that told of want of memory, and none that didn't, end a run.
const MOST_WANTS: u64 = 1_000;

/// A history that may take so many bytes ends its run, however few its entries are.
const MOST_KEPT: u64 = 256 << 20;

/// Why a run is to end.
#[derive(Clone, Copy, PartialEq, Eq)]
pub enum Cause {
    /// Its history has no room for two more entries, or takes too much memory.
    Full,
    /// The store refuses everything.
    Store,
    /// There is no memory, and again none.
    Memory,
}

/// Whether a run is to end, and why. What is shared says the same to all who share it.
#[derive(Drop)]
pub struct Closing {
    told: Arc<Told, Global>,
}

#[derive(Drop)]
struct Told {
    cause: AtomicU8,
    /// How many answers in a row told of want of memory.
    wants: AtomicU64,
    /// How many bytes the run's history takes at most.
    kept: AtomicU64,
}

impl Closing {
    pub fn new(alloc: Global) -> Result<Closing, AllocError> {
        let told = Told {
            cause: AtomicU8::new(0),
            wants: AtomicU64::new(0),
            kept: AtomicU64::new(0),
        };
        Ok(Closing {
            told: Arc::new(alloc, told)?,
        })
    }

    /// The same one, for somebody else.
    pub fn share(&self) -> Result<Closing, AllocError> {
        Ok(Closing {
            told: Arc::try_clone(&self.told)?,
        })
    }

    /// Says that the run is to end. The cause that is told first stays.
    pub fn tell(&self, cause: Cause) {
        let number = match cause {
            Cause::Full => 1,
            Cause::Store => 2,
            Cause::Memory => 3,
        };
        let _ = self
            .told
            .cause
            .compare_exchange(0, number, Ordering::SeqCst, Ordering::SeqCst);
    }

    pub fn cause(&self) -> Option<Cause> {
        match self.told.cause.load(Ordering::SeqCst) {
            0 => None,
            1 => Some(Cause::Full),
            2 => Some(Cause::Store),
            _ => Some(Cause::Memory),
        }
    }

    /// An answer was begun, which tells of want of memory or doesn't.
    pub fn answered(&self, is_want: bool) {
        let wants = &self.told.wants;
        if !is_want {
            if wants.load(Ordering::SeqCst) > 0 {
                wants.store(0, Ordering::SeqCst);
            }
        } else if wants.fetch_add(1, Ordering::SeqCst) >= MOST_WANTS {
            self.tell(Cause::Memory);
        }
    }

    /// A request is answered, whose entries take so many bytes at most.
    pub fn keeps(&self, bytes: u64) {
        if self.told.kept.fetch_add(bytes, Ordering::SeqCst) > MOST_KEPT {
            self.tell(Cause::Full);
        }
    }

    /// Begins anew, for the next run.
    pub fn reset(&self) {
        self.told.kept.store(0, Ordering::SeqCst);
        self.told.wants.store(0, Ordering::SeqCst);
        self.told.cause.store(0, Ordering::SeqCst);
    }
}
