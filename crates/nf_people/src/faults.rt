//! Why people can't be added.

ghost use Rattle.std.specs.Prelude.{◌≡◌};

use std::alloc::AllocError;

/// Why a user, a group, a token or a member can't be added, or a quota set.
#[derive(Clone, Copy, Debug, PartialEq, Eq)]
pub enum PeopleFault {
    /// The name, the digest or the member is there.
    Taken,
    /// A user or a group that it names isn't there.
    Unknown,
    /// So many are there, and no more may be.
    Limit { count: usize },
    /// There is no memory for it.
    Memory,
}

impl From<AllocError> for PeopleFault {
    ghost use Rattle.nf_people.specs.declared.faults.PeopleFault.TheVariants.{Memory};

    ghost from_gives = { λ _ fault. fault ≡ Memory };

    fn from(_: AllocError) -> Self {
        PeopleFault::Memory
    }
}
