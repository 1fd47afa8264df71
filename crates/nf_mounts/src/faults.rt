//! Why a mount can't be renamed.

ghost use Rattle.std.specs.Prelude.{◌≡◌};

use std::alloc::AllocError;

/// Why a mount can't have a name.
#[derive(Clone, Copy, Debug, PartialEq, Eq)]
pub enum RenameFault {
    /// Another child or mount in the user's root has it.
    NameTaken,
    /// There is no memory for it.
    Memory,
}

impl From<AllocError> for RenameFault {
    ghost use Rattle.nf_mounts.specs.declared.faults.RenameFault.TheVariants.{Memory};

    ghost from_gives = { λ _ fault. fault ≡ Memory };

    fn from(_: AllocError) -> Self {
        RenameFault::Memory
    }
}
