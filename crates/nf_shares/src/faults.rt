//! Why shares can't be made.

ghost use Rattle.std.specs.Prelude.{◌≡◌};

use nf_base::ShareId;
use std::alloc::AllocError;

/// Why a share can't be made.
#[derive(Clone, Copy, PartialEq, Eq)]
pub enum ShareFault {
    /// It names its initiator or its node's owner.
    SelfShare,
    /// That share gives the same already.
    Already(ShareId),
    /// The chain of its parent has as many shares as a chain may.
    Chain,
    /// Another link has its token.
    TokenTaken,
    /// As many shares are there as may be.
    Limit,
    /// There is no memory for it.
    Memory,
}

impl From<AllocError> for ShareFault {
    ghost use Rattle.nf_shares.specs.declared.faults.ShareFault.TheVariants.{Memory};

    ghost from_gives = { λ _ fault. fault ≡ Memory };

    fn from(_: AllocError) -> Self {
        ShareFault::Memory
    }
}
