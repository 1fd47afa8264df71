//! The OCS Share API and the User provisioning API (Nextcloud developer manual): what is asked about shares, users and groups, and the JSON of
//! what is told of shares.
#![tactic(auto)]

mod asked;
mod bodies;
mod parameters;
mod people;
mod sent;
mod told;

ghost use Rattle.std.specs.Prelude.{◌≡◌};

pub use asked::{is_ocs_route, read};
use nf_words::Denial;
pub use parameters::number_in;
use std::alloc::AllocError;
pub use told::{plain_text, share_text, shares_text};

/// Why nothing is asked.
#[derive(Drop)]
pub enum Unread {
    /// It is refused before the site is asked.
    Refused(Denial),
    /// There is no memory.
    Memory,
}

impl From<AllocError> for Unread {
    ghost use Rattle.nf_ocs.specs.declared.Unread.TheVariants.{Memory};

    ghost from_gives = { λ _ unread. unread ≡ Memory };

    fn from(_: AllocError) -> Self {
        Unread::Memory
    }
}
