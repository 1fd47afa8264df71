//! Uploads, found by their users and their names.

ghost use Rattle.std.specs.Prelude.{◌≡◌, ◌∷◌, length};
ghost use Rattle.nf_defs.specs.Puts.{key_cmp};

use nf_base::{Name, UploadRow, UserId};
use nf_defs::FoundBy;
use std::cmp::Ordering;

/// Whose upload it is, and its name among that user's.
#[derive(Clone, Copy)]
pub(crate) struct UploadKey<'a> {
    pub(crate) user: UserId,
    pub(crate) dir: &'a Name,
}

impl FoundBy<UploadKey<'_>> for UploadRow {
    ghost numbers = { λ key. key.user ∷ length key.dir.now ∷ key.dir.now };

    fn compare_to(&self, sought: &UploadKey<'_>) -> Ordering {
        self.user
            .cmp(&sought.user)
            .then(compare_names(&self.dir, sought.dir))
    }
}

/// How names stand in keys: by their lengths first, then by their bytes.
fn compare_names(name: &Name, other: &Name) -> Ordering
    ensures { result ≡ key_cmp (length name.now ∷ name.now) (length other.now ∷ other.now) }
{
    let bytes = name.as_bytes();
    let others = other.as_bytes();
    bytes.len().cmp(&others.len()).then(bytes.cmp(others))
}
