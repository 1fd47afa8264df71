//! The keys of uploads and of their chunks, by which they are found without a copy of their names.

ghost use Rattle.std.specs.Prelude.{◌≡◌, [], ◌∷◌, ◌++◌, length};
ghost use Rattle.nf_defs.specs.Prelude.{key_cmp};

use nf_base::{ChunkRow, Name, UploadRow, UserId};
use nf_defs::FoundBy;
use nf_table::BegunBy;
use std::cmp::Ordering;

/// The key of an upload, with which the keys of its chunks begin.
#[derive(Clone, Copy)]
pub(crate) struct UploadAt<'a> {
    pub(crate) user: UserId,
    pub(crate) dir: &'a Name,
}

/// The key of a chunk.
#[derive(Clone, Copy)]
pub(crate) struct ChunkAt<'a> {
    pub(crate) user: UserId,
    pub(crate) dir: &'a Name,
    pub(crate) number: u16,
}

/// What the keys of a user's uploads and chunks begin with.
#[derive(Clone, Copy)]
pub(crate) struct OfUser {
    pub(crate) user: UserId,
}

/// How a user and a name stand to others in keys: a name goes by its length first, then by its bytes.
fn compare_uploads(user: UserId, dir: &Name, other: UserId, other_dir: &Name) -> Ordering
    ensures { result ≡ key_cmp (user ∷ length dir.now ∷ dir.now) (other ∷ length other_dir.now ∷ other_dir.now) }
{
    let bytes = dir.as_bytes();
    let others = other_dir.as_bytes();
    user.cmp(&other)
        .then(bytes.len().cmp(&others.len()))
        .then(bytes.cmp(others))
}

impl<'a> FoundBy<UploadAt<'a>> for UploadRow {
    ghost numbers = { λ key. key.user ∷ length key.dir.now ∷ key.dir.now };

    fn compare_to(&self, sought: &UploadAt<'a>) -> Ordering {
        compare_uploads(self.user, &self.dir, sought.user, sought.dir)
    }
}

impl<'a> FoundBy<ChunkAt<'a>> for ChunkRow {
    ghost numbers = { λ key. key.user ∷ length key.dir.now ∷ key.dir.now ++ key.number ∷ [] };

    #[tactic(auto, using(nf_defs::proofs::Puts::chunk_cmp))]
    fn compare_to(&self, sought: &ChunkAt<'a>) -> Ordering {
        compare_uploads(self.user, &self.dir, sought.user, sought.dir).then(
            self.number.cmp(&sought.number),
        )
    }
}

/// The uploads of a user.
impl BegunBy<OfUser> for UploadRow {
    ghost numbers = { λ front. front.user ∷ [] };

    fn compare_front(&self, front: &OfUser) -> Ordering {
        self.user.cmp(&front.user)
    }
}

/// The chunks of a user.
impl BegunBy<OfUser> for ChunkRow {
    ghost numbers = { λ front. front.user ∷ [] };

    fn compare_front(&self, front: &OfUser) -> Ordering {
        self.user.cmp(&front.user)
    }
}

/// The chunks of an upload.
impl<'a> BegunBy<UploadAt<'a>> for ChunkRow {
    ghost numbers = { λ key. key.user ∷ length key.dir.now ∷ key.dir.now };

    fn compare_front(&self, front: &UploadAt<'a>) -> Ordering {
        compare_uploads(self.user, &self.dir, front.user, front.dir)
    }
}
