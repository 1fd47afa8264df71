//! What the limits count.

ghost use Rattle.std.specs.Prelude.{◌≡◌, ℕ, IfOk, length};
ghost use Rattle.nf_words.specs.Prelude.{pending_of, uploads_of};
ghost use Rattle.nf_opening.specs.Counts.{AreCounts};
ghost use Rattle.nf_opening.specs.Totals.{total_of};

use crate::Loaded;
use crate::limits::stored_pieces;
use crate::totals::add;
use nf_base::{ChunkRow, UploadRow};
use std::alloc::{AllocError, Global};
use std::collections::BTreeMap;

/// What the limits count of several rows together.
#[derive(Drop)]
pub(crate) struct Counts {
    /// The pieces of all nodes, versions and chunks, with repeats.
    pub(crate) pieces: u128,
    /// How many uploads each user has.
    pub(crate) uploads: BTreeMap<u32, u128>,
    /// How many bytes the chunks of each user have.
    pub(crate) pending: BTreeMap<u32, u128>,
}

impl Counts {
    pub(crate) fn of(alloc: Global, loaded: &Loaded) -> Result<Self, AllocError>
        ensures { IfOk result (AreCounts loaded.now) }
    {
        let pieces = stored_pieces(loaded);
        let uploads = upload_counts(alloc, &loaded.uploads)?;
        let pending = pending_bytes(alloc, &loaded.chunks)?;
        Ok(Counts {
            pieces,
            uploads,
            pending,
        })
    }
}

/// How many of these uploads each user has.
fn upload_counts(alloc: Global, rows: &[UploadRow]) -> Result<BTreeMap<u32, u128>, AllocError>
    ensures { IfOk result (λ totals. (user : ℕ) → total_of totals user ≡ length (uploads_of rows.now user)) }
{
    let mut totals = BTreeMap::new(alloc);
    for row in rows {
        add(&mut totals, row.user, 1)?;
    }
    Ok(totals)
}

/// How many bytes these chunks have of each user.
fn pending_bytes(alloc: Global, rows: &[ChunkRow]) -> Result<BTreeMap<u32, u128>, AllocError>
    ensures { IfOk result (λ totals. (user : ℕ) → total_of totals user ≡ pending_of rows.now user) }
{
    let mut totals = BTreeMap::new(alloc);
    for row in rows {
        add(&mut totals, row.user, row.content.size())?;
    }
    Ok(totals)
}
