//! Blobs in memory, by their numbers.

ghost use Rattle.std.specs.Prelude.{◌≡◌, ◌==◌, ◌∷◌, ◌<◌, [], ℕ, IfOk, OnOk, OnErr, filter, length, option_copied, vec_capacity};
ghost use Rattle.std.specs.List.{list_any};
ghost use Rattle.std.specs.List.Sorted.{IsSorted};
ghost use Rattle.std.specs.Ordering.{nat_cmp};
ghost use Rattle.nf_defs.specs.Prelude.{blob_at, blob_key, IsRising, put_blob};
ghost use Rattle.nf_keeper.specs.Keeping.{is_kept, with_stored};
ghost use Rattle.nf_keeper.specs.Views.{blob_in, bytes_in, stored_in};

use crate::keeper::NewBlob;
use nf_base::BlobId;
use nf_defs::{FoundBy, Keyed, put_reserved, row_of};
use std::alloc::{AllocError, Global};
use std::cmp::Ordering;
use std::marker::Model;

/// A blob: its number and its bytes.
#[derive(Drop)]
pub struct Blob {
    id: BlobId,
    bytes: Vec<u8>,
}

impl Model for Blob {
    ghost use Rattle.std.specs.Prelude.{ℕ, List};

    ghost Value = { ℕ × List ℕ };

    ghost view = { λ blob. (blob.id, blob.bytes.items) };
}

impl Keyed for Blob {
    ghost key = { blob_key };

    fn compare(&self, other: &Blob) -> Ordering {
        self.id.cmp(&other.id)
    }
}

impl FoundBy<BlobId> for Blob {
    ghost numbers = { λ id. id ∷ [] };

    fn compare_to(&self, sought: &BlobId) -> Ordering {
        self.id.cmp(sought)
    }
}

/// Blobs by rising number.
#[derive(Drop)]
pub struct BlobList {
    blobs: Vec<Blob>,
}

impl Model for BlobList {
    ghost use Rattle.nf_defs.specs.Prelude.{blob_key, Blobs, IsRising};

    ghost Value = { Blobs };

    ghost view = { λ list. list.blobs.items };

    ghost invariant = { λ list. IsRising blob_key list.blobs.items };
}

impl BlobList {
    pub fn new(alloc: Global) -> Self
        ensures { result ≡ [] }
    {
        BlobList {
            blobs: Vec::new(alloc),
        }
    }

    /// Puts bytes under a number, in place of those that were there. For want of memory the list stays as it was.
    pub fn put(&mut self, id: BlobId, bytes: Vec<u8>) -> Result<(), AllocError>
        ensures ok { OnOk result (self.new ≡ put_blob self.old id bytes.items) }
        ensures err { OnErr result (self.new ≡ self.old) }
    {
        put_bytes(&mut self.blobs, id, bytes)
    }

    pub(crate) fn into_blobs(self) -> Vec<Blob>
        ensures same { result.items ≡ self }
        ensures rising { IsRising blob_key result.items }
    {
        self.blobs
    }
}

/// Puts bytes under a number, in place of those that were there.
pub(crate) fn put_bytes(blobs: &mut Vec<Blob>, id: BlobId, bytes: Vec<u8>) -> Result<(), AllocError>
    requires { IsRising blob_key blobs.old.items }
    ensures ok { OnOk result (blobs.new.items ≡ put_blob blobs.old.items id bytes.items) }
    ensures err { OnErr result (blobs.new.items ≡ blobs.old.items) }
    ensures rising { IsRising blob_key blobs.new.items }
{
    blobs.reserve(1)?;
    put_reserved(blobs, Blob { id, bytes });
    Ok(())
}

/// A copy of the bytes of a blob, if it is there.
pub(crate) fn bytes_of(
    alloc: Global,
    blobs: &[Blob],
    id: BlobId,
) -> Result<Option<Vec<u8>>, AllocError>
    requires { IsRising blob_key blobs.now }
    ensures { IfOk result (λ bytes. bytes_in bytes ≡ blob_at blobs.now id) }
{
    match find_bytes(blobs, id) {
        Some(bytes) => Ok(Some(bytes.to_vec(alloc)?)),
        None => Ok(None),
    }
}

fn find_bytes(blobs: &[Blob], id: BlobId) -> Option<&[u8]>
    requires { IsRising blob_key blobs.now }
    ensures { option_copied result ≡ blob_at blobs.now id }
{
    match row_of(blobs, &id) {
        Some(blob) => Some(&blob.bytes),
        None => None,
    }
}

/// A copy of a blob that is given.
pub(crate) fn copy_of(alloc: Global, blob: Option<&NewBlob<'_>>) -> Result<Option<Blob>, AllocError>
    ensures { IfOk result (λ copy. blob_in copy ≡ stored_in (option_copied blob.entry)) }
{
    match blob {
        Some(blob) => {
            let bytes = blob.bytes.to_vec(alloc)?;
            Ok(Some(Blob { id: blob.id, bytes }))
        }
        None => Ok(None),
    }
}

/// Keeps a blob, where there is one. It takes no memory.
pub(crate) fn keep(blobs: &mut Vec<Blob>, blob: Option<Blob>)
    requires rising { IsRising blob_key blobs.old.items }
    requires room { length blobs.old.items < vec_capacity blobs.old }
    ensures kept { blobs.new.items ≡ with_stored blobs.old.items (blob_in blob) }
    ensures rising { IsRising blob_key blobs.new.items }
{
    match blob {
        Some(blob) => put_reserved(blobs, blob),
        None => {}
    }
}

/// Drops the blobs that aren't among these. For want of memory none is dropped.
pub(crate) fn drop_others(
    alloc: Global,
    blobs: &mut Vec<Blob>,
    keep: &[BlobId],
) -> Result<(), AllocError>
    requires { IsRising blob_key blobs.old.items }
    ensures kept { OnOk result (blobs.new.items ≡ filter (is_kept keep.now) blobs.old.items) }
    ensures same { OnErr result (blobs.new.items ≡ blobs.old.items) }
    ensures rising { IsRising blob_key blobs.new.items }
{
    let mut kept = keep.to_vec(alloc)?;
    kept.sort_unstable();
    let sorted = kept.as_slice();
    blobs.retain(|blob| is_among(sorted, blob.id));
    Ok(())
}

/// Whether the number is among these, which are sorted.
fn is_among(sorted: &[BlobId], id: BlobId) -> bool
    requires { IsSorted nat_cmp sorted.now }
    ensures { result ≡ list_any (λ kept. kept == id) sorted.now }
{
    sorted.binary_search(&id).is_ok()
}
