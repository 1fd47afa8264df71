//! The keepers of a case: what they begin with, and what is left in them.

use case_files::{Blob, Kept, KeptRow, Run, Start};
use nf_base::BlobId;
use nf_keeper::{BlobList, KeepFault, Keeper, MemKeeper, RawRows};
use nf_rows::RawRow;
use std::alloc::{AllocError, Global};
use std::io;

/// The numbers of blobs that are looked for are smaller.
pub const MOST_BLOBS: u64 = 65_536;

/// How often a call is made again that is listed as one that fails.
const MOST_CALLS: u32 = 1_000;

/// A keeper that cases are run over.
pub trait TestKeeper: Keeper + Drop + Send {
    /// A keeper that begins like that. None of its calls was made yet.
    fn beginning(alloc: Global, start: &Start) -> io::Result<Self>;

    /// Puts other bytes under a number. This counts as no call.
    fn put_blob(&mut self, alloc: Global, blob: &Blob) -> io::Result<()>;

    /// The numbers of all blobs that it may have are smaller.
    fn blob_limit(&self) -> u64;
}

impl TestKeeper for MemKeeper {
    fn beginning(alloc: Global, start: &Start) -> io::Result<MemKeeper> {
        let rows = raws_of(alloc, &start.holds.rows)?;
        let blobs = blobs_of(alloc, &start.holds.blobs)?;
        Ok(MemKeeper::holding(alloc, rows, blobs, &start.failing)?)
    }

    fn put_blob(&mut self, alloc: Global, blob: &Blob) -> io::Result<()> {
        self.set_blob(BlobId::new(blob.number()), blob.bytes().to_vec(alloc)?)?;
        Ok(())
    }

    fn blob_limit(&self) -> u64 {
        MOST_BLOBS
    }
}

fn raws_of(alloc: Global, rows: &[KeptRow]) -> Result<RawRows, AllocError> {
    let mut raws = RawRows::new(alloc);
    for row in rows {
        let key = row.key().to_vec(alloc)?;
        let body = row.body().to_vec(alloc)?;
        raws.push(RawRow::from_parts(row.kind(), key, body))?;
    }
    Ok(raws)
}

fn blobs_of(alloc: Global, blobs: &[Blob]) -> Result<BlobList, AllocError> {
    let mut list = BlobList::new(alloc);
    for blob in blobs {
        list.put(BlobId::new(blob.number()), blob.bytes().to_vec(alloc)?)?;
    }
    Ok(list)
}

/// What the keeper has, where the case says what it should have. It is asked for that by calls, which are counted.
pub fn left_in<K: TestKeeper>(
    alloc: Global,
    case: &Run,
    keeper: &mut K,
) -> Result<Kept, AllocError> {
    if case.leaves.is_none() {
        return Ok(Kept::nothing(alloc));
    }
    Ok(Kept {
        rows: rows_in(alloc, keeper)?,
        blobs: blobs_in(alloc, keeper)?,
    })
}

fn rows_in<K: TestKeeper>(alloc: Global, keeper: &mut K) -> Result<Vec<KeptRow>, AllocError> {
    let raws = load(keeper)?;
    let mut rows = Vec::new(alloc);
    for raw in raws.rows() {
        let key = raw.key().to_vec(alloc)?;
        let body = raw.body().to_vec(alloc)?;
        rows.push(KeptRow::new(raw.kind(), key, body))?;
    }
    Ok(rows)
}

fn blobs_in<K: TestKeeper>(alloc: Global, keeper: &mut K) -> Result<Vec<Blob>, AllocError> {
    let mut blobs = Vec::new(alloc);
    for number in 0..keeper.blob_limit() {
        if let Some(bytes) = blob(keeper, BlobId::new(number))? {
            blobs.push(Blob::new(number, bytes))?;
        }
    }
    Ok(blobs)
}

fn load<K: Keeper>(keeper: &mut K) -> Result<RawRows, AllocError> {
    for _ in 0..MOST_CALLS {
        match keeper.load() {
            Ok(raws) => return Ok(raws),
            Err(KeepFault::Failed) => {}
            Err(KeepFault::Memory) => return Err(AllocError),
        }
    }
    Err(AllocError)
}

fn blob<K: Keeper>(keeper: &mut K, id: BlobId) -> Result<Option<Vec<u8>>, AllocError> {
    for _ in 0..MOST_CALLS {
        match keeper.blob(id) {
            Ok(bytes) => return Ok(bytes),
            Err(KeepFault::Failed) => {}
            Err(KeepFault::Memory) => return Err(AllocError),
        }
    }
    Err(AllocError)
}
