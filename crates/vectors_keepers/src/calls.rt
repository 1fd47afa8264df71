//! What is asked of either keeper.

use nf_base::{BlobId, Change, Changes, GroupId, MemberRow, Row, RowKey, UserId};
use nf_keeper::{Keeper, NewBlob};
use std::alloc::{AllocError, Global};

/// Puts these users into the first group.
pub fn puts(alloc: Global, users: &[u32]) -> Result<Changes, AllocError> {
    let mut changes = Changes::new(alloc);
    for user in users {
        changes.push(Change::Put(Row::Member(MemberRow {
            group: GroupId::new(1),
            user: UserId::new(*user),
        })))?;
    }
    Ok(changes)
}

/// Drops this user from the first group.
pub fn drops(alloc: Global, user: u32) -> Result<Changes, AllocError> {
    let mut changes = Changes::new(alloc);
    changes.push(Change::Drop(RowKey::Member {
        group: GroupId::new(1),
        user: UserId::new(user),
    }))?;
    Ok(changes)
}

/// Whether users are put into the first group, and a blob is stored.
pub fn stores<K: Keeper>(
    alloc: Global,
    keeper: &mut K,
    users: &[u32],
    id: u64,
    bytes: &[u8],
) -> Result<bool, AllocError> {
    let changes = puts(alloc, users)?;
    let id = BlobId::new(id);
    Ok(keeper.apply(&changes, Some(&NewBlob { id, bytes })) == Ok(()))
}

/// Whether it tells rows with these last bytes of their keys and bodies.
pub fn tells<K: Keeper>(
    alloc: Global,
    keeper: &mut K,
    rows: &[(u8, u8)],
) -> Result<bool, AllocError> {
    let Ok(raws) = keeper.load() else {
        return Ok(false);
    };
    let mut told = Vec::new(alloc);
    for row in raws.rows() {
        let key = row.key().last().copied().unwrap_or(0);
        told.push((key, row.body().last().copied().unwrap_or(0)))?;
    }
    Ok(told.as_slice() == rows)
}

/// Whether it has these bytes as the blob of that number, or no such blob.
pub fn has<K: Keeper>(keeper: &mut K, id: u64, bytes: Option<&[u8]>) -> bool {
    match keeper.blob(BlobId::new(id)) {
        Ok(kept) => kept.as_deref() == bytes,
        Err(_) => false,
    }
}
