//! What some chunks have together.

ghost use Rattle.std.specs.Prelude.{◌≡◌, ◌*◌, ◌≤◌, length, sum_by, IfOk};
ghost use Rattle.std.specs.List.{flat_map};
ghost use Rattle.nf_base.specs.declared.limits.TheConstants.{MAX_PIECES};
ghost use Rattle.nf_words.specs.Versions.{content_size};

use nf_base::{ChunkRow, Content};
use std::alloc::{AllocError, Global};

/// The bytes of some chunks. No sum of these passes a u128.
pub(crate) fn bytes_of(rows: &[ChunkRow]) -> u128
    ensures { result ≡ sum_by (λ row. content_size row.content) rows.now }
{
    let mut sum = 0;
    for row in rows {
        sum += u128::from(row.content.size());
    }
    sum
}

/// How many pieces some chunks have.
pub(crate) fn pieces_of(rows: &[ChunkRow]) -> u128
    ensures count { result ≡ sum_by (λ row. length row.content) rows.now }
    ensures few { result ≤ MAX_PIECES * length rows.now }
{
    let mut sum = 0;
    for row in rows {
        sum += row.content.pieces().len() as u128;
    }
    sum
}

/// The pieces of some chunks, one chunk's after the other's.
pub(crate) fn joined(alloc: Global, rows: &[ChunkRow]) -> Result<Content, AllocError>
    requires { length (flat_map (λ row. row.content) rows.now) ≤ MAX_PIECES }
    ensures { IfOk result (λ content. content ≡ flat_map (λ row. row.content) rows.now) }
{
    // A chunk has at most one piece.
    let mut pieces = Vec::with_capacity(alloc, rows.len())?;
    for row in rows {
        pieces.extend_from_slice(row.content.pieces())?;
    }
    Ok(Content::new(pieces))
}
