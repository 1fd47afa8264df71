//! A chunk that is stored, decided by the tables of its own moment, and the limits of chunks.

ghost use Rattle.std.specs.Prelude.{◌≡◌, ◌≤◌, ◌++◌, IfOk, OnOk, None, Some};
ghost use Rattle.nf_base.specs.declared.changes.Change.TheVariants.{Put};
ghost use Rattle.nf_base.specs.declared.limits.TheConstants.{MAX_BODY};
ghost use Rattle.nf_base.specs.declared.rows.Row.TheVariants as rows;
ghost use Rattle.nf_words.specs.Prelude.{AreSound, chunk_limit, chunk_put, chunk_stored, pending_with, stores_chunk, upload_row, upload_touched};

use crate::ending::{blob_for, content_in};
use crate::limits::{limit_passed, passes, pieces_of};
use nf_base::{Change, Changes, ChunkRow, Digest, Moment, Name, Row, UploadRow, UserId};
use nf_view::View;
use nf_words::{Allowed, Denial, Limit, Report};
use std::alloc::{AllocError, Global};

/// What storing a chunk may do, or its refusal.
pub(crate) fn store_chunk(
    alloc: Global,
    view: &View<'_>,
    moment: Moment,
    chunk: &Chunk<'_>,
    digest: &Digest,
    length: u64,
) -> Result<Result<Allowed, Denial>, AllocError>
    requires rows { AreSound view.now.tables }
    requires few { length ≤ MAX_BODY }
    ensures { IfOk result (λ decision. decision ≡ stores_chunk view.now.tables moment chunk.now.user chunk.now.dir.now chunk.now.number digest.now length) }
{
    let Some(upload) = view.uploads().find(chunk.user, chunk.dir) else {
        return Ok(Err(Denial::NotFound));
    };
    match chunk_limit(view, chunk.user, chunk.dir, length, chunk.number) {
        Some(limit) => Ok(Err(Denial::Limit(limit))),
        None => Ok(Ok(stored(alloc, view, moment, upload, chunk, digest, length)?)),
    }
}

/// A chunk of an upload, by its number.
#[derive(Clone, Copy)]
pub(crate) struct Chunk<'a> {
    pub user: UserId,
    pub dir: &'a Name,
    pub number: u16,
}

/// The limit that a chunk of so many bytes passes. The one of its number still counts among the pieces.
pub fn chunk_limit(
    view: &View<'_>,
    user: UserId,
    dir: &Name,
    length: u64,
    number: u16,
) -> Option<Limit>
    requires { AreSound view.now.tables }
    ensures { result ≡ chunk_limit view.now.tables user dir.now length number }
{
    let pieces = pieces_of(length);
    match limit_passed(view, 0, 0, 0, u128::from(pieces), pieces) {
        Some(limit) => Some(limit),
        None
            if passes(
                pending_with(view, user, dir, number, length),
                Limit::Pending,
            ) => { Some(Limit::Pending) }
        None => None,
    }
}

/// The bytes of a user's chunks with so many in the chunk of that number.
fn pending_with(view: &View<'_>, user: UserId, dir: &Name, number: u16, length: u64) -> u128
    requires { AreSound view.now.tables }
    ensures { result ≡ pending_with view.now.tables user dir.now number length }
{
    let uploads = view.uploads();
    let old = match uploads.chunk(user, dir, number) {
        Some(row) => u128::from(row.content.size()),
        None => 0,
    };
    uploads.pending(user).saturating_sub(old) + u128::from(length)
}

/// What becomes of the rows by a chunk that is stored: its row, and the moment at which its upload was touched.
fn stored(
    alloc: Global,
    view: &View<'_>,
    moment: Moment,
    upload: &UploadRow,
    chunk: &Chunk<'_>,
    digest: &Digest,
    length: u64,
) -> Result<Allowed, AllocError>
    requires few { length ≤ MAX_BODY }
    requires there { upload_row view.now.tables.uploads chunk.now.user chunk.now.dir.now ≡ Some upload.now }
    ensures { IfOk result (λ allowed. allowed ≡ chunk_stored view.now.tables moment chunk.now.user chunk.now.dir.now chunk.now.number digest.now length) }
{
    let blob = blob_for(view.meta().next_blob, length);
    let row = ChunkRow {
        user: chunk.user,
        dir: chunk.dir.copy()?,
        number: chunk.number,
        content: content_in(alloc, &blob, digest, length)?,
    };
    let mut changes = Changes::new(alloc);
    push_chunk(view, row, &mut changes)?;
    push_touched(moment, upload, &mut changes)?;
    Ok(Allowed::Change {
        changes,
        blob,
        report: Report::Made,
    })
}

/// The row of a chunk is put, if it is another than the one that is there.
fn push_chunk(view: &View<'_>, row: ChunkRow, changes: &mut Changes) -> Result<(), AllocError>
    ensures { OnOk result (changes.new ≡ changes.old ++ chunk_put view.now.tables row) }
{
    match view.uploads().chunk(row.user, &row.dir, row.number) {
        Some(old) if old.content == row.content => Ok(()),
        Some(_) | None => changes.push(Change::Put(Row::Chunk(row))),
    }
}

/// An upload is touched, if it was at another moment.
fn push_touched(moment: Moment, upload: &UploadRow, changes: &mut Changes) -> Result<(), AllocError>
    ensures { OnOk result (changes.new ≡ changes.old ++ upload_touched moment upload.now) }
{
    if upload.touched == moment {
        return Ok(());
    }
    let mut row = upload.clone()?;
    row.touched = moment;
    changes.push(Change::Put(Row::Upload(row)))
}
