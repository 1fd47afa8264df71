//! The uploads as callers see them.

ghost use Rattle.std.specs.Prelude.{◌≡◌, ◌+◌, ◌*◌, ◌≤◌, ◌<◌, ◌∷◌, None, not, filter, length, sum_by, IfOk, OnOk, option_copied};
ghost use Rattle.nf_base.specs.declared.limits.TheConstants.{MAX_PIECES};
ghost use Rattle.nf_defs.specs.Prelude.{dropped, IsRising, chunk_key, put, upload_key};
ghost use Rattle.nf_words.specs.Limits.{last_number};
ghost use Rattle.nf_words.specs.Uploads.{chunk_row, chunks_of, is_chunk_of, pending_of, upload_row, uploads_of, whole_of};
ghost use Rattle.nf_words.specs.Versions.{content_size};

use crate::keys::{ChunkAt, OfUser, UploadAt};
use crate::sums::{bytes_of, joined, pieces_of};
use nf_base::{ChunkRow, Content, Name, UploadRow, UserId};
use nf_table::Table;
use std::alloc::{AllocError, Global};
use std::marker::Model;

/// The uploads and their chunks, by rising key: so those of a user stand together, and the chunks of an upload by rising number.
#[derive(Drop)]
pub struct Uploads {
    uploads: Table<UploadRow>,
    chunks: Table<ChunkRow>,
}

impl Model for Uploads {
    ghost use Rattle.nf_uploads.specs.Held.{UploadsValue};

    ghost Value = { UploadsValue };

    ghost view = { λ held. record { uploads = held.uploads.rows; chunks = held.chunks.rows; upload_room = held.uploads.room; chunk_room = held.chunks.room } };
}

impl Uploads {
    /// These uploads and chunks.
    pub fn of(uploads: Vec<UploadRow>, chunks: Vec<ChunkRow>) -> Self
        requires uploads { IsRising upload_key uploads.items }
        requires chunks { IsRising chunk_key chunks.items }
        ensures uploads { result.uploads ≡ uploads.items }
        ensures chunks { result.chunks ≡ chunks.items }
    {
        Uploads {
            uploads: Table::of(uploads),
            chunks: Table::of(chunks),
        }
    }

    /// All uploads, by rising key.
    pub fn uploads(&self) -> &[UploadRow]
        ensures rows { result.now ≡ self.now.uploads }
        ensures rising { IsRising upload_key self.now.uploads }
    {
        self.uploads.rows()
    }

    /// All chunks, by rising key.
    pub fn chunks(&self) -> &[ChunkRow]
        ensures rows { result.now ≡ self.now.chunks }
        ensures rising { IsRising chunk_key self.now.chunks }
    {
        self.chunks.rows()
    }

    /// How many uploads there are.
    pub fn count(&self) -> usize
        ensures count { result ≡ length self.now.uploads }
        ensures room { length self.now.uploads ≤ self.now.upload_room }
    {
        self.uploads.count()
    }

    /// How many chunks there are.
    pub fn chunk_count(&self) -> usize
        ensures count { result ≡ length self.now.chunks }
        ensures room { length self.now.chunks ≤ self.now.chunk_room }
    {
        self.chunks.count()
    }

    /// Makes room for so many uploads and chunks more. The one error is that there is no memory for them.
    pub fn reserve(&mut self, uploads: usize, chunks: usize) -> Result<(), AllocError>
        ensures upload_room { OnOk result (length self.new.uploads + uploads ≤ self.new.upload_room) }
        ensures chunk_room { OnOk result (length self.new.chunks + chunks ≤ self.new.chunk_room) }
        ensures uploads { self.new.uploads ≡ self.old.uploads }
        ensures chunks { self.new.chunks ≡ self.old.chunks }
        ensures uploads_kept { self.old.upload_room ≤ self.new.upload_room }
        ensures chunks_kept { self.old.chunk_room ≤ self.new.chunk_room }
    {
        self.uploads.reserve(uploads)?;
        self.chunks.reserve(chunks)
    }

    /// A user's upload of that name.
    pub fn find(&self, user: UserId, dir: &Name) -> Option<&UploadRow>
        ensures { option_copied result ≡ upload_row self.now.uploads user dir.now }
    {
        self.uploads.find(&UploadAt { user, dir })
    }

    /// How many uploads a user has.
    pub fn count_of(&self, user: UserId) -> usize
        ensures { result ≡ length (uploads_of self.now.uploads user) }
    {
        self.uploads.front(&OfUser { user }).len()
    }

    /// The chunks of a user's upload, by rising number.
    pub fn chunks_of(&self, user: UserId, dir: &Name) -> &[ChunkRow]
        ensures { result.now ≡ chunks_of self.now.chunks user dir.now }
    {
        self.chunks.front(&UploadAt { user, dir })
    }

    /// The one of that number.
    pub fn chunk(&self, user: UserId, dir: &Name, number: u16) -> Option<&ChunkRow>
        ensures { option_copied result ≡ chunk_row self.now.chunks user dir.now number }
    {
        self.chunks.find(&ChunkAt { user, dir, number })
    }

    /// The bytes of all chunks of a user.
    pub fn pending(&self, user: UserId) -> u128
        ensures { result ≡ pending_of self.now.chunks user }
    {
        bytes_of(self.chunks.front(&OfUser { user }))
    }

    /// How many pieces all chunks have.
    pub fn pieces(&self) -> u128
        ensures count { result ≡ sum_by (λ row. length row.content) self.now.chunks }
        ensures few { result ≤ MAX_PIECES * last_number }
    {
        pieces_of(self.chunks.rows())
    }

    /// How many pieces the chunks of a user's upload have.
    pub fn pieces_in(&self, user: UserId, dir: &Name) -> u128
        ensures { result ≡ length (whole_of self.now.chunks user dir.now) }
    {
        pieces_of(self.chunks_of(user, dir))
    }

    /// The bytes that the chunks of a user's upload have.
    pub fn sum(&self, user: UserId, dir: &Name) -> u128
        ensures { result ≡ content_size (whole_of self.now.chunks user dir.now) }
    {
        bytes_of(self.chunks_of(user, dir))
    }

    /// What the chunks of a user's upload have, one after the other.
    pub fn whole(&self, alloc: Global, user: UserId, dir: &Name) -> Result<Content, AllocError>
        requires { length (whole_of self.now.chunks user dir.now) ≤ MAX_PIECES }
        ensures { IfOk result (λ content. content ≡ whole_of self.now.chunks user dir.now) }
    {
        joined(alloc, self.chunks_of(user, dir))
    }

    /// Puts an upload over the one of its user and name, or as a new one. It takes no memory.
    pub fn put_upload(&mut self, row: UploadRow)
        requires { upload_row self.old.uploads row.user row.dir ≡ None → length self.old.uploads < self.old.upload_room }
        ensures uploads { self.new.uploads ≡ put upload_key row self.old.uploads }
        ensures chunks { self.new.chunks ≡ self.old.chunks }
        ensures upload_room { self.old.upload_room ≤ self.new.upload_room }
        ensures chunk_room { self.new.chunk_room ≡ self.old.chunk_room }
        ensures count { length self.new.uploads ≤ length self.old.uploads + 1 }
    {
        self.uploads.put(row);
    }

    /// Puts a chunk over the one of its upload and number, or as a new one. It takes no memory.
    pub fn put_chunk(&mut self, row: ChunkRow)
        requires { chunk_row self.old.chunks row.user row.dir row.number ≡ None → length self.old.chunks < self.old.chunk_room }
        ensures chunks { self.new.chunks ≡ put chunk_key row self.old.chunks }
        ensures uploads { self.new.uploads ≡ self.old.uploads }
        ensures chunk_room { self.old.chunk_room ≤ self.new.chunk_room }
        ensures upload_room { self.new.upload_room ≡ self.old.upload_room }
        ensures count { length self.new.chunks ≤ length self.old.chunks + 1 }
    {
        self.chunks.put(row);
    }

    /// Takes a user's upload of that name out with all its chunks, whatever is there of them. It takes no memory.
    pub fn abandon(&mut self, user: UserId, dir: &Name)
        ensures uploads { self.new.uploads ≡ dropped upload_key (user ∷ length dir.now ∷ dir.now) self.old.uploads }
        ensures chunks { self.new.chunks ≡ filter (λ row. not (is_chunk_of user dir.now row)) self.old.chunks }
        ensures upload_room { self.new.upload_room ≡ self.old.upload_room }
        ensures chunk_room { self.new.chunk_room ≡ self.old.chunk_room }
    {
        self.uploads.drop(&UploadAt { user, dir });
        self.chunks.keep(|row| !is_chunk_of(row, user, dir));
    }
}

/// Whether a chunk is one of a user's upload of that name.
fn is_chunk_of(row: &ChunkRow, user: UserId, dir: &Name) -> bool
    ensures { result ≡ is_chunk_of user dir.now row.now }
{
    row.user == user && row.dir.as_bytes() == dir.as_bytes()
}
