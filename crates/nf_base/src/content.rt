//! What a file contains: pieces, each a blob with its size and its digest.

ghost use Rattle.std.specs.Prelude.{◌≡◌, [], length};
ghost use Rattle.std.specs.Cmp.{partial_equiv_from_equiv};
ghost use Rattle.std.specs.Cmp.Rules.{comparing};
ghost use Rattle.std.proofs.Common.{rules};
ghost use Rattle.sha2.specs.Sha256.{sha256};

use crate::BlobId;
use sha2::{Digest as _, Sha256};
use std::alloc::{AllocError, Global};
use std::marker::Model;

/// The SHA-256 digest of some bytes (FIPS 180-4). Digests are ordered by their bytes.
#[derive(Clone, Copy, PartialEq, Eq, PartialOrd, Ord)]
pub struct Digest {
    bytes: [u8; 32],
}

impl Model for Digest {
    ghost use Rattle.std.specs.Prelude.{List, ℕ};

    ghost Value = { List ℕ };

    ghost view = { λ digest. digest.bytes };

    ghost inverse = { λ bytes. record { bytes = bytes } };
}

impl Digest {
    pub fn new(bytes: [u8; 32]) -> Self
        ensures { result ≡ bytes }
    {
        Digest { bytes }
    }

    /// The digest of these bytes.
    pub fn of(bytes: &[u8]) -> Self
        ensures { result ≡ sha256 bytes.now }
    {
        let mut hasher = Sha256::new();
        hasher.update(bytes);
        Digest {
            bytes: hasher.finalize(),
        }
    }

    pub fn as_bytes(&self) -> &[u8]
        ensures bytes { result.now ≡ self.now }
        ensures whole { length self.now ≡ 32 }
    {
        &self.bytes
    }
}

/// Some bytes of a file: the blob that holds them, how many they are, and their digest.
#[derive(Clone, Copy, PartialEq, Eq)]
pub struct Piece {
    pub blob: BlobId,
    /// From 1 to `MAX_BODY` in a content.
    pub size: u32,
    pub digest: Digest,
}

/// The pieces of a file in their order, at most `MAX_PIECES`. An empty file has none.
#[derive(Clone, Drop)]
pub struct Content {
    pieces: Vec<Piece>,
}

impl Model for Content {
    ghost use Rattle.std.specs.Prelude.{List};
    ghost use Rattle.nf_base.specs.Kept.{IsContent};
    ghost use Rattle.nf_base.specs.declared.content.Piece.{Piece};

    ghost Value = { List Piece };

    ghost view = { λ content. content.pieces.items };

    ghost invariant = { λ content. IsContent content.pieces.items };
}

impl Content {
    ghost use Rattle.nf_base.specs.Content.{size_of};
    ghost use Rattle.nf_base.specs.Kept.{IsContent};

    /// The content of an empty file, and of a folder.
    pub fn empty(alloc: Global) -> Self
        ensures { result ≡ [] }
    {
        Content {
            pieces: Vec::new(alloc),
        }
    }

    pub fn new(pieces: Vec<Piece>) -> Self
        requires { IsContent pieces.items }
        ensures { result ≡ pieces.items }
    {
        Content { pieces }
    }

    pub fn pieces(&self) -> &[Piece]
        ensures pieces { result.now ≡ self.now }
        ensures kept { IsContent self.now }
    {
        &self.pieces
    }

    /// How many bytes the file has.
    pub fn size(&self) -> u64
        ensures { result ≡ size_of self.now }
    {
        let mut size = 0;
        for piece in &self.pieces {
            size += u64::from(piece.size);
        }
        size
    }
}

impl PartialEq for Content {
    ghost use Rattle.nf_base.specs.Content.{content_eq};

    ghost eq = { content_eq };

    ghost laws = { partial_equiv_from_equiv (Prim.search (comparing, rules)) };

    fn eq(&self, other: &Content) -> bool {
        self.pieces.as_slice() == other.pieces.as_slice()
    }
}

impl Eq for Content {
    ghost laws = { Prim.search (comparing, rules) };
}
