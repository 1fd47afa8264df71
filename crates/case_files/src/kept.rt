//! What a keeper has: rows, as they are kept, and the bytes of blobs.

ghost use Rattle.std.specs.Prelude.{◌≡◌, []};
ghost use Rattle.std.specs.Cmp.{partial_equiv_from_equiv};
ghost use Rattle.std.specs.Cmp.Rules.{comparing};
ghost use Rattle.std.proofs.Common.{rules};
ghost use Rattle.case_files.specs.Same.{blob_eq, row_eq};

use std::alloc::Global;
use std::cmp::Ordering;
use std::marker::Model;

/// All that a keeper has.
#[derive(Drop)]
pub struct Kept {
    /// By rising kind and key.
    pub rows: Vec<KeptRow>,
    /// By rising number.
    pub blobs: Vec<Blob>,
}

impl Kept {
    pub fn nothing(alloc: Global) -> Self
        ensures rows { result.rows.items ≡ [] }
        ensures blobs { result.blobs.items ≡ [] }
    {
        Kept {
            rows: Vec::new(alloc),
            blobs: Vec::new(alloc),
        }
    }
}

/// A row: its kind, and the bytes of its key and of its body.
#[derive(Drop)]
pub struct KeptRow {
    kind: u8,
    key: Vec<u8>,
    body: Vec<u8>,
}

impl Model for KeptRow {
    ghost use Rattle.case_files.specs.Same.{Row};

    ghost Value = { Row };

    ghost view = { λ row. record { kind = row.kind; key = row.key.items; body = row.body.items } };
}

impl KeptRow {
    pub fn new(kind: u8, key: Vec<u8>, body: Vec<u8>) -> Self
        ensures { result ≡ record { kind = kind; key = key.items; body = body.items } }
    {
        KeptRow { kind, key, body }
    }

    pub fn kind(&self) -> u8
        ensures { result ≡ self.now.kind }
    {
        self.kind
    }

    pub fn key(&self) -> &[u8]
        ensures { result.now ≡ self.now.key }
    {
        &self.key
    }

    pub fn body(&self) -> &[u8]
        ensures { result.now ≡ self.now.body }
    {
        &self.body
    }

    /// Whether it stands before another, by its kind and then by the bytes of its key.
    pub(crate) fn is_before(&self, other: &KeptRow) -> bool {
        let order = self
            .kind
            .cmp(&other.kind)
            .then(self.key.as_slice().cmp(other.key.as_slice()));
        order == Ordering::Less
    }
}

impl PartialEq for KeptRow {
    ghost eq = { row_eq };

    ghost laws = { partial_equiv_from_equiv (Prim.search (comparing, rules)) };

    fn eq(&self, other: &KeptRow) -> bool {
        self.kind == other.kind
            && self.key.as_slice() == other.key.as_slice()
            && self.body.as_slice() == other.body.as_slice()
    }
}

/// The bytes under a blob's number.
#[derive(Drop)]
pub struct Blob {
    number: u64,
    bytes: Vec<u8>,
}

impl Model for Blob {
    ghost use Rattle.std.specs.Prelude.{ℕ, List};

    ghost Value = { ℕ × List ℕ };

    ghost view = { λ blob. (blob.number, blob.bytes.items) };
}

impl Blob {
    pub fn new(number: u64, bytes: Vec<u8>) -> Self
        ensures { result ≡ (number, bytes.items) }
    {
        Blob { number, bytes }
    }

    pub fn number(&self) -> u64
        ensures { result ≡ self.now.0 }
    {
        self.number
    }

    pub fn bytes(&self) -> &[u8]
        ensures { result.now ≡ self.now.1 }
    {
        &self.bytes
    }
}

impl PartialEq for Blob {
    ghost eq = { blob_eq };

    ghost laws = { partial_equiv_from_equiv (Prim.search (comparing, rules)) };

    fn eq(&self, other: &Blob) -> bool {
        self.number == other.number && self.bytes.as_slice() == other.bytes.as_slice()
    }
}
