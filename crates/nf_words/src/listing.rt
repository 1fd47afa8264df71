//! Listings of folders, of the trash and of versions.

ghost use Rattle.std.specs.Prelude.{◌≡◌};

use nf_base::{Moment, Name, NodeId, NodeKind, Perms};
use std::marker::Model;

/// What a listing tells of a node.
#[derive(Drop)]
pub struct ListingLine {
    /// When it was made or its content replaced.
    pub changed: Moment,
    pub id: NodeId,
    pub kind: NodeKind,
    pub name: Name,
    /// The name of its owner.
    pub owner: Name,
    /// What who asks may do with it.
    pub permissions: Perms,
    /// The bytes of the file, or of all files under the folder; 2^64 - 1 at most.
    pub size: u64,
}

/// What is in a folder, by name.
#[derive(Drop)]
pub struct Listing {
    lines: Vec<ListingLine>,
}

impl Model for Listing {
    ghost use Rattle.std.specs.Prelude.{List};
    ghost use Rattle.nf_words.specs.declared.listing.ListingLine.{ListingLine};

    ghost Value = { List ListingLine };

    ghost view = { λ listing. listing.lines.items };
}

impl Listing {
    pub fn new(lines: Vec<ListingLine>) -> Self
        ensures { result ≡ lines.items }
    {
        Listing { lines }
    }

    pub fn lines(&self) -> &[ListingLine]
        ensures { result.now ≡ self.now }
    {
        &self.lines
    }
}

/// What is told of an item of the trash.
#[derive(Drop)]
pub struct ItemLine {
    /// When it was put there.
    pub at: Moment,
    pub id: NodeId,
    pub kind: NodeKind,
    pub name: Name,
    /// The bytes of the file, or of all files under the folder; 2^64 - 1 at most.
    pub size: u64,
}

/// What is in the trash of a user, newest first.
#[derive(Drop)]
pub struct Items {
    lines: Vec<ItemLine>,
}

impl Model for Items {
    ghost use Rattle.std.specs.Prelude.{List};
    ghost use Rattle.nf_words.specs.declared.listing.ItemLine.{ItemLine};

    ghost Value = { List ItemLine };

    ghost view = { λ items. items.lines.items };
}

impl Items {
    pub fn new(lines: Vec<ItemLine>) -> Self
        ensures { result ≡ lines.items }
    {
        Items { lines }
    }

    pub fn lines(&self) -> &[ItemLine]
        ensures { result.now ≡ self.now }
    {
        &self.lines
    }
}

/// What is told of a version of a file.
#[derive(Clone, Copy)]
pub struct VersionLine {
    /// When it became the file's content.
    pub at: Moment,
    /// Its bytes.
    pub size: u64,
}

/// Which versions a file has, newest first.
#[derive(Drop)]
pub struct Versions {
    lines: Vec<VersionLine>,
}

impl Model for Versions {
    ghost use Rattle.std.specs.Prelude.{List};
    ghost use Rattle.nf_words.specs.declared.listing.VersionLine.{VersionLine};

    ghost Value = { List VersionLine };

    ghost view = { λ versions. versions.lines.items };
}

impl Versions {
    pub fn new(lines: Vec<VersionLine>) -> Self
        ensures { result ≡ lines.items }
    {
        Versions { lines }
    }

    pub fn lines(&self) -> &[VersionLine]
        ensures { result.now ≡ self.now }
    {
        &self.lines
    }
}
