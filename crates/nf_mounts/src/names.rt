//! Mounts by their names.

ghost use Rattle.std.specs.Prelude.{◌≡◌, ◌≤◌, ◌<◌, ◌&&◌, None, [], ◌∷◌, ◌++◌, length, filter, find, map, not, option_copied, IfOk};
ghost use Rattle.nf_access.specs.Mounts.{mount_row};
ghost use Rattle.nf_defs.specs.Prelude.{IsRising, key_cmp, mount_key, put};
ghost use Rattle.nf_mounts.specs.Kept.{AreCleared, AreNamed, IsNameIndex, entry_key, entry_of, has_name, is_other};
ghost use Rattle.nf_table.specs.Rows.{front_cmp};

use nf_base::{Digest, MountRow, Name, NodeId, UserId};
use nf_defs::{FoundBy, Keyed};
use nf_table::{BegunBy, MountKey, Table};
use std::alloc::{AllocError, Global};
use std::cmp::Ordering;

/// A user, the digest of a name, and the user's mount of that name.
#[derive(Clone, Copy)]
pub(crate) struct NamedMount {
    pub(crate) user: UserId,
    pub(crate) name: Digest,
    pub(crate) node: NodeId,
}

/// A user, and the digest of a name.
#[derive(Clone, Copy)]
pub(crate) struct MountName {
    pub(crate) user: UserId,
    pub(crate) name: Digest,
}

impl NamedMount {
    pub(crate) fn of(row: &MountRow) -> Self
        ensures { result ≡ entry_of row.now }
    {
        NamedMount {
            user: row.user,
            name: Digest::of(row.name.as_bytes()),
            node: row.node,
        }
    }
}

/// How a user and a digest stand to others in keys. All digests are as long as each other.
fn compare_names(user: UserId, name: &Digest, other: UserId, other_name: &Digest) -> Ordering
    ensures { result ≡ key_cmp (user ∷ length name.now ∷ name.now) (other ∷ length other_name.now ∷ other_name.now) }
{
    let bytes = name.as_bytes();
    let others = other_name.as_bytes();
    user.cmp(&other)
        .then(bytes.len().cmp(&others.len()))
        .then(bytes.cmp(others))
}

impl Keyed for NamedMount {
    ghost key = { entry_key };

    #[tactic(auto, using(nf_defs::proofs::Puts::chunk_cmp))]
    fn compare(&self, other: &NamedMount) -> Ordering {
        compare_names(self.user, &self.name, other.user, &other.name).then(
            self.node.cmp(&other.node),
        )
    }
}

impl FoundBy<NamedMount> for NamedMount {
    ghost numbers = { entry_key };

    fn compare_to(&self, sought: &NamedMount) -> Ordering {
        self.compare(sought)
    }
}

/// The mounts of a user whose names have that digest.
impl BegunBy<MountName> for NamedMount {
    ghost numbers = { λ front. front.user ∷ length front.name ∷ front.name };

    fn compare_front(&self, front: &MountName) -> Ordering {
        compare_names(self.user, &self.name, front.user, &front.name)
    }
}

/// The entries of the rows of mounts that weren't left.
fn entries_of(alloc: Global, rows: &[MountRow]) -> Result<Vec<NamedMount>, AllocError>
    ensures { IfOk result (λ entries. entries.items ≡ map entry_of (filter (λ row. not row.left) rows.now)) }
{
    rows.iter()
        .filter(|row| !row.left)
        .map(NamedMount::of)
        .collect(alloc)
}

/// The entries by rising key.
fn sorted_entries(alloc: Global, rows: &[MountRow]) -> Result<Vec<NamedMount>, AllocError>
    requires { IsRising mount_key rows.now }
    ensures { IfOk result (λ entries. IsNameIndex entries.items rows.now) }
{
    let mut entries = entries_of(alloc, rows)?;
    entries.sort_unstable_by(|a, b| a.compare(b));
    Ok(entries)
}

/// The mounts of these rows that weren't left, by their names, with room for the others.
pub(crate) fn name_index(alloc: Global, rows: &[MountRow]) -> Result<Table<NamedMount>, AllocError>
    requires { IsRising mount_key rows.now }
    ensures { IfOk result (λ index. AreNamed index rows.now) }
{
    let mut index = Table::of(sorted_entries(alloc, rows)?);
    let others = rows.len() - index.count();
    index.reserve(others)?;
    Ok(index)
}

/// Takes the entry of the user's mount of a node out of the index, where it has one.
fn clear(index: &mut Table<NamedMount>, rows: &Table<MountRow>, user: UserId, node: NodeId)
    requires { IsNameIndex index.old.rows rows.now.rows }
    ensures cleared { AreCleared index.new.rows rows.now.rows user node }
    ensures room { index.new.room ≡ index.old.room }
{
    if let Some(row) = rows.find(&MountKey { user, node }) {
        index.drop(&NamedMount::of(row));
    }
}

/// Gives the index the entry of a row that is to be put, in place of that of the row that is there.
pub(crate) fn renew(index: &mut Table<NamedMount>, rows: &Table<MountRow>, row: &MountRow)
    requires index { IsNameIndex index.old.rows rows.now.rows }
    requires room { length (put mount_key row.now rows.now.rows) ≤ index.old.room }
    ensures index { IsNameIndex index.new.rows (put mount_key row.now rows.now.rows) }
    ensures room { index.old.room ≤ index.new.room }
{
    clear(index, rows, row.user, row.node);
    if !row.left {
        index.put(NamedMount::of(row));
    }
}

/// The first of these entries whose mount has that name, but for the mount of a node.
pub(crate) fn first_named<'a>(
    entries: &'a [NamedMount],
    rows: &Table<MountRow>,
    name: &Name,
    but: Option<NodeId>,
) -> Option<&'a NamedMount>
    ensures { option_copied result ≡ find (λ entry. is_other but entry.node && has_name rows.now.rows name.now entry) entries.now }
{
    entries.iter().find(|entry| is_other(but, entry.node) && has_name(rows, name, entry))
}

/// Whether the mount of an entry has that name.
fn has_name(rows: &Table<MountRow>, name: &Name, entry: &NamedMount) -> bool
    ensures { result ≡ has_name rows.now.rows name.now entry.now }
{
    let key = MountKey {
        user: entry.user,
        node: entry.node,
    };
    match rows.find(&key) {
        Some(row) => row.name.as_bytes() == name.as_bytes(),
        None => false,
    }
}

/// Whether the node is another than that one, if there is one.
fn is_other(but: Option<NodeId>, node: NodeId) -> bool
    ensures { result ≡ is_other but node }
{
    match but {
        Some(but) => node != but,
        None => true,
    }
}
