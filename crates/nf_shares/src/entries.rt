//! Indexes of shares: each row has a number, by which its share is found.

ghost use Rattle.std.specs.Prelude.{◌≡◌, ◌+◌, ◌<◌, ◌≤◌, ℕ, None, Some, [], ◌∷◌, length, map, IfOk, refl};
ghost use Rattle.nf_access.specs.Shares.{share_row};
ghost use Rattle.nf_base.specs.declared.rows.ShareRow.{ShareRow};
ghost use Rattle.nf_defs.specs.Prelude.{IsRising, key_cmp, put, share_key};
ghost use Rattle.nf_shares.specs.Kept.{IsIndex, entry_key, entry_of};
ghost use Rattle.nf_table.specs.Rows.{front_cmp};

use nf_base::{NodeId, ShareId, ShareRow};
use nf_defs::{FoundBy, Keyed};
use nf_table::{BegunBy, ShareKey, Table};
use std::alloc::{AllocError, Global};
use std::cmp::Ordering;

/// What an index finds shares by: it is made of a row, and goes by its number.
pub trait IndexKey: Copy + Drop {
    ghost number: { Self → ℕ };

    ghost of_row: { ShareRow → Self };

    fn of_row(row: &ShareRow) -> Self
        ensures { result ≡ of_row row.now };

    fn number(&self) -> u64
        ensures { result ≡ number self.now };

    ghost each_number: { (n : ℕ) → (by : Self) × (number by ≡ n) };
}

impl IndexKey for NodeId {
    ghost number = { λ node. node };

    ghost of_row = { λ row. row.node };

    ghost each_number = { λ n. (n, refl) };

    fn of_row(row: &ShareRow) -> NodeId {
        row.node
    }

    fn number(&self) -> u64 {
        NodeId::number(*self)
    }
}

/// What a share is found by, and the share.
#[derive(Clone, Copy)]
pub struct Entry<K> {
    pub by: K,
    pub share: ShareId,
}

impl<K: IndexKey> Keyed for Entry<K> {
    ghost key = { entry_key K.number };

    fn compare(&self, other: &Entry<K>) -> Ordering {
        self.by
            .number()
            .cmp(&other.by.number())
            .then(self.share.cmp(&other.share))
    }
}

/// An entry is all key.
impl<K: IndexKey> FoundBy<Entry<K>> for Entry<K> {
    ghost numbers = { entry_key K.number };

    fn compare_to(&self, sought: &Entry<K>) -> Ordering {
        self.compare(sought)
    }
}

/// The shares that are found by the same.
impl<K: IndexKey> BegunBy<K> for Entry<K> {
    ghost numbers = { λ by. K.number by ∷ [] };

    fn compare_front(&self, front: &K) -> Ordering {
        self.by.number().cmp(&front.number())
    }
}

fn entry_of<K: IndexKey>(row: &ShareRow) -> Entry<K>
    ensures { result ≡ entry_of K.of_row row.now }
{
    Entry {
        by: K::of_row(row),
        share: row.id,
    }
}

/// The entries of these rows, in their order.
fn entries_of<K: IndexKey>(alloc: Global, rows: &[ShareRow]) -> Result<Vec<Entry<K>>, AllocError>
    ensures { IfOk result (λ entries. entries.items ≡ map (entry_of K.of_row) rows.now) }
{
    let mut entries = Vec::with_capacity(alloc, rows.len())?;
    for row in rows {
        entries.push(entry_of(row))?;
    }
    Ok(entries)
}

/// The entries by rising key. The rows are by their numbers, so it is enough to sort by what they are found by, where those of one stay in order.
fn sorted_entries<K: IndexKey>(
    alloc: Global,
    rows: &[ShareRow],
) -> Result<Vec<Entry<K>>, AllocError>
    requires { IsRising share_key rows.now }
    ensures { IfOk result (λ entries. IsIndex K.number K.of_row entries.items rows.now) }
{
    let mut entries = entries_of::<K>(alloc, rows)?;
    entries.sort_by_key(|entry| entry.by.number())?;
    Ok(entries)
}

/// The index of these rows.
pub(crate) fn index_of<K: IndexKey>(
    alloc: Global,
    rows: &[ShareRow],
) -> Result<Table<Entry<K>>, AllocError>
    requires { IsRising share_key rows.now }
    ensures { IfOk result (λ index. IsIndex K.number K.of_row index.rows rows.now) }
{
    Ok(Table::of(sorted_entries(alloc, rows)?))
}

/// Gives the index the entry of a row that is to be put, in place of the entry of the row which has its number.
pub(crate) fn renew<K: IndexKey>(
    index: &mut Table<Entry<K>>,
    rows: &Table<ShareRow>,
    row: &ShareRow,
)
    requires index { IsIndex K.number K.of_row index.old.rows rows.now.rows }
    requires room { share_row rows.now.rows row.now.id ≡ None → length index.old.rows < index.old.room }
    ensures index { IsIndex K.number K.of_row index.new.rows (put share_key row.now rows.now.rows) }
    ensures count { length index.new.rows + length rows.now.rows ≤ length index.old.rows + length (put share_key row.now rows.now.rows) }
    ensures room { index.old.room ≤ index.new.room }
{
    // That what is there fits has to be known where an entry goes first.
    let _ = index.count();
    let entry = entry_of::<K>(row);
    if let Some(old) = rows.find(&ShareKey { id: row.id }) {
        let old = entry_of::<K>(old);
        if old.by.number() == entry.by.number() {
            return;
        }
        index.drop(&old);
    }
    index.put(entry);
}
