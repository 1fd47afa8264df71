//! Rows that are found by their keys, by halving.

ghost use Rattle.std.specs.Prelude.{◌≡◌, ◌≤◌, [], ◌∷◌, ℕ, List, bytes_eq, find, length, vec_capacity, option_copied};
ghost use Rattle.std.specs.List.{list_any, position};
ghost use Rattle.nf_defs.specs.Puts.{dropped, key_cmp};
ghost use Rattle.nf_defs.specs.Rising.{IsRising};

use crate::Keyed;
use nf_base::{Digest, GroupId, GroupRow, ItemRow, MemberRow, NodeId, TokenRow, UserId, UserRow};
use std::cmp::Ordering;

/// Rows that are found by a key of that type.
pub trait FoundBy<K>: Keyed {
    ghost numbers: { K → List ℕ };

    /// How the row's key stands to that one.
    fn compare_to(&self, sought: &K) -> Ordering
        ensures { result ≡ key_cmp (Self.key self.now) (numbers sought.now) };
}

/// The place of the row with that key among rows by rising key.
pub fn place_of<K, R: FoundBy<K>>(rows: &[R], sought: &K) -> Option<usize>
    requires { IsRising R.key rows.now }
    ensures { result ≡ position (λ row. bytes_eq (R.key row) (R.numbers sought.now)) rows.now }
{
    rows.binary_search_by(|row| row.compare_to(sought)).ok()
}

/// The row with that key among rows by rising key.
pub fn row_of<'a, K, R: FoundBy<K>>(rows: &'a [R], sought: &K) -> Option<&'a R>
    requires { IsRising R.key rows.now }
    ensures { option_copied result ≡ find (λ row. bytes_eq (R.key row) (R.numbers sought.now)) rows.now }
{
    let at = place_of(rows, sought)?;
    Some(&rows[at])
}

/// Whether a row with that key is among rows by rising key.
pub fn has_row<K, R: FoundBy<K>>(rows: &[R], sought: &K) -> bool
    requires { IsRising R.key rows.now }
    ensures { result ≡ list_any (λ row. bytes_eq (R.key row) (R.numbers sought.now)) rows.now }
{
    place_of(rows, sought).is_some()
}

/// Takes the row with that key out of rows by rising key, and tells whether it was there. It takes no memory.
pub fn drop_row<K, R: FoundBy<K> + Drop>(rows: &mut Vec<R>, sought: &K) -> bool
    requires { IsRising R.key rows.old.items }
    ensures found { result ≡ list_any (λ row. bytes_eq (R.key row) (R.numbers sought.now)) rows.old.items }
    ensures rows { rows.new.items ≡ dropped R.key (R.numbers sought.now) rows.old.items }
    ensures rising { IsRising R.key rows.new.items }
    ensures count { length rows.new.items ≤ length rows.old.items }
    ensures room { vec_capacity rows.new ≡ vec_capacity rows.old }
{
    match place_of(rows, sought) {
        Some(at) => {
            rows.remove(at);
            true
        }
        None => false,
    }
}

impl FoundBy<UserId> for UserRow {
    ghost numbers = { λ id. id ∷ [] };

    fn compare_to(&self, sought: &UserId) -> Ordering {
        self.id.cmp(sought)
    }
}

impl FoundBy<Digest> for TokenRow {
    ghost numbers = { λ digest. digest };

    fn compare_to(&self, sought: &Digest) -> Ordering {
        self.digest.as_bytes().cmp(sought.as_bytes())
    }
}

impl FoundBy<GroupId> for GroupRow {
    ghost numbers = { λ id. id ∷ [] };

    fn compare_to(&self, sought: &GroupId) -> Ordering {
        self.id.cmp(sought)
    }
}

/// A member's row is all key.
impl FoundBy<MemberRow> for MemberRow {
    ghost numbers = { λ row. row.group ∷ row.user ∷ [] };

    fn compare_to(&self, sought: &MemberRow) -> Ordering {
        self.compare(sought)
    }
}

/// An item of the trash is found by its node.
impl FoundBy<NodeId> for ItemRow {
    ghost numbers = { λ node. node ∷ [] };

    fn compare_to(&self, sought: &NodeId) -> Ordering {
        self.node.cmp(sought)
    }
}
