//! What all nodes of each owner have, in bytes: running totals.

ghost use Rattle.std.specs.Prelude.{◌≡◌, ◌==◌, ◌<◌, ◌≤◌, ◌^◌, ℕ, true, [], ◌∷◌, if◌then◌else◌, None, Some, IfOk, length};
ghost use Rattle.std.specs.List.{All};
ghost use Rattle.nf_base.specs.Content.{size_of};
ghost use Rattle.nf_base.specs.declared.limits.TheConstants.{MAX_NODES};
ghost use Rattle.nf_charge.specs.Totals.{AreTotals, IsAdded, IsReplaced, IsTaken, bytes_owned, total_of};

use nf_base::{NodeRow, UserId};
use nf_defs::{FoundBy, Keyed};
use nf_table::Table;
use std::alloc::{AllocError, Global};
use std::cmp::Ordering;
use std::marker::Model;

/// How many bytes the nodes of an owner have together.
#[derive(Clone, Copy)]
pub struct Total {
    pub owner: UserId,
    pub bytes: u128,
}

impl Keyed for Total {
    ghost key = { λ total. total.owner ∷ [] };

    fn compare(&self, other: &Total) -> Ordering {
        self.owner.cmp(&other.owner)
    }
}

/// The total of an owner.
impl FoundBy<UserId> for Total {
    ghost numbers = { λ owner. owner ∷ [] };

    fn compare_to(&self, sought: &UserId) -> Ordering {
        self.owner.cmp(sought)
    }
}

/// The totals of all owners. They take no memory but where it is asked for: where there is none for another owner, nothing is known from then on.
#[derive(Drop)]
pub struct Totals {
    /// By rising owner.
    totals: Table<Total>,
    known: bool,
}

impl Model for Totals {
    ghost use Rattle.nf_charge.specs.Totals.{HeldTotals};

    ghost Value = { HeldTotals };

    ghost view = { λ totals. record { totals = totals.totals.rows; known = totals.known } };
}

impl Totals {
    /// Those of no nodes.
    pub fn new(alloc: Global) -> Self
        ensures { AreTotals [] result }
    {
        Totals {
            totals: Table::new(alloc),
            known: true,
        }
    }

    /// Those of these rows.
    pub fn of(alloc: Global, rows: &[NodeRow]) -> Result<Self, AllocError>
        ensures { IfOk result (λ totals. AreTotals rows.now totals) }
    {
        let mut totals = Totals::new(alloc);
        for row in rows {
            totals.reserve(1)?;
            totals.add(row.owner, row.content.size());
        }
        Ok(totals)
    }

    /// Makes room for so many owners more.
    pub fn reserve(&mut self, count: usize) -> Result<(), AllocError>
        ensures { self.new ≡ self.old }
    {
        self.totals.reserve(count)
    }

    /// The total of an owner, where it is known.
    pub fn get(&self, owner: UserId) -> Option<u128>
        ensures { result ≡ (if self.now.known then Some (total_of self.now.totals owner) else None) }
    {
        if self.known {
            Some(self.total(owner))
        } else {
            None
        }
    }

    fn total(&self, owner: UserId) -> u128
        ensures { result ≡ total_of self.now.totals owner }
    {
        match self.totals.find(&owner) {
            Some(total) => total.bytes,
            None => 0,
        }
    }

    /// An owner has so many bytes more. It takes no memory.
    pub fn add(&mut self, owner: UserId, bytes: u64)
        ensures { IsAdded self.old owner bytes self.new }
    {
        match self.total(owner).checked_add(u128::from(bytes)) {
            Some(bytes) => self.put(Total { owner, bytes }),
            None => self.known = false,
        }
    }

    /// An owner has so many bytes less. It takes no memory.
    pub fn take(&mut self, owner: UserId, bytes: u64)
        ensures { IsTaken self.old owner bytes self.new }
    {
        match self.total(owner).checked_sub(u128::from(bytes)) {
            Some(bytes) => self.put(Total { owner, bytes }),
            None => self.known = false,
        }
    }

    /// An owner has so many bytes in the place of others. It takes no memory.
    pub fn replace(&mut self, owner: UserId, old: u64, new: u64)
        ensures { IsReplaced self.old owner old new self.new }
    {
        self.take(owner, old);
        self.add(owner, new);
    }

    /// Gives an owner that total, where there is room for it.
    fn put(&mut self, total: Total)
        ensures { self.new.known ≡ true → (self.old.known ≡ true) × ((user : ℕ) → total_of self.new.totals user ≡ (if total.owner == user then total.bytes else total_of self.old.totals user)) }
    {
        if self.totals.has_room() || self.totals.find(&total.owner).is_some() {
            self.totals.put(total);
        } else {
            self.known = false;
        }
    }
}

/// How many bytes the rows of an owner have together, by a look at each.
pub fn bytes_owned(rows: &[NodeRow], owner: UserId) -> u128
    requires few { length rows.now ≤ MAX_NODES }
    requires sized { All (λ row. size_of row.content < 2 ^ 64) rows.now }
    ensures { result ≡ bytes_owned rows.now owner }
{
    let mut bytes = 0;
    for row in rows {
        if row.owner == owner {
            bytes += u128::from(row.content.size());
        }
    }
    bytes
}
