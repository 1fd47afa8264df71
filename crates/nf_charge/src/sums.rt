//! The sums, and what changes them.

ghost use Rattle.std.specs.Prelude.{◌≡◌, ◌+◌, ◌-◌, ◌<◌, ◌≤◌, ◌∷◌, ◌++◌, [], List, IfNone, IfOk, IfSome, OnOk, length, slice_index, slice_set, swap, take, vec_capacity, vec_len};
ghost use Rattle.std.specs.List.{All, remove};
ghost use Rattle.std.specs.Option.{ForSome};
ghost use Rattle.nf_base.specs.declared.limits.TheConstants.{MAX_NODES};
ghost use Rattle.nf_base.specs.declared.rows.NodeRow.{NodeRow};
ghost use Rattle.nf_charge.specs.Sums.{AreCarried, AreRisingNodes, AreSums, IsLifted, IsRefill, LeadUp, LeadsUp, MayCarry};

use crate::rows::{folder_of, index_of};
use nf_base::{MAX_DEPTH, NodeId, NodeRow};
use std::alloc::{AllocError, Global};
use std::marker::Model;

/// How many bytes what is under each node has: its own, and those of all that is in it, however far down.
#[derive(Drop)]
pub struct Sums {
    /// By the places of the rows.
    sums: Vec<u128>,
}

impl Model for Sums {
    ghost use Rattle.std.specs.Prelude.{vec_capacity};
    ghost use Rattle.nf_charge.specs.Held.{Held};

    ghost Value = { Held };

    ghost view = { λ sums. record { sums = sums.sums.items; room = vec_capacity sums.sums } };
}

impl Sums {
    /// No sums.
    pub fn new(alloc: Global) -> Self
        ensures { result.sums ≡ [] }
    {
        Sums {
            sums: Vec::new(alloc),
        }
    }

    /// The sums of these rows, with room for as many.
    pub fn of(alloc: Global, rows: &[NodeRow]) -> Result<Self, AllocError>
        requires rising { AreRisingNodes rows.now }
        requires leads { LeadUp rows.now }
        requires few { length rows.now ≤ MAX_NODES }
        ensures sums { IfOk result (λ sums. AreSums rows.now sums.sums) }
        ensures room { IfOk result (λ sums. length rows.now ≤ sums.room) }
    {
        let mut sums = Sums::new(alloc);
        sums.reserve(rows.len())?;
        sums.blank(rows);
        sums.count_all(rows);
        Ok(sums)
    }

    /// A sum for each of these rows, with nothing counted.
    fn blank(&mut self, rows: &[NodeRow])
        requires none { self.old.sums ≡ [] }
        requires room { length rows.now ≤ self.old.room }
        ensures long { length self.new.sums ≡ length rows.now }
        ensures zero { All (λ sum. sum ≡ 0) self.new.sums }
        ensures room { self.new.room ≡ self.old.room }
    {
        for _ in rows {
            self.sums.push_reserved(0);
        }
    }

    /// Counts each of these rows, of which none was. Of those that follow one another in one folder the folders above are told once, since
    /// a climb for each row would cost most of an opening.
    fn count_all(&mut self, rows: &[NodeRow])
        requires rising { AreRisingNodes rows.now }
        requires leads { LeadUp rows.now }
        requires few { length rows.now ≤ MAX_NODES }
        requires long { length self.old.sums ≡ length rows.now }
        requires zero { All (λ sum. sum ≡ 0) self.old.sums }
        ensures sums { AreSums rows.now self.new.sums }
        ensures room { self.new.room ≡ self.old.room }
    {
        let mut folder = None;
        let mut bytes = 0;
        for at in 0..rows.len() {
            let row = &rows[at];
            let here = folder_of(row.place);
            if here != folder {
                self.count_run(rows, folder, bytes);
                folder = here;
                bytes = 0;
            }
            let own = u128::from(row.content.size());
            self.sums[at] += own;
            bytes += own;
        }
        self.count_run(rows, folder, bytes);
    }

    /// Counts so many bytes of rows in a folder, if they are in one, for it and for all above it.
    fn count_run(&mut self, rows: &[NodeRow], folder: Option<NodeId>, bytes: u128)
        requires rising { AreRisingNodes rows.now }
        requires long { length self.old.sums ≡ length rows.now }
        requires leads { ForSome folder (λ folder. LeadsUp rows.now (MAX_DEPTH - 1) folder) }
        requires fits { ForSome folder (λ folder. MayCarry (MAX_DEPTH - 1) rows.now folder 0 bytes self.old.sums) }
        ensures sums { IfSome folder (λ folder. AreCarried (MAX_DEPTH - 1) rows.now folder 0 bytes self.old.sums self.new.sums) }
        ensures none { IfNone folder (self.new.sums ≡ self.old.sums) }
        ensures room { self.new.room ≡ self.old.room }
    {
        if let Some(folder) = folder {
            carry(rows, &mut self.sums, MAX_DEPTH - 1, folder, 0, bytes);
        }
    }

    /// Makes room for so many sums in all.
    pub fn reserve(&mut self, count: usize) -> Result<(), AllocError>
        ensures sums { self.new.sums ≡ self.old.sums }
        ensures room { OnOk result (count ≤ self.new.room) }
        ensures grown { self.old.room ≤ self.new.room }
    {
        let many = self.sums.len();
        if many < count {
            self.sums.reserve(count - many)?;
        }
        Ok(())
    }

    /// The sum of the row at a place, in bytes.
    pub fn get(&self, at: usize) -> u128
        requires { at < length self.now.sums }
        ensures { result ≡ slice_index self.now.sums at }
    {
        self.sums[at]
    }

    /// Counts the last row, which is new. It takes no memory, and nor does any other change.
    pub fn push(&mut self, rows: &[NodeRow])
        requires room { length self.old.sums < self.old.room }
        requires rising { AreRisingNodes rows.now }
        requires few { length rows.now ≤ MAX_NODES }
        requires leads { LeadUp rows.now }
        requires sums { (before : List NodeRow) × (row : NodeRow) × (rows.now ≡ before ++ row ∷ []) × LeadUp before × AreSums before self.old.sums }
        ensures sums { AreSums rows.now self.new.sums }
        ensures room { self.new.room ≡ self.old.room }
    {
        let last = rows.len() - 1;
        let row = &rows[last];
        let bytes = u128::from(row.content.size());
        self.sums.push_reserved(bytes);
        self.enter(rows, last);
    }

    /// Counts so many bytes of the row at a place in the place of those that it has.
    pub fn change(&mut self, rows: &[NodeRow], at: usize, bytes: u64)
        requires there { at < length rows.now }
        requires rising { AreRisingNodes rows.now }
        requires few { length rows.now ≤ MAX_NODES }
        requires leads { LeadUp rows.now }
        requires sums { AreSums rows.now self.old.sums }
        ensures sums { (row : NodeRow) → IsRefill rows.now at row bytes → AreSums (slice_set rows.now at row) self.new.sums }
        ensures room { self.new.room ≡ self.old.room }
    {
        let row = &rows[at];
        let old = u128::from(row.content.size());
        carry(
            rows,
            &mut self.sums,
            MAX_DEPTH,
            row.id,
            old,
            u128::from(bytes),
        );
    }

    /// No longer counts what is under the node at a place for those above it.
    pub fn leave(&mut self, rows: &[NodeRow], at: usize)
        requires there { at < length rows.now }
        requires rising { AreRisingNodes rows.now }
        requires few { length rows.now ≤ MAX_NODES }
        requires leads { LeadUp rows.now }
        requires sums { AreSums rows.now self.old.sums }
        ensures sums { (row : NodeRow) → IsLifted rows.now at row → AreSums (slice_set rows.now at row) self.new.sums }
        ensures room { self.new.room ≡ self.old.room }
    {
        let row = &rows[at];
        if let Some(folder) = folder_of(row.place) {
            let bytes = self.sums[at];
            carry(rows, &mut self.sums, MAX_DEPTH - 1, folder, bytes, 0);
        }
    }

    /// Counts what is under the node at a place for those above it, which didn't count it.
    pub fn enter(&mut self, rows: &[NodeRow], at: usize)
        requires there { at < length rows.now }
        requires rising { AreRisingNodes rows.now }
        requires few { length rows.now ≤ MAX_NODES }
        requires leads { LeadUp rows.now }
        requires sums { (row : NodeRow) × IsLifted rows.now at row × AreSums (slice_set rows.now at row) self.old.sums }
        ensures sums { AreSums rows.now self.new.sums }
        ensures room { self.new.room ≡ self.old.room }
    {
        let row = &rows[at];
        if let Some(folder) = folder_of(row.place) {
            let bytes = self.sums[at];
            carry(rows, &mut self.sums, MAX_DEPTH - 1, folder, 0, bytes);
        }
    }

    /// Drops the sum at a place; those behind it move up.
    pub fn remove(&mut self, at: usize)
        requires { at < length self.old.sums }
        ensures sums { self.new.sums ≡ remove self.old.sums at }
        ensures room { self.new.room ≡ self.old.room }
    {
        self.sums.remove(at);
    }

    /// Exchanges the sums at two places.
    pub fn swap(&mut self, a: usize, b: usize)
        requires a { a < length self.old.sums }
        requires b { b < length self.old.sums }
        ensures sums { self.new.sums ≡ swap self.old.sums a b }
        ensures room { self.new.room ≡ self.old.room }
    {
        self.sums.swap(a, b);
    }

    /// Drops all but the first sums.
    pub fn truncate(&mut self, count: usize)
        ensures sums { self.new.sums ≡ take count self.old.sums }
        ensures room { self.new.room ≡ self.old.room }
    {
        self.sums.truncate(count);
    }
}

/// Puts so many bytes in the place of so many in the sums of a node and of all above it, at most so many folders up.
fn carry(rows: &[NodeRow], sums: &mut Vec<u128>, up: u32, node: NodeId, old: u128, new: u128)
    requires rising { AreRisingNodes rows.now }
    requires long { vec_len sums.old ≡ length rows.now }
    requires leads { LeadsUp rows.now up node }
    requires fits { MayCarry up rows.now node old new sums.old.items }
    ensures sums { AreCarried up rows.now node old new sums.old.items sums.new.items }
    ensures room { vec_capacity sums.new ≡ vec_capacity sums.old }
{
    let at = index_of(rows, node).unwrap();
    sums[at] = sums[at] - old + new;
    let row = &rows[at];
    if let Some(folder) = folder_of(row.place) {
        carry(rows, sums, up - 1, folder, old, new);
    }
}
