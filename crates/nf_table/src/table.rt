//! A table of rows.

ghost use Rattle.std.specs.Prelude.{◌≡◌, ◌+◌, ◌≤◌, ◌<◌, [], Bool, None, bytes_eq, filter, length, map, nat_lt, reverse, IsOk, OnOk, option_copied};
ghost use Rattle.std.specs.Fn.{FnOnceReturnsAtMut, FnReturnsAt};
ghost use Rattle.std.specs.List.{list_any};
ghost use Rattle.nf_defs.specs.Prelude.{dropped, IsRising, put};
ghost use Rattle.nf_table.specs.Rows.{AreSorted, Changes, all_dropped, begins, row_at};
ghost use Rattle.nf_table.specs.Swaps.{AreOwn, IsOwn, swapped, taken, tried, turned};

use crate::keys::{BegunBy, front_of, has_key};
use crate::places::{exchange, place_for, put_at};
use crate::swaps::Swap;
use nf_defs::{FoundBy, Keyed, drop_row, place_of, row_of};
use std::alloc::{AllocError, Global};
use std::marker::Model;

/// Rows of one kind, by rising key. A row is found by halving; what puts a new row or drops one moves those behind it.
#[derive(Drop)]
pub struct Table<R: Keyed> {
    rows: Vec<R>,
}

impl<R: Keyed> Model for Table<R> {
    ghost use Rattle.std.specs.Prelude.{vec_capacity};
    ghost use Rattle.nf_table.specs.Rows.{IsTable, TableValue};

    ghost Value = { TableValue R };

    ghost view = { λ table. record { rows = table.rows.items; room = vec_capacity table.rows } };

    ghost invariant = { λ table. IsTable R.key table.rows.items (vec_capacity table.rows) };
}

impl<R: Keyed + Drop> Table<R> {
    /// A table without rows.
    pub fn new(alloc: Global) -> Self
        ensures { result.rows ≡ [] }
    {
        Table {
            rows: Vec::new(alloc),
        }
    }

    /// The table of these rows.
    pub fn of(rows: Vec<R>) -> Self
        requires { IsRising R.key rows.items }
        ensures { result.rows ≡ rows.items }
    {
        Table { rows }
    }

    /// All rows, by rising key.
    pub fn rows(&self) -> &[R]
        ensures rows { result.now ≡ self.now.rows }
        ensures rising { IsRising R.key self.now.rows }
    {
        &self.rows
    }

    /// How many rows there are.
    pub fn count(&self) -> usize
        ensures count { result ≡ length self.now.rows }
        ensures room { length self.now.rows ≤ self.now.room }
    {
        self.rows.len()
    }

    /// Whether one row more fits without more memory.
    pub fn has_room(&self) -> bool
        ensures { result ≡ nat_lt (length self.now.rows) self.now.room }
    {
        self.rows.len() < self.rows.capacity()
    }

    /// Makes room for so many rows more. The one error is that there is no memory for them.
    pub fn reserve(&mut self, count: usize) -> Result<(), AllocError>
        ensures room { OnOk result (length self.new.rows + count ≤ self.new.room) }
        ensures fits { length self.old.rows + count ≤ self.old.room → IsOk result }
        ensures rows { self.new.rows ≡ self.old.rows }
        ensures kept { self.old.room ≤ self.new.room }
    {
        self.rows.reserve(count)
    }

    /// The row with that key.
    pub fn find<K>(&self, key: &K) -> Option<&R>
    where
        R: FoundBy<K>,
        ensures { option_copied result ≡ row_at R.key (R.numbers key.now) self.now.rows }
    {
        row_of(&self.rows, key)
    }

    /// The rows whose keys begin with that front, found by two halvings.
    pub fn front<K>(&self, front: &K) -> &[R]
    where
        R: BegunBy<K>,
        ensures { result.now ≡ filter (λ row. begins (R.key row) (R.numbers front.now)) self.now.rows }
    {
        front_of(&self.rows, front)
    }

    /// Puts a row over the one with its key, or as a new one. It takes no memory.
    pub fn put(&mut self, row: R)
        requires { row_at R.key (R.key row) self.old.rows ≡ None → length self.old.rows < self.old.room }
        ensures rows { self.new.rows ≡ put R.key row self.old.rows }
        ensures room { self.old.room ≤ self.new.room }
        ensures count { length self.new.rows ≤ length self.old.rows + 1 }
    {
        let place = place_for(&self.rows, &row);
        put_at(&mut self.rows, place, row);
    }

    /// Changes the row with that key, where it is there, by a change that leaves its key. It takes no memory.
    pub fn change<K, F: FnOnce(&mut R)>(&mut self, key: &K, change: F)
    where
        R: FoundBy<K>,
        requires calls { F.IsAlwaysCallable change }
        requires key { (row : R) (row' : R) → FnOnceReturnsAtMut F.FnOnce change row tt row' → R.key row' ≡ R.key row }
        ensures rows { Changes R.key (R.numbers key.now) (λ row row'. FnOnceReturnsAtMut F.FnOnce change row tt row') self.old.rows self.new.rows }
        ensures count { length self.new.rows ≡ length self.old.rows }
        ensures room { self.new.room ≡ self.old.room }
    {
        if let Some(at) = place_of(&self.rows, key) {
            change(&mut self.rows[at]);
        }
    }

    /// Takes the row with that key out, and tells whether it was there. It takes no memory.
    pub fn drop<K>(&mut self, key: &K) -> bool
    where
        R: FoundBy<K>,
        ensures found { result ≡ list_any (λ row. bytes_eq (R.key row) (R.numbers key.now)) self.old.rows }
        ensures rows { self.new.rows ≡ dropped R.key (R.numbers key.now) self.old.rows }
        ensures room { self.new.room ≡ self.old.room }
        ensures count { length self.new.rows ≤ length self.old.rows }
    {
        drop_row(&mut self.rows, key)
    }

    /// Takes the rows with some sorted keys out. Those of many go in one pass over the rows. It takes no memory.
    pub fn drop_all<K>(&mut self, keys: &[K])
    where
        R: FoundBy<K>,
        requires sorted { AreSorted R.numbers keys.now }
        ensures rows { self.new.rows ≡ all_dropped R.key (map R.numbers keys.now) self.old.rows }
        ensures room { self.new.room ≡ self.old.room }
    {
        match keys {
            [] => {}
            [key] => {
                self.drop(key);
            }
            _ => self.keep_others(keys),
        }
    }

    fn keep_others<K>(&mut self, keys: &[K])
    where
        R: FoundBy<K>,
        requires sorted { AreSorted R.numbers keys.now }
        ensures rows { self.new.rows ≡ all_dropped R.key (map R.numbers keys.now) self.old.rows }
        ensures room { self.new.room ≡ self.old.room }
    {
        self.rows.retain(|row| !has_key(keys, row));
    }

    /// Keeps the rows that pass a test, in one pass over the rows. It takes no memory.
    pub fn keep<F: Fn(&R) -> bool>(&mut self, test: F)
        requires calls { F.IsAlwaysCallable test }
        ensures rows { (passes : R → Bool) → ((row : R) (told : Bool) → FnReturnsAt F.Fn test row told → told ≡ passes row)
            → self.new.rows ≡ filter passes self.old.rows }
        ensures room { self.new.room ≡ self.old.room }
        ensures count { length self.new.rows ≤ length self.old.rows }
    {
        self.rows.retain(|row| test(row));
    }

    /// Gives a key the row that it is to have, and the swap the row that it had. It takes no memory.
    pub fn make<K>(&mut self, swap: &mut Swap<K, R>)
    where
        R: FoundBy<K>,
        requires own { IsOwn R.key R.numbers swap.old }
        requires room { length self.old.rows < self.old.room }
        ensures rows { self.new.rows ≡ swapped R.key R.numbers self.old.rows swap.old }
        ensures swap { swap.new ≡ turned R.key R.numbers self.old.rows swap.old }
        ensures room { self.old.room ≤ self.new.room }
        ensures count { length self.new.rows ≤ length self.old.rows + 1 }
    {
        swap.row = exchange(&mut self.rows, &swap.key, swap.row.take());
    }

    /// Makes all the swaps, one after the other. It takes no memory.
    pub fn make_all<K>(&mut self, swaps: &mut [Swap<K, R>])
    where
        R: FoundBy<K>,
        requires own { AreOwn R.key R.numbers swaps.old }
        requires room { length self.old.rows + length swaps.old ≤ self.old.room }
        ensures rows { self.new.rows ≡ tried R.key R.numbers self.old.rows swaps.old }
        ensures swaps { swaps.new ≡ taken R.key R.numbers self.old.rows swaps.old }
        ensures own { AreOwn R.key R.numbers swaps.new }
        ensures room { self.old.room ≤ self.new.room }
        ensures count { length self.new.rows ≤ length self.old.rows + length swaps.old }
    {
        for swap in swaps.iter_mut() {
            self.make(swap);
        }
    }

    /// Makes the swaps in the other order, the last first: so swaps that were made are taken back. It takes no memory.
    pub fn take_back<K>(&mut self, swaps: &mut [Swap<K, R>])
    where
        R: FoundBy<K>,
        requires own { AreOwn R.key R.numbers swaps.old }
        requires room { length self.old.rows + length swaps.old ≤ self.old.room }
        ensures rows { self.new.rows ≡ tried R.key R.numbers self.old.rows (reverse swaps.old) }
        ensures swaps { swaps.new ≡ reverse (taken R.key R.numbers self.old.rows (reverse swaps.old)) }
        ensures own { AreOwn R.key R.numbers swaps.new }
        ensures room { self.old.room ≤ self.new.room }
        ensures count { length self.new.rows ≤ length self.old.rows + length swaps.old }
    {
        // Turned round the list is the way back, which is made as the way there was.
        swaps.reverse();
        self.make_all(swaps);
        swaps.reverse();
    }
}
