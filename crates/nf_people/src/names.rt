//! Rows by rising key that are found by their names too.

ghost use Rattle.std.specs.Prelude.{◌≡◌, ◌+◌, ◌≤◌, [], ℕ, List, find, length, bytes_eq, None, IsOk, IfOk, OnOk, OnErr, is_some, option_copied};
ghost use Rattle.std.specs.List.Sorted.{IsBinarySearchResult, IsSearchInRange};
ghost use Rattle.nf_defs.specs.Prelude.{IsRising, key_cmp, put, user_row, with_quota};
ghost use Rattle.nf_people.specs.Names.{AreNamedApart, IsAbove, IsNameIndex, PartsAt, name_at};

use nf_base::{GroupRow, Name, UserId, UserRow};
use nf_defs::{Keyed, place_of};
use std::alloc::{AllocError, Global};
use std::cmp::Ordering;
use std::marker::Model;

/// A row that has a name.
pub(crate) trait Named: Keyed {
    ghost name_of: { Self → List ℕ };

    fn name(&self) -> &Name
        ensures { result.now ≡ name_of self.now };
}

impl Named for UserRow {
    ghost name_of = { λ row. row.name };

    fn name(&self) -> &Name {
        &self.name
    }
}

impl Named for GroupRow {
    ghost name_of = { λ row. row.name };

    fn name(&self) -> &Name {
        &self.name
    }
}

/// Rows by rising key, none of which ever goes, and their places by their names.
#[derive(Drop)]
pub(crate) struct NamedRows<R: Named> {
    rows: Vec<R>,
    by_name: Vec<usize>,
}

impl<R: Named> Model for NamedRows<R> {
    ghost use Rattle.std.specs.Prelude.{min, vec_capacity};
    ghost use Rattle.nf_defs.specs.Rising.{IsRising};
    ghost use Rattle.nf_people.specs.Names.{NamedValue, IsNameIndex};

    ghost Value = { NamedValue R };

    ghost view = { λ named. record { rows = named.rows.items; room = min (vec_capacity named.rows) (vec_capacity named.by_name) } };

    ghost invariant = { λ named. IsRising R.key named.rows.items × IsNameIndex R.name_of named.rows.items named.by_name.items };
}

impl<R: Named + Drop> NamedRows<R> {
    pub(crate) fn new(alloc: Global) -> Self
        ensures { result.rows ≡ [] }
    {
        NamedRows {
            rows: Vec::new(alloc),
            by_name: Vec::new(alloc),
        }
    }

    /// These rows.
    pub(crate) fn of(alloc: Global, rows: Vec<R>) -> Result<Self, AllocError>
        requires rising { IsRising R.key rows.items }
        requires apart { AreNamedApart R.name_of rows.items }
        ensures { IfOk result (λ named. named.rows ≡ rows.items) }
    {
        let by_name = places_by_name(alloc, &rows)?;
        Ok(NamedRows { rows, by_name })
    }

    pub(crate) fn rows(&self) -> &[R]
        ensures rows { result.now ≡ self.now.rows }
        ensures rising { IsRising R.key self.now.rows }
        ensures apart { AreNamedApart R.name_of self.now.rows }
        ensures held { length self.now.rows ≤ self.now.room }
    {
        &self.rows
    }

    /// The row of that name.
    pub(crate) fn find(&self, name: &[u8]) -> Option<&R>
        ensures { option_copied result ≡ find (λ row. bytes_eq (R.name_of row) name.now) self.now.rows }
    {
        let at = search(&self.rows, &self.by_name, name).ok()?;
        Some(&self.rows[self.by_name[at]])
    }

    /// Makes room for so many rows more.
    pub(crate) fn reserve(&mut self, count: usize) -> Result<(), AllocError>
        ensures ok { OnOk result (length self.new.rows + count ≤ self.new.room) }
        ensures same { self.new.rows ≡ self.old.rows }
    {
        self.rows.reserve(count)?;
        self.by_name.reserve(count)
    }

    /// Puts in a row whose key is above all that are there, and whose name none of them has.
    pub(crate) fn add(&mut self, row: R) -> Result<(), AllocError>
        requires above { IsAbove R.key row self.old.rows }
        requires free { find (λ old. bytes_eq (R.name_of old) (R.name_of row)) self.old.rows ≡ None }
        ensures ok { OnOk result (self.new.rows ≡ put R.key row self.old.rows) }
        ensures err { OnErr result (self.new.rows ≡ self.old.rows) }
        ensures room { length self.old.rows + 1 ≤ self.old.room → IsOk result }
        ensures kept { self.old.room ≤ self.new.room }
    {
        self.rows.reserve(1)?;
        let at = place_for(&self.rows, &self.by_name, row.name().as_bytes());
        self.by_name.insert(at, self.rows.len())?;
        self.rows.push_reserved(row);
        Ok(())
    }
}

impl NamedRows<UserRow> {
    /// Gives a user another quota, and tells whether there is that user. It takes no memory.
    pub(crate) fn set_quota(&mut self, user: UserId, quota: u64) -> bool
        ensures found { result ≡ is_some (user_row self.old.rows user) }
        ensures rows { self.new.rows ≡ with_quota self.old.rows user quota }
        ensures room { self.new.room ≡ self.old.room }
    {
        match place_of(&self.rows, &user) {
            Some(at) => {
                self.rows[at].quota = quota;
                true
            }
            None => false,
        }
    }
}

/// The name of the row at that place; no place of an index is past the end.
fn bytes_at<R: Named>(rows: &[R], at: usize) -> &[u8]
    ensures { result.now ≡ name_at R.name_of rows.now at }
{
    match rows.get(at) {
        Some(row) => row.name().as_bytes(),
        None => &[],
    }
}

/// Which of the places by name has that name, or where it would stand.
fn search<R: Named>(rows: &[R], places: &[usize], name: &[u8]) -> Result<usize, usize>
    requires { IsNameIndex R.name_of rows.now places.now }
    ensures bound { IsSearchInRange result (length places.now) }
    ensures place { IsBinarySearchResult (λ at. key_cmp (name_at R.name_of rows.now at) name.now) places.now result }
{
    places.binary_search_by(|at| bytes_at(rows, *at).cmp(name))
}

/// Where a name that no row has would stand among the places by name.
fn place_for<R: Named>(rows: &[R], places: &[usize], name: &[u8]) -> usize
    requires index { IsNameIndex R.name_of rows.now places.now }
    requires free { find (λ row. bytes_eq (R.name_of row) name.now) rows.now ≡ None }
    ensures bound { result ≤ length places.now }
    ensures parts { PartsAt R.name_of rows.now places.now name.now result }
{
    match search(rows, places, name) {
        Ok(at) => at,
        Err(at) => at,
    }
}

/// The places of rows by their names.
fn places_by_name<R: Named>(alloc: Global, rows: &[R]) -> Result<Vec<usize>, AllocError>
    requires { AreNamedApart R.name_of rows.now }
    ensures { IfOk result (λ places. IsNameIndex R.name_of rows.now places.items) }
{
    let mut places: Vec<usize> = (0..rows.len()).collect(alloc)?;
    places.sort_unstable_by(|a, b| bytes_at(rows, *a).cmp(bytes_at(rows, *b)));
    Ok(places)
}
