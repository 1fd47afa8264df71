//! Rows and changes as they are spelled.

ghost use Rattle.std.specs.Prelude.{◌≡◌, ◌≤◌, ◌<◌, ◌+◌, [], ◌∷◌, All, IfOk, OnOk, length, map, vec_capacity};
ghost use Rattle.nf_defs.specs.Rising.{IsRising};
ghost use Rattle.nf_told.specs.Told.{AreRisingRaws, FitsChange, numbers_of_key, raw_key};
ghost use Rattle.nf_keeper.specs.Memory.{put_raws};
ghost use Rattle.nf_keeper.specs.Spelled.{after, after_all, change_key, change_kind, spelled_change};

use crate::raws::RawRows;
use nf_base::Change;
use nf_defs::{FoundBy, Keyed, drop_row, put, put_reserved};
use nf_rows::{RawKey, RawRow, write, write_key};
use std::alloc::{AllocError, Global};
use std::cmp::Ordering;
use std::marker::Model;

/// A row that is kept by its kind and its key.
#[derive(Drop)]
pub(crate) struct KeptRow {
    row: RawRow,
}

impl Model for KeptRow {
    ghost use Rattle.nf_rows.specs.Spelling.{Raw};

    ghost Value = { Raw };

    ghost view = { λ kept. kept.row };
}

impl Keyed for KeptRow {
    ghost key = { raw_key };

    fn compare(&self, other: &KeptRow) -> Ordering {
        self.row
            .kind()
            .cmp(&other.row.kind())
            .then(self.row.key().cmp(other.row.key()))
    }
}

impl FoundBy<RawKey> for KeptRow {
    ghost numbers = { numbers_of_key };

    fn compare_to(&self, sought: &RawKey) -> Ordering {
        self.row
            .kind()
            .cmp(&sought.kind())
            .then(self.row.key().cmp(sought.bytes()))
    }
}

/// Rows by rising kind and key. Of rows with one key the last stays.
pub(crate) fn rising_of(alloc: Global, raws: Vec<RawRow>) -> Result<Vec<KeptRow>, AllocError>
    ensures rows { IfOk result (λ kept. kept.items ≡ put_raws [] raws.items) }
    ensures rising { IfOk result (λ kept. AreRisingRaws kept.items) }
{
    let mut kept = Vec::new(alloc);
    for row in raws {
        put(&mut kept, KeptRow { row })?;
    }
    Ok(kept)
}

pub(crate) fn copy_rows(alloc: Global, rows: &[KeptRow]) -> Result<RawRows, AllocError>
    ensures { IfOk result (λ raws. raws ≡ rows.now) }
{
    let mut raws = RawRows::new(alloc);
    for kept in rows {
        raws.push(kept.row.copy()?)?;
    }
    Ok(raws)
}

/// A change whose row or key is spelled, so that it can be made without memory.
#[derive(Drop)]
pub(crate) enum SpelledChange {
    Put(KeptRow),
    Drop(RawKey),
}

impl SpelledChange {
    fn kind(&self) -> u8
        ensures { result ≡ change_kind self.now }
    {
        match self {
            SpelledChange::Put(kept) => kept.row.kind(),
            SpelledChange::Drop(key) => key.kind(),
        }
    }

    fn key(&self) -> &[u8]
        ensures { change_kind self.now ∷ result.now ≡ change_key self.now }
    {
        match self {
            SpelledChange::Put(kept) => kept.row.key(),
            SpelledChange::Drop(key) => key.bytes(),
        }
    }
}

/// Changes are ordered by the kind and the key of the row that they put or drop.
impl Keyed for SpelledChange {
    ghost key = { change_key };

    fn compare(&self, other: &SpelledChange) -> Ordering {
        self.kind()
            .cmp(&other.kind())
            .then(self.key().cmp(other.key()))
    }
}

fn spell(alloc: Global, change: &Change) -> Result<SpelledChange, AllocError>
    ensures spelled { IfOk result (λ spelled. spelled ≡ spelled_change change.now) }
    ensures fits { OnOk result (FitsChange change.now) }
{
    match change {
        Change::Put(row) => {
            let mut spelled = RawRow::new(alloc);
            write(row, &mut spelled)?;
            Ok(SpelledChange::Put(KeptRow { row: spelled }))
        }
        Change::Drop(key) => {
            let mut spelled = RawKey::new(alloc);
            write_key(key, &mut spelled)?;
            Ok(SpelledChange::Drop(spelled))
        }
    }
}

pub(crate) fn spell_all(alloc: Global, changes: &[Change]) -> Result<Vec<SpelledChange>, AllocError>
    ensures spelled { IfOk result (λ all. all.items ≡ map spelled_change changes.now) }
    ensures fits { OnOk result (All FitsChange changes.now) }
{
    let mut all = Vec::new(alloc);
    for change in changes {
        all.push(spell(alloc, change)?)?;
    }
    Ok(all)
}

fn make(rows: &mut Vec<KeptRow>, change: SpelledChange)
    requires rising { AreRisingRaws rows.old.items }
    requires room { length rows.old.items < vec_capacity rows.old }
    ensures made { rows.new.items ≡ after rows.old.items change }
    ensures rising { AreRisingRaws rows.new.items }
    ensures count { length rows.new.items ≤ length rows.old.items + 1 }
    ensures capacity { vec_capacity rows.old ≤ vec_capacity rows.new }
{
    match change {
        SpelledChange::Put(row) => put_reserved(rows, row),
        SpelledChange::Drop(key) => {
            drop_row(rows, &key);
        }
    }
}

/// Takes the rows out, as changes that put them before the others.
fn put_first(rows: &mut Vec<KeptRow>, changes: &mut Vec<SpelledChange>) -> Result<(), AllocError>
    requires rising { AreRisingRaws rows.old.items }
    ensures made { after_all rows.new.items changes.new.items ≡ after_all rows.old.items changes.old.items }
    ensures rising { AreRisingRaws rows.new.items }
    ensures count { length rows.new.items + length changes.new.items ≡ length rows.old.items + length changes.old.items }
    ensures capacity { vec_capacity rows.new ≡ vec_capacity rows.old }
{
    changes.reserve(rows.len())?;
    changes.reverse();
    while let Some(row) = rows.pop() {
        let done: Result<_, _> = changes.push(SpelledChange::Put(row));
        done.unwrap();
    }
    changes.reverse();
    Ok(())
}

/// Sorts the rows and the changes together by key, those with one key in their order. Made one after the other each then
/// comes behind all rows before it, and moves none. Without memory they make the same, with more moves.
fn sort_together(
    rows: &mut Vec<KeptRow>,
    changes: &mut Vec<SpelledChange>,
) -> Result<(), AllocError>
    requires rising { AreRisingRaws rows.old.items }
    ensures made { after_all rows.new.items changes.new.items ≡ after_all rows.old.items changes.old.items }
    ensures rising { AreRisingRaws rows.new.items }
    ensures count { length rows.new.items + length changes.new.items ≡ length rows.old.items + length changes.old.items }
    ensures capacity { vec_capacity rows.new ≡ vec_capacity rows.old }
{
    put_first(rows, changes)?;
    changes.sort_by(|change, other| change.compare(other))
}

/// So many changes are made among the rows, where each moves those behind it, no slower than all are sorted.
const FEW: usize = 64;

/// Makes the changes, in their order. It needs no memory; more than a few are made faster with some.
pub(crate) fn make_all(rows: &mut Vec<KeptRow>, mut changes: Vec<SpelledChange>)
    requires rising { AreRisingRaws rows.old.items }
    requires room { length rows.old.items + length changes.items ≤ vec_capacity rows.old }
    ensures made { rows.new.items ≡ after_all rows.old.items changes.items }
    ensures rising { AreRisingRaws rows.new.items }
{
    if changes.len() > FEW {
        // Whether or not they could be sorted, they make the same.
        let _ = sort_together(rows, &mut changes);
    }
    make_each(rows, changes);
}

/// Makes one change after the other.
fn make_each(rows: &mut Vec<KeptRow>, changes: Vec<SpelledChange>)
    requires rising { AreRisingRaws rows.old.items }
    requires room { length rows.old.items + length changes.items ≤ vec_capacity rows.old }
    ensures made { rows.new.items ≡ after_all rows.old.items changes.items }
    ensures rising { AreRisingRaws rows.new.items }
{
    for change in changes {
        make(rows, change);
    }
}
