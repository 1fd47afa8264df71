//! A site over what a keeper has.

ghost use Rattle.std.specs.Prelude.{◌≡◌, All, map, option_copied, option_map, None, Some, IfOk, IfErr, OnOk, OnErr};
ghost use Rattle.nf_base.specs.declared.changes.Change.TheVariants.{Put};
ghost use Rattle.nf_desk.specs.Faults.{unread_by};
ghost use Rattle.nf_desk.specs.Opened.{AsksOnce, AsksToStore, CountsOpening, IsBegunFault, IsFault, IsSpelled, IsUnreadAt, MayBegin, Opens, ReadsRows, first_blob, stored_first};
ghost use Rattle.nf_keeper.specs.Keeping.{applied, one_more};
ghost use Rattle.nf_keeper.specs.Views.{stored_in};
ghost use Rattle.nf_rows.specs.Spelling.{Fits};
ghost use Rattle.nf_rules.specs.Rules.{AreUnbroken};
ghost use Rattle.nf_site.specs.Kept.{opened_over};
ghost use Rattle.nf_told.specs.Told.{FitsChange};

use crate::first::{First, FirstBlob, OpenFault, Opening};
use nf_base::{Change, Changes, Row, RowList};
use nf_keeper::{Keeper, NewBlob};
use nf_rows::{RawRow, RowFault, read_raw};
use nf_site::Site;
use std::alloc::{AllocError, Global};

/// A site over the keeper's rows, or over the first ones where it has none, which it then keeps.
pub(crate) fn site_over<K: Keeper>(
    alloc: Global,
    keeper: &mut K,
    opening: Opening,
) -> Result<Site, OpenFault>
    requires { MayBegin opening }
    ensures ok { IfOk result (λ site. Opens opening (K.told keeper.old) (K.told keeper.new) site.kept) }
    ensures rules { IfOk result (λ site. AreUnbroken site.kept.opening) }
    ensures fit { IfOk result (λ site. All Fits site.kept.opening) }
    ensures err { IfErr result (IsFault opening (K.told keeper.old)) }
    ensures same { OnErr result (K.told keeper.new ≡ K.told keeper.old) }
    ensures count { CountsOpening (K.faults keeper.old) (K.faults keeper.new) result }
    ensures asked { IfOk result (λ _. AsksOnce (K.told keeper.old) (K.calls keeper.old) (K.calls keeper.new) None) }
    ensures in_vain { IfErr result (λ fault. AsksOnce (K.told keeper.old) (K.calls keeper.old) (K.calls keeper.new) (Some fault)) }
{
    let raws = keeper.load()?;
    if raws.rows().is_empty() {
        return match opening {
            Opening::Fresh(first) | Opening::Either(first) => begin(alloc, keeper, first),
            Opening::Kept => Err(OpenFault::Missing),
        };
    }
    match opening {
        Opening::Fresh(_) => Err(OpenFault::Found),
        Opening::Either(_) | Opening::Kept => {
            let rows = read_rows(alloc, raws.rows())?;
            Ok(Site::build(alloc, rows)?)
        }
    }
}

/// A site over the first rows. They are kept once there is memory for all.
fn begin<K: Keeper>(alloc: Global, keeper: &mut K, first: First) -> Result<Site, OpenFault>
    requires { AreUnbroken first.rows }
    ensures ok { IfOk result (λ site. site.kept ≡ opened_over first.rows) }
    ensures fits { OnOk result (All FitsChange (map Put first.rows)) }
    ensures made { OnOk result (K.told keeper.new ≡ option_map (applied (map Put first.rows) (first_blob first)) (K.told keeper.old)) }
    ensures err { IfErr result IsBegunFault }
    ensures same { OnErr result (K.told keeper.new ≡ K.told keeper.old) }
    ensures count { CountsOpening (K.faults keeper.old) (K.faults keeper.new) result }
    ensures asked { AsksToStore (K.calls keeper.old) (K.calls keeper.new) }
{
    let First { rows, blob } = first;
    let changes = puts(alloc, &rows)?;
    let site = Site::build(alloc, rows)?;
    let blob = new_blob(&blob);
    store_first(keeper, &changes, blob.as_ref())?;
    Ok(site)
}

/// Has the keeper store the first rows and their blob. At a fault nothing is stored.
fn store_first<K: Keeper>(
    keeper: &mut K,
    changes: &Changes,
    blob: Option<&NewBlob<'_>>,
) -> Result<(), OpenFault>
    ensures made { OnOk result (K.told keeper.new ≡ option_map (applied changes.now (stored_in (option_copied blob.entry))) (K.told keeper.old)) }
    ensures fits { OnOk result (All FitsChange changes.now) }
    ensures err { IfErr result IsBegunFault }
    ensures same { OnErr result (K.told keeper.new ≡ K.told keeper.old) }
    ensures count { CountsOpening (K.faults keeper.old) (K.faults keeper.new) result }
    ensures called { K.calls keeper.new ≡ one_more (K.calls keeper.old) }
{
    keeper.apply(changes, blob)?;
    Ok(())
}

/// A Put of each row.
fn puts(alloc: Global, rows: &RowList) -> Result<Changes, AllocError>
    ensures { IfOk result (λ changes. changes ≡ map Put rows.now) }
{
    let mut changes = Changes::new(alloc);
    for row in rows.rows() {
        changes.push(Change::Put(row.copy()?))?;
    }
    Ok(changes)
}

fn new_blob(blob: &Option<FirstBlob>) -> Option<NewBlob<'_>>
    ensures { stored_in result ≡ stored_first blob.now }
{
    blob.as_ref().map(|blob| NewBlob {
        id: blob.id,
        bytes: &blob.bytes,
    })
}

/// The rows that are spelled so, or the first that can't be read.
fn read_rows(alloc: Global, raws: &[RawRow]) -> Result<RowList, OpenFault>
    ensures { ReadsRows raws.now result }
{
    let mut rows = RowList::new(alloc);
    for raw in raws {
        let row = read_at(alloc, rows.rows().len(), raw)?;
        rows.push(row)?;
    }
    Ok(rows)
}

/// The row of that index.
fn read_at(alloc: Global, index: usize, raw: &RawRow) -> Result<Row, OpenFault>
    ensures ok { IfOk result (λ row. IsSpelled raw.now row) }
    ensures err { IfErr result (IsUnreadAt raw.now index) }
{
    match read_raw(alloc, raw) {
        Ok(row) => Ok(row),
        Err(fault) => Err(unread(index, fault)),
    }
}

fn unread(index: usize, fault: RowFault) -> OpenFault
    ensures { result ≡ unread_by index fault }
{
    match fault {
        RowFault::Memory => OpenFault::Memory,
        fault => OpenFault::Unread { index, fault },
    }
}
