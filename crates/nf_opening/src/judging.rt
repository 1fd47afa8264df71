//! All rules, in their order.

ghost use Rattle.std.specs.Prelude.{◌≡◌, IfOk};
ghost use Rattle.std.specs.Option.{option_map_or};
ghost use Rattle.nf_defs.specs.Prelude.{AreRising, tables_of};
ghost use Rattle.nf_rules.specs.Rules.{first_index, is_over};
ghost use Rattle.nf_opening.specs.Bounds.{AreBounds};
ghost use Rattle.nf_opening.specs.Heaps.{AreTops};
ghost use Rattle.nf_opening.specs.Judged.{AreJudged, IsFaultAt};

use crate::alone::{first_ungiven, is_lavish};
use crate::bounds::Bounds;
use crate::first::first;
use crate::keys::first_twice;
use crate::limits::first_beyond;
use crate::names::first_namesake;
use crate::placed::first_astray;
use crate::present::first_dangling;
use crate::sharing::first_unkept;
use crate::{Broken, Loaded, SiteFault};
use nf_base::Row;
use std::alloc::{AllocError, Global};

/// The tables of rows that break no rule.
pub fn judge(alloc: Global, rows: &[Row]) -> Result<Loaded, SiteFault>
    ensures judged { AreJudged rows.now result }
    ensures tables { IfOk result (λ loaded. loaded ≡ tables_of rows.now) }
{
    let loaded = Loaded::of(alloc, rows)?;
    judge_rows(alloc, &loaded, rows)?;
    Ok(loaded)
}

fn judge_rows(alloc: Global, loaded: &Loaded, rows: &[Row]) -> Result<(), SiteFault>
    requires tables { loaded.now ≡ tables_of rows.now }
    requires rising { AreRising loaded.now }
    ensures { AreJudged rows.now result }
{
    keeps(1, first_twice(alloc, rows)?)?;
    keeps(2, first_ungiven(&loaded.meta, rows))?;
    keeps(3, first_dangling(loaded, rows))?;
    keeps(4, first_namesake(alloc, loaded, rows)?)?;
    keeps(5, first_astray(loaded, rows))?;
    keeps(6, first_unkept(loaded, rows))?;
    keeps(7, first_beyond(alloc, loaded, rows)?)?;
    keeps(8, first_over(alloc, loaded, rows)?)?;
    Ok(())
}

/// The first user whose quota is too large, or version or item that is one of too many bytes.
fn first_over(alloc: Global, loaded: &Loaded, rows: &[Row]) -> Result<Option<usize>, AllocError>
    requires tables { loaded.now ≡ tables_of rows.now }
    requires rising { AreRising loaded.now }
    requires tops { AreTops loaded.now }
    ensures { IfOk result (λ at. at ≡ first_index (is_over (tables_of rows.now)) rows.now) }
{
    let bounds = Bounds::of(alloc, loaded)?;
    Ok(first(rows, |row| is_over(loaded, &bounds, row)))
}

fn is_over(loaded: &Loaded, bounds: &Bounds, row: &Row) -> bool
    requires rising { AreRising loaded.now }
    requires bounds { AreBounds loaded.now bounds.now }
    ensures { result ≡ is_over loaded.now row.now }
{
    match row {
        Row::Version(row) => bounds.are_passed(loaded, row),
        Row::Item(row) => bounds.are_heaped(loaded, row),
        _ => is_lavish(row),
    }
}

/// A rule is kept that no row breaks.
fn keeps(rule: u8, index: Option<usize>) -> Result<(), Broken>
    ensures { IsFaultAt rule index result }
{
    match index {
        None => Ok(()),
        Some(index) => Err(Broken { rule, index }),
    }
}
