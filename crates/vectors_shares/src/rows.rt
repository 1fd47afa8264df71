//! Rows by rising key, as what loads them wants them.

ghost use Rattle.nf_defs.specs.Prelude.{IsRising};

use nf_defs::{Keyed, put_reserved};
use std::alloc::AllocError;

/// Puts a row at its place among rows by rising key.
pub(crate) fn put_in<R: Keyed + Drop>(rows: &mut Vec<R>, row: R) -> Result<(), AllocError>
    requires { IsRising R.key rows.old.items }
    ensures { IsRising R.key rows.new.items }
{
    rows.reserve(1)?;
    put_reserved(rows, row);
    Ok(())
}
