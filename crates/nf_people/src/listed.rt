//! Rows of one kind, put into a list of rows of any kind.

ghost use Rattle.std.specs.Prelude.{◌≡◌, ◌++◌, map, IfOk, OnOk};
ghost use Rattle.nf_base.specs.declared.rows.Row.{Row};
ghost use Rattle.nf_base.specs.declared.rows.Row.TheVariants.{User, Token, Group, Member};

use nf_base::{GroupRow, MemberRow, Row, RowList, TokenRow, UserRow};
use std::alloc::AllocError;

/// A row of one kind.
pub(crate) trait Listed {
    ghost row_of: { Self → Row };

    /// The same as a row of any kind.
    fn to_row(&self) -> Result<Row, AllocError>
        ensures { IfOk result (λ row. row ≡ row_of self.now) };
}

impl Listed for UserRow {
    ghost row_of = { User };

    fn to_row(&self) -> Result<Row, AllocError> {
        Ok(Row::User(self.clone()?))
    }
}

impl Listed for TokenRow {
    ghost row_of = { Token };

    fn to_row(&self) -> Result<Row, AllocError> {
        Ok(Row::Token(*self))
    }
}

impl Listed for GroupRow {
    ghost row_of = { Group };

    fn to_row(&self) -> Result<Row, AllocError> {
        Ok(Row::Group(self.clone()?))
    }
}

impl Listed for MemberRow {
    ghost row_of = { Member };

    fn to_row(&self) -> Result<Row, AllocError> {
        Ok(Row::Member(*self))
    }
}

/// Puts these rows at the end of a list.
pub(crate) fn push_rows<R: Listed>(list: &mut RowList, rows: &[R]) -> Result<(), AllocError>
    ensures { OnOk result (list.new ≡ list.old ++ map R.row_of rows.now) }
{
    for row in rows {
        list.push(row.to_row()?)?;
    }
    Ok(())
}
