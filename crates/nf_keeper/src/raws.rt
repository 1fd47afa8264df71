//! Lists of spelled rows.

ghost use Rattle.std.specs.Prelude.{◌≡◌, [], ◌∷◌, ◌++◌, OnOk, OnErr};

use nf_rows::RawRow;
use std::alloc::{AllocError, Global};
use std::marker::Model;

/// Rows as they are spelled, in their order.
#[derive(Drop)]
pub struct RawRows {
    rows: Vec<RawRow>,
}

impl Model for RawRows {
    ghost use Rattle.std.specs.Prelude.{List};
    ghost use Rattle.nf_rows.specs.Spelling.{Raw};

    ghost Value = { List Raw };

    ghost view = { λ raws. raws.rows.items };
}

impl RawRows {
    pub fn new(alloc: Global) -> Self
        ensures { result ≡ [] }
    {
        RawRows {
            rows: Vec::new(alloc),
        }
    }

    /// Puts a row at the end. For want of memory the list stays as it was.
    pub fn push(&mut self, row: RawRow) -> Result<(), AllocError>
        ensures ok { OnOk result (self.new ≡ self.old ++ row ∷ []) }
        ensures err { OnErr result (self.new ≡ self.old) }
    {
        self.rows.push(row)?;
        Ok(())
    }

    pub fn rows(&self) -> &[RawRow]
        ensures { result.now ≡ self.now }
    {
        &self.rows
    }

    /// The rows themselves, in their order.
    pub fn into_rows(self) -> Vec<RawRow>
        ensures { result.items ≡ self }
    {
        self.rows
    }
}
