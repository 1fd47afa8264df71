//! Rows by rising number.

ghost use Rattle.std.specs.Prelude.{◌≡◌, ◌==◌, ◌∷◌, [], ℕ, find, option_copied};
ghost use Rattle.nf_defs.specs.Rising.{IsRising};

use nf_base::{GroupRow, ItemRow, NodeRow, ShareRow, UserRow};

/// A row that a number tells from the others of its kind.
pub(crate) trait Numbered {
    ghost number: { Self → ℕ };

    fn number(&self) -> u64
        ensures { result ≡ number self.now };
}

/// The row with that number, by halving.
pub(crate) fn find_row<R: Numbered>(rows: &[R], number: u64) -> Option<&R>
    requires { IsRising (λ row. R.number row ∷ []) rows.now }
    ensures { option_copied result ≡ find (λ row. R.number row == number) rows.now }
{
    match rows.binary_search_by(|row| row.number().cmp(&number)) {
        Ok(at) => Some(&rows[at]),
        Err(_) => None,
    }
}

impl Numbered for UserRow {
    ghost number = { λ row. row.id };

    fn number(&self) -> u64 {
        u64::from(self.id.number())
    }
}

impl Numbered for GroupRow {
    ghost number = { λ row. row.id };

    fn number(&self) -> u64 {
        u64::from(self.id.number())
    }
}

impl Numbered for NodeRow {
    ghost number = { λ row. row.id };

    fn number(&self) -> u64 {
        self.id.number()
    }
}

impl Numbered for ShareRow {
    ghost number = { λ row. row.id };

    fn number(&self) -> u64 {
        self.id.number()
    }
}

impl Numbered for ItemRow {
    ghost number = { λ row. row.node };

    fn number(&self) -> u64 {
        self.node.number()
    }
}
