//! The first row that passes a test.

ghost use Rattle.std.specs.Prelude.{◌≡◌, Bool};
ghost use Rattle.std.specs.Fn.{FnReturnsAt};
ghost use Rattle.nf_base.specs.declared.rows.Row.{Row as TheRow};
ghost use Rattle.nf_rules.specs.Rules.{first_index};

use nf_base::Row;

/// The index of the first row that passes a test, whichever way of telling it the test has.
pub(crate) fn first<F: Fn(&Row) -> bool>(rows: &[Row], test: F) -> Option<usize>
    requires { F.IsAlwaysCallable test }
    ensures { (passes : TheRow → Bool) → ((row : TheRow) (told : Bool) → FnReturnsAt F.Fn test row told → told ≡ passes row)
        → result ≡ first_index passes rows.now }
{
    for (index, row) in rows.iter().enumerate() {
        if test(row) {
            return Some(index);
        }
    }
    None
}
