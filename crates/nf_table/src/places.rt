//! Rows by rising key, changed in place where the key is there.

ghost use Rattle.std.specs.Prelude.{◌≡◌, ◌+◌, ◌≤◌, ◌<◌, None, IfSome, bytes_eq, length, vec_capacity};
ghost use Rattle.std.specs.List.{position};
ghost use Rattle.std.specs.Option.{option_map_or};
ghost use Rattle.nf_defs.specs.Prelude.{dropped, IsRising, put};
ghost use Rattle.nf_table.specs.Rows.{row_at};

use nf_defs::{FoundBy, Keyed, place_of, put_reserved};

/// The place of the row with that row's key.
pub(crate) fn place_for<R: Keyed>(rows: &[R], row: &R) -> Option<usize>
    requires { IsRising R.key rows.now }
    ensures { result ≡ position (λ other. bytes_eq (R.key other) (R.key row.now)) rows.now }
{
    rows.binary_search_by(|other| other.compare(row)).ok()
}

/// Puts a row over the one with its key, at that place, and hands out that one; or as a new one, where there is no place.
#[tactic(auto, using(crate::proofs::Over::over))]
pub(crate) fn put_at<R: Keyed + Drop>(rows: &mut Vec<R>, place: Option<usize>, row: R) -> Option<R>
    requires rising { IsRising R.key rows.old.items }
    requires place { place ≡ position (λ other. bytes_eq (R.key other) (R.key row)) rows.old.items }
    requires room { place ≡ None → length rows.old.items < vec_capacity rows.old }
    ensures row { result ≡ row_at R.key (R.key row) rows.old.items }
    ensures rows { rows.new.items ≡ put R.key row rows.old.items }
    ensures rising { IsRising R.key rows.new.items }
    ensures count { length rows.new.items ≤ length rows.old.items + 1 }
    ensures room { vec_capacity rows.old ≤ vec_capacity rows.new }
{
    match place {
        Some(at) => Some(std::mem::replace(&mut rows[at], row)),
        None => {
            put_reserved(rows, row);
            None
        }
    }
}

/// Gives a key that row, or none, and hands out the row that it had.
pub(crate) fn exchange<K, R: FoundBy<K> + Drop>(
    rows: &mut Vec<R>,
    key: &K,
    row: Option<R>,
) -> Option<R>
    requires rising { IsRising R.key rows.old.items }
    requires own { IfSome row (λ row. R.key row ≡ R.numbers key.now) }
    requires room { length rows.old.items < vec_capacity rows.old }
    ensures row { result ≡ row_at R.key (R.numbers key.now) rows.old.items }
    ensures rows { rows.new.items ≡ option_map_or (λ row. put R.key row rows.old.items) row (dropped R.key (R.numbers key.now) rows.old.items) }
    ensures rising { IsRising R.key rows.new.items }
    ensures count { length rows.new.items ≤ length rows.old.items + 1 }
    ensures room { vec_capacity rows.old ≤ vec_capacity rows.new }
{
    match (place_of(rows, key), row) {
        (place, Some(row)) => put_at(rows, place, row),
        (Some(at), None) => Some(rows.remove(at)),
        (None, None) => None,
    }
}
