//! Swaps of rows, which are made on a table and taken back without memory.

ghost use Rattle.nf_table.specs.Swaps.{ListsAreLean, SwapsGoBack};

/// A key, and the row that it is to have; or, once the swap is made, the row that it had.
#[derive(Drop)]
pub struct Swap<K, R> {
    pub key: K,
    pub row: Option<R>,
}

/// Swaps that are made and taken back leave the rows and themselves as they were.
pub fn swaps_go_back<K, R>()
    ensures { SwapsGoBack R K }
{}

/// The lean ones of some swaps make the same rows, and none of them is in vain.
pub fn lists_are_lean<K, R>()
    ensures { ListsAreLean R K }
{}
