//! Rows by rising number.

ghost use Rattle.std.specs.Prelude.{◌≡◌, ◌==◌};
ghost use Rattle.std.specs.List.{position};
ghost use Rattle.nf_defs.specs.Tree.{folder_of};
ghost use Rattle.nf_charge.specs.Sums.{AreRisingNodes};

use nf_base::{NodeId, NodeRow, Place};

/// The place of a node's row.
pub fn index_of(rows: &[NodeRow], node: NodeId) -> Option<usize>
    requires { AreRisingNodes rows.now }
    ensures { result ≡ position (λ row. row.id == node) rows.now }
{
    match rows.binary_search_by_key(&node, |row| row.id) {
        Ok(at) => Some(at),
        Err(_) => None,
    }
}

/// The folder that a place is in.
pub fn folder_of(place: Place) -> Option<NodeId>
    ensures { result ≡ folder_of place }
{
    match place {
        Place::Inside(parent) => Some(parent),
        Place::Root | Place::Trash => None,
    }
}
