//! When a session finds the run full.

ghost use Rattle.nf_outside.specs.Lent.{takes};
ghost use Rattle.nf_promises.specs.Room.{FullIsSeen, NeverFull};

use nf_outside::{Clock, Dice};

/// A session that finds a run in which nothing has happened yet, and whose seat makes all of its entries, never finds
/// the run full.
pub fn never_full<C: Clock, D: Dice>()
    ensures { NeverFull (takes C.reads D.draws) }
{}

/// A session that ends because the run is full has seen that it is.
pub fn full_is_seen<C: Clock, D: Dice>()
    ensures { FullIsSeen (takes C.reads D.draws) }
{}
