//! What becomes of a message, and of a session, at which nothing fails.

ghost use Rattle.nf_outside.specs.Lent.{takes};
ghost use Rattle.nf_promises.specs.Complete.{Completes, EndsWell};

use nf_outside::{Clock, Dice};

/// A message with a request, at which neither the store nor an end fails and nothing is damaged, gets the bytes of its
/// step's answer; or there was no memory, or the run was full, or its body was cut.
pub fn messages_are_answered<C: Clock, D: Dice>()
    ensures { Completes (takes C.reads D.draws) }
{}

/// A session in which neither the store nor an end fails, and nothing is damaged, ends where it closes, where its bytes
/// are no message, at what isn't built, where the run is full or for want of memory, and nowhere else.
pub fn sessions_end_well<C: Clock, D: Dice>()
    ensures { EndsWell (takes C.reads D.draws) }
{}
