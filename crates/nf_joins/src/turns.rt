//! Which turns of a session bring the bodies of chunks, and read files.

ghost use Rattle.nf_joins.specs.Turns.{TurnsBring, TurnsRead};
ghost use Rattle.nf_outside.specs.Lent.{takes};

use nf_outside::{Clock, Dice};

/// A turn that is granted to take a chunk's body, and answers that it was made, brings a body that it took from the front of its input.
pub fn turns_bring<C: Clock, D: Dice>()
    ensures { TurnsBring (takes C.reads D.draws) }
{}

/// A turn that is granted a file, and writes its answer whole, is given every piece, and writes them behind the head.
pub fn turns_read<C: Clock, D: Dice>()
    ensures { TurnsRead (takes C.reads D.draws) }
{}
