//! Why bytes are refused that are no message.

ghost use Rattle.nf_outside.specs.Lent.{takes};
ghost use Rattle.nf_promises.specs.Faults.{FaultsAreShown};

use nf_outside::{Clock, Dice};

/// A session that ends because bytes are no message has read some that show why: whatever follows them, they have the fault that was
/// refused. So it is also over a connection that tells nothing. Or a head was taken, and the input ended inside its body.
pub fn faults_are_shown<C: Clock, D: Dice>()
    ensures { FaultsAreShown (takes C.reads D.draws) }
{}
