//! What is acknowledged is stored.

ghost use Rattle.nf_outside.specs.Lent.{takes};
ghost use Rattle.nf_promises.specs.Acknowledged.{AcknowledgedIsStored};

use nf_outside::{Clock, Dice};

/// Once a message is answered below 300, a store that tells has the rows of the state that its steps made, each as it is spelled. Nothing
/// is answered so before its changes are stored.
pub fn acknowledged_is_stored<C: Clock, D: Dice>()
    ensures { AcknowledgedIsStored (takes C.reads D.draws) }
{}
