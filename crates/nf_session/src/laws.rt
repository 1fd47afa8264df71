//! What follows from the definitions. Each function does nothing, and its clause is the law.

ghost use Rattle.nf_outside.specs.Lent.{takes};
ghost use Rattle.nf_session.specs.Laws.{HeldIsTicket, OwnGrows, ReadFaultsStoreNothing, SessionsFollow, StrikesCount};

use nf_outside::{Clock, Dice};

/// A fault of reading stores nothing: no body that wasn't taken whole comes to an End.
pub fn read_faults_store_nothing<C: Clock, D: Dice>()
    ensures { ReadFaultsStoreNothing (takes C.reads D.draws) }
{}

/// A session counts a fault of its input or output where it ends by that, and nowhere else; what its seat knows only goes on.
pub fn sessions_follow<C: Clock, D: Dice>()
    ensures { SessionsFollow (takes C.reads D.draws) }
{}

/// A session counts each failure of the store: those by which its own entries are answered, and those of pieces that it sends.
pub fn strikes_count<C: Clock, D: Dice>()
    ensures { StrikesCount (takes C.reads D.draws) }
{}

/// What a seat holds by its own entries is its ticket in the state of all that it has seen.
#[tactic(auto, using(crate::proofs::Books::held_is_ticket))]
pub fn held_is_the_ticket()
    ensures { HeldIsTicket }
{}

/// A seat's own entries grow by an entry of its number, with its answer there, and by no other.
#[tactic(auto, using(crate::proofs::Books::own_grows))]
pub fn own_entries_grow()
    ensures { OwnGrows }
{}
