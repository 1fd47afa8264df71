//! What a seat holds, and who is refused for it.

ghost use Rattle.nf_laws.specs.Locks.{GrantedIsHeld, HeldIsThere, HoldsAgree, LockedExactly, OthersSpare};

/// What a seat holds is there: a file, or a folder that has no child of the name that is held.
/// For what a seat was granted it holds what it reads or stores over.
#[tactic(auto, using(crate::proofs::Locking::held_there, crate::proofs::Locking::granted_held))]
pub fn held_is_there()
    ensures there { HeldIsThere }
    ensures granted { GrantedIsHeld }
{}

/// Two seats that hold the same key both read.
#[tactic(auto, using(crate::proofs::Locking::holds_agree))]
pub fn holds_agree()
    ensures { HoldsAgree }
{}

/// While a seat holds a file, no other seat's step changes its content, name, folder or presence; and while it holds a free name,
/// none puts a child of that name there. What was granted can therefore be stored at the End.
pub fn others_spare()
    ensures { OthersSpare }
{}

/// A request is refused as locked exactly where no earlier rule refuses it and another seat holds a key that clashes with what it
/// touches. The key that is named is the least such seat's.
pub fn locked_exactly()
    ensures { LockedExactly }
{}
