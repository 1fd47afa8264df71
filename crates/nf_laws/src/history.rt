//! Laws of legal histories.

ghost use Rattle.nf_laws.specs.Numbers.{CountersRise, NumbersAreNew};
ghost use Rattle.nf_laws.specs.Sound.{StaysSound};

/// A sound state stays sound by every step of a legal history.
#[tactic(auto, using(crate::proofs::Stays::stays))]
pub fn stays_sound()
    ensures { StaysSound }
{}

/// No counter is ever lower than it was.
#[tactic(auto, using(crate::proofs::Counters::counters_rise))]
pub fn counters_rise()
    ensures { CountersRise }
{}

/// A node that is made has a number that was never given before.
#[tactic(auto, using(crate::proofs::Numbers::numbers_new))]
pub fn numbers_are_new()
    ensures { NumbersAreNew }
{}
