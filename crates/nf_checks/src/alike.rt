//! Sessions over one input.

ghost use Rattle.nf_outside.specs.Lent.{takes};
ghost use Rattle.nf_checks.specs.Alike.{IsSteady, SessionsEndAlike, ToldSessionsEndAlike};

use nf_outside::{Clock, Dice, ListClock, ListDice};

/// Two sessions of one seat's knowledge over one told input, with the same readings of the clock and words of the dice, in which nothing of the
/// outside failed, memory didn't want and no other seat made an entry, end in the same way: they wrote the same bytes,
/// left the same to read, and made the same entries with the same answers. Where they don't, what they wrote is the same
/// up to a piece of which they wrote different bytes with one SHA-256 digest.
pub fn sessions_end_alike<C: Clock, D: Dice>()
    ensures { SessionsEndAlike (takes C.reads D.draws) }
{}

/// There is no such piece where both stores tell, and at the end don't tell different bytes under one number.
pub fn told_sessions_end_alike<C: Clock, D: Dice>()
    ensures { ToldSessionsEndAlike (takes C.reads D.draws) }
{}

/// A clock of listed moments has one reading at a time, and dice of listed words have one word, as these laws want it.
pub fn listed_ones_are_steady()
    ensures { IsSteady (takes ⟦<ListClock as Clock>⟧.reads ⟦<ListDice as Dice>⟧.draws) }
{}
