//! Laws of the rules.

ghost use Rattle.nf_rules.specs.Laws.{BrokenIsThere, OpenedIsSound, RuledAreUnbroken, StaysRuled, UnbrokenAreRuled};

/// Rows that break no rule make tables that keep the rules.
pub fn unbroken_are_ruled()
    ensures { UnbrokenAreRuled }
{}

/// A run over such rows begins in a sound state.
pub fn opened_is_sound()
    ensures { OpenedIsSound }
{}

/// Tables that keep the rules keep them by every step of a legal history.
pub fn stays_ruled()
    ensures { StaysRuled }
{}

/// The rows of tables that keep the rules break none, so what is stored can be loaded again.
pub fn ruled_are_unbroken()
    ensures { RuledAreUnbroken }
{}

/// The row that is told of a broken rule is there, or would come behind the last where the meta row is missing.
pub fn broken_is_there()
    ensures { BrokenIsThere }
{}
