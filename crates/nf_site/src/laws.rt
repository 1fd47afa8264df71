//! What follows from the definitions. The function does nothing, and its clause is the law.

ghost use Rattle.nf_rules.specs.Rules.{AreUnbroken};
ghost use Rattle.nf_site.specs.Demo.{demo_rows};

/// A site can be built over the demonstration rows: they break no rule.
pub fn demo_rows_are_unbroken()
    ensures { AreUnbroken demo_rows }
{}
