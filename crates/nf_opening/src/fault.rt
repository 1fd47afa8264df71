//! Why no site opens over some rows.

ghost use Rattle.std.specs.Prelude.{◌≡◌};

use std::alloc::AllocError;
use std::marker::Model;

/// A rule that is broken, and the index of the first row that breaks it. A row that is missing would come behind the last.
#[derive(Clone, Copy, PartialEq, Eq)]
pub struct Broken {
    pub rule: u8,
    pub index: usize,
}

impl Model for Broken {
    ghost use Rattle.nf_rules.specs.Rules.{Broken};

    ghost Value = { Broken };

    ghost view = { λ broken. record { rule = broken.rule; index = broken.index } };

    ghost inverse = { λ broken. record { rule = broken.rule; index = broken.index } };
}

/// Why no site opens over some rows.
#[derive(Clone, Copy, PartialEq, Eq)]
pub enum SiteFault {
    /// They break a rule.
    Broken(Broken),
    /// There is no memory.
    Memory,
}

impl From<Broken> for SiteFault {
    ghost use Rattle.nf_opening.specs.declared.fault.SiteFault.TheVariants.{Broken};

    ghost from_gives = { λ broken fault. fault ≡ Broken broken };

    fn from(broken: Broken) -> Self {
        SiteFault::Broken(broken)
    }
}

impl From<AllocError> for SiteFault {
    ghost use Rattle.nf_opening.specs.declared.fault.SiteFault.TheVariants.{Memory};

    ghost from_gives = { λ _ fault. fault ≡ Memory };

    fn from(_: AllocError) -> Self {
        SiteFault::Memory
    }
}
