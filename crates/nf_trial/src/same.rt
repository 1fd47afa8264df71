//! A clock that stands still, and dice that always fall the same way.

ghost use Rattle.std.specs.Prelude.{◌≡◌};
ghost use Rattle.nf_trial.specs.Trials.{says};

use nf_outside::{Clock, Dice};

/// A number that is read and drawn again and again.
#[derive(Clone, Copy)]
pub(crate) struct Same {
    number: u64,
}

impl Same {
    pub(crate) fn new(number: u64) -> Self
        ensures { result ≡ record { number = number } }
    {
        Same { number }
    }
}

impl Clock for Same {
    ghost reads = { says };

    fn now(&mut self) -> u64 {
        self.number
    }
}

impl Dice for Same {
    ghost draws = { says };

    fn draw(&mut self) -> u64 {
        self.number
    }
}
