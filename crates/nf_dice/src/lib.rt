//! Dice over the system's source of random bytes.
#![tactic(auto)]

ghost use Rattle.std.specs.Prelude.{◌≡◌, ℕ, List, IfOk, length};
ghost use Rattle.rand_chacha.specs.ChaCha.{of_seed};
ghost use Rattle.rand_core.specs.Stream.{next_u64};

use nf_outside::Dice;
use rand_chacha::ChaCha20Rng;
use rand_core::{Rng, SeedableRng};
use std::io;
use std::random::RandomSource;

/// Words of the cipher ChaCha with 20 rounds, whose key the system chose: nobody who doesn't know it can tell one word from the others.
#[derive(Drop)]
pub struct RealDice {
    words: ChaCha20Rng,
}

impl RealDice {
    /// Asks the system for a key, once.
    pub fn new<S: RandomSource>(source: &S) -> io::Result<RealDice>
        ensures { IfOk result (λ dice. (seed : List ℕ) × (length seed ≡ 32) × (dice.words ≡ of_seed seed)) }
    {
        let mut seed = [0; 32];
        source.fill_bytes(&mut seed)?;
        Ok(RealDice {
            words: ChaCha20Rng::from_seed(seed),
        })
    }
}

impl Dice for RealDice {
    ghost draws = { λ before word after. (word, ⟦<ChaCha20Rng as Rng>⟧.stream after.words)
        ≡ next_u64 (⟦<ChaCha20Rng as Rng>⟧.stream before.words) };

    fn draw(&mut self) -> u64 {
        self.words.next_u64()
    }
}
