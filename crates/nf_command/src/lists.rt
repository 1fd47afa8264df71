//! The words behind `generate`.

ghost use Rattle.std.specs.Prelude.{◌≡◌, ◌∷◌, ℕ, MatchOption, map, codes};
ghost use Rattle.std.specs.String.{string_bytes};
ghost use Rattle.nf_command.specs.Behind.{AreNumbers};
ghost use Rattle.nf_command.specs.Command.{IsGenerate};

use crate::number::number_of;
use nf_generate::MAX_COUNT;

/// The seed and the count that they are.
pub(crate) fn list_of(words: &[String]) -> Option<(u64, u64)>
    ensures { MatchOption result
        ((seed : ℕ) (count : ℕ) → IsGenerate (codes "generate" ∷ map string_bytes words.now) seed count → ⊥)
        (λ numbers. IsGenerate (codes "generate" ∷ map string_bytes words.now) numbers.0 numbers.1) }
{
    match words {
        [seed, count] => numbers_of(seed.as_str(), count.as_str()),
        _ => None,
    }
}

// The numbers of these words.
fn numbers_of(seed: &str, count: &str) -> Option<(u64, u64)>
    ensures { MatchOption result
        ((n : ℕ) (m : ℕ) → AreNumbers seed.now count.now n m → ⊥)
        (λ numbers. AreNumbers seed.now count.now numbers.0 numbers.1) }
{
    let seed = number_of(seed, 0, u64::MAX)?;
    let count = number_of(count, 1, MAX_COUNT)?;
    Some((seed, count))
}
