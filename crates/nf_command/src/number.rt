//! The number that a word writes.

ghost use Rattle.std.specs.Prelude.{◌≡◌, ◌≢◌, ◌≤◌, ◌↔◌, ℕ, IsTrue, decimal, MatchOption};
ghost use Rattle.nf_command.specs.Numbers.{IsBare};

/// The number, where the word is its digits without a sign or a leading zero, and it is from `least` to `most`.
pub(crate) fn number_of(word: &str, least: u64, most: u64) -> Option<u64>
    ensures { MatchOption result
        ((n : ℕ) → least ≤ n → n ≤ most → word.now ≢ decimal n)
        (λ n. (word.now ≡ decimal n) × (least ≤ n) × (n ≤ most)) }
{
    if !is_bare(word.as_bytes()) {
        return None;
    }
    match word.parse() {
        Ok(number) if least <= number && number <= most => Some(number),
        _ => None,
    }
}

fn is_bare(word: &[u8]) -> bool
    ensures { IsTrue result ↔ IsBare word.now }
{
    match word {
        [b'+', ..] => false,
        [b'0', digits @ ..] => digits.is_empty(),
        _ => true,
    }
}
