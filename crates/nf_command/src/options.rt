//! The words behind `serve`.

ghost use Rattle.std.specs.Prelude.{◌≡◌, ◌↔◌, ◌∷◌, ◌++◌, [], ℕ, IsTrue, IfOk, MatchOption, map, option_map, codes};
ghost use Rattle.std.specs.String.{string_bytes};
ghost use Rattle.nf_command.specs.Behind.{AreOption, SaysNumber};
ghost use Rattle.nf_command.specs.Command.{IsServe};

use crate::number::number_of;
use crate::parsers::{refusal, serve_parser};
use std::alloc::{AllocError, Global};

/// The most connections of a worker where the words don't say it.
const DEFAULT_CONNECTIONS: u64 = 1_000;

/// The most that they may say.
const MAX_CONNECTIONS: u64 = 1_000_000;

/// How many connections of a worker they say.
pub(crate) fn connections_of(alloc: Global, words: &[String]) -> Result<Option<u64>, AllocError>
    ensures { IfOk result (λ found. MatchOption found
        ((n : ℕ) → IsServe (codes "serve" ∷ map string_bytes words.now) n → ⊥)
        (λ n. IsServe (codes "serve" ∷ map string_bytes words.now) n)) }
{
    let parser = serve_parser(alloc)?;
    match parser.try_get_matches_from(words) {
        Ok(matches) => Ok(said(words, matches.get_str("connections"))),
        Err(error) => refusal(&error),
    }
}

// What that number says, where the words are the option with it. Clap takes others, as a `--` behind them.
fn said(words: &[String], number: Option<&str>) -> Option<u64>
    ensures { MatchOption result
        ((n : ℕ) → AreOption (map string_bytes words.now) (option_map (λ digits. digits.now) number.entry) → SaysNumber (option_map (λ digits. digits.now) number.entry) n → ⊥)
        (λ n. AreOption (map string_bytes words.now) (option_map (λ digits. digits.now) number.entry) × SaysNumber (option_map (λ digits. digits.now) number.entry) n) }
{
    match number {
        None if words.is_empty() => Some(DEFAULT_CONNECTIONS),
        Some(digits) if is_apart(words, digits) || is_joined(words, digits) => {
            number_of(digits, 1, MAX_CONNECTIONS)
        }
        _ => None,
    }
}

// Whether the number is a word of its own.
fn is_apart(words: &[String], number: &str) -> bool
    ensures { IsTrue result ↔ map string_bytes words.now ≡ codes "--connections" ∷ number.now ∷ [] }
{
    match words {
        [option, digits] => option.as_str() == "--connections" && digits.as_str() == number,
        _ => false,
    }
}

// Whether it is joined to the option.
fn is_joined(words: &[String], number: &str) -> bool
    ensures { IsTrue result ↔ map string_bytes words.now ≡ (codes "--connections=" ++ number.now) ∷ [] }
{
    match words {
        [word] => is_option_with(word.as_str(), number),
        _ => false,
    }
}

fn is_option_with(word: &str, number: &str) -> bool
    ensures { IsTrue result ↔ word.now ≡ codes "--connections=" ++ number.now }
{
    match word.strip_prefix("--connections=") {
        Some(digits) => digits == number,
        None => false,
    }
}
