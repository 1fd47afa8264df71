//! The words behind `init`.

ghost use Rattle.std.specs.Prelude.{◌≡◌, ℕ, List, Some, IfOk, MatchOption, map, codes};
ghost use Rattle.std.specs.List.{list_all};
ghost use Rattle.std.specs.String.{string_bytes};
ghost use Rattle.clap.specs.Words.{first_value, found_of};
ghost use Rattle.nf_command.specs.Behind.{AreOperands, is_operand};

use crate::parsers::{init_parser, refusal};
use clap::ArgMatches;
use std::alloc::{AllocError, Global};

/// Three words, none of which is empty or begins with a dash.
#[derive(Drop)]
pub(crate) struct Operands<'a> {
    pub(crate) name: &'a str,
    pub(crate) token: &'a str,
    pub(crate) quota: &'a str,
}

/// The operands that the words are.
pub(crate) fn operands_of<'a>(
    alloc: Global,
    words: &'a [String],
) -> Result<Option<Operands<'a>>, AllocError>
    ensures { IfOk result (λ found. MatchOption found
        ((name : List ℕ) (token : List ℕ) (quota : List ℕ) → AreOperands (map string_bytes words.entry.now) name token quota → ⊥)
        (λ operands. AreOperands (map string_bytes words.entry.now) operands.name.now operands.token.now operands.quota.now)) }
{
    // Clap would take an empty word, too, and a `--` beside the operands.
    if !are_operands(words) {
        return Ok(None);
    }
    let parser = init_parser(alloc)?;
    match parser.try_get_matches_from(words) {
        Ok(matches) => Ok(found(&matches)),
        Err(error) => refusal(&error),
    }
}

fn are_operands(words: &[String]) -> bool
    ensures { result ≡ list_all (λ word. is_operand (string_bytes word)) words.now }
{
    words.iter().all(|word| may_be_operand(word.as_str()))
}

fn may_be_operand(word: &str) -> bool
    ensures { result ≡ is_operand word.now }
{
    match word.as_bytes() {
        [] => false,
        [byte, ..] => *byte != b'-',
    }
}

fn found<'a>(matches: &ArgMatches<'a>) -> Option<Operands<'a>>
    ensures { (name : List ℕ) (token : List ℕ) (quota : List ℕ)
        → first_value (found_of matches.now) (codes "name") ≡ Some name
        → first_value (found_of matches.now) (codes "token") ≡ Some token
        → first_value (found_of matches.now) (codes "quota") ≡ Some quota
        → MatchOption result ⊥ (λ operands. (operands.name.now ≡ name) × (operands.token.now ≡ token) × (operands.quota.now ≡ quota)) }
{
    Some(Operands {
        name: matches.get_str("name")?,
        token: matches.get_str("token")?,
        quota: matches.get_str("quota")?,
    })
}
