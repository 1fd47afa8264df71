//! The words of the command line.

ghost use Rattle.std.specs.Prelude.{◌≡◌, ℕ, ◌∷◌, [], ◌↔◌, IsTrue, MatchOption, Ok, codes, map, true};
ghost use Rattle.std.specs.Char.{is_ascii_graphic};
ghost use Rattle.std.specs.List.{list_all};
ghost use Rattle.std.specs.String.{string_bytes};
ghost use Rattle.nf_command.specs.Behind.{IsQuota, is_operand};
ghost use Rattle.nf_command.specs.Command.{IsOption, IsSecret};
ghost use Rattle.nf_command.specs.Reading.{IsNearlyInit, ReadsCommand};

use crate::lists::list_of;
use crate::number::number_of;
use crate::operands::{Operands, operands_of};
use crate::options::connections_of;
use nf_base::{Digest, MAX_QUOTA, Name, NameFault};
use std::alloc::{AllocError, Global};

/// The most bytes of a token.
const MAX_TOKEN: usize = 128;

/// What the words of the command line ask for.
#[derive(Drop)]
pub enum Command {
    /// To serve the input and the output as one session.
    Batch,
    /// To begin a store.
    Init(Init),
    /// To serve the connections of doors, by each worker at most so many.
    Serve { connections: u64 },
    /// To drop the bodies that no row names.
    Sweep,
    /// To serve so many messages of the list that a seed determines.
    Generate { seed: u64, count: u64 },
}

/// The first administrator of a store.
#[derive(Drop)]
pub struct Init {
    pub name: Name,
    /// The token's digest.
    pub token: Digest,
    /// In bytes.
    pub quota: u64,
}

/// The command that the words are.
pub fn command_of(alloc: Global, words: &[String]) -> Result<Option<Command>, AllocError>
    ensures { ReadsCommand (map string_bytes words.now) result }
{
    if is_only(words, "batch") {
        return Ok(Some(Command::Batch));
    }
    if is_only(words, "sweep") {
        return Ok(Some(Command::Sweep));
    }
    match words {
        [word, others @ ..] if word.as_str() == "init" => init_of(alloc, others),
        [word, others @ ..] if word.as_str() == "serve" => serve_of(alloc, others),
        [word, others @ ..] if word.as_str() == "generate" => Ok(generate_of(others)),
        _ => Ok(None),
    }
}

// Whether there is no word but that one.
fn is_only(words: &[String], text: &str) -> bool
    ensures { IsTrue result ↔ map string_bytes words.now ≡ text.now ∷ [] }
{
    match words {
        [word] => word.as_str() == text,
        _ => false,
    }
}

// The `serve` that the words behind it say.
fn serve_of(alloc: Global, words: &[String]) -> Result<Option<Command>, AllocError>
    ensures { ReadsCommand (codes "serve" ∷ map string_bytes words.now) result }
{
    match connections_of(alloc, words)? {
        Some(connections) => Ok(Some(Command::Serve { connections })),
        None => Ok(None),
    }
}

// The `generate` that the words behind it say.
fn generate_of(words: &[String]) -> Option<Command>
    ensures { ReadsCommand (codes "generate" ∷ map string_bytes words.now) (Ok result) }
{
    match list_of(words) {
        Some((seed, count)) => Some(Command::Generate { seed, count }),
        None => None,
    }
}

// The `init` that the words behind it say.
fn init_of(alloc: Global, words: &[String]) -> Result<Option<Command>, AllocError>
    ensures { ReadsCommand (codes "init" ∷ map string_bytes words.now) result }
{
    match operands_of(alloc, words) {
        Ok(Some(operands)) => judged(alloc, &operands),
        Ok(None) => Ok(None),
        // Memory was wanting, and clap has said nothing of the words.
        Err(error) if is_nearly_init(words) => Err(error),
        Err(_) => Ok(None),
    }
}

// The same of three operands.
fn judged(alloc: Global, operands: &Operands<'_>) -> Result<Option<Command>, AllocError>
    requires name { is_operand operands.now.name.now ≡ true }
    requires token { is_operand operands.now.token.now ≡ true }
    ensures { ReadsCommand (codes "init" ∷ operands.now.name.now ∷ operands.now.token.now ∷ operands.now.quota.now ∷ []) result }
{
    let token = operands.token.as_bytes();
    let Some(quota) = quota_of(token, operands.quota) else {
        return Ok(None);
    };
    match Name::read(alloc, operands.name.as_bytes()) {
        Ok(name) => Ok(Some(Command::Init(Init {
            name,
            token: Digest::of(token),
            quota,
        }))),
        Err(NameFault::Memory) => Err(AllocError),
        Err(_) => Ok(None),
    }
}

// Whether they are those of an `init`, but for the name.
fn is_nearly_init(words: &[String]) -> bool
    ensures { IsTrue result ↔ IsNearlyInit (codes "init" ∷ map string_bytes words.now) }
{
    match words {
        [name, token, quota] => {
            !is_option(name.as_str())
                && !is_option(token.as_str())
                && quota_of(token.as_bytes(), quota.as_str()).is_some()
        }
        _ => false,
    }
}

// The quota, where it and the token are right.
fn quota_of(token: &[u8], quota: &str) -> Option<u64>
    ensures { MatchOption result
        ((n : ℕ) → IsQuota token.now quota.now n → ⊥)
        (λ n. IsQuota token.now quota.now n) }
{
    if !is_secret(token) {
        return None;
    }
    number_of(quota, 0, MAX_QUOTA)
}

// Whether it begins as an option does. There is none.
fn is_option(word: &str) -> bool
    ensures { IsTrue result ↔ IsOption word.now }
{
    matches!(word.as_bytes(), [b'-', ..])
}

// Whether it may be a token.
fn is_secret(token: &[u8]) -> bool
    ensures { IsTrue result ↔ IsSecret token.now }
{
    if token.is_empty() {
        return false;
    }
    token.len() <= MAX_TOKEN && is_visible(token)
}

fn is_visible(bytes: &[u8]) -> bool
    ensures { result ≡ list_all is_ascii_graphic bytes.now }
{
    bytes.iter().all(|byte| byte.is_ascii_graphic())
}
