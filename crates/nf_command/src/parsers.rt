//! What clap is told of the words behind the first one, and what its error says of them.

ghost use Rattle.std.specs.Prelude.{◌≡◌, ◌≢◌, IfOk, MatchResult, None, false};
ghost use Rattle.clap.specs.Words.{app_of, kind_of, rule_of};
ghost use Rattle.nf_command.specs.Parsers.{init_app, operand as spec_operand, serve_app};

use clap::error::ErrorKind;
use clap::{Arg, Command, Error};
use std::alloc::{AllocError, Global};

/// The three operands of an `init`.
pub(crate) fn init_parser<'a>(alloc: Global) -> Result<Command<'a>, AllocError>
    ensures { IfOk result (λ parser. app_of parser ≡ init_app) }
{
    Command::new(alloc, "init")
        .no_binary_name(true)
        .disable_help_flag(true)
        .arg(operand(alloc, "name"))?
        .arg(operand(alloc, "token"))?
        .arg(operand(alloc, "quota"))
}

fn operand<'a>(alloc: Global, id: &'a str) -> Arg<'a>
    ensures rule { rule_of result ≡ spec_operand id.entry.now }
    ensures own { result.global ≡ false }
{
    Arg::new(alloc, id).required(true)
}

/// The option of a `serve`.
pub(crate) fn serve_parser<'a>(alloc: Global) -> Result<Command<'a>, AllocError>
    ensures { IfOk result (λ parser. app_of parser ≡ serve_app) }
{
    Command::new(alloc, "serve")
        .no_binary_name(true)
        .disable_help_flag(true)
        .arg(Arg::new(alloc, "connections").long("connections"))
}

/// The words aren't taken, or memory was wanting.
pub(crate) fn refusal<T>(error: &Error) -> Result<Option<T>, AllocError>
    ensures { MatchResult result
        (λ found. (found ≡ None) × (kind_of error.now ≢ ErrorKind.OutOfMemory))
        (λ _. kind_of error.now ≡ ErrorKind.OutOfMemory) }
{
    match error.kind() {
        ErrorKind::OutOfMemory => Err(AllocError),
        _ => Ok(None),
    }
}
