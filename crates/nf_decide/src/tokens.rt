//! The tokens of links.

ghost use Rattle.std.specs.Prelude.{◌≡◌, ◌<◌, IfOk};
ghost use Rattle.nf_words.specs.Prelude.{kind_to, link_token};
ghost use Rattle.nf_words.specs.Tokens.{letter_of, letters_of};

use nf_base::{Name, ShareKind};
use nf_words::{Receiver, Words};
use std::alloc::{AllocError, Global};

/// The kind of a new share; a link's token is made of the words.
pub(crate) fn kind_to(alloc: Global, words: Words, to: Receiver) -> Result<ShareKind, AllocError>
    ensures { IfOk result (λ kind. kind ≡ kind_to (link_token words) to) }
{
    match to {
        Receiver::User(user) => Ok(ShareKind::User(user)),
        Receiver::Group(group) => Ok(ShareKind::Group(group)),
        Receiver::Link => Ok(ShareKind::Link(token_name(alloc, words)?)),
    }
}

#[tactic(auto, using(crate::proofs::Letters::token_is_name))]
fn token_name(alloc: Global, words: Words) -> Result<Name, AllocError>
    ensures { IfOk result (λ name. name ≡ link_token words) }
{
    let letters = link_token(words).to_vec(alloc)?;
    Ok(Name::new(letters))
}

/// The token of a new link: eight letters of each of the two words.
#[tactic(auto, unfolding(nf_words::specs::Tokens::link_token))]
pub(crate) fn link_token(words: Words) -> [u8; 16]
    ensures { result ≡ link_token words }
{
    let [a, b, c, d, e, f, g, h] = letters_of(words.first);
    let [i, j, k, l, m, n, o, p] = letters_of(words.second);
    [a, b, c, d, e, f, g, h, i, j, k, l, m, n, o, p]
}

/// Eight letters of a word, each of five bits, from the lowest upwards.
fn letters_of(word: u64) -> [u8; 8]
    ensures { result ≡ letters_of 8 word }
{
    [
        letter_of(word % 32),
        letter_of(word / 32 % 32),
        letter_of(word / 1_024 % 32),
        letter_of(word / 32_768 % 32),
        letter_of(word / 1_048_576 % 32),
        letter_of(word / 33_554_432 % 32),
        letter_of(word / 1_073_741_824 % 32),
        letter_of(word / 34_359_738_368 % 32),
    ]
}

/// `a` to `z`, then `2` to `7`.
fn letter_of(number: u64) -> u8
    requires { number < 32 }
    ensures { result ≡ letter_of number }
{
    let number = number as u8;
    if number < 26 {
        b'a' + number
    } else {
        b'2' + (number - 26)
    }
}
