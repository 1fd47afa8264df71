//! Links by their tokens.

ghost use Rattle.std.specs.Prelude.{◌≡◌, refl};
ghost use Rattle.nf_shares.specs.Kept.{front_of, front_of_kind};

use crate::entries::IndexKey;
use nf_base::{ShareKind, ShareRow};
use std::marker::Model;

/// The front of a link's token: its first bytes as one number, which is never 0; and 0 of what is no link.
/// It only narrows a search: of the few links with one front the whole tokens are compared.
#[derive(Clone, Copy)]
pub struct TokenFront {
    number: u64,
}

impl Model for TokenFront {
    ghost use Rattle.std.specs.Prelude.{ℕ};

    ghost Value = { ℕ };

    ghost view = { λ front. front.number };

    ghost inverse = { λ n. record { number = n } };
}

impl TokenFront {
    /// The front of a token, which may be shorter.
    pub(crate) fn of(token: &[u8]) -> Self
        ensures { result ≡ front_of token.now }
    {
        let count = token.len().min(8);
        let mut bytes = [0; 8];
        bytes[..count].copy_from_slice(&token[..count]);
        TokenFront {
            number: u64::from_be_bytes(bytes).max(1),
        }
    }
}

impl IndexKey for TokenFront {
    ghost number = { λ front. front };

    ghost of_row = { λ row. front_of_kind row.kind };

    ghost each_number = { λ n. (n, refl) };

    fn of_row(row: &ShareRow) -> TokenFront {
        match &row.kind {
            ShareKind::Link(token) => TokenFront::of(token.as_bytes()),
            ShareKind::User(_) | ShareKind::Group(_) => TokenFront { number: 0 },
        }
    }

    fn number(&self) -> u64 {
        self.number
    }
}
