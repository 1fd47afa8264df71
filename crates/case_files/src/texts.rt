//! Texts that stand for bytes.

ghost use Rattle.std.specs.Prelude.{◌≡◌, ◌≤◌, Any, IfOk, Err};
ghost use Rattle.std.specs.Str.{chars};
ghost use Rattle.case_files.specs.declared.case.Unread.TheVariants.{NotBytes};

use crate::case::Unread;
use std::alloc::{AllocError, Global};

/// The bytes that a text stands for: each character, from U+0000 to U+00FF, is one.
pub fn bytes_of(alloc: Global, text: &str) -> Result<Vec<u8>, Unread>
    ensures bytes { IfOk result (λ bytes. bytes.items ≡ chars text.now) }
    ensures not_bytes { result ≡ Err NotBytes → Any (λ c. 256 ≤ c) (chars text.now) }
{
    let characters = characters(alloc, text)?;
    one_by_one(alloc, &characters)
}

fn characters(alloc: Global, text: &str) -> Result<Vec<char>, AllocError>
    ensures { IfOk result (λ characters. characters.items ≡ chars text.now) }
{
    text.chars().collect(alloc)
}

fn one_by_one(alloc: Global, characters: &[char]) -> Result<Vec<u8>, Unread>
    ensures bytes { IfOk result (λ bytes. bytes.items ≡ characters.now) }
    ensures not_bytes { result ≡ Err NotBytes → Any (λ c. 256 ≤ c) characters.now }
{
    let mut bytes = Vec::new(alloc);
    for c in characters {
        let Ok(byte) = u8::try_from(*c) else {
            return Err(Unread::NotBytes);
        };
        bytes.push(byte)?;
    }
    Ok(bytes)
}
