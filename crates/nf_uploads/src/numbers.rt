//! The number that a chunk's name tells.

ghost use Rattle.std.specs.Prelude.{◌≡◌, ◌≤◌, ◌+◌, ◌-◌, ◌*◌, min};
ghost use Rattle.std.specs.List.{list_all};
ghost use Rattle.nf_base.specs.declared.limits.TheConstants.{MAX_PIECES};
ghost use Rattle.nf_words.specs.Uploads.{chunk_number, is_digit, number_on};

use nf_base::{MAX_PIECES, Name};

/// The number from 1 to `MAX_PIECES` that a name of decimal digits tells. Zeros may stand in front.
pub fn chunk_number(name: &Name) -> Option<u16>
    ensures { result ≡ chunk_number name.now }
{
    let bytes = name.as_bytes();
    let number = number_in(bytes);
    if are_digits(bytes) && 1 <= number && number <= MAX_PIECES {
        Some(number as u16)
    } else {
        None
    }
}

fn are_digits(bytes: &[u8]) -> bool
    ensures { result ≡ list_all is_digit bytes.now }
{
    bytes.iter().all(|byte| b'0' <= *byte && *byte <= b'9')
}

/// The number that some digits tell, or one more than `MAX_PIECES` where it is above that. A name may have more digits than a number holds.
fn number_in(digits: &[u8]) -> usize
    ensures { result ≡ min (number_on 0 digits.now) (MAX_PIECES + 1) }
{
    let mut number = 0;
    for digit in digits {
        number = with_digit(number, *digit);
    }
    number
}

/// A number and one digit more.
fn with_digit(number: usize, digit: u8) -> usize
    requires { number ≤ MAX_PIECES + 1 }
    ensures { result ≡ min (number * 10 + (digit - 48)) (MAX_PIECES + 1) }
{
    let more = number * 10 + usize::from(digit.saturating_sub(b'0'));
    more.min(MAX_PIECES + 1)
}
