//! The dates of ends (ISO 8601, in the proleptic Gregorian calendar).
#![tactic(auto)]

ghost use Rattle.std.specs.Prelude.{◌≡◌, ℕ, ◌≤◌, ◌<◌, IfOk, IfSome, option_map};
ghost use Rattle.std.specs.String.{string_bytes};
ghost use Rattle.nf_dates.specs.Dates.{ReadsPair, date_text, day_written, end_date as date_of_end, end_day, end_written, in_digits, number_to_read};

use jiff::civil::Date;
use nf_base::Moment;
use std::alloc::{AllocError, Global};

const SECONDS_A_DAY: u64 = 86_400;

// The number of 9999-12-31.
const LAST_DAY: u64 = 2_932_896;

// That of 9998-12-31, the last day after which a share ends.
const LAST_DAY_READ: i32 = 2_932_531;

/// The last day before an end, as `YYYY-MM-DD`; none from the year 10000 on.
pub fn end_date(alloc: Global, end: Moment) -> Result<Option<String>, AllocError>
    ensures { IfOk result (λ date. option_map string_bytes date ≡ date_of_end end) }
{
    let day = last_day(end);
    if day <= LAST_DAY {
        Ok(Some(text(alloc, day)?))
    } else {
        Ok(None)
    }
}

fn last_day(end: Moment) -> u64
    ensures { result ≡ end_day end }
{
    (end.seconds() / SECONDS_A_DAY).saturating_sub(1)
}

// The date of a day.
fn text(alloc: Global, day: u64) -> Result<String, AllocError>
    requires { day ≤ 2932896 }
    ensures { IfOk result (λ text. string_bytes text ≡ date_text day) }
{
    let plain = jiff_core::civil::Date::from_unix_epoch_day(day as i64).unwrap();
    let date = Date::from_plain(plain);
    format!(in alloc; "{date}")
}

/// The end behind the day that a text names as `YYYY-MM-DD`: the midnight after it, in UTC. None of a text that names no day from
/// 1970-01-01 to 9998-12-31.
pub fn read_end(text: &[u8]) -> Option<Moment>
    ensures { result ≡ end_written text.now }
{
    let day = day_in(text)?;
    Some(Moment::new((day + 1) * SECONDS_A_DAY))
}

// The day that a text names.
fn day_in(text: &[u8]) -> Option<u64>
    ensures value { result ≡ day_written 2932532 text.now }
    ensures bound { IfSome result (λ (day : ℕ). day ≤ 2932531) }
{
    let [y1, y2, y3, y4, dash, m1, m2, other, d1, d2] = text else {
        return None;
    };
    if *dash != b'-' || *other != b'-' {
        return None;
    }
    let century = pair(*y1, *y2)?;
    let year = pair(*y3, *y4)?;
    let month = pair(*m1, *m2)?;
    let day = pair(*d1, *d2)?;
    day_of(century, year, month, day)
}

// The number below 100 that two digits write.
fn pair(tens: u8, ones: u8) -> Option<u8>
    ensures { ReadsPair tens ones result }
{
    if tens.is_ascii_digit() && ones.is_ascii_digit() {
        Some((tens - b'0') * 10 + (ones - b'0'))
    } else {
        None
    }
}

// The day of a date, if the calendar has it.
fn day_of(century: u8, year: u8, month: u8, day: u8) -> Option<u64>
    requires century { century < 100 }
    requires year { year < 100 }
    requires month { month < 100 }
    requires day { day < 100 }
    ensures value { result ≡ day_written 2932532 (in_digits century year month day) }
    ensures bound { IfSome result (λ (day : ℕ). day ≤ 2932531) }
{
    let year = i16::from(century) * 100 + i16::from(year);
    match jiff_core::civil::Date::new(year, month as i8, day as i8) {
        Ok(date) => number_read(date.to_unix_epoch_day()),
        Err(_) => None,
    }
}

// A number of a day, if it is one of those that are read.
fn number_read(day: i32) -> Option<u64>
    ensures { result ≡ number_to_read day }
{
    if 0 <= day && day <= LAST_DAY_READ {
        Some(day as u64)
    } else {
        None
    }
}
