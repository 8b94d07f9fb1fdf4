ghost use Rattle.std.specs.Prelude.{◌≡◌, ◌<◌, ◌≤◌, ◌∷◌, pos, ◌≤ℤ◌, ◌<ℤ◌, length, IfSome, IfOk};
ghost use Rattle.std.specs.String.{string_bytes};
ghost use Rattle.jiff_core.specs.Calendar.{IsEpochDay};
ghost use Rattle.jiff_core.specs.Date.{epoch_day};
ghost use Rattle.value_model.specs.Time.{pair_of, day_of, date_of, second_of, nanos_of, has_marks, IsDay};

use crate::printing::{put_clock, put_date, put_fraction};
use document_keys::NoMemory;
use jiff::civil;
use jiff::civil::Date;
use std::alloc::Global;
use std::cmp::Ordering;

/// A moment: seconds since 1970-01-01T00:00:00Z, from year 1 to year 9999 (-62,135,596,800 to 253,402,300,799), and
/// nanoseconds below 1,000,000,000.
#[derive(Clone, Copy, Debug, PartialEq, Eq, PartialOrd, Ord)]
pub struct Timestamp {
    pub seconds: i64,
    pub nanos: u32,
}

impl Timestamp {
    ghost use Rattle.value_model.specs.Time.{time_of, instant, IsMoment};
    ghost use Rattle.std.specs.Ordering.{MatchOrdering};
    ghost use Rattle.value_model.specs.Time.{time_text, moment_text, nearest, since_first, day_in};

    /// Reads `YYYY-MM-DDTHH:MM:SSZ` (RFC 3339 in UTC), before whose `Z` a point and one to nine digits may stand: a real date
    /// of the years 0001 to 9999, an hour to 23, a minute and a second to 59. `None` exactly where the text isn't of the form.
    #[tactic(auto, unfolding(crate::specs::Time::time_of))]
    pub fn read(text: &str) -> Option<Timestamp>
        ensures value { result ≡ time_of text.now }
        ensures moment { IfSome result IsMoment }
    {
        let bytes = text.as_bytes();
        if !has_marks(bytes) {
            return None;
        }
        let day = day_number(bytes)?;
        let second = second_of_day(bytes)?;
        let nanos = nanoseconds(&bytes[19..bytes.len() - 1])?;
        Some(Timestamp {
            seconds: day * 86_400 + second as i64,
            nanos,
        })
    }

    /// The time as RFC 3339 writes it in UTC, with 0, 3, 6 or 9 digits of the second's fraction, the fewest that keep it. A
    /// time outside the years 1 to 9999, which nothing here makes, is written as the nearest of them.
    ///
    /// # Errors
    /// `NoMemory`
    #[tactic(auto, unfolding(crate::specs::Time::time_text))]
    pub fn print(&self, alloc: Global) -> Result<String, NoMemory>
        ensures { IfOk result (λ text. string_bytes text ≡ time_text self.now) }
    {
        self.nearest().print_moment(alloc)
    }

    /// The nearest time of the years 1 to 9999.
    fn nearest(&self) -> Timestamp
        ensures value { result ≡ nearest self.now }
        ensures moment { IsMoment result }
    {
        if self.seconds < -62_135_596_800 {
            return Timestamp {
                seconds: -62_135_596_800,
                nanos: 0,
            };
        }
        if self.seconds > 253_402_300_799 {
            return Timestamp {
                seconds: 253_402_300_799,
                nanos: 999_999_999,
            };
        }
        Timestamp {
            seconds: self.seconds,
            nanos: self.nanos.min(999_999_999),
        }
    }

    #[tactic(auto, unfolding(crate::specs::Time::moment_text))]
    fn print_moment(&self, alloc: Global) -> Result<String, NoMemory>
        requires { IsMoment self.now }
        ensures { IfOk result (λ text. string_bytes text ≡ moment_text self.now) }
    {
        let mut text = String::with_capacity(alloc, 30)?;
        put_date(&mut text, self.day())?;
        text.push('T')?;
        put_clock(&mut text, (self.since_first() % 86_400) as u32)?;
        put_fraction(&mut text, self.nanos)?;
        text.push('Z')?;
        Ok(text)
    }

    /// The order of moments, the earlier one first.
    pub fn compare(&self, other: &Timestamp) -> Ordering
        requires this { IsMoment self.now }
        requires that { IsMoment other.now }
        ensures { MatchOrdering result (instant self.now <ℤ instant other.now)
            (self.now ≡ other.now) (instant other.now <ℤ instant self.now) }
    {
        self.cmp(other)
    }

    /// The seconds since 0001-01-01T00:00:00Z.
    fn since_first(&self) -> u64
        requires { IsMoment self.now }
        ensures value { result ≡ since_first self.now }
        ensures bound { result < 315537897600 }
    {
        (self.seconds + 62_135_596_800) as u64
    }

    /// The day number: 0 for 1970-01-01.
    fn day(&self) -> i64
        requires { IsMoment self.now }
        ensures value { result ≡ day_in self.now }
        ensures bound { IsDay result }
    {
        (self.since_first() / 86_400) as i64 - 719_162
    }
}

/// Whether `-`, `-`, `T`, `:` and `:` stand in their places, and `Z` at the end.
fn has_marks(bytes: &[u8]) -> bool
    ensures { result ≡ has_marks bytes.now }
{
    if bytes.len() < 20 || bytes[4] != b'-' || bytes[7] != b'-' || bytes[10] != b'T' {
        return false;
    }
    bytes[13] == b':' && bytes[16] == b':' && bytes[bytes.len() - 1] == b'Z'
}

/// The nanoseconds that the text between the second and the `Z` spells.
fn nanoseconds(fraction: &[u8]) -> Option<u32>
    ensures value { result ≡ nanos_of fraction.now }
    ensures bound { IfSome result (λ nanos. nanos < 1000000000) }
{
    match fraction {
        [] => Some(0),
        [b'.', digits @ ..] => nanoseconds_of(digits),
        _ => None,
    }
}

/// The nanoseconds that one to nine digits behind the point spell.
fn nanoseconds_of(digits: &[u8]) -> Option<u32>
    ensures value { result ≡ nanos_of (46 ∷ digits.now) }
    ensures bound { IfSome result (λ nanos. nanos < 1000000000) }
{
    if digits.is_empty() || digits.len() > 9 {
        return None;
    }
    let mut number = 0;
    for digit in digits {
        if !digit.is_ascii_digit() {
            return None;
        }
        number = 10 * number + (digit - b'0') as u32;
    }
    Some(number * 10u32.pow(9 - digits.len() as u32))
}

/// The day number of the date that the first ten bytes spell: 0 for 1970-01-01.
#[tactic(auto, unfolding(crate::specs::Time::day_of))]
fn day_number(bytes: &[u8]) -> Option<i64>
    requires { 20 ≤ length bytes.now }
    ensures value { result ≡ day_of bytes.now }
    ensures bound { IfSome result IsDay }
{
    let century = pair(bytes[0], bytes[1])?;
    let year = pair(bytes[2], bytes[3])?;
    let month = pair(bytes[5], bytes[6])?;
    let day = pair(bytes[8], bytes[9])?;
    day_of_date(100 * century as u16 + year as u16, month, day)
}

/// The day number of a date, where the calendar has it.
fn day_of_date(year: u16, month: u8, day: u8) -> Option<i64>
    requires year { year < 10000 }
    requires month { month < 100 }
    requires day { day < 100 }
    ensures value { result ≡ date_of year month day }
    ensures bound { IfSome result IsDay }
{
    if year == 0 {
        return None;
    }
    match Date::new(year as i16, month as i8, day as i8) {
        Ok(date) => Some(day_number_of(date)),
        Err(_) => None,
    }
}

/// The days since 1970-01-01.
fn day_number_of(date: Date) -> i64
    ensures value { result ≡ epoch_day date }
    ensures bound { IsEpochDay result }
    ensures late { pos 1 ≤ℤ date.year → IsDay result }
{
    let seconds = date.duration_since(civil::date(1970, 1, 1)).as_secs();
    seconds / 86_400
}

/// The second of the day that the time of day behind the `T` spells.
#[tactic(auto, unfolding(crate::specs::Time::second_of))]
fn second_of_day(bytes: &[u8]) -> Option<u32>
    requires { 20 ≤ length bytes.now }
    ensures value { result ≡ second_of bytes.now }
    ensures bound { IfSome result (λ second. second < 86400) }
{
    let hour = pair(bytes[11], bytes[12])?;
    let minute = pair(bytes[14], bytes[15])?;
    let second = pair(bytes[17], bytes[18])?;
    if hour < 24 && minute < 60 && second < 60 {
        Some(3600 * hour as u32 + 60 * minute as u32 + second as u32)
    } else {
        None
    }
}

/// The number that two digits spell.
fn pair(tens: u8, ones: u8) -> Option<u8>
    ensures value { result ≡ pair_of tens ones }
    ensures bound { IfSome result (λ n. n < 100) }
{
    if tens.is_ascii_digit() && ones.is_ascii_digit() {
        Some(10 * (tens - b'0') + (ones - b'0'))
    } else {
        None
    }
}
