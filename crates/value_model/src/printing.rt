ghost use Rattle.std.specs.Prelude.{◌≡◌, ◌+◌, ◌<◌, ◌++◌, ◌∷◌, [], OnOk};
ghost use Rattle.std.specs.String.{string_bytes};
ghost use Rattle.value_model.specs.Time.{IsDay};
ghost use Rattle.value_model.specs.Time.{two, three, four, date_text, clock_text, fraction_text, TimesReadBack};
ghost use Rattle.jiff_core.specs.Date.{epoch_day};

use document_keys::NoMemory;
use jiff_core::civil::Date;

/// Appends a digit.
#[tactic(auto, using(std::proofs::lemmas::Str::encode_ascii))]
fn put_digit(text: &mut String, n: u32) -> Result<(), NoMemory>
    requires { n < 10 }
    ensures { OnOk result (string_bytes text.new ≡ string_bytes text.old ++ (48 + n) ∷ []) }
{
    text.push((b'0' + n as u8) as char)?;
    Ok(())
}

/// Appends two digits.
fn put_two(text: &mut String, n: u32) -> Result<(), NoMemory>
    requires { n < 100 }
    ensures { OnOk result (string_bytes text.new ≡ string_bytes text.old ++ two n) }
{
    put_digit(text, n / 10)?;
    put_digit(text, n % 10)
}

/// Appends three digits.
fn put_three(text: &mut String, n: u32) -> Result<(), NoMemory>
    requires { n < 1000 }
    ensures { OnOk result (string_bytes text.new ≡ string_bytes text.old ++ three n) }
{
    put_digit(text, n / 100)?;
    put_two(text, n % 100)
}

/// Appends `YYYY-MM-DD`.
fn put_ymd(text: &mut String, year: u32, month: u32, day: u32) -> Result<(), NoMemory>
    requires year { year < 10000 }
    requires month { month < 100 }
    requires day { day < 100 }
    ensures { OnOk result (string_bytes text.new
        ≡ string_bytes text.old ++ (four year ++ 45 ∷ (two month ++ 45 ∷ two day))) }
{
    put_two(text, year / 100)?;
    put_two(text, year % 100)?;
    text.push('-')?;
    put_two(text, month)?;
    text.push('-')?;
    put_two(text, day)
}

/// The date of a day, 0 being 1970-01-01.
fn date_of(day: i64) -> Date
    requires { IsDay day }
    ensures { epoch_day result ≡ day }
{
    Date::from_unix_epoch_day(day).unwrap()
}

/// Appends the date of a day of the years 1 to 9999, 0 being 1970-01-01.
pub(crate) fn put_date(text: &mut String, day: i64) -> Result<(), NoMemory>
    requires { IsDay day }
    ensures { OnOk result (string_bytes text.new ≡ string_bytes text.old ++ date_text day) }
{
    let date = date_of(day);
    put_ymd(
        text,
        date.year.unsigned_abs() as u32,
        date.month as u32,
        date.day as u32,
    )
}

/// Appends `HH:MM:SS` of a second of the day.
pub(crate) fn put_clock(text: &mut String, second: u32) -> Result<(), NoMemory>
    requires { second < 86400 }
    ensures { OnOk result (string_bytes text.new ≡ string_bytes text.old ++ clock_text second) }
{
    put_two(text, second / 3600)?;
    text.push(':')?;
    put_two(text, second % 3600 / 60)?;
    text.push(':')?;
    put_two(text, second % 60)
}

/// Appends a point and three, six or nine digits, the fewest that keep the nanoseconds; nothing where there are none.
#[tactic(auto, unfolding(crate::specs::Time::fraction_text))]
pub(crate) fn put_fraction(text: &mut String, nanos: u32) -> Result<(), NoMemory>
    requires { nanos < 1000000000 }
    ensures { OnOk result (string_bytes text.new ≡ string_bytes text.old ++ fraction_text nanos) }
{
    if nanos == 0 {
        return Ok(());
    }
    text.push('.')?;
    put_three(text, nanos / 1_000_000)?;
    if nanos % 1_000_000 == 0 {
        return Ok(());
    }
    put_three(text, nanos / 1000 % 1000)?;
    if nanos % 1000 == 0 {
        return Ok(());
    }
    put_three(text, nanos % 1000)
}

/// What is printed of a moment reads back as that moment. Nothing is done when it runs.
pub fn times_read_back()
    ensures { TimesReadBack }
{}
