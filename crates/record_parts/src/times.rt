ghost use Rattle.std.specs.Prelude.{◌↔◌, IsTrue};
ghost use Rattle.value_model.specs.Time.{IsMoment};
ghost use Rattle.record_parts.specs.Spelling.{time};
ghost use Rattle.record_parts.specs.Reading.{Reads};

use crate::fault::ReadError;
use crate::numbers::{i64_of, u32_of};
use value_model::Timestamp;

/// Whether the time lies in the years 1 to 9999, and has less than a second of nanoseconds.
fn is_moment(at: &Timestamp) -> bool
    ensures { IsTrue result ↔ IsMoment at.now }
{
    if at.seconds < -62_135_596_800 || at.seconds > 253_402_300_799 {
        return false;
    }
    at.nanos < 1_000_000_000
}

/// A time, and what follows it.
pub fn time_of(bytes: &[u8]) -> Result<(Timestamp, &[u8]), ReadError>
    ensures { Reads time IsMoment bytes.now (λ x. (x.0, x.1.now)) result }
{
    let (seconds, rest) = i64_of(bytes)?;
    let (nanos, rest) = u32_of(rest)?;
    let at = Timestamp { seconds, nanos };
    if is_moment(&at) {
        Ok((at, rest))
    } else {
        Err(ReadError::NotSpelled)
    }
}
