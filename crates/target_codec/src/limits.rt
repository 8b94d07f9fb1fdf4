//! Limits.

ghost use Rattle.std.specs.Prelude.{◌≡◌, ◌++◌, OnOk, IfSome};
ghost use Rattle.record_parts.specs.Reading.{Reads};
ghost use Rattle.record_parts.specs.Spelling.{opt};
ghost use Rattle.target_codec.specs.Spelling.{limit, IsSpelledLimit};

use document_keys::NoMemory;
use record_parts::{ReadError, byte_of, u32_of};

/// The greatest limit.
const MOST: u32 = 2_147_483_647;

/// A limit, and what follows it.
fn limit_of(bytes: &[u8]) -> Result<(u32, &[u8]), ReadError>
    ensures { Reads limit IsSpelledLimit bytes.now (λ x. (x.0, x.1.now)) result }
{
    let (most, rest) = u32_of(bytes)?;
    if most == 0 || most > MOST {
        return Err(ReadError::NotSpelled);
    }
    Ok((most, rest))
}

/// A limit or none, and what follows it.
pub(crate) fn given_limit_of(bytes: &[u8]) -> Result<(Option<u32>, &[u8]), ReadError>
    ensures { Reads (opt limit) (λ given. IfSome given IsSpelledLimit) bytes.now
        (λ x. (x.0, x.1.now)) result }
{
    let (byte, rest) = byte_of(bytes)?;
    match byte {
        0 => Ok((None, rest)),
        1 => {
            let (most, rest) = limit_of(rest)?;
            Ok((Some(most), rest))
        }
        _ => Err(ReadError::NotSpelled),
    }
}

/// Appends the spelling of the limit, or of none.
pub(crate) fn put_given_limit(out: &mut Vec<u8>, given: Option<u32>) -> Result<(), NoMemory>
    ensures { OnOk result (out.new.items ≡ out.old.items ++ opt limit given) }
{
    match given {
        None => out.push(0)?,
        Some(most) => {
            out.push(1)?;
            out.extend_from_slice(&most.to_be_bytes())?;
        }
    }
    Ok(())
}
