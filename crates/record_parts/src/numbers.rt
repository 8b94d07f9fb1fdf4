ghost use Rattle.std.specs.Prelude.{◌≡◌, ◌≢◌, ◌<◌, ◌^◌, ◌/◌, List, [], ◌∷◌, ℕ, ◌++◌, length, min, MatchResult, FitsSigned};
ghost use Rattle.std.specs.Int.{w32, w64, to_be_bytes};
ghost use Rattle.record_parts.specs.Spelling.{number, signed, boolean};
ghost use Rattle.record_parts.specs.Reading.{Reads};

use crate::fault::ReadError;

/// What follows the front, if the bytes begin with it.
pub fn after<'a>(bytes: &'a [u8], front: &[u8]) -> Result<&'a [u8], ReadError>
    ensures { MatchResult result (λ rest. bytes.now ≡ front.now ++ rest.now)
        (λ _. (rest : List ℕ) → bytes.now ≢ front.now ++ rest) }
{
    match bytes.strip_prefix(front) {
        Some(rest) => Ok(rest),
        None => Err(ReadError::NotSpelled),
    }
}

/// A byte, and what follows it.
pub fn byte_of(bytes: &[u8]) -> Result<(u8, &[u8]), ReadError>
    ensures { MatchResult result (λ x. bytes.now ≡ x.0 ∷ x.1.now) (λ _. bytes.now ≡ []) }
{
    match bytes.split_first() {
        Some((byte, rest)) => Ok((*byte, rest)),
        None => Err(ReadError::NotSpelled),
    }
}

/// A byte of 0 or 1, and what follows it.
pub fn flag_of(bytes: &[u8]) -> Result<(bool, &[u8]), ReadError>
    ensures { Reads boolean (λ _. Unit {0}) bytes.now (λ x. (x.0, x.1.now)) result }
{
    let (byte, rest) = byte_of(bytes)?;
    match byte {
        0 => Ok((false, rest)),
        1 => Ok((true, rest)),
        _ => Err(ReadError::NotSpelled),
    }
}

/// A number of eight bytes, and what follows it.
pub fn u64_of(bytes: &[u8]) -> Result<(u64, &[u8]), ReadError>
    ensures { Reads number (λ n. n < 2 ^ 64) bytes.now (λ x. (x.0, x.1.now)) result }
{
    match bytes.split_first_chunk::<8>() {
        Some((front, rest)) => Ok((u64::from_be_bytes(*front), rest)),
        None => Err(ReadError::NotSpelled),
    }
}

/// A number of four bytes, and what follows it.
pub fn u32_of(bytes: &[u8]) -> Result<(u32, &[u8]), ReadError>
    ensures { Reads (to_be_bytes w32) (λ n. n < 2 ^ 32) bytes.now (λ x. (x.0, x.1.now)) result }
{
    match bytes.split_first_chunk::<4>() {
        Some((front, rest)) => Ok((u32::from_be_bytes(*front), rest)),
        None => Err(ReadError::NotSpelled),
    }
}

/// For how many elements to take room, where there are to be so many and each spells at least so many of the bytes: for no more
/// than the bytes can spell, since a damaged count may be any number.
pub fn room_for(count: u64, bytes: &[u8], least: usize) -> usize
    requires { 0 < least }
    ensures { result ≡ min count (length bytes.now / least) }
{
    count.min((bytes.len() / least) as u64) as usize
}

/// A number of eight bytes with a sign, and what follows it.
pub fn i64_of(bytes: &[u8]) -> Result<(i64, &[u8]), ReadError>
    ensures { Reads signed (FitsSigned w64) bytes.now (λ x. (x.0, x.1.now)) result }
{
    let (n, rest) = u64_of(bytes)?;
    Ok((n.cast_signed(), rest))
}
