ghost use Rattle.std.specs.Prelude.{◌≡◌, ℕ, List, IfOk, MatchOption};
ghost use Rattle.std.specs.String.{string_bytes};
ghost use Rattle.base64.specs.GeneralPurpose.{encode_of, IsBytes, IsStrict};
ghost use Rattle.json_model.specs.Bytes.{SpellsBytes, printed_bytes};

use base64::DecodeAllocError;
use base64::engine::general_purpose::{
    GeneralPurpose, STANDARD, STANDARD_NO_PAD, URL_SAFE, URL_SAFE_NO_PAD,
};
use document_keys::NoMemory;
use std::alloc::Global;

/// The bytes whose encoding under the engine the text is.
fn decode(engine: &GeneralPurpose, alloc: Global, text: &str) -> Result<Option<Vec<u8>>, NoMemory>
    requires { IsStrict engine.now }
    ensures { IfOk result (λ found. MatchOption found
        ((bytes : List ℕ) → IsBytes bytes → text.now ≡ encode_of engine.now bytes → ⊥)
        (λ bytes. IsBytes bytes.items × (text.now ≡ encode_of engine.now bytes.items))) }
{
    match engine.decode(alloc, text.as_bytes()) {
        Ok(bytes) => Ok(Some(bytes)),
        Err(DecodeAllocError::DecodeError(_)) => Ok(None),
        Err(DecodeAllocError::OutOfMemory) => Err(NoMemory),
    }
}

/// The bytes that the text spells in base64: in the standard or the URL alphabet, with whole padding or none, and with
/// zero bits left over; or `None` where it spells none.
///
/// # Errors
/// `NoMemory`
pub fn read_bytes(alloc: Global, text: &str) -> Result<Option<Vec<u8>>, NoMemory>
    ensures { IfOk result (λ found. MatchOption found
        ((bytes : List ℕ) → SpellsBytes text.now bytes → ⊥)
        (λ bytes. SpellsBytes text.now bytes.items)) }
{
    if let Some(bytes) = decode(&STANDARD, alloc, text)? {
        return Ok(Some(bytes));
    }
    if let Some(bytes) = decode(&STANDARD_NO_PAD, alloc, text)? {
        return Ok(Some(bytes));
    }
    if let Some(bytes) = decode(&URL_SAFE, alloc, text)? {
        return Ok(Some(bytes));
    }
    decode(&URL_SAFE_NO_PAD, alloc, text)
}

/// The text of the bytes in base64: in the standard alphabet, with padding.
///
/// # Errors
/// `NoMemory`
pub fn print_bytes(alloc: Global, bytes: &[u8]) -> Result<String, NoMemory>
    ensures { IfOk result (λ text. string_bytes text ≡ printed_bytes bytes.now) }
{
    Ok(STANDARD.encode(alloc, bytes)?)
}
