ghost use Rattle.std.specs.Prelude.{◌≡◌, IfOk, IfErr, List, ℕ, [], ◌++◌, ◌∷◌};
ghost use Rattle.value_model.specs.Storable.{IsCountable};
ghost use Rattle.record_parts.specs.Spelling.{text, key, many, AreSpelled, IsText, IsNameText, IsSegmentText, IsSpelledKey};
ghost use Rattle.record_parts.specs.Reading.{Begins, BeginsNone, Fails, Reads};

use crate::fault::ReadError;
use crate::numbers::{room_for, u64_of};
use document_keys::{DocumentKey, KeyBuilder, Segment, Text, check_field_name};
use std::alloc::Global;

/// How many bytes the text of a name spells at least.
pub(crate) const TEXT: usize = 9;

/// As many bytes as the length before them says, lent, and what follows them.
pub fn slice_of(bytes: &[u8]) -> Result<(&[u8], &[u8]), ReadError>
    ensures { Reads text IsCountable bytes.now (λ x. (x.0.now, x.1.now)) result }
{
    let (len, rest) = u64_of(bytes)?;
    if (rest.len() as u64) < len {
        return Err(ReadError::NotSpelled);
    }
    Ok(rest.split_at(len as usize))
}

/// A text, lent, and what follows it.
pub fn text_of(bytes: &[u8]) -> Result<(&str, &[u8]), ReadError>
    ensures { Reads text IsText bytes.now (λ x. (x.0.now, x.1.now)) result }
{
    let (front, rest) = slice_of(bytes)?;
    match str::from_utf8(front) {
        Ok(content) => Ok((content, rest)),
        Err(_) => Err(ReadError::NotSpelled),
    }
}

/// A segment, and what follows it.
pub fn segment_of(alloc: Global, bytes: &[u8]) -> Result<(Segment, &[u8]), ReadError>
    ensures { Reads text IsSegmentText bytes.now (λ x. (x.0, x.1.now)) result }
{
    let (content, rest) = text_of(bytes)?;
    let segment = Segment::read(alloc, content)?;
    Ok((segment, rest))
}

/// Segments, as many as the number before them says, and what follows them.
pub fn segments_of(alloc: Global, bytes: &[u8]) -> Result<(Vec<Segment>, &[u8]), ReadError>
    ensures { Reads (many text) (AreSpelled IsSegmentText) bytes.now (λ x. (x.0.items, x.1.now)) result }
{
    let (count, start) = u64_of(bytes)?;
    let mut segments = Vec::with_capacity(alloc, room_for(count, start, TEXT))?;
    let mut rest = start;
    for _ in 0..count {
        let (segment, next) = segment_of(alloc, rest)?;
        segments.push(segment)?;
        rest = next;
    }
    Ok((segments, rest))
}

/// The segments of the builder and a further one, and what follows it.
fn segment_onto(builder: KeyBuilder, bytes: &[u8]) -> Result<(KeyBuilder, &[u8]), ReadError>
    ensures next { IfOk result (λ x. (segment : List ℕ) × Begins text IsSegmentText bytes.now segment x.1.now
        × (x.0 ≡ builder ++ segment ∷ [])) }
    ensures none { IfErr result (λ fault. Fails fault (BeginsNone text IsSegmentText bytes.now)) }
{
    let (content, rest) = text_of(bytes)?;
    let longer = builder.with(content)?;
    Ok((longer, rest))
}

/// The segments of a key, as many as the number before them says, and what follows them.
fn builder_of(alloc: Global, bytes: &[u8]) -> Result<(KeyBuilder, &[u8]), ReadError>
    ensures { Reads (many text) (AreSpelled IsSegmentText) bytes.now (λ x. (x.0, x.1.now)) result }
{
    let (count, start) = u64_of(bytes)?;
    let mut builder = KeyBuilder::new(alloc);
    let mut rest = start;
    for _ in 0..count {
        let (longer, next) = segment_onto(builder, rest)?;
        builder = longer;
        rest = next;
    }
    Ok((builder, rest))
}

/// A key, and what follows it.
pub fn key_of(alloc: Global, bytes: &[u8]) -> Result<(DocumentKey, &[u8]), ReadError>
    ensures { Reads key IsSpelledKey bytes.now (λ x. (x.0, x.1.now)) result }
{
    let (builder, rest) = builder_of(alloc, bytes)?;
    let name = builder.finish()?;
    Ok((name, rest))
}

/// The name of a field, and what follows it.
pub fn name_of(alloc: Global, bytes: &[u8]) -> Result<(Text, &[u8]), ReadError>
    ensures { Reads text IsNameText bytes.now (λ x. (x.0, x.1.now)) result }
{
    let (content, rest) = text_of(bytes)?;
    match check_field_name(content) {
        Ok(()) => Ok((Text::from_str(alloc, content)?, rest)),
        Err(_) => Err(ReadError::NotSpelled),
    }
}
