//! Paths of fields in a query, and of collections.

ghost use Rattle.record_parts.specs.Reading.{Reads};
ghost use Rattle.record_parts.specs.Spelling.{text, path, many, AreSpelled, IsText};
ghost use Rattle.target_codec.specs.Spelling.{IsSpelledCollection, IsSpelledQueryPath};

use document_keys::{CollectionPath, FieldPath, Text};
use record_parts::{ReadError, segments_of, text_of, u64_of};
use std::alloc::Global;

/// How many names a path has at most.
const MOST: usize = 21;

/// A text of its own, and what follows it.
fn owned_text_of(alloc: Global, bytes: &[u8]) -> Result<(Text, &[u8]), ReadError>
    ensures { Reads text IsText bytes.now (λ x. (x.0, x.1.now)) result }
{
    let (content, rest) = text_of(bytes)?;
    Ok((Text::from_str(alloc, content)?, rest))
}

/// Texts, as many as the number before them says, and what follows them.
fn texts_of(alloc: Global, bytes: &[u8]) -> Result<(Vec<Text>, &[u8]), ReadError>
    ensures { Reads path (AreSpelled IsText) bytes.now (λ x. (x.0.items, x.1.now)) result }
{
    let (count, start) = u64_of(bytes)?;
    let mut texts = Vec::new(alloc);
    let mut rest = start;
    for _ in 0..count {
        let (text, next) = owned_text_of(alloc, rest)?;
        texts.push(text)?;
        rest = next;
    }
    Ok((texts, rest))
}

/// A path of 1 to 21 names of fields, or `__name__`, and what follows it.
pub(crate) fn query_path_of(alloc: Global, bytes: &[u8]) -> Result<(FieldPath, &[u8]), ReadError>
    ensures { Reads path IsSpelledQueryPath bytes.now (λ x. (x.0, x.1.now)) result }
{
    let (names, rest) = texts_of(alloc, bytes)?;
    if names.len() > MOST {
        return Err(ReadError::NotSpelled);
    }
    match FieldPath::from_names(names) {
        Ok(path) => Ok((path, rest)),
        Err(_) => Err(ReadError::NotSpelled),
    }
}

/// The path of a collection, and what follows it.
pub(crate) fn collection_of(
    alloc: Global,
    bytes: &[u8],
) -> Result<(CollectionPath, &[u8]), ReadError>
    ensures { Reads (many text) IsSpelledCollection bytes.now (λ x. (x.0, x.1.now)) result }
{
    let (segments, rest) = segments_of(alloc, bytes)?;
    match CollectionPath::from_segments(segments) {
        Some(path) => Ok((path, rest)),
        None => Err(ReadError::NotSpelled),
    }
}
