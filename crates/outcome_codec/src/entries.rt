//! The entries of a point.

ghost use Rattle.std.specs.Prelude.{◌≡◌, ◌++◌, ◌∷◌, OnOk};
ghost use Rattle.record_parts.specs.Reading.{Reads};
ghost use Rattle.record_parts.specs.Spelling.{many, AreSpelled};
ghost use Rattle.outcome_codec.specs.Spelling.{keyed, seen, AreSpelledEntries, IsSpelledKeyed, IsSpelledSeen};

use crate::ascending::entries_ascend;
use crate::parts::KeyedEntry;
use document_keys::NoMemory;
use record_parts::{
    DEPTH, ReadError, byte_of, fields_of, key_of, put_fields, put_key, put_number, put_time,
    room_for, time_of, u64_of,
};
use std::alloc::Global;
use value_model::Entry;

/// How many bytes a key with its entry spells at least.
const KEYED_ENTRY: usize = 39;

/// What follows the byte of a document that was found, and what follows that.
fn found_of(alloc: Global, bytes: &[u8]) -> Result<(Entry, &[u8]), ReadError>
    ensures { Reads seen IsSpelledSeen (1 ∷ bytes.now) (λ x. (x.0, x.1.now)) result }
{
    let (fields, rest) = fields_of(alloc, DEPTH, bytes)?;
    let (version, rest) = time_of(rest)?;
    Ok((Entry::Found(fields, version), rest))
}

/// An entry that was seen, and what follows it.
fn seen_of(alloc: Global, bytes: &[u8]) -> Result<(Entry, &[u8]), ReadError>
    ensures { Reads seen IsSpelledSeen bytes.now (λ x. (x.0, x.1.now)) result }
{
    let (byte, rest) = byte_of(bytes)?;
    match byte {
        1 => found_of(alloc, rest),
        2 => {
            let (version, rest) = time_of(rest)?;
            Ok((Entry::Missing(version), rest))
        }
        _ => Err(ReadError::NotSpelled),
    }
}

/// A key with its entry, and what follows it.
fn keyed_of(alloc: Global, bytes: &[u8]) -> Result<(KeyedEntry, &[u8]), ReadError>
    ensures { Reads keyed IsSpelledKeyed bytes.now (λ x. (x.0, x.1.now)) result }
{
    let (key, rest) = key_of(alloc, bytes)?;
    let (entry, rest) = seen_of(alloc, rest)?;
    Ok((KeyedEntry { key, entry }, rest))
}

/// Entries in whatever order, as many as the number before them says, and what follows them.
fn any_entries_of(alloc: Global, bytes: &[u8]) -> Result<(Vec<KeyedEntry>, &[u8]), ReadError>
    ensures { Reads (many keyed) (AreSpelled IsSpelledKeyed) bytes.now (λ x. (x.0.items, x.1.now)) result }
{
    let (count, start) = u64_of(bytes)?;
    let mut entries = Vec::with_capacity(alloc, room_for(count, start, KEYED_ENTRY))?;
    let mut rest = start;
    for _ in 0..count {
        let (entry, next) = keyed_of(alloc, rest)?;
        entries.push(entry)?;
        rest = next;
    }
    Ok((entries, rest))
}

/// Entries whose keys strictly ascend, as many as the number before them says, and what follows them.
///
/// # Errors
/// `NotSpelled` where the bytes begin with no such list; or `Memory`.
pub fn entries_of(alloc: Global, bytes: &[u8]) -> Result<(Vec<KeyedEntry>, &[u8]), ReadError>
    ensures { Reads (many keyed) AreSpelledEntries bytes.now (λ x. (x.0.items, x.1.now)) result }
{
    let (entries, rest) = any_entries_of(alloc, bytes)?;
    if entries_ascend(entries.as_slice()) {
        Ok((entries, rest))
    } else {
        Err(ReadError::NotSpelled)
    }
}

#[tactic(auto, unfolding(crate::specs::Spelling::seen))]
fn put_seen(out: &mut Vec<u8>, entry: &Entry) -> Result<(), NoMemory>
    ensures { OnOk result (out.new.items ≡ out.old.items ++ seen entry.now) }
{
    match entry {
        Entry::Found(fields, version) => {
            out.push(1)?;
            put_fields(out, fields)?;
            put_time(out, *version)
        }
        Entry::Missing(version) => {
            out.push(2)?;
            put_time(out, *version)
        }
        Entry::Unknown(version) => {
            out.push(3)?;
            put_time(out, *version)
        }
    }
}

#[tactic(auto, unfolding(crate::specs::Spelling::keyed))]
fn put_keyed(out: &mut Vec<u8>, content: &KeyedEntry) -> Result<(), NoMemory>
    ensures { OnOk result (out.new.items ≡ out.old.items ++ keyed content.now) }
{
    put_key(out, &content.key)?;
    put_seen(out, &content.entry)
}

/// Appends the spelling of the entries.
///
/// # Errors
/// `NoMemory`
pub fn put_entries(out: &mut Vec<u8>, entries: &[KeyedEntry]) -> Result<(), NoMemory>
    ensures { OnOk result (out.new.items ≡ out.old.items ++ many keyed entries.now) }
{
    put_number(out, entries.len() as u64)?;
    for entry in entries {
        put_keyed(out, entry)?;
    }
    Ok(())
}
