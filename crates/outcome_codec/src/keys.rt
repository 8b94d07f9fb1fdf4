//! Sets of keys.

ghost use Rattle.std.specs.Prelude.{◌≡◌, ◌++◌, IfOk, OnOk};
ghost use Rattle.std.specs.List.{AllPairs};
ghost use Rattle.document_keys.specs.Order.{PathBefore};
ghost use Rattle.record_parts.specs.Reading.{Reads};
ghost use Rattle.record_parts.specs.Spelling.{key, many, AreSpelled, IsSpelledKey};
ghost use Rattle.outcome_codec.specs.Spelling.{AreSpelledKeys};

use crate::ascending::keys_ascend;
use document_keys::{DocumentKey, KeySet, NoMemory};
use record_parts::{ReadError, key_of, put_key, put_number, room_for, u64_of};
use std::alloc::Global;

/// How many bytes a key spells at least.
const KEY: usize = 26;

/// Keys in whatever order, as many as the number before them says, and what follows them.
fn any_keys_of(alloc: Global, bytes: &[u8]) -> Result<(Vec<DocumentKey>, &[u8]), ReadError>
    ensures { Reads (many key) (AreSpelled IsSpelledKey) bytes.now (λ x. (x.0.items, x.1.now)) result }
{
    let (count, start) = u64_of(bytes)?;
    let mut keys = Vec::with_capacity(alloc, room_for(count, start, KEY))?;
    let mut rest = start;
    for _ in 0..count {
        let (key, next) = key_of(alloc, rest)?;
        keys.push(key)?;
        rest = next;
    }
    Ok((keys, rest))
}

/// The set of keys that ascend.
fn set_of(alloc: Global, keys: Vec<DocumentKey>) -> Result<KeySet, NoMemory>
    requires { AllPairs PathBefore keys.items }
    ensures { IfOk result (λ set. set ≡ keys.items) }
{
    let mut set = KeySet::with_capacity(alloc, keys.len())?;
    for key in keys {
        set.insert(alloc, key)?;
    }
    Ok(set)
}

/// A set of keys, which strictly ascend, and what follows it.
///
/// # Errors
/// `NotSpelled` where the bytes begin with no such list; or `Memory`.
pub fn keys_of(alloc: Global, bytes: &[u8]) -> Result<(KeySet, &[u8]), ReadError>
    ensures { Reads (many key) AreSpelledKeys bytes.now (λ x. (x.0, x.1.now)) result }
{
    let (keys, rest) = any_keys_of(alloc, bytes)?;
    if !keys_ascend(keys.as_slice()) {
        return Err(ReadError::NotSpelled);
    }
    let set = set_of(alloc, keys)?;
    Ok((set, rest))
}

/// Appends the spelling of the keys.
///
/// # Errors
/// `NoMemory`
pub fn put_keys(out: &mut Vec<u8>, keys: &KeySet) -> Result<(), NoMemory>
    ensures { OnOk result (out.new.items ≡ out.old.items ++ many key keys.now) }
{
    let keys = keys.as_slice();
    put_number(out, keys.len() as u64)?;
    for key in keys {
        put_key(out, key)?;
    }
    Ok(())
}
