//! Ids of targets.

ghost use Rattle.std.specs.Prelude.{◌≡◌, ◌++◌, OnOk};
ghost use Rattle.record_parts.specs.Reading.{Reads};
ghost use Rattle.record_parts.specs.Spelling.{many, AreSpelled};
ghost use Rattle.outcome_codec.specs.Spelling.{target_id, AreSpelledIds, IsSpelledId};

use crate::ascending::ids_ascend;
use document_keys::NoMemory;
use record_parts::{ReadError, put_number, room_for, u32_of, u64_of};
use std::alloc::Global;

/// How many bytes an id spells at least.
const ID: usize = 4;

/// Ids in whatever order, as many as the number before them says, and what follows them.
fn any_ids_of(alloc: Global, bytes: &[u8]) -> Result<(Vec<u32>, &[u8]), ReadError>
    ensures { Reads (many target_id) (AreSpelled IsSpelledId) bytes.now (λ x. (x.0.items, x.1.now)) result }
{
    let (count, start) = u64_of(bytes)?;
    let mut ids = Vec::with_capacity(alloc, room_for(count, start, ID))?;
    let mut rest = start;
    for _ in 0..count {
        let (id, next) = u32_of(rest)?;
        ids.push(id)?;
        rest = next;
    }
    Ok((ids, rest))
}

/// Ids that strictly ascend, as many as the number before them says, and what follows them.
///
/// # Errors
/// `NotSpelled` where the bytes begin with no such list; or `Memory`.
pub fn ids_of(alloc: Global, bytes: &[u8]) -> Result<(Vec<u32>, &[u8]), ReadError>
    ensures { Reads (many target_id) AreSpelledIds bytes.now (λ x. (x.0.items, x.1.now)) result }
{
    let (ids, rest) = any_ids_of(alloc, bytes)?;
    if ids_ascend(ids.as_slice()) {
        Ok((ids, rest))
    } else {
        Err(ReadError::NotSpelled)
    }
}

/// Appends the four bytes of an id.
///
/// # Errors
/// `NoMemory`
pub fn put_id(out: &mut Vec<u8>, id: u32) -> Result<(), NoMemory>
    ensures { OnOk result (out.new.items ≡ out.old.items ++ target_id id) }
{
    out.extend_from_slice(&id.to_be_bytes())?;
    Ok(())
}

/// Appends the spelling of the ids.
///
/// # Errors
/// `NoMemory`
pub fn put_ids(out: &mut Vec<u8>, ids: &[u32]) -> Result<(), NoMemory>
    ensures { OnOk result (out.new.items ≡ out.old.items ++ many target_id ids.now) }
{
    put_number(out, ids.len() as u64)?;
    for id in ids {
        put_id(out, *id)?;
    }
    Ok(())
}
