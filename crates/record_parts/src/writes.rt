ghost use Rattle.std.specs.Prelude.{◌≡◌, ◌∷◌, ◌++◌, OnOk};
ghost use Rattle.record_parts.specs.Spelling.{fields, precondition, write, many, AreSpelled, AreSpelledFields, IsSpelledPrecondition, IsSpelledWrite};
ghost use Rattle.record_parts.specs.Reading.{Reads};

use crate::fault::ReadError;
use crate::fields::{DEPTH, fields_of};
use crate::names::key_of;
use crate::numbers::{byte_of, flag_of, room_for, u64_of};
use crate::paths::{mask_of, put_mask};
use crate::times::time_of;
use crate::transforms::{put_transforms, transforms_of};
use crate::writing::{put_fields, put_key, put_number, put_time};
use document_keys::NoMemory;
use mutations::{Precondition, Write, Writes};
use std::alloc::Global;
use value_model::SharedFields;

/// The byte of no precondition.
const FREE: u8 = 0;

/// The byte that begins a precondition that there is such a document, or none.
const EXISTS: u8 = 1;

/// The byte that begins the time of a document's last change.
const UPDATE_TIME: u8 = 2;

/// The byte that begins an update among the writes.
const UPDATE: u8 = 1;

/// The byte that begins a delete.
const DELETE: u8 = 2;

/// How many bytes a write spells at least, with the two segments of its key.
const WRITE: usize = 28;

/// A precondition, and what follows it.
fn precondition_of(bytes: &[u8]) -> Result<(Precondition, &[u8]), ReadError>
    ensures { Reads precondition IsSpelledPrecondition bytes.now (λ x. (x.0, x.1.now)) result }
{
    let (byte, rest) = byte_of(bytes)?;
    match byte {
        FREE => Ok((Precondition::Free, rest)),
        EXISTS => {
            let (there, rest) = flag_of(rest)?;
            Ok((Precondition::Exists(there), rest))
        }
        UPDATE_TIME => {
            let (time, rest) = time_of(rest)?;
            Ok((Precondition::UpdateTime(time), rest))
        }
        _ => Err(ReadError::NotSpelled),
    }
}

/// The fields of a write, and what follows them.
fn shared_fields_of(alloc: Global, bytes: &[u8]) -> Result<(SharedFields, &[u8]), ReadError>
    ensures { Reads fields (AreSpelledFields 20) bytes.now (λ x. (x.0, x.1.now)) result }
{
    let (content, rest) = fields_of(alloc, DEPTH, bytes)?;
    Ok((SharedFields::new(alloc, content)?, rest))
}

/// What follows the byte of an update, and what follows that.
fn update_of(alloc: Global, bytes: &[u8]) -> Result<(Write, &[u8]), ReadError>
    ensures { Reads write IsSpelledWrite (1 ∷ bytes.now) (λ x. (x.0, x.1.now)) result }
{
    let (key, rest) = key_of(alloc, bytes)?;
    let (fields, rest) = shared_fields_of(alloc, rest)?;
    let (mask, rest) = mask_of(alloc, rest)?;
    let (transforms, rest) = transforms_of(alloc, rest)?;
    let (condition, rest) = precondition_of(rest)?;
    let update = Write::Update {
        key,
        fields,
        mask,
        transforms,
        condition,
    };
    Ok((update, rest))
}

/// What follows the byte of a delete, and what follows that.
fn delete_of(alloc: Global, bytes: &[u8]) -> Result<(Write, &[u8]), ReadError>
    ensures { Reads write IsSpelledWrite (2 ∷ bytes.now) (λ x. (x.0, x.1.now)) result }
{
    let (key, rest) = key_of(alloc, bytes)?;
    let (condition, rest) = precondition_of(rest)?;
    Ok((Write::Delete { key, condition }, rest))
}

/// A write, and what follows it.
fn write_of(alloc: Global, bytes: &[u8]) -> Result<(Write, &[u8]), ReadError>
    ensures { Reads write IsSpelledWrite bytes.now (λ x. (x.0, x.1.now)) result }
{
    let (byte, rest) = byte_of(bytes)?;
    match byte {
        UPDATE => update_of(alloc, rest),
        DELETE => delete_of(alloc, rest),
        _ => Err(ReadError::NotSpelled),
    }
}

/// Writes, as many as the number before them says, and what follows them.
pub fn writes_of(alloc: Global, bytes: &[u8]) -> Result<(Writes, &[u8]), ReadError>
    ensures { Reads (many write) (AreSpelled IsSpelledWrite) bytes.now (λ x. (x.0, x.1.now)) result }
{
    let (count, start) = u64_of(bytes)?;
    let mut writes = Vec::with_capacity(alloc, room_for(count, start, WRITE))?;
    let mut rest = start;
    for _ in 0..count {
        let (write, next) = write_of(alloc, rest)?;
        writes.push(write)?;
        rest = next;
    }
    Ok((Writes::from_vec(writes), rest))
}

#[tactic(auto, unfolding(crate::specs::Spelling::precondition))]
fn put_precondition(out: &mut Vec<u8>, condition: &Precondition) -> Result<(), NoMemory>
    ensures { OnOk result (out.new.items ≡ out.old.items ++ precondition condition.now) }
{
    match condition {
        Precondition::Free => out.push(FREE)?,
        Precondition::Exists(there) => out.extend_from_slice(&[EXISTS, *there as u8])?,
        Precondition::UpdateTime(time) => {
            out.push(UPDATE_TIME)?;
            put_time(out, *time)?;
        }
    }
    Ok(())
}

#[tactic(auto, unfolding(crate::specs::Spelling::write))]
fn put_write(out: &mut Vec<u8>, content: &Write) -> Result<(), NoMemory>
    ensures { OnOk result (out.new.items ≡ out.old.items ++ write content.now) }
{
    match content {
        Write::Update {
            key,
            fields,
            mask,
            transforms,
            condition,
        } => {
            out.push(UPDATE)?;
            put_key(out, key)?;
            put_fields(out, fields.as_fields())?;
            put_mask(out, mask)?;
            put_transforms(out, transforms)?;
            put_precondition(out, condition)
        }
        Write::Delete { key, condition } => {
            out.push(DELETE)?;
            put_key(out, key)?;
            put_precondition(out, condition)
        }
    }
}

/// Appends the spelling of the writes.
pub fn put_writes(out: &mut Vec<u8>, writes: &Writes) -> Result<(), NoMemory>
    ensures { OnOk result (out.new.items ≡ out.old.items ++ many write writes.now) }
{
    let writes = writes.as_slice();
    put_number(out, writes.len() as u64)?;
    for write in writes {
        put_write(out, write)?;
    }
    Ok(())
}
