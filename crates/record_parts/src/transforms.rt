ghost use Rattle.std.specs.Prelude.{◌≡◌, ◌++◌, OnOk};
ghost use Rattle.record_parts.specs.Spelling.{value, change, transform, many, AreSpelled, AreSpelledElements, IsSpelledChange, IsSpelledTransform};
ghost use Rattle.record_parts.specs.Reading.{Reads};

use crate::fault::ReadError;
use crate::fields::{DEPTH, values_of};
use crate::numbers::{byte_of, i64_of, room_for, u64_of};
use crate::paths::{path_of, put_path};
use crate::writing::{put_number, put_signed, put_value};
use document_keys::NoMemory;
use mutations::{Change, Transform, Transforms, Values};
use std::alloc::Global;

/// The byte of a change to the server's time.
const SERVER_TIME: u8 = 1;

/// The byte that begins an increment.
const INCREMENT: u8 = 2;

/// The byte that begins a maximum.
const MAXIMUM: u8 = 3;

/// The byte that begins a minimum.
const MINIMUM: u8 = 4;

/// The byte that begins the values that an array is to hold.
const APPEND: u8 = 5;

/// The byte that begins the values that are taken out of an array.
const REMOVE: u8 = 6;

/// How many bytes a transform spells at least.
const TRANSFORM: usize = 18;

/// Values for an array at a path of so many names, and what follows them.
fn elements_of(alloc: Global, names: u64, bytes: &[u8]) -> Result<(Values, &[u8]), ReadError>
    ensures { Reads (many value) (AreSpelledElements names) bytes.now (λ x. (x.0, x.1.now)) result }
{
    if names > DEPTH as u64 {
        return Err(ReadError::NotSpelled);
    }
    let (values, rest) = values_of(alloc, DEPTH - names as u32, bytes)?;
    Ok((Values::from_vec(values), rest))
}

/// A change at a path of so many names, and what follows it.
fn change_of(alloc: Global, names: u64, bytes: &[u8]) -> Result<(Change, &[u8]), ReadError>
    ensures { Reads change (IsSpelledChange names) bytes.now (λ x. (x.0, x.1.now)) result }
{
    let (byte, rest) = byte_of(bytes)?;
    match byte {
        SERVER_TIME => Ok((Change::ServerTime, rest)),
        INCREMENT => {
            let (by, rest) = i64_of(rest)?;
            Ok((Change::Increment(by), rest))
        }
        MAXIMUM => {
            let (with, rest) = i64_of(rest)?;
            Ok((Change::Maximum(with), rest))
        }
        MINIMUM => {
            let (with, rest) = i64_of(rest)?;
            Ok((Change::Minimum(with), rest))
        }
        APPEND => {
            let (values, rest) = elements_of(alloc, names, rest)?;
            Ok((Change::Append(values), rest))
        }
        REMOVE => {
            let (values, rest) = elements_of(alloc, names, rest)?;
            Ok((Change::RemoveAll(values), rest))
        }
        _ => Err(ReadError::NotSpelled),
    }
}

/// A transform, and what follows it.
fn transform_of(alloc: Global, bytes: &[u8]) -> Result<(Transform, &[u8]), ReadError>
    ensures { Reads transform IsSpelledTransform bytes.now (λ x. (x.0, x.1.now)) result }
{
    let (path, rest) = path_of(alloc, bytes)?;
    let (change, rest) = change_of(alloc, path.len(), rest)?;
    Ok((Transform { path, change }, rest))
}

/// Transforms, as many as the number before them says, and what follows them.
pub fn transforms_of(alloc: Global, bytes: &[u8]) -> Result<(Transforms, &[u8]), ReadError>
    ensures { Reads (many transform) (AreSpelled IsSpelledTransform) bytes.now (λ x. (x.0, x.1.now)) result }
{
    let (count, start) = u64_of(bytes)?;
    let mut transforms = Vec::with_capacity(alloc, room_for(count, start, TRANSFORM))?;
    let mut rest = start;
    for _ in 0..count {
        let (transform, next) = transform_of(alloc, rest)?;
        transforms.push(transform)?;
        rest = next;
    }
    Ok((Transforms::from_vec(transforms), rest))
}

fn put_elements(out: &mut Vec<u8>, values: &Values) -> Result<(), NoMemory>
    ensures { OnOk result (out.new.items ≡ out.old.items ++ many value values.now) }
{
    let values = values.as_slice();
    put_number(out, values.len() as u64)?;
    for value in values {
        put_value(out, value)?;
    }
    Ok(())
}

#[tactic(auto, unfolding(crate::specs::Spelling::change))]
fn put_change(out: &mut Vec<u8>, content: &Change) -> Result<(), NoMemory>
    ensures { OnOk result (out.new.items ≡ out.old.items ++ change content.now) }
{
    match content {
        Change::ServerTime => out.push(SERVER_TIME)?,
        Change::Increment(by) => {
            out.push(INCREMENT)?;
            put_signed(out, *by)?;
        }
        Change::Maximum(with) => {
            out.push(MAXIMUM)?;
            put_signed(out, *with)?;
        }
        Change::Minimum(with) => {
            out.push(MINIMUM)?;
            put_signed(out, *with)?;
        }
        Change::Append(values) => {
            out.push(APPEND)?;
            put_elements(out, values)?;
        }
        Change::RemoveAll(values) => {
            out.push(REMOVE)?;
            put_elements(out, values)?;
        }
    }
    Ok(())
}

#[tactic(auto, unfolding(crate::specs::Spelling::transform))]
fn put_transform(out: &mut Vec<u8>, content: &Transform) -> Result<(), NoMemory>
    ensures { OnOk result (out.new.items ≡ out.old.items ++ transform content.now) }
{
    put_path(out, &content.path)?;
    put_change(out, &content.change)
}

/// Appends the spelling of the transforms.
pub fn put_transforms(out: &mut Vec<u8>, transforms: &Transforms) -> Result<(), NoMemory>
    ensures { OnOk result (out.new.items ≡ out.old.items ++ many transform transforms.now) }
{
    let transforms = transforms.as_slice();
    put_number(out, transforms.len() as u64)?;
    for transform in transforms {
        put_transform(out, transform)?;
    }
    Ok(())
}
