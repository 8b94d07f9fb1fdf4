ghost use Rattle.std.specs.Prelude.{◌∷◌};
ghost use Rattle.record_parts.specs.Spelling.{value, fields, many, AreSpelled, IsSpelledValue, AreSpelledFields};
ghost use Rattle.record_parts.specs.Reading.{Reads};
ghost use Rattle.record_parts.specs.Kinds.{field, IsSpelledField};

use crate::fault::ReadError;
use crate::names::name_of;
use crate::numbers::{room_for, u64_of};
use crate::scalars::scalar_of;
use std::alloc::Global;
use value_model::{Field, Fields, Value};

/// The byte that begins an array among the values.
pub const ARRAY: u8 = 8;

/// The byte that begins a map.
pub const MAP: u8 = 9;

/// How many bytes a value spells at least.
const VALUE: usize = 1;

/// How many bytes a field spells at least.
const FIELD: usize = 10;

/// How deep the values of a document may be nested.
pub const DEPTH: u32 = 20;

/// A value that is nested at most so deep, and what follows it.
#[cycle(values)]
pub fn value_of(alloc: Global, limit: u32, bytes: &[u8]) -> Result<(Value, &[u8]), ReadError>
    ensures { Reads value (IsSpelledValue limit) bytes.now (λ x. (x.0, x.1.now)) result }
{
    let Some((tag, rest)) = bytes.split_first() else {
        return Err(ReadError::NotSpelled);
    };
    match *tag {
        ARRAY => array_of(alloc, limit, rest),
        MAP => map_of(alloc, limit, rest),
        tag => scalar_of(alloc, tag, rest),
    }
}

/// Values that are nested at most so deep, as many as the number before them says, and what follows them.
#[cycle(values)]
pub fn values_of(alloc: Global, limit: u32, bytes: &[u8]) -> Result<(Vec<Value>, &[u8]), ReadError>
    ensures { Reads (many value) (AreSpelled (IsSpelledValue limit)) bytes.now
        (λ x. (x.0.items, x.1.now)) result }
{
    let (count, start) = u64_of(bytes)?;
    let mut values = Vec::with_capacity(alloc, room_for(count, start, VALUE))?;
    let mut rest = start;
    for _ in 0..count {
        let (value, next) = value_of(alloc, limit, rest)?;
        values.push(value)?;
        rest = next;
    }
    Ok((values, rest))
}

/// What follows the byte of an array that is nested at most so deep, and what follows that.
#[cycle(values)]
fn array_of(alloc: Global, limit: u32, bytes: &[u8]) -> Result<(Value, &[u8]), ReadError>
    ensures { Reads value (IsSpelledValue limit) (8 ∷ bytes.now) (λ x. (x.0, x.1.now)) result }
{
    if limit == 0 {
        return Err(ReadError::NotSpelled);
    }
    let (values, rest) = values_of(alloc, limit - 1, bytes)?;
    Ok((Value::array(alloc, values)?, rest))
}

/// What follows the byte of a map that is nested at most so deep, and what follows that.
#[cycle(values)]
fn map_of(alloc: Global, limit: u32, bytes: &[u8]) -> Result<(Value, &[u8]), ReadError>
    ensures { Reads value (IsSpelledValue limit) (9 ∷ bytes.now) (λ x. (x.0, x.1.now)) result }
{
    if limit == 0 {
        return Err(ReadError::NotSpelled);
    }
    let (content, rest) = fields_of(alloc, limit - 1, bytes)?;
    Ok((Value::map(alloc, content)?, rest))
}

/// A field whose value is nested at most so deep, and what follows it.
#[cycle(values)]
fn field_of(alloc: Global, limit: u32, bytes: &[u8]) -> Result<(Field, &[u8]), ReadError>
    ensures { Reads field (IsSpelledField limit) bytes.now (λ x. (x.0, x.1.now)) result }
{
    let (name, rest) = name_of(alloc, bytes)?;
    let (value, rest) = value_of(alloc, limit, rest)?;
    Ok((Field { name, value }, rest))
}

/// Such fields in whatever order, as many as the number before them says, and what follows them.
#[cycle(values)]
fn entries_of(alloc: Global, limit: u32, bytes: &[u8]) -> Result<(Vec<Field>, &[u8]), ReadError>
    ensures { Reads (many field) (AreSpelled (IsSpelledField limit)) bytes.now
        (λ x. (x.0.items, x.1.now)) result }
{
    let (count, start) = u64_of(bytes)?;
    let mut entries = Vec::with_capacity(alloc, room_for(count, start, FIELD))?;
    let mut rest = start;
    for _ in 0..count {
        let (entry, next) = field_of(alloc, limit, rest)?;
        entries.push(entry)?;
        rest = next;
    }
    Ok((entries, rest))
}

/// Fields whose values are nested at most so deep, and what follows them.
#[cycle(values)]
pub fn fields_of(alloc: Global, limit: u32, bytes: &[u8]) -> Result<(Fields, &[u8]), ReadError>
    ensures { Reads fields (AreSpelledFields limit) bytes.now (λ x. (x.0, x.1.now)) result }
{
    let (entries, rest) = entries_of(alloc, limit, bytes)?;
    match Fields::from_entries(entries) {
        Some(content) => Ok((content, rest)),
        None => Err(ReadError::NotSpelled),
    }
}
