ghost use Rattle.std.specs.Prelude.{◌≢◌};
ghost use Rattle.value_model.specs.Storable.{IsStorableName};
ghost use Rattle.record_parts.specs.Spelling.{name};
ghost use Rattle.record_parts.specs.Reading.{Reads};
ghost use Rattle.record_parts.specs.Kinds.{ReadsKind};

use crate::fault::ReadError;
use crate::names::{key_of, segment_of, slice_of, text_of};
use crate::numbers::{flag_of, i64_of};
use crate::times::time_of;
use document_keys::Text;
use std::alloc::Global;
use value_model::{Bytes, Kind, RefName, Value};

/// The byte that begins null among the values.
pub const NULL: u8 = 0;

/// The byte that begins a boolean.
pub const BOOLEAN: u8 = 1;

/// The byte that begins a whole number.
pub const INTEGER: u8 = 2;

/// The byte that begins a time.
pub const TIME: u8 = 3;

/// The byte that stands for a time that isn't known yet, which no commit holds.
pub const PENDING: u8 = 4;

/// The byte that begins a text.
pub const TEXT: u8 = 5;

/// The byte that begins bytes.
pub const BYTES: u8 = 6;

/// The byte that begins the name of a document.
pub const REFERENCE: u8 = 7;

/// A boolean, and what follows it.
fn boolean_of(bytes: &[u8]) -> Result<(Value, &[u8]), ReadError>
    ensures { ReadsKind 1 bytes.now (λ x. (x.0, x.1.now)) result }
{
    let (flag, rest) = flag_of(bytes)?;
    let kind = Kind::Boolean(flag);
    Ok((Value { kind }, rest))
}

/// A whole number, and what follows it.
fn integer_of(bytes: &[u8]) -> Result<(Value, &[u8]), ReadError>
    ensures { ReadsKind 2 bytes.now (λ x. (x.0, x.1.now)) result }
{
    let (number, rest) = i64_of(bytes)?;
    let kind = Kind::Integer(number);
    Ok((Value { kind }, rest))
}

/// A time, and what follows it.
fn moment_of(bytes: &[u8]) -> Result<(Value, &[u8]), ReadError>
    ensures { ReadsKind 3 bytes.now (λ x. (x.0, x.1.now)) result }
{
    let (time, rest) = time_of(bytes)?;
    let kind = Kind::Time(time);
    Ok((Value { kind }, rest))
}

/// A text, and what follows it.
fn string_of(alloc: Global, bytes: &[u8]) -> Result<(Value, &[u8]), ReadError>
    ensures { ReadsKind 5 bytes.now (λ x. (x.0, x.1.now)) result }
{
    let (content, rest) = text_of(bytes)?;
    let kind = Kind::Text(Text::from_str(alloc, content)?);
    Ok((Value { kind }, rest))
}

/// Bytes, and what follows them.
fn bytes_of(alloc: Global, bytes: &[u8]) -> Result<(Value, &[u8]), ReadError>
    ensures { ReadsKind 6 bytes.now (λ x. (x.0, x.1.now)) result }
{
    let (content, rest) = slice_of(bytes)?;
    let kind = Kind::Bytes(Bytes::from_vec(Vec::from_slice(alloc, content)?));
    Ok((Value { kind }, rest))
}

/// The parts of a document's name, and what follows them.
fn name_parts_of(alloc: Global, bytes: &[u8]) -> Result<(RefName, &[u8]), ReadError>
    ensures { Reads name IsStorableName bytes.now (λ x. (x.0, x.1.now)) result }
{
    let (project, rest) = segment_of(alloc, bytes)?;
    let (database, rest) = segment_of(alloc, rest)?;
    let (key, rest) = key_of(alloc, rest)?;
    let name = RefName {
        project,
        database,
        key,
    };
    Ok((name, rest))
}

/// The name of a document, and what follows it.
fn reference_of(alloc: Global, bytes: &[u8]) -> Result<(Value, &[u8]), ReadError>
    ensures { ReadsKind 7 bytes.now (λ x. (x.0, x.1.now)) result }
{
    let (name, rest) = name_parts_of(alloc, bytes)?;
    let kind = Kind::Reference(Box::new(alloc, name)?);
    Ok((Value { kind }, rest))
}

/// What follows the byte of a value that is neither an array nor a map, and what follows that.
pub fn scalar_of(alloc: Global, tag: u8, bytes: &[u8]) -> Result<(Value, &[u8]), ReadError>
    requires no_array { tag ≢ 8 }
    requires no_map { tag ≢ 9 }
    ensures { ReadsKind tag bytes.now (λ x. (x.0, x.1.now)) result }
{
    match tag {
        NULL => {
            let kind = Kind::Null;
            Ok((Value { kind }, bytes))
        }
        BOOLEAN => boolean_of(bytes),
        INTEGER => integer_of(bytes),
        TIME => moment_of(bytes),
        TEXT => string_of(alloc, bytes),
        BYTES => bytes_of(alloc, bytes),
        REFERENCE => reference_of(alloc, bytes),
        _ => Err(ReadError::NotSpelled),
    }
}
