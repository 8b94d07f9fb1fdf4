ghost use Rattle.std.specs.Prelude.{◌≡◌, ◌++◌, length, flat_map, OnOk};
ghost use Rattle.record_parts.specs.Spelling.{number, signed, text, key, time, name, value, fields};

use crate::fields::{ARRAY, MAP};
use crate::scalars::{BOOLEAN, BYTES, INTEGER, NULL, PENDING, REFERENCE, TEXT, TIME};
use document_keys::{DocumentKey, NoMemory};
use value_model::{Fields, Kind, RefName, Timestamp, Value};

/// Appends the eight bytes of a number.
///
/// # Errors
/// `NoMemory`
pub fn put_number(out: &mut Vec<u8>, n: u64) -> Result<(), NoMemory>
    ensures { OnOk result (out.new.items ≡ out.old.items ++ number n) }
{
    out.extend_from_slice(&n.to_be_bytes())?;
    Ok(())
}

/// Appends the eight bytes of a number with a sign.
///
/// # Errors
/// `NoMemory`
pub fn put_signed(out: &mut Vec<u8>, n: i64) -> Result<(), NoMemory>
    ensures { OnOk result (out.new.items ≡ out.old.items ++ signed n) }
{
    out.extend_from_slice(&n.to_be_bytes())?;
    Ok(())
}

/// Appends a text's spelling.
///
/// # Errors
/// `NoMemory`
#[tactic(auto, unfolding(crate::specs::Spelling::text))]
pub fn put_text(out: &mut Vec<u8>, content: &str) -> Result<(), NoMemory>
    ensures { OnOk result (out.new.items ≡ out.old.items ++ text content.now) }
{
    put_number(out, content.len() as u64)?;
    out.extend_from_slice(content.as_bytes())?;
    Ok(())
}

/// Appends a key's spelling.
///
/// # Errors
/// `NoMemory`
#[tactic(auto, unfolding(crate::specs::Spelling::key))]
pub fn put_key(out: &mut Vec<u8>, name: &DocumentKey) -> Result<(), NoMemory>
    ensures { OnOk result (out.new.items ≡ out.old.items ++ key name.now) }
{
    let count = name.len();
    put_number(out, count)?;
    for i in 0..count {
        if let Some(segment) = name.segment(i) {
            put_text(out, segment)?;
        }
    }
    Ok(())
}

/// Appends a time's spelling.
///
/// # Errors
/// `NoMemory`
#[tactic(auto, unfolding(crate::specs::Spelling::time))]
pub fn put_time(out: &mut Vec<u8>, at: Timestamp) -> Result<(), NoMemory>
    ensures { OnOk result (out.new.items ≡ out.old.items ++ time at) }
{
    put_signed(out, at.seconds)?;
    out.extend_from_slice(&at.nanos.to_be_bytes())?;
    Ok(())
}

/// Appends the spelling of bytes.
///
/// # Errors
/// `NoMemory`
#[tactic(auto, unfolding(crate::specs::Spelling::text))]
pub fn put_bytes(out: &mut Vec<u8>, content: &[u8]) -> Result<(), NoMemory>
    ensures { OnOk result (out.new.items ≡ out.old.items ++ text content.now) }
{
    put_number(out, content.len() as u64)?;
    out.extend_from_slice(content)?;
    Ok(())
}

#[tactic(auto, unfolding(crate::specs::Spelling::name))]
fn put_name(out: &mut Vec<u8>, content: &RefName) -> Result<(), NoMemory>
    ensures { OnOk result (out.new.items ≡ out.old.items ++ name content.now) }
{
    put_text(out, content.project.as_str())?;
    put_text(out, content.database.as_str())?;
    put_key(out, &content.key)
}

/// Appends a value's spelling.
///
/// # Errors
/// `NoMemory`
#[cycle(putting)]
#[tactic(auto, unfolding(crate::specs::Spelling::value))]
pub fn put_value(out: &mut Vec<u8>, content: &Value) -> Result<(), NoMemory>
    ensures { OnOk result (out.new.items ≡ out.old.items ++ value content.now) }
{
    match &content.kind {
        Kind::Null => out.push(NULL)?,
        Kind::Boolean(is) => out.extend_from_slice(&[BOOLEAN, *is as u8])?,
        Kind::Integer(n) => {
            out.push(INTEGER)?;
            put_signed(out, *n)?;
        }
        Kind::Time(time) => {
            out.push(TIME)?;
            put_time(out, *time)?;
        }
        Kind::Pending(time) => {
            out.push(PENDING)?;
            put_time(out, *time)?;
        }
        Kind::Text(text) => {
            out.push(TEXT)?;
            put_text(out, text.as_str())?;
        }
        Kind::Bytes(bytes) => {
            out.push(BYTES)?;
            put_bytes(out, bytes.as_slice())?;
        }
        Kind::Reference(name) => {
            out.push(REFERENCE)?;
            put_name(out, name)?;
        }
        Kind::Array(values) => {
            out.push(ARRAY)?;
            put_values(out, values.as_slice())?;
        }
        Kind::Map(content) => {
            out.push(MAP)?;
            put_fields(out, content.as_fields())?;
        }
    }
    Ok(())
}

#[cycle(putting)]
fn put_values(out: &mut Vec<u8>, values: &[Value]) -> Result<(), NoMemory>
    ensures { OnOk result (out.new.items
        ≡ out.old.items ++ (number (length values.now) ++ flat_map value values.now)) }
{
    put_number(out, values.len() as u64)?;
    for value in values {
        put_value(out, value)?;
    }
    Ok(())
}

/// Appends the spelling of fields.
///
/// # Errors
/// `NoMemory`
#[cycle(putting)]
#[tactic(auto, unfolding(crate::specs::Spelling::fields))]
pub fn put_fields(out: &mut Vec<u8>, content: &Fields) -> Result<(), NoMemory>
    ensures { OnOk result (out.new.items ≡ out.old.items ++ fields content.now) }
{
    let entries = content.as_slice();
    put_number(out, entries.len() as u64)?;
    for entry in entries {
        put_text(out, entry.name.as_str())?;
        put_value(out, &entry.value)?;
    }
    Ok(())
}
