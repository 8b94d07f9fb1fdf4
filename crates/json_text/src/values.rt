//! Values, and the fields of documents and maps.

ghost use Rattle.std.specs.Prelude.{codes};
ghost use Rattle.value_model.specs.Data.{items_of, members_of};
ghost use Rattle.json_model.specs.Printed.{printed_value, printed_items, printed_members, printed_fields, values_tree, fields_tree};
ghost use Rattle.json_model.specs.Trees.{one};
ghost use Rattle.json_text.specs.Puts.{Puts, PutsItems, PutsMembers};

use crate::leaves::{
    open_inner, put_boolean, put_bytes, put_empty, put_integer, put_null, put_reference,
    put_string, put_time,
};
use document_keys::NoMemory;
use json::Writer;
use std::alloc::Global;
use value_model::{Fields, Kind, Value};

/// Puts a value, in the one form in which it is printed. A time that isn't known yet is printed as
/// null.
///
/// # Errors
/// `NoMemory`
#[cycle(put)]
pub fn put_value(alloc: Global, out: &mut Writer, value: &Value) -> Result<(), NoMemory>
    ensures { Puts result out.old out.new (printed_value value.now) }
{
    match &value.kind {
        Kind::Null => Ok(put_null(out)?),
        Kind::Boolean(is) => Ok(put_boolean(out, *is)?),
        Kind::Integer(number) => Ok(put_integer(out, *number)?),
        Kind::Time(time) => put_time(alloc, out, time),
        Kind::Pending(_) => Ok(put_null(out)?),
        Kind::Text(text) => Ok(put_string(out, text)?),
        Kind::Bytes(bytes) => put_bytes(alloc, out, bytes.as_slice()),
        Kind::Reference(name) => put_reference(alloc, out, name),
        Kind::Array(values) => put_array(alloc, out, values.as_slice()),
        Kind::Map(fields) => put_map(alloc, out, fields.as_fields()),
    }
}

/// Puts an array of these values.
#[cycle(put)]
fn put_array(alloc: Global, out: &mut Writer, values: &[Value]) -> Result<(), NoMemory>
    ensures { Puts result out.old out.new
        (one (codes "arrayValue") (values_tree (printed_items (items_of values.now)))) }
{
    if values.is_empty() {
        return Ok(put_empty(out, "arrayValue")?);
    }
    open_inner(out, "arrayValue", "values")?;
    out.begin_array()?;
    put_items(alloc, out, values)?;
    out.end_object()?;
    Ok(out.end_object()?)
}

/// Puts the values, with the closing bracket.
#[cycle(put)]
fn put_items(alloc: Global, out: &mut Writer, values: &[Value]) -> Result<(), NoMemory>
    ensures { PutsItems result out.old out.new (printed_items (items_of values.now)) }
{
    for value in values {
        put_value(alloc, out, value)?;
    }
    Ok(out.end_array()?)
}

/// Puts a map of these fields.
#[cycle(put)]
fn put_map(alloc: Global, out: &mut Writer, fields: &Fields) -> Result<(), NoMemory>
    ensures { Puts result out.old out.new
        (one (codes "mapValue") (fields_tree (printed_members (members_of fields.now)))) }
{
    if fields.len() == 0 {
        return Ok(put_empty(out, "mapValue")?);
    }
    open_inner(out, "mapValue", "fields")?;
    out.begin_object()?;
    put_each(alloc, out, fields)?;
    out.end_object()?;
    Ok(out.end_object()?)
}

/// Puts each field under its name, with the closing brace.
#[cycle(put)]
fn put_each(alloc: Global, out: &mut Writer, fields: &Fields) -> Result<(), NoMemory>
    ensures { PutsMembers result out.old out.new (printed_members (members_of fields.now)) }
{
    for field in fields.as_slice() {
        out.key(field.name.as_str())?;
        put_value(alloc, out, &field.value)?;
    }
    Ok(out.end_object()?)
}

/// Puts fields: an object with each value under its name.
///
/// # Errors
/// `NoMemory`
pub fn put_fields(alloc: Global, out: &mut Writer, fields: &Fields) -> Result<(), NoMemory>
    ensures { Puts result out.old out.new (printed_fields fields.now) }
{
    out.begin_object()?;
    put_each(alloc, out, fields)
}
