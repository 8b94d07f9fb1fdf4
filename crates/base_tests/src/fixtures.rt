//! What the tests are made of.

use document_keys::{Database, DocumentKey, KeyBuilder, Text, check_field_name};
use std::alloc::Global;
use std::test::Fail;
use value_model::{Fields, Kind, Timestamp, Value};

pub(crate) fn root(alloc: Global) -> Result<Database, Fail> {
    Ok(Database::read(alloc, "projects/demo/databases/(default)")?)
}

/// The key of these segments.
pub(crate) fn key(alloc: Global, texts: &[&str]) -> Result<DocumentKey, Fail> {
    let mut builder = KeyBuilder::new(alloc);
    for text in texts {
        builder = builder.with(text)?;
    }
    Ok(builder.finish()?)
}

pub(crate) fn time(seconds: i64) -> Timestamp {
    Timestamp { seconds, nanos: 0 }
}

pub(crate) fn number(number: i64) -> Value {
    Value {
        kind: Kind::Integer(number),
    }
}

/// Puts the value at the name, if that is a field's name.
pub(crate) fn put(
    alloc: Global,
    fields: &mut Fields,
    name: &str,
    value: Value,
) -> Result<(), Fail> {
    check_field_name(name)?;
    let name = Text::from_str(alloc, name)?;
    Ok(fields.put(alloc, name, value)?)
}
