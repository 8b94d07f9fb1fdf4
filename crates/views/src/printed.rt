//! When values and fields are printed the same.

ghost use Rattle.std.specs.Prelude.{◌≡◌, ◌↔◌, IsTrue, map as each};
ghost use Rattle.value_model.specs.Data as Data;
ghost use Rattle.value_model.specs.Named.{fields_data};
ghost use Rattle.views.specs.Printed.{AreNullOrEqual, printed_fields, printed_value};

use std::cmp::Ordering;
use value_model::{Field, Kind, Value};

/// Whether the value is printed as null.
fn is_printed_null(value: &Value) -> bool
    ensures { IsTrue result ↔ (printed_value value.now ≡ Data.null) }
{
    matches!(&value.kind, Kind::Null | Kind::Pending(_))
}

/// Whether two values are both printed as null, or are equal.
fn are_null_or_equal(value: &Value, other: &Value) -> bool
    ensures { IsTrue result ↔ AreNullOrEqual value.now other.now }
{
    is_printed_null(value) && is_printed_null(other) || value.compare(other) == Ordering::Equal
}

/// Whether two fields have one name.
fn has_name_of(field: &Field, other: &Field) -> bool
    ensures { IsTrue result ↔ (field.now.name ≡ other.now.name) }
{
    field.name.as_str() == other.name.as_str()
}

/// Whether two values are printed the same.
#[cycle(printing)]
fn is_printed_as(value: &Value, other: &Value) -> bool
    ensures { IsTrue result ↔ (printed_value value.now ≡ printed_value other.now) }
{
    match (&value.kind, &other.kind) {
        (Kind::Array(values), Kind::Array(others)) => {
            are_printed_as(values.as_slice(), others.as_slice())
        }
        (Kind::Map(fields), Kind::Map(others)) => {
            fields_are_printed_as(fields.as_fields().as_slice(), others.as_fields().as_slice())
        }
        _ => are_null_or_equal(value, other),
    }
}

/// Whether the values of two lists are printed the same.
#[cycle(printing)]
fn are_printed_as(values: &[Value], others: &[Value]) -> bool
    ensures { IsTrue result ↔ (each printed_value values.now ≡ each printed_value others.now) }
{
    if values.len() != others.len() {
        return false;
    }
    for i in 0..values.len() {
        if !is_printed_as(&values[i], &others[i]) {
            return false;
        }
    }
    true
}

/// Whether two lists of fields are printed the same.
#[cycle(printing)]
pub(crate) fn fields_are_printed_as(fields: &[Field], others: &[Field]) -> bool
    ensures { IsTrue result ↔ (printed_fields (fields_data fields.now)
        ≡ printed_fields (fields_data others.now)) }
{
    if fields.len() != others.len() {
        return false;
    }
    for i in 0..fields.len() {
        if !has_name_of(&fields[i], &others[i]) {
            return false;
        }
        if !is_printed_as(&fields[i].value, &others[i].value) {
            return false;
        }
    }
    true
}
