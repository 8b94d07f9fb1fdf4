//! How deep values are nested.

ghost use Rattle.std.specs.Prelude.{IsTrue, ◌↔◌, ◌≤◌};
ghost use Rattle.value_model.specs.Data.{depth, items_depth, items_of, entries_depth};
ghost use Rattle.value_model.specs.Named.{fields_data};

use crate::fields::{Field, Fields};
use crate::value::{Kind, Value};

impl Value {
    /// Whether the value's depth is at most the limit. The depth of a scalar is 0, and that of an array or map one more
    /// than that of its deepest part.
    #[cycle(nesting)]
    pub fn nests_within(&self, limit: u32) -> bool
        ensures { IsTrue result ↔ (depth self.now ≤ limit) }
    {
        match &self.kind {
            Kind::Array(values) => limit > 0 && values_nest_within(values.as_slice(), limit - 1),
            Kind::Map(fields) => limit > 0
                && fields_nest_within(fields.as_fields().as_slice(), limit - 1),
            _ => true,
        }
    }
}

impl Fields {
    /// Whether the depth of each field's value is at most the limit.
    pub fn nest_within(&self, limit: u32) -> bool
        ensures { IsTrue result ↔ (entries_depth self.now ≤ limit) }
    {
        fields_nest_within(self.as_slice(), limit)
    }
}

/// Whether the depth of each value is at most the limit.
#[cycle(nesting)]
fn values_nest_within(values: &[Value], limit: u32) -> bool
    ensures { IsTrue result ↔ (items_depth (items_of values.now) ≤ limit) }
{
    for value in values {
        if !value.nests_within(limit) {
            return false;
        }
    }
    true
}

/// Whether the depth of each field's value is at most the limit.
#[cycle(nesting)]
fn fields_nest_within(fields: &[Field], limit: u32) -> bool
    ensures { IsTrue result ↔ (entries_depth (fields_data fields.now) ≤ limit) }
{
    for field in fields {
        if !field.value.nests_within(limit) {
            return false;
        }
    }
    true
}
