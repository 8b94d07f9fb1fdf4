//! The order of values.

ghost use Rattle.std.specs.Prelude.{◌≡◌};
ghost use Rattle.value_model.specs.Data as Data;
ghost use Rattle.value_model.specs.Order.{rank, RanksValues};
ghost use Rattle.value_model.specs.Named.{fields_data};

use crate::fields::Field;
use crate::reference::NameRef;
use crate::value::{Kind, Value};
use std::cmp::Ordering;

impl Value {
    /// The place of the value's kind among the kinds, from 0 for null to 9 for a map.
    pub fn rank(&self) -> u8
        ensures { result ≡ rank self.now }
    {
        match &self.kind {
            Kind::Null => 0,
            Kind::Boolean(_) => 1,
            Kind::Integer(_) => 2,
            Kind::Time(_) => 3,
            Kind::Pending(_) => 4,
            Kind::Text(_) => 5,
            Kind::Bytes(_) => 6,
            Kind::Reference(_) => 7,
            Kind::Array(_) => 8,
            Kind::Map(_) => 9,
        }
    }

    /// The order of values: by kind, in the order of `Kind`, and within a kind `false` first, numbers as numbers, times as
    /// moments, pending times by the local times of their writes, texts and bytes by their bytes, references segment by
    /// segment over project, database and key, arrays item by item, and maps field by field, by name and then by value.
    /// A front comes first.
    #[cycle(compare)]
    pub fn compare(&self, other: &Value) -> Ordering
        ensures { RanksValues result self.now other.now }
    {
        match (&self.kind, &other.kind) {
            (Kind::Null, Kind::Null) => Ordering::Equal,
            (Kind::Boolean(a), Kind::Boolean(b)) => a.cmp(b),
            (Kind::Integer(a), Kind::Integer(b)) => a.cmp(b),
            (Kind::Time(a), Kind::Time(b)) => a.cmp(b),
            (Kind::Pending(a), Kind::Pending(b)) => a.cmp(b),
            (Kind::Text(a), Kind::Text(b)) => a.cmp(b),
            (Kind::Bytes(a), Kind::Bytes(b)) => a.as_slice().cmp(b.as_slice()),
            (Kind::Reference(a), Kind::Reference(b)) => a.compare(b),
            (Kind::Array(a), Kind::Array(b)) => compare_values(a.as_slice(), b.as_slice()),
            (Kind::Map(a), Kind::Map(b)) => compare_fields(
                a.as_fields().as_slice(),
                b.as_fields().as_slice(),
            ),
            _ => self.rank().cmp(&other.rank()),
        }
    }
}

impl NameRef<'_> {
    ghost use Rattle.value_model.specs.Lent.{lent_name};

    /// The order of the name, as a value, and another value.
    pub fn compare_value(&self, other: &Value) -> Ordering
        ensures { RanksValues result (Data.reference (lent_name self.now)) other.now }
    {
        match &other.kind {
            Kind::Reference(name) => self.compare(name),
            _ => 7u8.cmp(&other.rank()),
        }
    }
}

/// The order of arrays of these items.
#[cycle(compare)]
fn compare_values(left: &[Value], right: &[Value]) -> Ordering
    ensures { RanksValues result (Data.array_of left.now) (Data.array_of right.now) }
{
    for i in 0..left.len().min(right.len()) {
        let order = left[i].compare(&right[i]);
        if order.is_ne() {
            return order;
        }
    }
    left.len().cmp(&right.len())
}

/// The order of maps of these fields.
#[cycle(compare)]
fn compare_fields(fields: &[Field], others: &[Field]) -> Ordering
    ensures { RanksValues result (Data.map_of (fields_data fields.now))
        (Data.map_of (fields_data others.now)) }
{
    for i in 0..fields.len().min(others.len()) {
        let names = fields[i].name.cmp(&others[i].name);
        if names.is_ne() {
            return names;
        }
        let values = fields[i].value.compare(&others[i].value);
        if values.is_ne() {
            return values;
        }
    }
    fields.len().cmp(&others.len())
}
