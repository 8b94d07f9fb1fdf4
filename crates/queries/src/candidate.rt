//! A document that may be in an answer.

ghost use Rattle.std.specs.Prelude.{◌≡◌, option_map};
ghost use Rattle.value_model.specs.Order.{RanksValues, rank};
ghost use Rattle.value_model.specs.Arrays.{items_in};
ghost use Rattle.queries.specs.Found.{found_data, standing_at};

use document_keys::{Database, DocumentKey, FieldPath};
use std::cmp::Ordering;
use value_model::{Fields, NameRef, Value};

/// A document that is lent, by the root of its name, its key and its fields.
#[derive(Clone, Copy)]
pub(crate) struct Candidate<'a> {
    pub root: &'a Database,
    pub key: &'a DocumentKey,
    pub fields: &'a Fields,
}

/// What stands at a path of a document: a value of its fields, or at `__name__` its own name.
#[derive(Clone, Copy)]
pub(crate) enum Found<'a> {
    Value(&'a Value),
    Name(NameRef<'a>),
}

impl<'a> Candidate<'a> {
    /// What stands at the path.
    pub fn at(&self, path: &FieldPath) -> Option<Found<'a>>
        ensures { option_map found_data result ≡ standing_at self.now path.now }
    {
        if path.is_document_name() {
            return Some(Found::Name(NameRef {
                project: self.root.project(),
                database: self.root.name(),
                key: self.key,
            }));
        }
        match self.fields.at(path) {
            Some(value) => Some(Found::Value(value)),
            None => None,
        }
    }
}

impl Found<'_> {
    /// The place of the value's kind among the kinds.
    pub fn rank(&self) -> u8
        ensures { result ≡ rank (found_data self.now) }
    {
        match self {
            Found::Value(value) => value.rank(),
            Found::Name(_) => 7,
        }
    }

    /// The order of what stands there and a value.
    pub fn compare(&self, other: &Value) -> Ordering
        ensures { RanksValues result (found_data self.now) other.now }
    {
        match self {
            Found::Value(value) => value.compare(other),
            Found::Name(name) => name.compare_value(other),
        }
    }

    /// The items of an array, lent; another value has none.
    pub fn items(&self) -> &[Value]
        ensures { result.now ≡ items_in (found_data self.now) }
    {
        match self {
            Found::Value(value) => value.items(),
            Found::Name(_) => &[],
        }
    }
}
