//! Where documents stand in the order of a query.

ghost use Rattle.std.specs.Prelude.{◌≡◌, ◌↔◌, IsTrue, option_map, unwrap_or};
ghost use Rattle.value_model.specs.Data as Data;
ghost use Rattle.value_model.specs.Order.{RanksValues};
ghost use Rattle.queries.specs.Found.{standing_at};
ghost use Rattle.queries.specs.Rows.{RanksDirected, IsOrdered, RanksAgainst, RanksAt, RanksDocuments, TellsKept, StartKeeps, EndKeeps};

use crate::candidate::Candidate;
use crate::order::{Cursor, Order};
use document_keys::FieldPath;
use std::cmp::Ordering;
use value_model::{DocRef, Kind, Value};

/// A comparison's answer in the direction of an order.
fn directed(order: Ordering, descending: bool) -> Ordering
    ensures { (x y : Data.Data) → RanksValues order x y → RanksDirected descending x y result }
{
    if descending { order.reverse() } else { order }
}

/// Whether the document has a value at the field of each order.
pub(crate) fn has_values(candidate: &Candidate<'_>, orders: &[Order]) -> bool
    ensures { IsTrue result ↔ IsOrdered (standing_at candidate.now) orders.now }
{
    for order in orders {
        let Some(_) = candidate.at(&order.path) else {
            return false;
        };
    }
    true
}

/// The order of a document's values, which it has, and those of a cursor, which are for the first orders.
fn compare_to_values(candidate: &Candidate<'_>, orders: &[Order], values: &[Value]) -> Ordering
    ensures { RanksAgainst (standing_at candidate.now) orders.now values.now result }
{
    for i in 0..values.len().min(orders.len()) {
        let order = &orders[i];
        let Some(found) = candidate.at(&order.path) else {
            return Ordering::Equal;
        };
        let ranked = directed(found.compare(&values[i]), order.descending);
        if ranked.is_ne() {
            return ranked;
        }
    }
    Ordering::Equal
}

/// The value that was found, or null in its place.
fn or_null<'a>(found: Option<&'a Value>, null: &'a Value) -> &'a Value
    requires { null.now ≡ Data.null }
    ensures { result.now ≡ unwrap_or (option_map (λ value. value.now) found.entry) Data.null }
{
    match found {
        Some(value) => value,
        None => null,
    }
}

/// The order of the values of two documents at a path, where null stands for a value that is missing.
fn compare_at(path: &FieldPath, left: DocRef<'_>, right: DocRef<'_>) -> Ordering
    ensures { RanksAt path.now left.entry.key.now left.entry.fields.now right.entry.key.now
        right.entry.fields.now result }
{
    if path.is_document_name() {
        return left.key.compare(right.key);
    }
    let null = Value { kind: Kind::Null };
    or_null(left.fields.at(path), &null).compare(or_null(right.fields.at(path), &null))
}

/// The order of two documents by their values for the orders, where null stands for a value that is missing.
pub(crate) fn compare_rows(orders: &[Order], left: DocRef<'_>, right: DocRef<'_>) -> Ordering
    ensures { RanksDocuments orders.now left.entry.key.now left.entry.fields.now
        right.entry.key.now right.entry.fields.now result }
{
    for order in orders {
        let ranked = directed(compare_at(&order.path, left, right), order.descending);
        if ranked.is_ne() {
            return ranked;
        }
    }
    Ordering::Equal
}

/// Whether a start keeps the document, which has the values of the orders.
pub(crate) fn start_keeps(
    candidate: &Candidate<'_>,
    orders: &[Order],
    start: &Option<Cursor>,
) -> bool
    ensures { TellsKept StartKeeps (standing_at candidate.now) orders.now start.now result }
{
    let Some(cursor) = start else {
        return true;
    };
    match compare_to_values(candidate, orders, cursor.values.as_slice()) {
        Ordering::Less => false,
        Ordering::Equal => cursor.before,
        Ordering::Greater => true,
    }
}

/// Whether an end keeps the document, which has the values of the orders.
pub(crate) fn end_keeps(candidate: &Candidate<'_>, orders: &[Order], end: &Option<Cursor>) -> bool
    ensures { TellsKept EndKeeps (standing_at candidate.now) orders.now end.now result }
{
    let Some(cursor) = end else {
        return true;
    };
    match compare_to_values(candidate, orders, cursor.values.as_slice()) {
        Ordering::Less => true,
        Ordering::Equal => !cursor.before,
        Ordering::Greater => false,
    }
}
