//! When two targets are equal.

ghost use Rattle.std.specs.Prelude.{◌≡◌, ◌↔◌, IsTrue};

use document_keys::{CollectionPath, DocumentKey, FieldPath};
use queries::{CollectionTarget, Cursor, Filter, FilterKind, Order, Target};
use std::cmp::Ordering;
use value_model::Value;

/// Whether the two paths are equal.
fn is_same_path(path: &FieldPath, other: &FieldPath) -> bool
    ensures { IsTrue result ↔ (path.now ≡ other.now) }
{
    path.compare(other) == Ordering::Equal
}

/// Whether the two values are equal.
fn is_same_value(value: &Value, other: &Value) -> bool
    ensures { IsTrue result ↔ (value.now ≡ other.now) }
{
    value.compare(other) == Ordering::Equal
}

/// Whether the two filters are equal.
#[cycle(filters)]
fn is_same_filter(filter: &Filter, other: &Filter) -> bool
    ensures { IsTrue result ↔ (filter.now ≡ other.now) }
{
    match (&filter.kind, &other.kind) {
        (
            FilterKind::Composite {
                op: a,
                filters: left,
            },
            FilterKind::Composite {
                op: b,
                filters: right,
            },
        ) => *a == *b && are_same_filters(left.as_slice(), right.as_slice()),
        (
            FilterKind::Field {
                path: p,
                op: a,
                value: v,
            },
            FilterKind::Field {
                path: q,
                op: b,
                value: w,
            },
        ) => *a == *b && is_same_path(p, q) && is_same_value(v, w),
        (FilterKind::Unary { path: p, op: a }, FilterKind::Unary { path: q, op: b }) => {
            *a == *b && is_same_path(p, q)
        }
        _ => false,
    }
}

/// Whether the two lists of filters are equal.
#[cycle(filters)]
fn are_same_filters(filters: &[Filter], others: &[Filter]) -> bool
    ensures { IsTrue result ↔ (filters.now ≡ others.now) }
{
    if filters.len() != others.len() {
        return false;
    }
    for i in 0..filters.len() {
        if !is_same_filter(&filters[i], &others[i]) {
            return false;
        }
    }
    true
}

/// Whether both filters are missing, or they are equal.
fn is_same_filter_or_none(filter: &Option<Filter>, other: &Option<Filter>) -> bool
    ensures { IsTrue result ↔ (filter.now ≡ other.now) }
{
    match (filter, other) {
        (None, None) => true,
        (Some(filter), Some(other)) => is_same_filter(filter, other),
        _ => false,
    }
}

/// Whether the two orders are equal.
fn is_same_order(order: &Order, other: &Order) -> bool
    ensures { IsTrue result ↔ (order.now ≡ other.now) }
{
    order.descending == other.descending && is_same_path(&order.path, &other.path)
}

/// Whether the two lists of orders are equal.
fn are_same_orders(orders: &[Order], others: &[Order]) -> bool
    ensures { IsTrue result ↔ (orders.now ≡ others.now) }
{
    if orders.len() != others.len() {
        return false;
    }
    for i in 0..orders.len() {
        if !is_same_order(&orders[i], &others[i]) {
            return false;
        }
    }
    true
}

/// Whether the two lists of values are equal.
fn are_same_values(values: &[Value], others: &[Value]) -> bool
    ensures { IsTrue result ↔ (values.now ≡ others.now) }
{
    if values.len() != others.len() {
        return false;
    }
    for i in 0..values.len() {
        if !is_same_value(&values[i], &others[i]) {
            return false;
        }
    }
    true
}

/// Whether both cursors are missing, or they are equal.
fn is_same_cursor(cursor: &Option<Cursor>, other: &Option<Cursor>) -> bool
    ensures { IsTrue result ↔ (cursor.now ≡ other.now) }
{
    match (cursor, other) {
        (None, None) => true,
        (Some(cursor), Some(other)) => {
            cursor.before == other.before
                && are_same_values(cursor.values.as_slice(), other.values.as_slice())
        }
        _ => false,
    }
}

/// Whether the two collections are equal.
fn is_same_collection(path: &CollectionPath, other: &CollectionPath) -> bool
    ensures { IsTrue result ↔ (path.now ≡ other.now) }
{
    path.compare(other) == Ordering::Equal
}

/// Whether the two keys are equal.
fn is_same_key(key: &DocumentKey, other: &DocumentKey) -> bool
    ensures { IsTrue result ↔ (key.now ≡ other.now) }
{
    key.compare(other) == Ordering::Equal
}

/// Whether the two queries of collections are equal.
fn is_same_query(target: &CollectionTarget, other: &CollectionTarget) -> bool
    ensures { IsTrue result ↔ (target.now ≡ other.now) }
{
    target.limit == other.limit
        && is_same_collection(&target.collection, &other.collection)
        && are_same_orders(target.orders.as_slice(), other.orders.as_slice())
        && is_same_filter_or_none(&target.filter, &other.filter)
        && is_same_cursor(&target.start_at, &other.start_at)
        && is_same_cursor(&target.end_at, &other.end_at)
}

/// Whether the two targets are equal.
pub(crate) fn is_same_target(target: &Target, other: &Target) -> bool
    ensures { IsTrue result ↔ (target.now ≡ other.now) }
{
    match (target, other) {
        (Target::Document(key), Target::Document(other)) => is_same_key(key, other),
        (Target::Collection(target), Target::Collection(other)) => is_same_query(target, other),
        _ => false,
    }
}
