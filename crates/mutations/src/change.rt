//! What a transform makes of the field at its path.

ghost use Rattle.std.specs.Prelude.{◌≡◌, ◌↔◌, ◌+ℤ◌, IsTrue, IfOk, length, option_map, unwrap_or};
ghost use Rattle.std.specs.Int.{w64, saturate_signed, int_max, int_min};
ghost use Rattle.std.specs.List.{Contains};
ghost use Rattle.mutations.specs.Acknowledged.{settled as settled_value, settled_by};
ghost use Rattle.mutations.specs.Changes.{Appends, Changed, Removes, items_at, number_at};
ghost use Rattle.mutations.specs.Effect.{HavePathsOfFields};
ghost use Rattle.mutations.specs.Local as function;

use crate::transform::{Change, Transform};
use document_keys::NoMemory;
use std::alloc::Global;
use std::cmp::Ordering;
use value_model::{Fields, Kind, SharedValues, Timestamp, Value};

/// The whole number of the field.
fn number_of(found: Option<&Value>) -> Option<i64>
    ensures { result ≡ number_at (option_map (λ value. value.now) found.entry) }
{
    match &found?.kind {
        Kind::Integer(number) => Some(*number),
        _ => None,
    }
}

/// The items of the field.
fn items_of<'a>(found: Option<&'a Value>) -> &'a [Value]
    ensures { result.now ≡ items_at (option_map (λ value. value.now) found.entry) }
{
    match found {
        Some(value) => value.items(),
        None => &[],
    }
}

/// The sum, which stops at the ends of the 64-bit range.
fn sum(number: Option<i64>, by: i64) -> i64
    ensures { result ≡ unwrap_or (option_map (λ n. saturate_signed w64 (n +ℤ by)) number) by }
{
    match number {
        Some(number) => number.saturating_add(by),
        None => by,
    }
}

/// The greater number.
fn greater(number: Option<i64>, other: i64) -> i64
    ensures { result ≡ unwrap_or (option_map (λ n. int_max n other) number) other }
{
    match number {
        Some(number) => number.max(other),
        None => other,
    }
}

/// The smaller number.
fn smaller(number: Option<i64>, other: i64) -> i64
    ensures { result ≡ unwrap_or (option_map (λ n. int_min n other) number) other }
{
    match number {
        Some(number) => number.min(other),
        None => other,
    }
}

/// Whether the value is one of the items.
fn holds(items: &[Value], value: &Value) -> bool
    ensures { IsTrue result ↔ Contains items.now value.now }
{
    for item in items {
        if item.compare(value) == Ordering::Equal {
            return true;
        }
    }
    false
}

/// Copies of the items.
fn copies(alloc: Global, items: &[Value]) -> Result<Vec<Value>, NoMemory>
    ensures { IfOk result (λ copies. copies.items ≡ items.now) }
{
    let mut copies = Vec::with_capacity(alloc, items.len())?;
    for item in items {
        copies.push(item.copy(alloc)?)?;
    }
    Ok(copies)
}

/// The items with the values added that aren't there.
fn appended(alloc: Global, items: &[Value], added: &[Value]) -> Result<Vec<Value>, NoMemory>
    ensures { IfOk result (λ all. Appends items.now added.now all.items) }
{
    let mut all = copies(alloc, items)?;
    for value in added {
        if !holds(all.as_slice(), value) {
            all.push(value.copy(alloc)?)?;
        }
    }
    Ok(all)
}

/// The items but for those that equal a value.
fn others(alloc: Global, items: &[Value], removed: &[Value]) -> Result<Vec<Value>, NoMemory>
    ensures { IfOk result (λ kept. Removes removed.now items.now kept.items) }
{
    let mut kept = Vec::new(alloc);
    for item in items {
        if !holds(removed, item) {
            kept.push(item.copy(alloc)?)?;
        }
    }
    Ok(kept)
}

/// What the change makes of the field.
fn changed(
    alloc: Global,
    found: Option<&Value>,
    change: &Change,
    at: Timestamp,
) -> Result<Value, NoMemory>
    ensures { IfOk result (λ value. Changed (option_map (λ v. v.now) found.entry) change.now at value) }
{
    let kind = match change {
        Change::ServerTime => Kind::Pending(at),
        Change::Increment(by) => Kind::Integer(sum(number_of(found), *by)),
        Change::Maximum(other) => Kind::Integer(greater(number_of(found), *other)),
        Change::Minimum(other) => Kind::Integer(smaller(number_of(found), *other)),
        Change::Append(values) => {
            let items = appended(alloc, items_of(found), values.as_slice())?;
            Kind::Array(SharedValues::new(alloc, items)?)
        }
        Change::RemoveAll(values) => {
            let items = others(alloc, items_of(found), values.as_slice())?;
            Kind::Array(SharedValues::new(alloc, items)?)
        }
    };
    Ok(Value { kind })
}

/// The fields after the transforms, made in their order.
pub(crate) fn transformed(
    alloc: Global,
    mut fields: Fields,
    transforms: &[Transform],
    at: Timestamp,
) -> Result<Fields, NoMemory>
    requires { HavePathsOfFields transforms.now }
    ensures { IfOk result (λ after. after ≡ function.transformed at fields transforms.now) }
{
    for transform in transforms {
        let value = changed(alloc, fields.at(&transform.path), &transform.change, at)?;
        fields = fields.with_at(alloc, &transform.path, value)?;
    }
    Ok(fields)
}

/// What the change leaves at the field once the backend has answered: an array is worked out here, all else was returned.
fn settled(
    alloc: Global,
    found: Option<&Value>,
    change: &Change,
    returned: &Value,
) -> Result<Value, NoMemory>
    ensures { IfOk result (λ value. value
        ≡ settled_value (option_map (λ v. v.now) found.entry) change.now returned.now) }
{
    match change {
        Change::Append(values) => {
            let items = appended(alloc, items_of(found), values.as_slice())?;
            Ok(Value::array(alloc, items)?)
        }
        Change::RemoveAll(values) => {
            let items = others(alloc, items_of(found), values.as_slice())?;
            Ok(Value::array(alloc, items)?)
        }
        _ => Ok(returned.copy(alloc)?),
    }
}

/// The fields after the transforms, made in their order, each with its own result.
pub(crate) fn settled_fields(
    alloc: Global,
    mut fields: Fields,
    transforms: &[Transform],
    results: &[Value],
) -> Result<Fields, NoMemory>
    requires paths { HavePathsOfFields transforms.now }
    requires results { length transforms.now ≡ length results.now }
    ensures { IfOk result (λ after. after ≡ settled_by fields transforms.now results.now) }
{
    for place in 0..transforms.len() {
        let transform = &transforms[place];
        let found = fields.at(&transform.path);
        let value = settled(alloc, found, &transform.change, &results[place])?;
        fields = fields.with_at(alloc, &transform.path, value)?;
    }
    Ok(fields)
}
