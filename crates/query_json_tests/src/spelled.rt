//! Trees of queries without a fault, and how deep filters nest.

use crate::faults::{check_fault, root, target};
use document_keys::Database;
use json_model::{JsonFault, Side};
use json_queries::read_query;
use queries::{FilterKind, Operator, RawCollection, RawQuery};
use serde_json::Value as Json;
use std::alloc::Global;
use std::process::Abort;
use std::test::Fail;

// operators, as they are spelled
static OPERATORS: [(&str, Operator); 10] = [
    ("ARRAY_CONTAINS", Operator::ArrayContains),
    ("ARRAY_CONTAINS_ANY", Operator::ArrayContainsAny),
    ("EQUAL", Operator::Equal),
    ("GREATER_THAN", Operator::GreaterThan),
    ("GREATER_THAN_OR_EQUAL", Operator::GreaterThanOrEqual),
    ("IN", Operator::IsIn),
    ("LESS_THAN", Operator::LessThan),
    ("LESS_THAN_OR_EQUAL", Operator::LessThanOrEqual),
    ("NOT_EQUAL", Operator::NotEqual),
    ("NOT_IN", Operator::IsNotIn),
];

const WHOLE: &str =
    r#"{"endAt":{"values":[{"integerValue":"3"}]},"from":[{"allDescendants":false,"collectionId":"rooms"}],"limit":"-3","orderBy":[{"field":{"fieldPath":"a.`b c`"}},{"direction":"DESCENDING","field":{"fieldPath":"__name__"}}],"select":null,"startAt":{"before":true},"where":null}"#;

// why a tree is read as no query; it must be one
fn no_query(_fault: JsonFault) -> Fail {
    "a query".into()
}

/// The query that the text spells.
pub(crate) fn read(alloc: Global, root: &Database, text: &str) -> Result<RawQuery, Fail> {
    let json = Json::from_str(alloc, text)?;
    read_query(alloc, root, Side::Caller, &json).map_err(no_query)
}

fn collection(alloc: Global, root: &Database, structured: &str) -> Result<RawCollection, Fail> {
    let text = target(alloc, structured)?;
    match read(alloc, root, text.as_str())? {
        RawQuery::Collection(query) => Ok(query),
        RawQuery::Document(_) => Err("a query of a collection".into()),
    }
}

fn check_document(rt: &(impl Abort + AllocGlobal), root: &Database) -> Result<(), Fail> {
    let text =
        r#"{"documents":{"documents":["projects/demo/databases/(default)/documents/a/b"]},"query":null}"#;
    let query = read(rt.alloc(), root, text)?;
    assert!(rt; matches!(query, RawQuery::Document(_)));
    Ok(())
}

#[test]
fn a_document(rt: HostRuntime) -> Result<(), Fail> {
    let root = root(rt.alloc())?;
    check_document(&rt, &root)
}

fn check_parts(rt: &(impl Abort + AllocGlobal), query: &RawCollection) {
    assert!(rt; query.parent.is_none() && query.filter.is_none());
    assert!(rt; query.limit == Some(-3));
    assert!(rt; query.from.as_slice().len() == 1);
    if let Some(start) = &query.start_at {
        assert!(rt; start.before && start.values.as_slice().is_empty());
    }
    if let Some(end) = &query.end_at {
        assert!(rt; !end.before && end.values.as_slice().len() == 1);
    }
    assert!(rt; query.start_at.is_some() && query.end_at.is_some());
}

fn check_orders(rt: &(impl Abort + AllocGlobal), query: &RawCollection) {
    let descends: [bool; 2] = [false, true];
    let orders = query.orders.as_slice();
    assert!(rt; orders.len() == 2);
    for (order, descending) in orders.iter().zip(descends) {
        assert!(rt; order.descending == descending);
    }
}

#[test]
fn a_whole_query(rt: HostRuntime) -> Result<(), Fail> {
    let root = root(rt.alloc())?;
    check_whole(&rt, &root)
}

fn check_whole(rt: &(impl Abort + AllocGlobal), root: &Database) -> Result<(), Fail> {
    let query = collection(rt.alloc(), root, WHOLE)?;
    check_parts(rt, &query);
    check_orders(rt, &query);
    Ok(())
}

// a filter by the operator
fn compared(alloc: Global, name: &str) -> Result<String, Fail> {
    let mut text = String::from_str(
        alloc,
        r#"{"where":{"fieldFilter":{"field":{"fieldPath":"a"},"op":""#,
    )?;
    text.push_str(name)?;
    text.push_str(r#"","value":{"arrayValue":{}}}}}"#)?;
    Ok(text)
}

fn compares_by(query: &RawCollection, wanted: Operator) -> bool {
    match &query.filter {
        Some(filter) => matches!(&filter.kind, FilterKind::Field { op, .. } if *op == wanted),
        None => false,
    }
}

fn check_operator(
    rt: &(impl Abort + AllocGlobal),
    root: &Database,
    name: &str,
    wanted: Operator,
) -> Result<(), Fail> {
    let text = compared(rt.alloc(), name)?;
    let query = collection(rt.alloc(), root, text.as_str())?;
    assert!(rt; compares_by(&query, wanted), "{name}");
    Ok(())
}

fn check_operators(rt: &(impl Abort + AllocGlobal), root: &Database) -> Result<(), Fail> {
    for (name, op) in OPERATORS {
        check_operator(rt, root, name, op)?;
    }
    Ok(())
}

#[test]
fn operators(rt: HostRuntime) -> Result<(), Fail> {
    let root = root(rt.alloc())?;
    check_operators(&rt, &root)
}

// a test of a field that stands in so many composite filters
fn nested(alloc: Global, count: u8) -> Result<String, Fail> {
    let mut text = String::from_str(alloc, r#"{"where":"#)?;
    for _ in 0..count {
        text.push_str(r#"{"compositeFilter":{"op":"OR","filters":["#)?;
    }
    text.push_str(r#"{"unaryFilter":{"op":"IS_NULL","field":{"fieldPath":"a"}}}"#)?;
    for _ in 0..count {
        text.push_str("]}}")?;
    }
    text.push_str("}")?;
    Ok(text)
}

fn check_deepest(rt: &(impl Abort + AllocGlobal), root: &Database) -> Result<(), Fail> {
    let text = nested(rt.alloc(), 19)?;
    let query = collection(rt.alloc(), root, text.as_str())?;
    assert!(rt; query.filter.is_some());
    Ok(())
}

fn check_too_deep(rt: &(impl Abort + AllocGlobal), root: &Database) -> Result<(), Fail> {
    let text = nested(rt.alloc(), 20)?;
    let text = target(rt.alloc(), text.as_str())?;
    check_fault(rt, root, text.as_str(), 4, "")
}

#[test]
fn nesting(rt: HostRuntime) -> Result<(), Fail> {
    let root = root(rt.alloc())?;
    check_deepest(&rt, &root)?;
    check_too_deep(&rt, &root)
}
