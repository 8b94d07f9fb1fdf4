//! Trees of queries with a fault.

use document_keys::Database;
use json_model::{JsonFault, Side};
use json_queries::read_query;
use serde_json::Value as Json;
use std::alloc::Global;
use std::process::Abort;
use std::test::Fail;

// the database of the tests
const ROOT: &str = "projects/demo/databases/(default)";

// targets with a fault: the kind's number, and the member or name
static TARGETS: [(&str, u8, &str); 18] = [
    (r#"5"#, 1, "target"),
    (r#"{}"#, 1, "target"),
    (r#"{"documents":{},"query":{}}"#, 1, "target"),
    (r#"{"documents":{}}"#, 1, "documents"),
    (r#"{"documents":{"documents":[]}}"#, 1, "documents"),
    (
        r#"{"documents":{"documents":["projects/demo/databases/(default)/documents/a/b","projects/demo/databases/(default)/documents/a/c"]}}"#,
        1,
        "documents",
    ),
    (r#"{"documents":{"documents":["a/b"]}}"#, 6, "a/b"),
    (
        r#"{"documents":{"documents":["projects/demo/databases/(default)/documents"]}}"#,
        6,
        "projects/demo/databases/(default)/documents",
    ),
    (r#"{"query":{}}"#, 1, "parent"),
    (
        r#"{"query":{"parent":"projects/demo/databases/(default)/documents"}}"#,
        1,
        "structuredQuery",
    ),
    (r#"{"query":{"structuredQuery":{}}}"#, 1, "parent"),
    (
        r#"{"query":{"parent":5,"structuredQuery":{}}}"#,
        1,
        "parent",
    ),
    (
        r#"{"query":{"parent":"projects/demo/databases/(default)/documentsX","structuredQuery":{}}}"#,
        6,
        "projects/demo/databases/(default)/documentsX",
    ),
    (
        r#"{"query":{"parent":"projects/demo/databases/(default)/documents/a","structuredQuery":{}}}"#,
        6,
        "projects/demo/databases/(default)/documents/a",
    ),
    (
        r#"{"query":{"parent":"x","structuredQuery":{"select":{}}}}"#,
        5,
        "select",
    ),
    (
        r#"{"query":{"parent":"x","structuredQuery":{"foo":1}}}"#,
        1,
        "foo",
    ),
    (
        r#"{"query":{"parent":"x","structuredQuery":{"from":[{}]}}}"#,
        6,
        "x",
    ),
    (
        r#"{"query":{"limitToLast":true,"parent":"projects/demo/databases/(default)/documents","structuredQuery":{}}}"#,
        1,
        "limitToLast",
    ),
];

// structured queries with a fault
static QUERIES: [(&str, u8, &str); 23] = [
    (r#"{"foo":1}"#, 1, "foo"),
    (r#"{"offset":1}"#, 5, "offset"),
    (r#"{"findNearest":{}}"#, 5, "findNearest"),
    (r#"{"from":[{}]}"#, 6, ""),
    (r#"{"from":[{"collectionId":"a/b"}]}"#, 6, "a/b"),
    (
        r#"{"from":[{"collectionId":"a","allDescendants":true}]}"#,
        5,
        "allDescendants",
    ),
    (
        r#"{"from":[{"collectionId":"a","allDescendants":0}]}"#,
        1,
        "allDescendants",
    ),
    (r#"{"limit":2147483648}"#, 1, "limit"),
    (r#"{"limit":1.0}"#, 1, "limit"),
    (r#"{"orderBy":[{}]}"#, 1, "field"),
    (r#"{"orderBy":[{"field":{}}]}"#, 6, ""),
    (r#"{"orderBy":[{"field":{"fieldPath":"a."}}]}"#, 6, "a."),
    (
        r#"{"orderBy":[{"field":{"fieldPath":"__name__.a"}}]}"#,
        6,
        "__name__.a",
    ),
    (
        r#"{"orderBy":[{"direction":"UP","field":{"fieldPath":"a"}}]}"#,
        1,
        "direction",
    ),
    (r#"{"startAt":{"before":0}}"#, 1, "before"),
    (
        r#"{"endAt":{"values":[{"doubleValue":1}]}}"#,
        5,
        "doubleValue",
    ),
    (r#"{"where":{}}"#, 1, "where"),
    (
        r#"{"where":{"fieldFilter":{},"unaryFilter":{}}}"#,
        1,
        "where",
    ),
    (r#"{"where":{"compositeFilter":{}}}"#, 1, "op"),
    (
        r#"{"where":{"unaryFilter":{"field":{"fieldPath":"a"},"op":"IS_NAN"}}}"#,
        5,
        "IS_NAN",
    ),
    (
        r#"{"where":{"fieldFilter":{"field":{"fieldPath":"a"},"op":"IN","value":{"doubleValue":1}}}}"#,
        1,
        "value",
    ),
    (
        r#"{"where":{"fieldFilter":{"field":{"fieldPath":"a"},"op":"NOT_IN","value":{"arrayValue":{},"nullValue":null}}}}"#,
        1,
        "value",
    ),
    (
        r#"{"where":{"fieldFilter":{"field":{"fieldPath":"a"},"op":"EQUAL","value":{"doubleValue":1}}}}"#,
        5,
        "doubleValue",
    ),
];

/// The database of the tests.
pub(crate) fn root(alloc: Global) -> Result<Database, Fail> {
    Ok(Database::read(alloc, ROOT)?)
}

/// A target whose structured query this is.
pub(crate) fn target(alloc: Global, structured: &str) -> Result<String, Fail> {
    let mut text = String::from_str(
        alloc,
        r#"{"query":{"parent":"projects/demo/databases/(default)/documents","structuredQuery":"#,
    )?;
    text.push_str(structured)?;
    text.push_str("}}")?;
    Ok(text)
}

fn number(fault: &JsonFault) -> u8 {
    match fault {
        JsonFault::BadShape(_) => 1,
        JsonFault::BadTime(_) => 2,
        JsonFault::BadBytes(_) => 3,
        JsonFault::TooDeep => 4,
        JsonFault::Unsupported(_) => 5,
        JsonFault::BadName(_) => 6,
        JsonFault::NoMemory => 7,
    }
}

fn member(fault: &JsonFault) -> &str {
    match fault {
        JsonFault::BadShape(name) => name.as_str(),
        JsonFault::BadTime(name) => name.as_str(),
        JsonFault::BadBytes(name) => name.as_str(),
        JsonFault::Unsupported(name) => name.as_str(),
        JsonFault::BadName(bad) => bad.name.as_str(),
        _ => "",
    }
}

fn fault_of(alloc: Global, root: &Database, text: &str) -> Result<JsonFault, Fail> {
    let json = Json::from_str(alloc, text)?;
    let fault = read_query(alloc, root, Side::Caller, &json).err();
    Ok(fault.ok_or("a fault")?)
}

/// The tree has this fault.
pub(crate) fn check_fault(
    rt: &(impl Abort + AllocGlobal),
    root: &Database,
    text: &str,
    kind: u8,
    name: &str,
) -> Result<(), Fail> {
    let fault = fault_of(rt.alloc(), root, text)?;
    assert!(rt; number(&fault) == kind, "{text}");
    assert!(rt; member(&fault) == name, "{text}");
    Ok(())
}

fn check_targets(rt: &(impl Abort + AllocGlobal), root: &Database) -> Result<(), Fail> {
    for (text, kind, name) in TARGETS {
        check_fault(rt, root, text, kind, name)?;
    }
    Ok(())
}

#[test]
fn faults_of_targets(rt: HostRuntime) -> Result<(), Fail> {
    let root = root(rt.alloc())?;
    check_targets(&rt, &root)
}

fn check_structured(
    rt: &(impl Abort + AllocGlobal),
    root: &Database,
    structured: &str,
    kind: u8,
    name: &str,
) -> Result<(), Fail> {
    let text = target(rt.alloc(), structured)?;
    check_fault(rt, root, text.as_str(), kind, name)
}

fn check_queries(rt: &(impl Abort + AllocGlobal), root: &Database) -> Result<(), Fail> {
    for (text, kind, name) in QUERIES {
        check_structured(rt, root, text, kind, name)?;
    }
    Ok(())
}

#[test]
fn faults_of_queries(rt: HostRuntime) -> Result<(), Fail> {
    let root = root(rt.alloc())?;
    check_queries(&rt, &root)
}
