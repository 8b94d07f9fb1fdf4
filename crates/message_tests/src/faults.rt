//! Trees of messages with a fault.

use document_keys::Database;
use json_messages::{read_listen_response, read_status, read_write_response};
use json_model::{JsonFault, Side};
use serde_json::Value as Json;
use std::alloc::Global;
use std::process::Abort;
use std::test::Fail;

// the database of the tests
const ROOT: &str = "projects/demo/databases/(default)";

// messages of a watch stream with a fault: the kind's number, and the member or name
static LISTENS: [(&str, u8, &str); 15] = [
    (r#"5"#, 1, "watch"),
    (r#"{}"#, 1, "watch"),
    (r#"{"filter":{},"targetChange":{}}"#, 1, "watch"),
    (r#"{"targetChange":[]}"#, 1, "targetChange"),
    (
        r#"{"targetChange":{"targetChangeType":"GONE"}}"#,
        1,
        "targetChangeType",
    ),
    (
        r#"{"targetChange":{"targetIds":[1,2147483648]}}"#,
        1,
        "targetIds",
    ),
    (
        r#"{"targetChange":{"readTime":"2024-02-30T00:00:00Z","cause":{"code":17}}}"#,
        1,
        "code",
    ),
    (
        r#"{"targetChange":{"readTime":"2024-02-30T00:00:00Z"}}"#,
        2,
        "readTime",
    ),
    (r#"{"targetChange":{"resumeToken":"A"}}"#, 3, "resumeToken"),
    (r#"{"filter":{"count":-1}}"#, 1, "count"),
    (r#"{"filter":{"count":2147483648}}"#, 1, "count"),
    (r#"{"documentChange":{}}"#, 1, "document"),
    (
        r#"{"documentChange":{"document":{"name":"projects/demo/databases/(default)/documents/a/b"}}}"#,
        1,
        "updateTime",
    ),
    (
        r#"{"documentDelete":{"document":"projects/demo/databases/other/documents/a/b"}}"#,
        6,
        "projects/demo/databases/other/documents/a/b",
    ),
    (
        r#"{"documentRemove":{"document":"projects/demo/databases/(default)/documents/a"}}"#,
        6,
        "projects/demo/databases/(default)/documents/a",
    ),
];

// messages of a write stream with a fault
static WRITTEN: [(&str, u8, &str); 4] = [
    (r#"[]"#, 1, "written"),
    (r#"{"writeResults":[5]}"#, 1, "writeResults"),
    (
        r#"{"writeResults":[{"transformResults":[{"doubleValue":1}]}]}"#,
        5,
        "doubleValue",
    ),
    (r#"{"commitTime":"now"}"#, 2, "commitTime"),
];

// statuses with a fault
static STATUSES: [(&str, u8, &str); 4] = [
    (r#"5"#, 1, "status"),
    (r#"{"code":17}"#, 1, "code"),
    (r#"{"code":-1}"#, 1, "code"),
    (r#"{"message":5}"#, 1, "message"),
];

/// The database of the tests.
pub(crate) fn root(alloc: Global) -> Result<Database, Fail> {
    Ok(Database::read(alloc, ROOT)?)
}

fn number(fault: &JsonFault) -> u8 {
    match fault {
        JsonFault::BadShape(_) => 1,
        JsonFault::BadTime(_) => 2,
        JsonFault::BadBytes(_) => 3,
        JsonFault::TooDeep => 4,
        JsonFault::Unsupported(_) => 5,
        JsonFault::BadName(_) => 6,
        JsonFault::NoMemory => 7,
    }
}

fn member(fault: &JsonFault) -> &str {
    match fault {
        JsonFault::BadShape(name) => name.as_str(),
        JsonFault::BadTime(name) => name.as_str(),
        JsonFault::BadBytes(name) => name.as_str(),
        JsonFault::Unsupported(name) => name.as_str(),
        JsonFault::BadName(bad) => bad.name.as_str(),
        _ => "",
    }
}

fn check_fault(
    rt: &(impl Abort + AllocGlobal),
    fault: &JsonFault,
    text: &str,
    kind: u8,
    name: &str,
) {
    assert!(rt; number(fault) == kind, "{text}");
    assert!(rt; member(fault) == name, "{text}");
}

fn listen_fault(alloc: Global, root: &Database, text: &str) -> Result<JsonFault, Fail> {
    let json = Json::from_str(alloc, text)?;
    Ok(
        read_listen_response(alloc, root, &json)
            .err()
            .ok_or("a fault")?,
    )
}

fn written_fault(alloc: Global, root: &Database, text: &str) -> Result<JsonFault, Fail> {
    let json = Json::from_str(alloc, text)?;
    Ok(
        read_write_response(alloc, root, &json)
            .err()
            .ok_or("a fault")?,
    )
}

fn status_fault(alloc: Global, side: Side, text: &str) -> Result<JsonFault, Fail> {
    let json = Json::from_str(alloc, text)?;
    Ok(read_status(alloc, side, &json).err().ok_or("a fault")?)
}

fn check_listens(rt: &(impl Abort + AllocGlobal), root: &Database) -> Result<(), Fail> {
    for (text, kind, name) in LISTENS {
        check_fault(rt, &listen_fault(rt.alloc(), root, text)?, text, kind, name);
    }
    Ok(())
}

#[test]
fn faults_of_listens(rt: HostRuntime) -> Result<(), Fail> {
    let root = root(rt.alloc())?;
    check_listens(&rt, &root)
}

fn check_written(rt: &(impl Abort + AllocGlobal), root: &Database) -> Result<(), Fail> {
    for (text, kind, name) in WRITTEN {
        check_fault(
            rt,
            &written_fault(rt.alloc(), root, text)?,
            text,
            kind,
            name,
        );
    }
    Ok(())
}

#[test]
fn faults_of_written(rt: HostRuntime) -> Result<(), Fail> {
    let root = root(rt.alloc())?;
    check_written(&rt, &root)
}

fn check_statuses(rt: &(impl Abort + AllocGlobal), side: Side) -> Result<(), Fail> {
    for (text, kind, name) in STATUSES {
        check_fault(rt, &status_fault(rt.alloc(), side, text)?, text, kind, name);
    }
    Ok(())
}

#[test]
fn faults_of_statuses(rt: HostRuntime) -> Result<(), Fail> {
    check_statuses(&rt, Side::Caller)?;
    check_statuses(&rt, Side::Backend)
}
