//! Writes as JSON trees.

use crate::fixtures::root;
use document_keys::Database;
use json_model::JsonFault;
use json_rpc::{print_write, read_write};
use mutations::Write;
use serde_json::Value as Json;
use std::alloc::Global;
use std::process::Abort;
use std::test::Fail;

// texts that the writes that they spell print
static SAME: [&str; 6] = [
    r#"{"delete":"projects/demo/databases/(default)/documents/rooms/a"}"#,
    r#"{"currentDocument":{"exists":false},"delete":"projects/demo/databases/(default)/documents/rooms/a"}"#,
    r#"{"currentDocument":{"updateTime":"2024-05-01T00:00:01.500Z"},"update":{"name":"projects/demo/databases/(default)/documents/rooms/a"},"updateMask":{}}"#,
    r#"{"update":{"fields":{"n":{"integerValue":"1"}},"name":"projects/demo/databases/(default)/documents/rooms/a"},"updateMask":{"fieldPaths":["n","a.`b c`"]}}"#,
    r#"{"update":{"name":"projects/demo/databases/(default)/documents/rooms/a"},"updateTransforms":[{"fieldPath":"t","setToServerValue":"REQUEST_TIME"},{"fieldPath":"i","increment":{"integerValue":"-1"}},{"fieldPath":"m","maximum":{"integerValue":"5"}},{"fieldPath":"m","minimum":{"integerValue":"3"}}]}"#,
    r#"{"update":{"name":"projects/demo/databases/(default)/documents/rooms/a"},"updateTransforms":[{"appendMissingElements":{"values":[{"nullValue":null}]},"fieldPath":"l"},{"fieldPath":"l","removeAllFromArray":{}}]}"#,
];

// texts, and what the writes that they spell print
static READ: [(&str, &str); 3] = [
    (
        r#"{"update":{"fields":{},"name":"projects/demo/databases/(default)/documents/rooms/a"},"updateMask":{"fieldPaths":[]},"updateTransforms":[],"currentDocument":null}"#,
        r#"{"update":{"name":"projects/demo/databases/(default)/documents/rooms/a"},"updateMask":{}}"#,
    ),
    (
        r#"{"update":null,"currentDocument":{"exists":true,"updateTime":null},"delete":"projects/demo/databases/(default)/documents/rooms/a"}"#,
        r#"{"currentDocument":{"exists":true},"delete":"projects/demo/databases/(default)/documents/rooms/a"}"#,
    ),
    (
        r#"{"updateTransforms":[{"increment":{"integerValue":7},"fieldPath":"`n`"}],"update":{"name":"projects/demo/databases/(default)/documents/rooms/a"}}"#,
        r#"{"update":{"name":"projects/demo/databases/(default)/documents/rooms/a"},"updateTransforms":[{"fieldPath":"n","increment":{"integerValue":"7"}}]}"#,
    ),
];

// why a tree is read as no write; it must be one
fn no_write(_fault: JsonFault) -> Fail {
    "a write".into()
}

fn write_of(alloc: Global, root: &Database, text: &str) -> Result<Write, Fail> {
    let json = Json::from_str(alloc, text)?;
    read_write(alloc, root, &json).map_err(no_write)
}

fn printed(alloc: Global, root: &Database, write: &Write) -> Result<String, Fail> {
    let json = print_write(alloc, root, write)?;
    Ok(json.to_string(alloc)?)
}

fn printed_again(alloc: Global, root: &Database, text: &str) -> Result<String, Fail> {
    let write = write_of(alloc, root, text)?;
    printed(alloc, root, &write)
}

fn check_write(
    rt: &(impl Abort + AllocGlobal),
    root: &Database,
    text: &str,
    wanted: &str,
) -> Result<(), Fail> {
    let printed = printed_again(rt.alloc(), root, text)?;
    assert!(rt; printed.as_str() == wanted, "{text}");
    Ok(())
}

fn check_same(rt: &(impl Abort + AllocGlobal), root: &Database) -> Result<(), Fail> {
    for text in SAME {
        check_write(rt, root, text, text)?;
    }
    Ok(())
}

fn check_read(rt: &(impl Abort + AllocGlobal), root: &Database) -> Result<(), Fail> {
    for (text, wanted) in READ {
        check_write(rt, root, text, wanted)?;
    }
    Ok(())
}

#[test]
fn writes_read_back(rt: HostRuntime) -> Result<(), Fail> {
    let root = root(rt.alloc())?;
    check_same(&rt, &root)?;
    check_read(&rt, &root)
}
