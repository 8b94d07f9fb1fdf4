//! Values, names and documents as JSON.

use crate::fixtures::root;
use document_keys::{Database, DocumentKey};
use json::Writer;
use json_model::{JsonFault, Side, print_fields, read_fields, read_name, read_whole};
use json_text::put_document;
use serde_json::Value as Json;
use std::alloc::Global;
use std::process::Abort;
use std::test::Fail;
use value_model::{DocRef, DocState, Fields, Timestamp};

const NAME: &str = "\"projects/demo/databases/(default)/documents/rooms/a\"";

const DOCUMENT: &str =
    r#"{"fields":{"n":{"integerValue":"1"}},"name":"projects/demo/databases/(default)/documents/rooms/a","state":"synced","updateTime":"2024-05-01T00:00:01.500Z"}"#;

/// The member, or the name, of a fault.
fn member(fault: &JsonFault) -> &str {
    match fault {
        JsonFault::BadShape(name) => name.as_str(),
        JsonFault::BadTime(name) => name.as_str(),
        JsonFault::BadBytes(name) => name.as_str(),
        JsonFault::Unsupported(name) => name.as_str(),
        JsonFault::BadName(bad) => bad.name.as_str(),
        _ => "",
    }
}

// why a tree is read as no fields; it must be one
fn no_fields(_fault: JsonFault) -> Fail {
    "fields".into()
}

fn fields_of_tree(alloc: Global, root: &Database, side: Side, tree: &str) -> Result<Fields, Fail> {
    let json = Json::from_str(alloc, tree)?;
    read_fields(alloc, root, side, &json).map_err(no_fields)
}

fn printed(alloc: Global, fields: &Fields) -> Result<String, Fail> {
    let json = print_fields(alloc, fields)?;
    Ok(json.to_string(alloc)?)
}

#[test]
fn fields_read_back(rt: HostRuntime) -> Result<(), Fail> {
    let root = root(rt.alloc())?;
    let tree = r#"{"l":{"arrayValue":{}},"n":{"integerValue":"7"}}"#;
    let fields = fields_of_tree(rt.alloc(), &root, Side::Caller, tree)?;
    check_printed(&rt, &fields, tree)
}

fn check_printed(
    rt: &(impl Abort + AllocGlobal),
    fields: &Fields,
    wanted: &str,
) -> Result<(), Fail> {
    let text = printed(rt.alloc(), fields)?;
    assert!(rt; text.as_str() == wanted);
    Ok(())
}

fn key_of_tree(
    alloc: Global,
    root: &Database,
    side: Side,
    tree: &str,
) -> Result<DocumentKey, JsonFault> {
    let Ok(json) = Json::from_str(alloc, tree) else {
        return Err(JsonFault::NoMemory);
    };
    read_name(alloc, root, side, &json)
}

fn check_document(
    rt: &(impl Abort + AllocGlobal),
    root: &Database,
    key: &DocumentKey,
    fields: &Fields,
) -> Result<(), Fail> {
    let document = DocRef {
        key,
        fields,
        update_time: Timestamp::read("2024-05-01T00:00:01.500Z"),
        state: DocState::Synced,
    };
    let mut out = Writer::new(Vec::new(rt.alloc()));
    put_document(rt.alloc(), &mut out, root, document)?;
    let text = out.into_inner();
    assert!(rt; text.as_slice() == DOCUMENT.as_bytes());
    Ok(())
}

fn check_keyed(
    rt: &(impl Abort + AllocGlobal),
    root: &Database,
    key: &DocumentKey,
) -> Result<(), Fail> {
    let tree = "{\"n\":{\"integerValue\":1}}";
    let fields = fields_of_tree(rt.alloc(), root, Side::Backend, tree)?;
    check_document(rt, root, key, &fields)
}

fn check_named(rt: &(impl Abort + AllocGlobal), root: &Database) -> Result<(), Fail> {
    let key = key_of_tree(rt.alloc(), root, Side::Backend, NAME).map_err(no_fields)?;
    assert!(rt; key.len() == 2);
    check_keyed(rt, root, &key)
}

#[test]
fn documents(rt: HostRuntime) -> Result<(), Fail> {
    let root = root(rt.alloc())?;
    check_named(&rt, &root)
}

#[test]
fn name_of_the_caller(rt: HostRuntime) -> Result<(), Fail> {
    let root = root(rt.alloc())?;
    let key = key_of_tree(rt.alloc(), &root, Side::Caller, NAME).map_err(no_fields)?;
    assert!(rt; key.len() == 2);
    Ok(())
}

#[test]
fn number_for_a_name(rt: HostRuntime) -> Result<(), Fail> {
    let root = root(rt.alloc())?;
    let fault = key_of_tree(rt.alloc(), &root, Side::Caller, "7")
        .err()
        .ok_or("no name")?;
    assert!(rt; member(&fault) == "name");
    Ok(())
}

#[test]
fn whole_number(rt: HostRuntime) -> Result<(), Fail> {
    let json = Json::from_str(rt.alloc(), "-12")?;
    assert!(rt; read_whole(&json) == Some(-12));
    Ok(())
}

// a member that isn't known is no fault of the backend
#[test]
fn sides(rt: HostRuntime) -> Result<(), Fail> {
    let root = root(rt.alloc())?;
    let tree = "{\"a\":{\"foo\":1,\"integerValue\":\"1\"}}";
    let fields = fields_of_tree(rt.alloc(), &root, Side::Backend, tree)?;
    assert!(rt; fields.len() == 1);
    Ok(())
}
