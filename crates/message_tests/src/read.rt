//! Trees of messages without a fault.

use crate::faults::root;
use document_keys::Database;
use json_messages::{read_listen_response, read_status, read_write_response};
use json_model::{JsonFault, Side};
use mutations::WriteResponse;
use serde_json::Value as Json;
use std::alloc::Global;
use std::process::Abort;
use std::test::Fail;
use value_model::{ChangeKind, DocumentChange, ListenResponse, RpcStatus, TargetChange};

// the kinds of a change of targets, as they are spelled
static KINDS: [(&str, ChangeKind); 6] = [
    (r#"{"targetChange":{}}"#, ChangeKind::NoChange),
    (
        r#"{"targetChange":{"targetChangeType":"NO_CHANGE"}}"#,
        ChangeKind::NoChange,
    ),
    (
        r#"{"targetChange":{"targetChangeType":"ADD"}}"#,
        ChangeKind::Add,
    ),
    (
        r#"{"targetChange":{"targetChangeType":"REMOVE"}}"#,
        ChangeKind::Remove,
    ),
    (
        r#"{"targetChange":{"targetChangeType":"CURRENT"}}"#,
        ChangeKind::Current,
    ),
    (
        r#"{"targetChange":{"targetChangeType":"RESET"}}"#,
        ChangeKind::Reset,
    ),
];

const CURRENT: &str =
    r#"{"targetChange":{"cause":{"code":5,"message":"gone","details":[1]},"readTime":"2024-01-03T00:00:00Z","resumeToken":"AQ==","targetChangeType":"CURRENT","targetIds":[2,"-3"]}}"#;

const CHANGED: &str =
    r#"{"documentChange":{"document":{"createTime":5,"extra":1,"fields":{"n":{"integerValue":"1"}},"name":"projects/demo/databases/(default)/documents/rooms/a","updateTime":"2024-01-01T00:00:00Z"},"removedTargetIds":[4],"targetIds":[2]},"filter":null}"#;

const GONE: &str =
    r#"{"documentDelete":{"document":"projects/demo/databases/(default)/documents/rooms/a","readTime":"2024-01-03T00:00:00Z","removedTargetIds":[2]}}"#;

const REMOVED: &str =
    r#"{"documentRemove":{"document":"projects/demo/databases/(default)/documents/rooms/a","removedTargetIds":[2]}}"#;

const WRITTEN: &str =
    r#"{"commitTime":"2024-01-05T00:00:00Z","streamId":"s","streamToken":"Ag==","writeResults":[{"transformResults":[{"integerValue":"3"},{"nullValue":null}],"updateTime":"2024-01-05T00:00:00Z"},{}]}"#;

// why a tree is read as no message; it must be one
fn no_message(_fault: JsonFault) -> Fail {
    "a message".into()
}

fn listened(alloc: Global, root: &Database, text: &str) -> Result<ListenResponse, Fail> {
    let json = Json::from_str(alloc, text)?;
    read_listen_response(alloc, root, &json).map_err(no_message)
}

fn target_change(alloc: Global, root: &Database, text: &str) -> Result<TargetChange, Fail> {
    match listened(alloc, root, text)? {
        ListenResponse::Target(change) => Ok(change),
        _ => Err("a change of targets".into()),
    }
}

fn check_kinds(rt: &(impl Abort + AllocGlobal), root: &Database) -> Result<(), Fail> {
    for (text, kind) in KINDS {
        let change = target_change(rt.alloc(), root, text)?;
        assert!(rt; change.kind == kind, "{text}");
    }
    Ok(())
}

#[test]
fn kinds_of_changes(rt: HostRuntime) -> Result<(), Fail> {
    let root = root(rt.alloc())?;
    check_kinds(&rt, &root)
}

fn check_current(rt: &(impl Abort + AllocGlobal), change: &TargetChange) {
    let ids: [i32; 2] = [2, -3];
    let token: [u8; 1] = [1];
    assert!(rt; change.target_ids.as_slice() == &ids[..]);
    assert!(rt; change.resume_token.as_slice() == &token[..]);
    assert!(rt; change.read_time.is_some());
    if let Some(cause) = &change.cause {
        assert!(rt; cause.code == 5 && cause.message.as_str() == "gone");
    }
    assert!(rt; change.cause.is_some());
}

#[test]
fn a_point_of_a_target(rt: HostRuntime) -> Result<(), Fail> {
    let root = root(rt.alloc())?;
    let change = target_change(rt.alloc(), &root, CURRENT)?;
    check_current(&rt, &change);
    Ok(())
}

fn check_changed(rt: &(impl Abort + AllocGlobal), change: &DocumentChange) {
    let ids: [i32; 1] = [2];
    let removed: [i32; 1] = [4];
    assert!(rt; change.fields.len() == 1);
    assert!(rt; change.target_ids.as_slice() == &ids[..]);
    assert!(rt; change.removed_target_ids.as_slice() == &removed[..]);
}

#[test]
fn a_changed_document(rt: HostRuntime) -> Result<(), Fail> {
    let root = root(rt.alloc())?;
    match listened(rt.alloc(), &root, CHANGED)? {
        ListenResponse::Change(change) => check_changed(&rt, &change),
        _ => return Err("a changed document".into()),
    }
    Ok(())
}

#[test]
fn a_deleted_document(rt: HostRuntime) -> Result<(), Fail> {
    let root = root(rt.alloc())?;
    let deleted = listened(rt.alloc(), &root, GONE)?;
    assert!(rt; matches!(&deleted, ListenResponse::Delete(gone) if gone.read_time.is_some()));
    Ok(())
}

#[test]
fn a_removed_document(rt: HostRuntime) -> Result<(), Fail> {
    let root = root(rt.alloc())?;
    let removed = listened(rt.alloc(), &root, REMOVED)?;
    assert!(rt; matches!(&removed, ListenResponse::Remove(gone) if gone.read_time.is_none()));
    Ok(())
}

#[test]
fn a_filter(rt: HostRuntime) -> Result<(), Fail> {
    let root = root(rt.alloc())?;
    let text = r#"{"filter":{"count":2147483647,"targetId":2,"unchangedNames":{"bits":5}}}"#;
    match listened(rt.alloc(), &root, text)? {
        ListenResponse::Filter(filter) => {
            assert!(rt; filter.target_id == 2 && filter.count == 2_147_483_647);
        }
        _ => return Err("a filter".into()),
    }
    Ok(())
}

fn check_written(rt: &(impl Abort + AllocGlobal), response: &WriteResponse) {
    let token: [u8; 1] = [2];
    let counts: [usize; 2] = [2, 0];
    let results = response.results.as_slice();
    assert!(rt; response.token.as_slice() == &token[..] && response.commit_time.is_some());
    assert!(rt; results.len() == 2);
    for (answer, count) in results.iter().zip(counts) {
        assert!(rt; answer.transforms.as_slice().len() == count);
    }
}

#[test]
fn results_of_writes(rt: HostRuntime) -> Result<(), Fail> {
    let root = root(rt.alloc())?;
    let json = Json::from_str(rt.alloc(), WRITTEN)?;
    let response = read_write_response(rt.alloc(), &root, &json).map_err(no_message)?;
    check_written(&rt, &response);
    Ok(())
}

fn status(alloc: Global, side: Side, text: &str) -> Result<RpcStatus, Fail> {
    let json = Json::from_str(alloc, text)?;
    read_status(alloc, side, &json).map_err(no_message)
}

#[test]
fn statuses(rt: HostRuntime) -> Result<(), Fail> {
    let told = status(rt.alloc(), Side::Caller, r#"{"code":14,"details":[{}]}"#)?;
    assert!(rt; told.code == 14 && told.message.as_str().is_empty());
    let empty = status(rt.alloc(), Side::Backend, r#"{"message":"lost"}"#)?;
    assert!(rt; empty.code == 0 && empty.message.as_str() == "lost");
    Ok(())
}
