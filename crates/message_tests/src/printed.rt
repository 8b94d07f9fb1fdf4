//! Requests and statuses, as they are printed.

use crate::faults::root;
use document_keys::{Database, DocumentKey, Text};
use json_messages::{print_listen_request, print_status, print_write_request};
use mutations::{Precondition, Write, WriteRequest, Writes};
use queries::{ListenRequest, Resume, Target};
use std::alloc::Global;
use std::process::Abort;
use std::test::Fail;
use value_model::{Bytes, RpcStatus};

// points of a target: its token and its count, and how the request is printed
static POINTS: [(&[u8], u64, &str); 3] = [
    (
        &[1],
        2,
        r#"{"addTarget":{"documents":{"documents":["projects/demo/databases/(default)/documents/rooms/b"]},"expectedCount":2,"resumeToken":"AQ==","targetId":1},"database":"projects/demo/databases/(default)"}"#,
    ),
    (
        &[2, 255],
        0,
        r#"{"addTarget":{"documents":{"documents":["projects/demo/databases/(default)/documents/rooms/b"]},"expectedCount":0,"resumeToken":"Av8=","targetId":1},"database":"projects/demo/databases/(default)"}"#,
    ),
    (
        &[1],
        2_147_483_648,
        r#"{"addTarget":{"documents":{"documents":["projects/demo/databases/(default)/documents/rooms/b"]},"resumeToken":"AQ==","targetId":1},"database":"projects/demo/databases/(default)"}"#,
    ),
];

const ADDED: &str =
    r#"{"addTarget":{"documents":{"documents":["projects/demo/databases/(default)/documents/rooms/b"]},"targetId":1},"database":"projects/demo/databases/(default)"}"#;

const REMOVED: &str = r#"{"database":"projects/demo/databases/(default)","removeTarget":2}"#;

const HANDSHAKE: &str = r#"{"database":"projects/demo/databases/(default)"}"#;

// tokens, and how a request with a delete is printed with them
static TOKENS: [(&[u8], &str); 2] = [
    (
        &[],
        r#"{"writes":[{"delete":"projects/demo/databases/(default)/documents/rooms/b"}]}"#,
    ),
    (
        &[2],
        r#"{"streamToken":"Ag==","writes":[{"delete":"projects/demo/databases/(default)/documents/rooms/b"}]}"#,
    ),
];

// statuses, and how they are printed
static STATUSES: [(u8, &str, &str); 3] = [
    (0, "", "{}"),
    (7, "", r#"{"code":7}"#),
    (16, "no", r#"{"code":16,"message":"no"}"#),
];

fn key(alloc: Global, root: &Database) -> Result<DocumentKey, Fail> {
    let text = "projects/demo/databases/(default)/documents/rooms/b";
    Ok(DocumentKey::read(alloc, root, text)?)
}

fn bytes(alloc: Global, token: &[u8]) -> Result<Bytes, Fail> {
    Ok(Bytes::from_vec(token.to_vec(alloc)?))
}

fn check_listen(
    rt: &(impl Abort + AllocGlobal),
    root: &Database,
    request: &ListenRequest,
    wanted: &str,
) -> Result<(), Fail> {
    let text = print_listen_request(rt.alloc(), root, request)?.to_string(rt.alloc())?;
    assert!(rt; text.as_str() == wanted, "{wanted}");
    Ok(())
}

fn added(alloc: Global, root: &Database, resume: Option<Resume>) -> Result<ListenRequest, Fail> {
    Ok(ListenRequest::Add {
        id: 1,
        target: Target::Document(key(alloc, root)?),
        resume,
    })
}

fn check_point(
    rt: &(impl Abort + AllocGlobal),
    root: &Database,
    token: &[u8],
    expected_count: u64,
    wanted: &str,
) -> Result<(), Fail> {
    let resume = Resume {
        token: bytes(rt.alloc(), token)?,
        expected_count,
    };
    let request = added(rt.alloc(), root, Some(resume))?;
    check_listen(rt, root, &request, wanted)
}

fn check_points(rt: &(impl Abort + AllocGlobal), root: &Database) -> Result<(), Fail> {
    for (token, expected_count, wanted) in POINTS {
        check_point(rt, root, token, expected_count, wanted)?;
    }
    Ok(())
}

#[test]
fn points_of_targets(rt: HostRuntime) -> Result<(), Fail> {
    let root = root(rt.alloc())?;
    check_points(&rt, &root)
}

#[test]
fn an_added_target(rt: HostRuntime) -> Result<(), Fail> {
    let root = root(rt.alloc())?;
    let request = added(rt.alloc(), &root, None)?;
    check_listen(&rt, &root, &request, ADDED)
}

#[test]
fn a_removed_target(rt: HostRuntime) -> Result<(), Fail> {
    let root = root(rt.alloc())?;
    check_listen(&rt, &root, &ListenRequest::Remove { id: 2 }, REMOVED)
}

fn check_write(
    rt: &(impl Abort + AllocGlobal),
    root: &Database,
    request: &WriteRequest,
    wanted: &str,
) -> Result<(), Fail> {
    let text = print_write_request(rt.alloc(), root, request)?.to_string(rt.alloc())?;
    assert!(rt; text.as_str() == wanted, "{wanted}");
    Ok(())
}

fn deleted(alloc: Global, root: &Database) -> Result<Writes, Fail> {
    let mut writes = Vec::new(alloc);
    writes.push(Write::Delete {
        key: key(alloc, root)?,
        condition: Precondition::Free,
    })?;
    Ok(Writes::from_vec(writes))
}

fn check_tokens(rt: &(impl Abort + AllocGlobal), root: &Database) -> Result<(), Fail> {
    for (token, wanted) in TOKENS {
        let token = bytes(rt.alloc(), token)?;
        let writes = deleted(rt.alloc(), root)?;
        check_write(rt, root, &WriteRequest::Batch { token, writes }, wanted)?;
    }
    Ok(())
}

#[test]
fn write_requests(rt: HostRuntime) -> Result<(), Fail> {
    let root = root(rt.alloc())?;
    check_write(&rt, &root, &WriteRequest::Handshake, HANDSHAKE)?;
    check_tokens(&rt, &root)
}

fn check_status(
    rt: &(impl Abort + AllocGlobal),
    code: u8,
    message: &str,
    wanted: &str,
) -> Result<(), Fail> {
    let message = Text::from_str(rt.alloc(), message)?;
    let text = print_status(rt.alloc(), &RpcStatus { code, message })?.to_string(rt.alloc())?;
    assert!(rt; text.as_str() == wanted, "{wanted}");
    Ok(())
}

#[test]
fn printed_statuses(rt: HostRuntime) -> Result<(), Fail> {
    for (code, message, wanted) in STATUSES {
        check_status(&rt, code, message, wanted)?;
    }
    Ok(())
}
