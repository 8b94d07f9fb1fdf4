//! Listeners over a store that no stream of the backend is open for.

use crate::fixtures::{OK, WRITE, empty_host, host_again, is_joined, run_lines};
use client_run::Status;
use host_api::MemHost;
use std::process::Abort;
use std::test::Fail;

const LISTEN: &str =
    r#"{"listen":{"id":7,"target":{"query":{"parent":"projects/demo/databases/(default)/documents","structuredQuery":{"from":[{"collectionId":"rooms"}]}}}}}"#;

const ELSEWHERE: &str =
    r#"{"listen":{"id":3,"target":{"query":{"parent":"projects/demo/databases/(default)/documents","structuredQuery":{"from":[{"collectionId":"games"}]}}}}}"#;

const UNLISTEN: &str = r#"{"unlisten":{"id":7}}"#;

const LISTENING: &str = "{\"ok\":{\"commit\":2,\"id\":7,\"targetId\":2}}\n";

const ADDED: &str =
    "{\"snapshot\":{\"changes\":[{\"kind\":\"ADDED\",\"name\":\"projects/demo/databases/(default)/documents/rooms/a\"}],\"commit\":2,\"documents\":[{\"fields\":{\"n\":{\"integerValue\":\"1\"}},\"name\":\"projects/demo/databases/(default)/documents/rooms/a\",\"state\":\"pending\"}],\"fromCache\":true,\"id\":7}}\n";

const TAKEN: &str =
    "{\"refused\":{\"cause\":\"ListenerTaken\",\"id\":7,\"line\":3,\"number\":7}}\n";

const LISTENING_ELSEWHERE: &str = "{\"ok\":{\"commit\":3,\"id\":3,\"targetId\":4}}\n";

const UNLISTENED: &str = "{\"ok\":{\"commit\":3,\"id\":7}}\n";

const NO_LISTENER: &str =
    "{\"refused\":{\"cause\":\"NoListener\",\"id\":7,\"line\":6,\"number\":8}}\n";

fn check_target_found(rt: &(impl Abort + AllocGlobal), host: &MemHost) -> Result<(), Fail> {
    let mut again = host_again(rt.alloc(), host)?;
    assert!(rt; run_lines(rt.alloc(), &[LISTEN], &mut again)? == Status::Done);
    let found = ["{\"ok\":{\"commit\":3,\"id\":7,\"targetId\":2}}\n"];
    assert!(rt; again.output().starts_with(found[0].as_bytes()));
    Ok(())
}

#[test]
fn listener(rt: HostRuntime) -> Result<(), Fail> {
    let mut host = empty_host(rt.alloc())?;
    let lines = [WRITE, LISTEN, LISTEN, ELSEWHERE, UNLISTEN, UNLISTEN];
    assert!(rt; run_lines(rt.alloc(), &lines, &mut host)? == Status::Done);
    let answers = [
        OK,
        LISTENING,
        ADDED,
        TAKEN,
        LISTENING_ELSEWHERE,
        UNLISTENED,
        NO_LISTENER,
    ];
    assert!(rt; is_joined(host.output(), &answers));
    check_target_found(&rt, &host)
}

const CHANGED: &str =
    "{\"snapshot\":{\"changes\":[{\"kind\":\"ADDED\",\"name\":\"projects/demo/databases/(default)/documents/rooms/a\"}],\"commit\":3,\"documents\":[{\"fields\":{\"n\":{\"integerValue\":\"1\"}},\"name\":\"projects/demo/databases/(default)/documents/rooms/a\",\"state\":\"pending\"}],\"fromCache\":true,\"id\":7}}\n";

/// The one over the collection of the write raises a snapshot, the other doesn't.
#[test]
fn write_is_heard(rt: HostRuntime) -> Result<(), Fail> {
    let mut host = empty_host(rt.alloc())?;
    assert!(rt; run_lines(rt.alloc(), &[ELSEWHERE, LISTEN, WRITE], &mut host)? == Status::Done);
    let answers = [
        "{\"ok\":{\"commit\":1,\"id\":3,\"targetId\":2}}\n",
        "{\"ok\":{\"commit\":2,\"id\":7,\"targetId\":4}}\n",
        "{\"ok\":{\"batch\":1,\"commit\":3}}\n",
        CHANGED,
    ];
    assert!(rt; is_joined(host.output(), &answers));
    Ok(())
}
