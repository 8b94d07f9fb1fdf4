//! A listener that syncs, and is told what the cache has once the stream of listeners is lost.

use crate::fixtures::{empty_host, is_joined, run_lines};
use client_run::Status;
use std::process::Abort;
use std::test::Fail;

const LISTEN: &str =
    r#"{"listen":{"id":1,"target":{"query":{"parent":"projects/demo/databases/(default)/documents","structuredQuery":{"from":[{"collectionId":"rooms"}]}}}}}"#;

const OPEN: &str = r#"{"open":{"stream":"watch"}}"#;

const ADDED: &str = r#"{"watch":{"targetChange":{"targetChangeType":"ADD","targetIds":[2]}}}"#;

const FIRST: &str =
    r#"{"watch":{"documentChange":{"document":{"name":"projects/demo/databases/(default)/documents/rooms/a","fields":{"n":{"integerValue":"1"}},"createTime":"2024-05-01T00:00:01Z","updateTime":"2024-05-01T00:00:01Z"},"targetIds":[2]}}}"#;

const SECOND: &str =
    r#"{"watch":{"documentChange":{"document":{"name":"projects/demo/databases/(default)/documents/rooms/b","fields":{"n":{"integerValue":"2"}},"createTime":"2024-05-01T00:00:02Z","updateTime":"2024-05-01T00:00:02Z"},"targetIds":[2]}}}"#;

const CURRENT: &str =
    r#"{"watch":{"targetChange":{"targetChangeType":"CURRENT","targetIds":[2],"resumeToken":"AQ==","readTime":"2024-05-01T00:00:03Z"}}}"#;

const POINT: &str = r#"{"watch":{"targetChange":{"readTime":"2024-05-01T00:00:03Z"}}}"#;

const CLOSED: &str = r#"{"close":{"stream":"watch","status":{"code":14}}}"#;

const TIMER: &str = r#"{"timer":{"name":"online"}}"#;

const LISTENING: &str = "{\"ok\":{\"commit\":1,\"id\":1,\"targetId\":2}}\n";

const REQUEST: &str =
    "{\"send\":{\"listen\":{\"addTarget\":{\"query\":{\"parent\":\"projects/demo/databases/(default)/documents\",\"structuredQuery\":{\"from\":[{\"collectionId\":\"rooms\"}],\"orderBy\":[{\"direction\":\"ASCENDING\",\"field\":{\"fieldPath\":\"__name__\"}}]}},\"targetId\":2},\"database\":\"projects/demo/databases/(default)\"}}}\n";

const SYNCED: &str =
    "{\"snapshot\":{\"changes\":[{\"kind\":\"ADDED\",\"name\":\"projects/demo/databases/(default)/documents/rooms/a\"},{\"kind\":\"ADDED\",\"name\":\"projects/demo/databases/(default)/documents/rooms/b\"}],\"commit\":2,\"documents\":[{\"fields\":{\"n\":{\"integerValue\":\"1\"}},\"name\":\"projects/demo/databases/(default)/documents/rooms/a\",\"state\":\"synced\",\"updateTime\":\"2024-05-01T00:00:01Z\"},{\"fields\":{\"n\":{\"integerValue\":\"2\"}},\"name\":\"projects/demo/databases/(default)/documents/rooms/b\",\"state\":\"synced\",\"updateTime\":\"2024-05-01T00:00:02Z\"}],\"fromCache\":false,\"id\":1,\"readTime\":\"2024-05-01T00:00:03Z\"}}\n";

const FROM_CACHE: &str =
    "{\"snapshot\":{\"changes\":[],\"commit\":2,\"documents\":[{\"fields\":{\"n\":{\"integerValue\":\"1\"}},\"name\":\"projects/demo/databases/(default)/documents/rooms/a\",\"state\":\"synced\",\"updateTime\":\"2024-05-01T00:00:01Z\"},{\"fields\":{\"n\":{\"integerValue\":\"2\"}},\"name\":\"projects/demo/databases/(default)/documents/rooms/b\",\"state\":\"synced\",\"updateTime\":\"2024-05-01T00:00:02Z\"}],\"fromCache\":true,\"id\":1,\"readTime\":\"2024-05-01T00:00:03Z\"}}\n";

#[test]
fn first_sync(rt: HostRuntime) -> Result<(), Fail> {
    let mut host = empty_host(rt.alloc())?;
    let lines = [
        LISTEN, OPEN, ADDED, FIRST, SECOND, CURRENT, POINT, CLOSED, TIMER,
    ];
    assert!(rt; run_lines(rt.alloc(), &lines, &mut host)? == Status::Done);
    let answers = [LISTENING, REQUEST, SYNCED, FROM_CACHE];
    assert!(rt; is_joined(host.output(), &answers));
    Ok(())
}
