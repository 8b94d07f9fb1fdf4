//! Writes that are built in one pass of a tree that borrows from its text, and others that aren't.

use crate::faults::root;
use document_keys::Database;
use json_model::{Setting, Side};
use mutations::Write;
use plain_json::{Room, parse, plain_writes};
use std::alloc::Global;
use std::process::Abort;
use std::test::Fail;

// how many writes are built of a text; of none, its tree is of another form
static LISTS: [(&str, Option<usize>); 33] = [
    (r#"[]"#, Some(0)),
    (
        r#"[{"update":{"name":"projects/demo/databases/(default)/documents/rooms/a","fields":{}}}]"#,
        Some(1),
    ),
    (
        r#" [ {"update":{"fields":{"b":{"booleanValue":true},"a":{"integerValue":"1"},"b":{"nullValue":null}},"name":"projects/demo/databases/(default)/documents/rooms/a"}}, {"update":{"fields":{"m":{"mapValue":{"fields":{"t":{"timestampValue":"2024-01-01T00:00:00Z"}}}},"l":{"arrayValue":{"values":[{"stringValue":"\u00e9"},{"bytesValue":"AQ=="}]}},"r":{"referenceValue":"projects/p/databases/d/documents/a/b"}},"name":"projects/demo/databases/(default)/documents/rooms/b"}} ] "#,
        Some(2),
    ),
    (
        r#"[{"update":{"name":"projects/demo/databases/(default)/documents/rooms/a","fields":{"n":{"integerValue":1}}}}]"#,
        None,
    ),
    (
        r#"[{"update":{"name":"projects/demo/databases/(default)/documents/rooms/a","fields":{"n":{"doubleValue":1.5}}}}]"#,
        None,
    ),
    (
        r#"[{"update":{"name":"projects/demo/databases/(default)/documents/rooms/a","fields":{}},"updateMask":{"fieldPaths":[]}}]"#,
        Some(1),
    ),
    (
        r#"[{"currentDocument":{"exists":true},"update":{"name":"projects/demo/databases/(default)/documents/rooms/a","fields":{}},"updateMask":{"fieldPaths":["a","b.`c d`"]}},{"updateMask":{"fieldPaths":["a"]},"update":{"name":"projects/demo/databases/(default)/documents/rooms/a","fields":{}},"currentDocument":{"updateTime":"2024-01-01T00:00:00Z"}}]"#,
        Some(2),
    ),
    (
        r#"[{"update":{"name":"projects/demo/databases/(default)/documents/rooms/a","fields":{}},"updateMask":{}}]"#,
        None,
    ),
    (
        r#"[{"update":{"name":"projects/demo/databases/(default)/documents/rooms/a","fields":{}},"updateMask":{"fieldPaths":["__a__"]}}]"#,
        None,
    ),
    (
        r#"[{"update":{"name":"projects/demo/databases/(default)/documents/rooms/a","fields":{}},"updateMask":{"fieldPaths":["a"]},"updateMask":{"fieldPaths":["b"]}}]"#,
        None,
    ),
    (
        r#"[{"update":{"name":"projects/demo/databases/(default)/documents/rooms/a","fields":{}},"currentDocument":{"exists":null}}]"#,
        None,
    ),
    (
        r#"[{"update":{"name":"projects/demo/databases/(default)/documents/rooms/a","fields":{}},"updateTransforms":[]}]"#,
        Some(1),
    ),
    (
        r#"[{"updateTransforms":[{"fieldPath":"a.b","setToServerValue":"REQUEST_TIME"},{"increment":{"integerValue":"-1"},"fieldPath":"c"}],"update":{"name":"projects/demo/databases/(default)/documents/rooms/a","fields":{}}},{"update":{"name":"projects/demo/databases/(default)/documents/rooms/a","fields":{}},"updateTransforms":[{"fieldPath":"a","maximum":{"integerValue":"9223372036854775807"}},{"fieldPath":"a","minimum":{"integerValue":"0"}}]}]"#,
        Some(2),
    ),
    (
        r#"[{"update":{"name":"projects/demo/databases/(default)/documents/rooms/a","fields":{}},"updateTransforms":[{"fieldPath":"a","appendMissingElements":{"values":[{"stringValue":"x"},{"arrayValue":{"values":[]}}]}},{"removeAllFromArray":{"values":[]},"fieldPath":"b"}]}]"#,
        Some(1),
    ),
    (
        r#"[{"update":{"name":"projects/demo/databases/(default)/documents/rooms/a","fields":{}},"updateTransforms":[{"fieldPath":"a.a.a.a.a.a.a.a.a.a.a.a.a.a.a.a.a.a.a.a","appendMissingElements":{"values":[{"nullValue":null}]}}]}]"#,
        Some(1),
    ),
    (
        r#"[{"update":{"name":"projects/demo/databases/(default)/documents/rooms/a","fields":{}},"updateTransforms":[{"fieldPath":"a.a.a.a.a.a.a.a.a.a.a.a.a.a.a.a.a.a.a.a","appendMissingElements":{"values":[{"arrayValue":{"values":[]}}]}}]}]"#,
        None,
    ),
    (
        r#"[{"update":{"name":"projects/demo/databases/(default)/documents/rooms/a","fields":{}},"updateTransforms":[{"fieldPath":"a.a.a.a.a.a.a.a.a.a.a.a.a.a.a.a.a.a.a.a.a","appendMissingElements":{"values":[]}}]}]"#,
        None,
    ),
    (
        r#"[{"update":{"name":"projects/demo/databases/(default)/documents/rooms/a","fields":{}},"updateTransforms":[{"fieldPath":"a.a.a.a.a.a.a.a.a.a.a.a.a.a.a.a.a.a.a.a.a","setToServerValue":"REQUEST_TIME"}]}]"#,
        Some(1),
    ),
    (
        r#"[{"update":{"name":"projects/demo/databases/(default)/documents/rooms/a","fields":{}},"updateTransforms":[{"fieldPath":"a","setToServerValue":"SERVER_VALUE_UNSPECIFIED"}]}]"#,
        None,
    ),
    (
        r#"[{"update":{"name":"projects/demo/databases/(default)/documents/rooms/a","fields":{}},"updateTransforms":[{"fieldPath":"a","increment":{"doubleValue":1}}]}]"#,
        None,
    ),
    (
        r#"[{"update":{"name":"projects/demo/databases/(default)/documents/rooms/a","fields":{}},"updateTransforms":[{"fieldPath":"a","multiply":{"integerValue":"2"}}]}]"#,
        None,
    ),
    (
        r#"[{"update":{"name":"projects/demo/databases/(default)/documents/rooms/a","fields":{}},"updateTransforms":[{"fieldPath":"a"}]}]"#,
        None,
    ),
    (
        r#"[{"update":{"name":"projects/demo/databases/(default)/documents/rooms/a","fields":{}},"updateTransforms":[],"updateTransforms":[]}]"#,
        None,
    ),
    (r#"[{"updateMask":{"fieldPaths":["a"]}}]"#, None),
    (
        r#"[{"delete":"projects/demo/databases/(default)/documents/rooms/a"},{"update":{"name":"projects/demo/databases/(default)/documents/rooms/a","fields":{}}}]"#,
        Some(2),
    ),
    (
        r#"[{"delete":"projects/demo/databases/(default)/documents/rooms/a","currentDocument":{"exists":true}},{"currentDocument":{"updateTime":"2024-01-01T00:00:00Z"},"delete":"projects/demo/databases/(default)/documents/rooms/b"}]"#,
        Some(2),
    ),
    (
        r#"[{"delete":"projects/demo/databases/(default)/documents/rooms"}]"#,
        None,
    ),
    (
        r#"[{"delete":"projects/demo/databases/(default)/documents/rooms/a","updateMask":{"fieldPaths":["a"]}}]"#,
        None,
    ),
    (
        r#"[{"delete":"projects/demo/databases/(default)/documents/rooms/a","currentDocument":{}}]"#,
        None,
    ),
    (
        r#"[{"update":{"name":"projects/demo/databases/(default)/documents/rooms","fields":{}}}]"#,
        None,
    ),
    (r#"[{"update":null}]"#, None),
    (r#"[{"update":"#, None),
    (r#"[] []"#, None),
];

fn count_built(
    alloc: Global,
    room: &mut Room,
    root: &Database,
    text: &str,
) -> Result<Option<usize>, Fail> {
    let Some(tree) = parse(alloc, text, room)? else {
        return Ok(None);
    };
    let setting = Setting {
        side: Side::Caller,
        root,
    };
    let writes = plain_writes(alloc, &setting, &tree)?;
    Ok(writes.map(|writes| writes.len()))
}

fn check_lists(
    rt: &(impl Abort + AllocGlobal),
    room: &mut Room,
    root: &Database,
) -> Result<(), Fail> {
    for (text, count) in LISTS {
        let built = count_built(rt.alloc(), room, root, text)?;
        assert!(rt; built == count, "{text}");
    }
    Ok(())
}

// a list whose tree takes more of the room than is kept for the next one
fn has_long_tree(alloc: Global, room: &mut Room) -> Result<bool, Fail> {
    let mut text = String::from_str(alloc, "[")?;
    for _ in 0..50_000 {
        text.push_str("null,")?;
    }
    text.push_str("null]")?;
    let tree = parse(alloc, text.as_str(), room)?;
    Ok(tree.is_some())
}

#[test]
fn writes_in_one_pass(rt: HostRuntime) -> Result<(), Fail> {
    let root = root(rt.alloc())?;
    let mut room = Room::new(rt.alloc());
    check_lists(&rt, &mut room, &root)?;
    assert!(rt; has_long_tree(rt.alloc(), &mut room)?);
    check_lists(&rt, &mut room, &root)
}
