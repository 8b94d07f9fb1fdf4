//! Targets: what is read, checked and printed.

use crate::faults::root;
use crate::spelled::read;
use document_keys::Database;
use json_queries::print_target;
use queries::{Query, QueryFault, RawQuery, Target};
use std::alloc::Global;
use std::process::Abort;
use std::test::Fail;

// targets with all their members, which are printed as they stand here
static WHOLE: [&str; 2] = [
    r#"{"documents":{"documents":["projects/demo/databases/(default)/documents/a/b"]}}"#,
    r#"{"query":{"parent":"projects/demo/databases/(default)/documents/a/b","structuredQuery":{"endAt":{"values":[{"integerValue":"9"}]},"from":[{"collectionId":"rooms"}],"limit":3,"orderBy":[{"direction":"ASCENDING","field":{"fieldPath":"a"}},{"direction":"DESCENDING","field":{"fieldPath":"__name__"}}],"startAt":{"before":true,"values":[{"integerValue":"1"},{"referenceValue":"projects/demo/databases/(default)/documents/a/b/rooms/c"}]},"where":{"compositeFilter":{"filters":[{"fieldFilter":{"field":{"fieldPath":"a"},"op":"GREATER_THAN","value":{"integerValue":"0"}}},{"unaryFilter":{"field":{"fieldPath":"b.`c d`"},"op":"IS_NULL"}}],"op":"AND"}}}}}"#,
];

// a filter by a field that isn't ordered, and how it is printed
const BARE: &str =
    r#"{"query":{"parent":"projects/demo/databases/(default)/documents","structuredQuery":{"endAt":null,"from":[{"allDescendants":false,"collectionId":"rooms"}],"where":{"fieldFilter":{"field":{"fieldPath":"`a`"},"op":"NOT_EQUAL","value":{"booleanValue":false}}}}}}"#;

const ORDERED: &str =
    r#"{"query":{"parent":"projects/demo/databases/(default)/documents","structuredQuery":{"from":[{"collectionId":"rooms"}],"orderBy":[{"direction":"ASCENDING","field":{"fieldPath":"a"}},{"direction":"ASCENDING","field":{"fieldPath":"__name__"}}],"where":{"fieldFilter":{"field":{"fieldPath":"a"},"op":"NOT_EQUAL","value":{"booleanValue":false}}}}}}"#;

// why a query isn't taken; it must be
fn no_target(_fault: QueryFault) -> Fail {
    "a checked query".into()
}

fn checked(alloc: Global, raw: RawQuery) -> Result<Target, Fail> {
    let query = Query::check(alloc, raw).map_err(no_target)?;
    Ok(query.target(alloc)?)
}

fn printed(alloc: Global, root: &Database, target: &Target) -> Result<String, Fail> {
    let tree = print_target(alloc, root, target)?;
    Ok(tree.to_string(alloc)?)
}

fn reprinted(alloc: Global, root: &Database, text: &str) -> Result<String, Fail> {
    let raw = read(alloc, root, text)?;
    let target = checked(alloc, raw)?;
    printed(alloc, root, &target)
}

fn check_printed(
    rt: &(impl Abort + AllocGlobal),
    root: &Database,
    text: &str,
    wanted: &str,
) -> Result<(), Fail> {
    let found = reprinted(rt.alloc(), root, text)?;
    assert!(rt; found.as_str() == wanted, "{text}");
    Ok(())
}

fn check_whole(rt: &(impl Abort + AllocGlobal), root: &Database) -> Result<(), Fail> {
    for text in WHOLE {
        check_printed(rt, root, text, text)?;
    }
    Ok(())
}

#[test]
fn whole_targets(rt: HostRuntime) -> Result<(), Fail> {
    let root = root(rt.alloc())?;
    check_whole(&rt, &root)
}

#[test]
fn implied_orders(rt: HostRuntime) -> Result<(), Fail> {
    let root = root(rt.alloc())?;
    check_printed(&rt, &root, BARE, ORDERED)
}
