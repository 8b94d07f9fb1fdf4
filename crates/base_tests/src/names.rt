//! Segments, databases, and the names of documents.

use crate::fixtures::root;
use document_keys::{Database, DocumentKey, NameFault, Segment, Text};
use std::cmp::Ordering;
use std::process::Abort;
use std::test::Fail;

const ROOT: &str = "projects/demo/databases/(default)";

const CITY: &str = "projects/demo/databases/(default)/documents/cities/SF";

static SEGMENTS: [(&str, bool); 14] = [
    ("__", true),
    ("___", true),
    ("__a_", true),
    ("_a__", true),
    ("...", true),
    ("a b", true),
    ("é", true),
    ("", false),
    (".", false),
    ("..", false),
    ("____", false),
    ("__a__", false),
    ("a/b", false),
    ("/", false),
];

/// Texts of 0, 1, 22 and 23 bytes, the longest that takes no memory and the shortest that does.
static TEXTS: [&str; 6] = [
    "",
    "a",
    "abcdefghijklmnopqrstuv",
    "ééééééééééé",
    "abcdefghijklmnopqrstuvw",
    "aééééééééééé",
];

static DATABASES: [(&str, NameFault); 5] = [
    ("projects/demo/databases", NameFault::WrongRoot),
    ("projects/demo/databases/a/b", NameFault::WrongRoot),
    ("projects/demo/other/a", NameFault::WrongRoot),
    ("projects//databases/a", NameFault::BadSegment),
    ("projects/demo/databases/__a__", NameFault::BadSegment),
];

static NAMES: [(&str, NameFault); 8] = [
    (
        "projects/demo/databases/other/documents/a/b/c",
        NameFault::WrongRoot,
    ),
    (
        "projects/demo/databases/(default)/documents",
        NameFault::WrongRoot,
    ),
    (
        "projects/demo/databases/(default)/documentsx/a",
        NameFault::WrongRoot,
    ),
    (
        "projects/demo/databases/(default)/documents/",
        NameFault::BadSegment,
    ),
    (
        "projects/demo/databases/(default)/documents/a/./c",
        NameFault::BadSegment,
    ),
    (
        "projects/demo/databases/(default)/documents/a/b/",
        NameFault::BadSegment,
    ),
    (
        "projects/demo/databases/(default)/documents/a",
        NameFault::OddLength,
    ),
    (
        "projects/demo/databases/(default)/documents/a/b/c",
        NameFault::OddLength,
    ),
];

#[test]
fn segments(rt: HostRuntime) {
    for (text, allowed) in &SEGMENTS {
        assert!(rt;
            Segment::read(rt.alloc(), text).is_ok() == *allowed,
            "{text}"
        );
    }
}

#[test]
fn no_databases(rt: HostRuntime) {
    for (text, fault) in &DATABASES {
        assert!(rt;
            Database::read(rt.alloc(), text).err() == Some(*fault),
            "{text}"
        );
    }
}

fn check_no_names(rt: &(impl Abort + AllocGlobal), root: &Database) {
    for (text, fault) in &NAMES {
        assert!(rt;
            DocumentKey::read(rt.alloc(), root, text).err() == Some(*fault),
            "{text}"
        );
    }
}

#[test]
fn no_names(rt: HostRuntime) -> Result<(), Fail> {
    let root = root(rt.alloc())?;
    check_no_names(&rt, &root);
    Ok(())
}

fn check_database(rt: &(impl Abort + AllocGlobal), root: &Database) {
    assert!(rt; root.as_str() == ROOT);
    assert!(rt; root.project().as_str() == "demo");
    assert!(rt; root.name().as_str() == "(default)");
}

#[test]
fn databases(rt: HostRuntime) -> Result<(), Fail> {
    let root = root(rt.alloc())?;
    check_database(&rt, &root);
    let copy = root.copy(rt.alloc())?;
    check_database(&rt, &copy);
    Ok(())
}

#[test]
fn database_of_two_segments(rt: HostRuntime) -> Result<(), Fail> {
    let project = Segment::read(rt.alloc(), "demo")?;
    let name = Segment::read(rt.alloc(), "(default)")?.copy(rt.alloc())?;
    let root = Database::from_segments(rt.alloc(), project, name)?;
    check_database(&rt, &root);
    Ok(())
}

fn check_printed(
    rt: &(impl Abort + AllocGlobal),
    root: &Database,
    city: &DocumentKey,
) -> Result<(), Fail> {
    let printed = city.print(rt.alloc(), root)?;
    assert!(rt; printed.as_str() == CITY);
    Ok(())
}

fn check_copied(rt: &(impl Abort + AllocGlobal), city: &DocumentKey) -> Result<(), Fail> {
    let copy = city.copy(rt.alloc())?;
    assert!(rt; copy.len() == 2);
    assert!(rt; copy.segment(1) == Some("SF"));
    assert!(rt; copy.compare(city) == Ordering::Equal);
    Ok(())
}

fn check_key(rt: &(impl Abort + AllocGlobal), root: &Database) -> Result<(), Fail> {
    let city = DocumentKey::read(rt.alloc(), root, CITY)?;
    check_printed(rt, root, &city)?;
    check_copied(rt, &city)
}

#[test]
fn keys(rt: HostRuntime) -> Result<(), Fail> {
    let root = root(rt.alloc())?;
    check_key(&rt, &root)
}

#[test]
fn texts(rt: HostRuntime) -> Result<(), Fail> {
    for content in &TEXTS {
        let text = Text::from_str(rt.alloc(), content)?;
        let copy = text.copy(rt.alloc())?;
        drop(text);
        assert!(rt; copy.as_str() == *content, "{content}");
    }
    Ok(())
}
