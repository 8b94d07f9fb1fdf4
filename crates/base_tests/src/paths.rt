//! Paths of collections and of fields, and sets of keys.

use crate::fixtures::{key, root};
use document_keys::{
    CollectionPath, Database, DocumentKey, FieldFault, FieldPath, KeySet, Segment, Text,
    check_field_name,
};
use std::alloc::Global;
use std::cmp::Ordering;
use std::process::Abort;
use std::test::Fail;

const CITY: &str = "projects/demo/databases/(default)/documents/cities/SF";

const TOWN: &str = "projects/demo/databases/(default)/documents/cities/SF/towns/1";

static PATHS: [(&str, &str); 7] = [
    ("a.b_2._", "a.b_2._"),
    ("`a`.`b`", "a.b"),
    ("`a.b`.c", "`a.b`.c"),
    ("`1a`", "`1a`"),
    ("`é`", "`é`"),
    ("`a\\`b\\\\`", "`a\\`b\\\\`"),
    ("`__name__`", "__name__"),
];

static NO_PATHS: [(&str, FieldFault); 13] = [
    ("", FieldFault::BadPath),
    (".a", FieldFault::BadPath),
    ("a.", FieldFault::BadPath),
    ("1a", FieldFault::BadPath),
    ("é", FieldFault::BadPath),
    ("``", FieldFault::BadPath),
    ("`a", FieldFault::BadPath),
    ("`a`b", FieldFault::BadPath),
    ("`a\\b`", FieldFault::BadPath),
    ("__a__.", FieldFault::BadPath),
    ("__a__", FieldFault::ReservedField),
    ("a.`____`", FieldFault::ReservedField),
    ("__name__.a", FieldFault::ReservedField),
];

// the path that the text is read as, printed
fn read_and_printed(alloc: Global, text: &str) -> Result<String, FieldFault> {
    let path = FieldPath::read(alloc, text)?;
    Ok(path.print(alloc)?)
}

fn check_path(rt: &(impl Abort + AllocGlobal), text: &str, wanted: &str) -> Result<(), Fail> {
    let printed = read_and_printed(rt.alloc(), text)?;
    assert!(rt; printed.as_str() == wanted, "{text}");
    Ok(())
}

#[test]
fn field_paths(rt: HostRuntime) -> Result<(), Fail> {
    for (text, printed) in &PATHS {
        check_path(&rt, text, printed)?;
    }
    Ok(())
}

#[test]
fn no_field_paths(rt: HostRuntime) {
    for (text, fault) in &NO_PATHS {
        assert!(rt;
            FieldPath::read(rt.alloc(), text).err() == Some(*fault),
            "{text}"
        );
    }
}

fn path_of(alloc: Global, texts: &[&str]) -> Result<FieldPath, Fail> {
    let mut names = Vec::new(alloc);
    for text in texts {
        names.push(Text::from_str(alloc, text)?)?;
    }
    Ok(FieldPath::from_names(names)?)
}

fn check_names(rt: &(impl Abort + AllocGlobal), path: &FieldPath) -> Result<(), Fail> {
    let copy = path.copy(rt.alloc())?;
    assert!(rt; copy.len() == 2);
    assert!(rt; copy.segment(1) == Some("b c"));
    assert!(rt; copy.compare(path) == Ordering::Equal);
    Ok(())
}

#[test]
fn path_of_names(rt: HostRuntime) -> Result<(), Fail> {
    let path = path_of(rt.alloc(), &["a", "b c"])?;
    check_names(&rt, &path)?;
    let printed = path.print(rt.alloc())?;
    assert!(rt; printed.as_str() == "a.`b c`");
    Ok(())
}

#[test]
fn name_of_a_field(rt: HostRuntime) {
    assert!(rt; check_field_name("a.b") == Ok(()));
}

fn check_town(
    rt: &(impl Abort + AllocGlobal),
    towns: &CollectionPath,
    root: &Database,
) -> Result<(), Fail> {
    let town = DocumentKey::read(rt.alloc(), root, TOWN)?;
    assert!(rt; town.is_in(towns));
    let parent = town.parent(rt.alloc())?;
    assert!(rt; parent.compare(towns) == Ordering::Equal);
    Ok(())
}

fn check_collection(
    rt: &(impl Abort + AllocGlobal),
    root: &Database,
    towns: &CollectionPath,
) -> Result<(), Fail> {
    assert!(rt; towns.len() == 3);
    assert!(rt; towns.segment(2) == Some("towns"));
    let parent = towns.print_parent(rt.alloc(), root)?;
    assert!(rt; parent.as_str() == CITY);
    Ok(())
}

fn check_towns(rt: &(impl Abort + AllocGlobal), root: &Database) -> Result<(), Fail> {
    let towns = CollectionPath::read(rt.alloc(), root, CITY, "towns")?.copy(rt.alloc())?;
    check_collection(rt, root, &towns)?;
    check_town(rt, &towns, root)
}

#[test]
fn collections(rt: HostRuntime) -> Result<(), Fail> {
    let root = root(rt.alloc())?;
    check_towns(&rt, &root)
}

#[test]
fn collection_of_segments(rt: HostRuntime) -> Result<(), Fail> {
    let mut segments = Vec::new(rt.alloc());
    segments.push(Segment::read(rt.alloc(), "rooms")?)?;
    let rooms = CollectionPath::from_segments(segments).ok_or("one segment")?;
    assert!(rt; rooms.len() == 1);
    Ok(())
}

/// Keys in their order: a segment that ends comes before one that goes on, whatever its next byte is.
static ORDERED: [&[&str]; 8] = [
    &["a", "b"],
    &["a", "b", "c", "d"],
    &["a", "b\u{0}"],
    &["a", "b-"],
    &["a", "b0"],
    &["a\u{0}", "b"],
    &["a-", "b"],
    &["b", "a"],
];

fn compared(alloc: Global, one: &[&str], other: &[&str]) -> Result<Ordering, Fail> {
    Ok(key(alloc, one)?.compare(&key(alloc, other)?))
}

#[test]
fn keys_in_order(rt: HostRuntime) -> Result<(), Fail> {
    for i in 0..ORDERED.len() {
        for j in 0..ORDERED.len() {
            assert!(rt;
                compared(rt.alloc(), ORDERED[i], ORDERED[j])? == i.cmp(&j),
                "{i} and {j}"
            );
        }
    }
    Ok(())
}

fn insert(
    rt: &(impl Abort + AllocGlobal),
    keys: &mut KeySet,
    root: &Database,
    name: &str,
) -> Result<(), Fail> {
    let key = DocumentKey::read(rt.alloc(), root, name)?;
    Ok(keys.insert(rt.alloc(), key)?)
}

fn check_keys(
    rt: &(impl Abort + AllocGlobal),
    keys: &KeySet,
    city: &DocumentKey,
) -> Result<(), Fail> {
    assert!(rt; keys.len() == 2);
    assert!(rt; keys.as_slice().len() == 2);
    let first = keys.at(0).ok_or("no key")?;
    assert!(rt; first.compare(city) == Ordering::Equal);
    Ok(())
}

fn check_removal(
    rt: &(impl Abort + AllocGlobal),
    keys: &KeySet,
    city: &DocumentKey,
) -> Result<(), Fail> {
    let mut others = keys.copy(rt.alloc())?;
    others.remove(city);
    assert!(rt; keys.has(city) && !others.has(city));
    Ok(())
}

fn check_city(rt: &(impl Abort + AllocGlobal), keys: &KeySet, root: &Database) -> Result<(), Fail> {
    let city = DocumentKey::read(rt.alloc(), root, CITY)?;
    check_keys(rt, keys, &city)?;
    check_removal(rt, keys, &city)
}

fn check_set(rt: &(impl Abort + AllocGlobal), root: &Database) -> Result<(), Fail> {
    let mut keys = KeySet::new(rt.alloc());
    insert(rt, &mut keys, root, TOWN)?;
    insert(rt, &mut keys, root, CITY)?;
    check_city(rt, &keys, root)
}

#[test]
fn key_sets(rt: HostRuntime) -> Result<(), Fail> {
    let root = root(rt.alloc())?;
    check_set(&rt, &root)
}
