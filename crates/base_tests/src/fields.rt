//! Fields of a document, and how deep values stand.

use crate::fixtures::{number, put};
use document_keys::Text;
use std::alloc::Global;
use std::process::Abort;
use std::test::Fail;
use value_model::{Field, Fields, Kind, Value};

// an integer in this many arrays
fn nested(alloc: Global, depth: u32) -> Result<Value, Fail> {
    let mut inner = number(1);
    for _level in 0..depth {
        let mut values = Vec::new(alloc);
        values.push(inner)?;
        inner = Value::array(alloc, values)?;
    }
    Ok(inner)
}

fn check_depth(
    rt: &(impl Abort + AllocGlobal),
    depth: u32,
    limit: u32,
    within: bool,
) -> Result<(), Fail> {
    let value = nested(rt.alloc(), depth)?;
    assert!(rt; value.nests_within(limit) == within, "{depth} in {limit}");
    Ok(())
}

#[test]
fn depths(rt: HostRuntime) -> Result<(), Fail> {
    for (depth, limit, within) in [(0, 0, true), (1, 0, false), (20, 20, true), (21, 20, false)] {
        check_depth(&rt, depth, limit, within)?;
    }
    Ok(())
}

#[test]
fn depth_of_an_empty_array(rt: HostRuntime) -> Result<(), Fail> {
    let empty = Value::array(rt.alloc(), Vec::new(rt.alloc()))?;
    assert!(rt; !empty.nests_within(0));
    Ok(())
}

#[test]
fn depths_of_fields(rt: HostRuntime) -> Result<(), Fail> {
    let mut fields = Fields::new(rt.alloc());
    assert!(rt; fields.nest_within(0));
    put(rt.alloc(), &mut fields, "a", nested(rt.alloc(), 20)?)?;
    assert!(rt; fields.nest_within(20));
    assert!(rt; !fields.nest_within(19));
    Ok(())
}

fn entry(alloc: Global, name: &str, item: i64) -> Result<Field, Fail> {
    let name = Text::from_str(alloc, name)?;
    Ok(Field {
        name,
        value: number(item),
    })
}

// fields of these names, whose values are their places
fn entries(alloc: Global, names: &[&str]) -> Result<Vec<Field>, Fail> {
    let mut entries = Vec::new(alloc);
    for name in names {
        let item = entries.len() as i64;
        entries.push(entry(alloc, name, item)?)?;
    }
    Ok(entries)
}

fn integer(value: Option<&Value>) -> Option<i64> {
    match &value?.kind {
        Kind::Integer(number) => Some(*number),
        _ => None,
    }
}

fn check_no_fields(rt: &(impl Abort + AllocGlobal), names: &[&str]) -> Result<(), Fail> {
    let entries = entries(rt.alloc(), names)?;
    assert!(rt; Fields::from_entries(entries).is_none());
    Ok(())
}

#[test]
fn no_fields(rt: HostRuntime) -> Result<(), Fail> {
    let cases: [&[&str]; 5] = [
        &["b", "a"],
        &["a", "a"],
        &["", "a"],
        &["__a__"],
        &["b", "a", "c"],
    ];
    for names in cases {
        check_no_fields(&rt, names)?;
    }
    Ok(())
}

fn check_three(rt: &(impl Abort + AllocGlobal), fields: &Fields) {
    assert!(rt; fields.len() == 3);
    assert!(rt; fields.name_at(1) == Some("aa"));
    assert!(rt; fields.name_at(3).is_none());
    assert!(rt; integer(fields.value_at(2)) == Some(2));
    assert!(rt; fields.value_at(3).is_none());
    assert!(rt; fields.as_slice().len() == 3);
}

#[test]
fn ascending_fields(rt: HostRuntime) -> Result<(), Fail> {
    let entries = entries(rt.alloc(), &["a", "aa", "b"])?;
    let fields = Fields::from_entries(entries).ok_or("the fields ascend")?;
    check_three(&rt, &fields);
    let copy = fields.copy(rt.alloc())?;
    check_three(&rt, &copy);
    Ok(())
}

#[test]
fn copied_field(rt: HostRuntime) -> Result<(), Fail> {
    let field = entry(rt.alloc(), "a", 7)?.copy(rt.alloc())?;
    assert!(rt; field.name.as_str() == "a");
    assert!(rt; integer(Some(&field.value)) == Some(7));
    Ok(())
}

fn check_put(rt: &(impl Abort + AllocGlobal), fields: &Fields) {
    assert!(rt; fields.len() == 3);
    assert!(rt; fields.name_at(0) == Some("a"));
    assert!(rt; integer(fields.get("b")) == Some(4));
    assert!(rt; integer(fields.get("bb")).is_none());
}

fn check_removed(rt: &(impl Abort + AllocGlobal), fields: &mut Fields) {
    fields.remove("b");
    fields.remove("bb");
    assert!(rt; integer(fields.get("b")).is_none());
    assert!(rt; integer(fields.get("c")) == Some(3));
    assert!(rt; fields.len() == 2);
}

#[test]
fn fields_on_their_way(rt: HostRuntime) -> Result<(), Fail> {
    let mut fields = Fields::new(rt.alloc());
    for (name, item) in [("b", 1), ("a", 2), ("c", 3), ("b", 4)] {
        put(rt.alloc(), &mut fields, name, number(item))?;
    }
    check_put(&rt, &fields);
    check_removed(&rt, &mut fields);
    Ok(())
}
