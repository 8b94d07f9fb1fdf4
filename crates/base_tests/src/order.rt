//! Rows of values, each before all that follow it.

use crate::fixtures::{key, number, time};
use document_keys::{Segment, Text};
use std::alloc::Global;
use std::cmp::Ordering;
use std::process::Abort;
use std::test::Fail;
use value_model::{Bytes, Field, Fields, Kind, RefName, Timestamp, Value};

/// A value, told in short.
#[derive(Clone, Copy, Debug)]
enum Told {
    Null,
    Boolean(bool),
    Integer(i64),
    Time(i64, u32),
    Pending(i64),
    Text(&'static str),
    NoBytes,
    Name(&'static str, &'static str, &'static str),
    Numbers(&'static [i64]),
    Map(&'static str, i64),
}

static KINDS: [Told; 14] = [
    Told::Null,
    Told::Boolean(false),
    Told::Boolean(true),
    Told::Integer(-10),
    Told::Integer(9),
    Told::Time(1_714_521_601, 0),
    Told::Time(253_402_300_799, 999_999_999),
    Told::Pending(1_714_521_601),
    Told::Text(""),
    Told::Text("a"),
    Told::NoBytes,
    Told::Name("a", "z", "z"),
    Told::Numbers(&[]),
    Told::Map("a", 1),
];

static PARTS: [Told; 14] = [
    Told::Text("Z"),
    Told::Text("a"),
    Told::Text("\u{e9}"),
    Told::Text("\u{fffd}"),
    Told::Text("\u{1f600}"),
    Told::Name("a", "z", "z"),
    Told::Name("a-", "b", "c"),
    Told::Name("a-", "b", "d"),
    Told::Numbers(&[]),
    Told::Numbers(&[1]),
    Told::Numbers(&[1, 2, 3]),
    Told::Numbers(&[2]),
    Told::Map("a", 2),
    Told::Map("b", 1),
];

fn value(kind: Kind) -> Value {
    Value { kind }
}

// the name of the document `rooms/{id}` of a database
fn name(alloc: Global, project: &str, database: &str, id: &str) -> Result<RefName, Fail> {
    let key = key(alloc, &["rooms", id])?;
    let project = Segment::read(alloc, project)?;
    let database = Segment::read(alloc, database)?;
    Ok(RefName {
        project,
        database,
        key,
    })
}

fn numbers(alloc: Global, items: &[i64]) -> Result<Value, Fail> {
    let mut values = Vec::new(alloc);
    for item in items {
        values.push(number(*item))?;
    }
    Ok(Value::array(alloc, values)?)
}

// a map of one field
fn map(alloc: Global, name: &str, item: i64) -> Result<Value, Fail> {
    let name = Text::from_str(alloc, name)?;
    let mut entries = Vec::new(alloc);
    entries.push(Field {
        name,
        value: number(item),
    })?;
    let fields = Fields::from_entries(entries).ok_or("one field")?;
    Ok(Value::map(alloc, fields)?)
}

fn made(alloc: Global, told: Told) -> Result<Value, Fail> {
    Ok(match told {
        Told::Null => value(Kind::Null),
        Told::Boolean(content) => value(Kind::Boolean(content)),
        Told::Integer(content) => number(content),
        Told::Time(seconds, nanos) => value(Kind::Time(Timestamp { seconds, nanos })),
        Told::Pending(seconds) => value(Kind::Pending(time(seconds))),
        Told::Text(content) => value(Kind::Text(Text::from_str(alloc, content)?)),
        Told::NoBytes => value(Kind::Bytes(Bytes::from_vec(Vec::new(alloc)))),
        Told::Name(project, database, id) => {
            value(Kind::Reference(Box::new(alloc, name(alloc, project, database, id)?)?))
        }
        Told::Numbers(items) => numbers(alloc, items)?,
        Told::Map(name, item) => map(alloc, name, item)?,
    })
}

fn row_of(alloc: Global, told: &[Told]) -> Result<Vec<Value>, Fail> {
    let mut row = Vec::new(alloc);
    for one in told {
        row.push(made(alloc, *one)?)?;
    }
    Ok(row)
}

fn compared(alloc: Global, one: &Value, other: &Value) -> Result<Ordering, Fail> {
    let copy = other.copy(alloc)?;
    Ok(one.compare(&copy))
}

fn check_row(rt: &(impl Abort + AllocGlobal), row: &[Value]) -> Result<(), Fail> {
    for i in 0..row.len() {
        for j in 0..row.len() {
            assert!(rt;
                compared(rt.alloc(), &row[i], &row[j])? == i.cmp(&j),
                "{i} and {j}"
            );
        }
    }
    Ok(())
}

#[test]
fn kinds_in_a_row(rt: HostRuntime) -> Result<(), Fail> {
    let row = row_of(rt.alloc(), &KINDS)?;
    check_row(&rt, row.as_slice())
}

#[test]
fn parts_in_a_row(rt: HostRuntime) -> Result<(), Fail> {
    let row = row_of(rt.alloc(), &PARTS)?;
    check_row(&rt, row.as_slice())
}

#[test]
fn names_compared(rt: HostRuntime) -> Result<(), Fail> {
    let name = name(rt.alloc(), "a", "b", "c")?;
    let copy = name.copy(rt.alloc())?;
    assert!(rt; name.compare(&copy) == Ordering::Equal);
    Ok(())
}

#[test]
fn bytes_taken_back(rt: HostRuntime) -> Result<(), Fail> {
    let bytes = Bytes::from_vec(b"ab".to_vec(rt.alloc())?);
    assert!(rt; bytes.as_slice() == b"ab".as_slice());
    assert!(rt; bytes.copy(rt.alloc())?.into_vec().len() == 2);
    Ok(())
}
