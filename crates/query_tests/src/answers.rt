//! What a shelf answers: rooms `a` to `f`, of which `d` has no `n`, and a hall.

use crate::fixtures::{key, number, put, root};
use crate::shelf::{Held, Shelf};
use document_keys::{Database, DocumentKey, FieldPath, Segment, Sequence};
use queries::{
    Cursor, Filter, FilterKind, Junction, Operator, Order, Query, RawCollection, RawQuery,
};
use query_engine::rows;
use std::alloc::Global;
use std::process::Abort;
use std::test::Fail;
use value_model::Fields;

/// Fields with this `n`, or none.
fn fields(alloc: Global, n: i64) -> Result<Fields, Fail> {
    let mut fields = Fields::new(alloc);
    if n > 0 {
        put(alloc, &mut fields, "n", number(n))?;
    }
    Ok(fields)
}

fn held(alloc: Global, collection: &str, id: &str, n: i64) -> Result<Held, Fail> {
    let fields = fields(alloc, n)?;
    let key = key(alloc, &[collection, id])?;
    Ok(Held { key, fields })
}

fn shelf(alloc: Global) -> Result<Shelf, Fail> {
    let mut documents = Vec::new(alloc);
    for (collection, id, n) in [
        ("rooms", "f", 5),
        ("rooms", "a", 3),
        ("rooms", "c", 2),
        ("halls", "a", 2),
        ("rooms", "b", 1),
        ("rooms", "e", 2),
        ("rooms", "d", 0),
    ] {
        documents.push(held(alloc, collection, id, n)?)?;
    }
    Ok(Shelf { documents })
}

/// The query of all documents of the collection.
fn all(alloc: Global, collection: &str) -> Result<RawCollection, Fail> {
    let mut from = Vec::new(alloc);
    from.push(Segment::read(alloc, collection)?)?;
    Ok(RawCollection {
        parent: None,
        from: Sequence::from_vec(from),
        filter: None,
        orders: Sequence::new(alloc),
        start_at: None,
        end_at: None,
        limit: None,
    })
}

/// The query of the rooms by `n`.
fn by_n(alloc: Global, descending: bool, limit: Option<i32>) -> Result<RawCollection, Fail> {
    let path = FieldPath::read(alloc, "n")?;
    let mut orders = Vec::new(alloc);
    orders.push(Order { path, descending })?;
    let mut raw = all(alloc, "rooms")?;
    raw.orders = Sequence::from_vec(orders);
    raw.limit = limit;
    Ok(raw)
}

fn check_keys(rt: &impl Abort, keys: &[DocumentKey], wanted: &[&str]) {
    assert!(rt; keys.len() == wanted.len());
    for (key, id) in keys.iter().zip(wanted.iter()) {
        assert!(rt; key.segment(1) == Some(*id), "{id}");
    }
}

fn check_rows(
    rt: &(impl Abort + AllocGlobal),
    root: &Database,
    shelf: &Shelf,
    query: &Query,
    wanted: &[&str],
) -> Result<(), Fail> {
    let keys = rows(rt.alloc(), root, shelf, query)?;
    check_keys(rt, keys.as_slice(), wanted);
    Ok(())
}

fn check_shelf(
    rt: &(impl Abort + AllocGlobal),
    query: &Query,
    wanted: &[&str],
) -> Result<(), Fail> {
    let root = root(rt.alloc())?;
    let shelf = shelf(rt.alloc())?;
    check_rows(rt, &root, &shelf, query, wanted)
}

fn check(rt: &(impl Abort + AllocGlobal), raw: RawCollection, wanted: &[&str]) -> Result<(), Fail> {
    let query = Query::check(rt.alloc(), RawQuery::Collection(raw))?;
    check_shelf(rt, &query, wanted)
}

#[test]
fn by_name(rt: HostRuntime) -> Result<(), Fail> {
    let raw = all(rt.alloc(), "rooms")?;
    check(&rt, raw, &["a", "b", "c", "d", "e", "f"])
}

#[test]
fn empty_collection(rt: HostRuntime) -> Result<(), Fail> {
    let raw = all(rt.alloc(), "lobbies")?;
    check(&rt, raw, &[])
}

#[test]
fn limits(rt: HostRuntime) -> Result<(), Fail> {
    let wanted = ["b", "c", "e", "a", "f"];
    for (limit, count) in [
        (None, 5),
        (Some(1), 1),
        (Some(2), 2),
        (Some(3), 3),
        (Some(5), 5),
        (Some(9), 5),
    ] {
        let raw = by_n(rt.alloc(), false, limit)?;
        check(&rt, raw, &wanted[..count])?;
    }
    Ok(())
}

#[test]
fn descending(rt: HostRuntime) -> Result<(), Fail> {
    let wanted = ["f", "a", "e", "c", "b"];
    for (limit, count) in [(None, 5), (Some(1), 1), (Some(3), 3)] {
        let raw = by_n(rt.alloc(), true, limit)?;
        check(&rt, raw, &wanted[..count])?;
    }
    Ok(())
}

/// A cursor at 2, for `n`.
fn at_two(alloc: Global, before: bool) -> Result<Option<Cursor>, Fail> {
    let mut values = Vec::new(alloc);
    values.push(number(2))?;
    let values = Sequence::from_vec(values);
    Ok(Some(Cursor { values, before }))
}

fn check_cursor(
    rt: &(impl Abort + AllocGlobal),
    limit: Option<i32>,
    before: bool,
    wanted: &[&str],
) -> Result<(), Fail> {
    let mut raw = by_n(rt.alloc(), false, limit)?;
    raw.start_at = at_two(rt.alloc(), before)?;
    check(rt, raw, wanted)
}

#[test]
fn cursors(rt: HostRuntime) -> Result<(), Fail> {
    check_cursor(&rt, None, true, &["c", "e", "a", "f"])?;
    check_cursor(&rt, None, false, &["a", "f"])?;
    check_cursor(&rt, Some(1), false, &["a"])
}

/// `n` is this number.
fn is(alloc: Global, n: i64) -> Result<Filter, Fail> {
    let path = FieldPath::read(alloc, "n")?;
    Ok(Filter {
        kind: FilterKind::Field {
            path,
            op: Operator::Equal,
            value: number(n),
        },
    })
}

fn either(alloc: Global, first: i64, second: i64) -> Result<Filter, Fail> {
    let mut filters = Vec::new(alloc);
    filters.push(is(alloc, first)?)?;
    filters.push(is(alloc, second)?)?;
    Ok(Filter {
        kind: FilterKind::Composite {
            op: Junction::Or,
            filters,
        },
    })
}

#[test]
fn alternatives(rt: HostRuntime) -> Result<(), Fail> {
    let mut raw = all(rt.alloc(), "rooms")?;
    raw.filter = Some(either(rt.alloc(), 5, 2)?);
    check(&rt, raw, &["c", "e", "f"])
}

fn check_document(rt: &(impl Abort + AllocGlobal), id: &str, wanted: &[&str]) -> Result<(), Fail> {
    let key = key(rt.alloc(), &["rooms", id])?;
    let query = Query::check(rt.alloc(), RawQuery::Document(key))?;
    check_shelf(rt, &query, wanted)
}

#[test]
fn one_document(rt: HostRuntime) -> Result<(), Fail> {
    check_document(&rt, "d", &["d"])?;
    check_document(&rt, "g", &[])
}
