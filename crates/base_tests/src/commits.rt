//! Commits of the kinds behind Enqueue as bytes, and bytes that are none of them.

use crate::fixtures::{key, number, put};
use crate::records::{check_both_ways, is_commit, replaced};
use document_keys::{FieldPath, KeySet, Segment, Sequence};
use mutations::{Values, WriteResult, WriteResults};
use outcome_codec::{KeyedEntry, PointRow};
use queries::{Cursor, Filter, FilterKind, Operator, Query, RawCollection, RawQuery, Target};
use record_codec::{Commit, encode};
use std::alloc::Global;
use std::process::Abort;
use std::test::Fail;
use value_model::{Bytes, Entry, Fields, Timestamp};

/// An acknowledgement of batch 1 at 2024-05-01T00:00:01Z: a result of nothing, and one of that time with the value 5.
static ACKNOWLEDGE: [u8; 69] = [
    1, 2, 0, 0, 0, 0, 0, 0, 0, 1, 0, 0, 0, 0, 0x66, 0x31, 0x86, 1, 0, 0, 0, 0, 0, 0, 0, 0, 0, 0, 0,
    2, 0, 0, 0, 0, 0, 0, 0, 0, 0, 1, 0, 0, 0, 0, 0x66, 0x31, 0x86, 1, 0, 0, 0, 0, 0, 0, 0, 0, 0, 0,
    0, 1, 2, 0, 0, 0, 0, 0, 0, 0, 5,
];

/// What leaves no acknowledgement.
static NO_ACKNOWLEDGE: [(&str, usize, usize, &[u8]); 6] = [
    ("a second of nanoseconds", 18, 22, &[0x3b, 0x9a, 0xca, 0]),
    ("a result less", 29, 30, &[1]),
    ("a result more", 29, 30, &[3]),
    ("an update time of 2", 30, 31, &[2]),
    (
        "an update a second too late",
        40,
        48,
        &[0, 0, 0, 0x3a, 0xff, 0xf4, 0x41, 0x80],
    ),
    (
        "a pending time",
        60,
        69,
        &[4, 0, 0, 0, 0, 0, 0, 0, 0, 0, 0, 0, 0],
    ),
];

/// A rejection of batch 2.
static REJECT: [u8; 10] = [1, 3, 0, 0, 0, 0, 0, 0, 0, 2];

/// The id 2 for the document `rooms/a`.
static ALLOCATE: [u8; 37] = [
    1, 4, 0, 0, 0, 2, 1, 0, 0, 0, 0, 0, 0, 0, 2, 0, 0, 0, 0, 0, 0, 0, 5, 0x72, 0x6f, 0x6f, 0x6d,
    0x73, 0, 0, 0, 0, 0, 0, 0, 1, 0x61,
];

/// What leaves no target of a document.
static NO_ALLOCATE: [(&str, usize, usize, &[u8]); 4] = [
    ("another target", 6, 7, &[3]),
    (
        "one segment",
        14,
        37,
        &[1, 0, 0, 0, 0, 0, 0, 0, 5, 0x72, 0x6f, 0x6f, 0x6d, 0x73],
    ),
    ("a slash", 36, 37, &[0x2f]),
    ("no UTF-8", 36, 37, &[0xff]),
];

/// The id 1 for the query of `rooms` whose `n` is above 1, from 3 on, 10 documents: it has its whole list of orders.
static QUERY: [u8; 133] = [
    1, 4, 0, 0, 0, 1, 2, 0, 0, 0, 0, 0, 0, 0, 1, 0, 0, 0, 0, 0, 0, 0, 5, 0x72, 0x6f, 0x6f, 0x6d,
    0x73, 1, 2, 0, 0, 0, 0, 0, 0, 0, 1, 0, 0, 0, 0, 0, 0, 0, 1, 0x6e, 4, 2, 0, 0, 0, 0, 0, 0, 0, 1,
    0, 0, 0, 0, 0, 0, 0, 2, 0, 0, 0, 0, 0, 0, 0, 1, 0, 0, 0, 0, 0, 0, 0, 1, 0x6e, 1, 0, 0, 0, 0, 0,
    0, 0, 1, 0, 0, 0, 0, 0, 0, 0, 8, 0x5f, 0x5f, 0x6e, 0x61, 0x6d, 0x65, 0x5f, 0x5f, 1, 1, 0, 0, 0,
    0, 0, 0, 0, 1, 2, 0, 0, 0, 0, 0, 0, 0, 3, 1, 0, 1, 0, 0, 0, 10,
];

/// What leaves no target of a query.
static NO_QUERY: [(&str, usize, usize, &[u8]); 13] = [
    ("no collection", 14, 28, &[0]),
    (
        "the path of a document",
        14,
        28,
        &[
            2, 0, 0, 0, 0, 0, 0, 0, 5, 0x72, 0x6f, 0x6f, 0x6d, 0x73, 0, 0, 0, 0, 0, 0, 0, 1, 0x61,
        ],
    ),
    ("there or not as 2", 28, 29, &[2]),
    ("another filter", 29, 30, &[4]),
    (
        "an AND of no filters",
        29,
        57,
        &[1, 1, 0, 0, 0, 0, 0, 0, 0, 0],
    ),
    ("an operator of 0", 47, 48, &[0]),
    ("an operator of 11", 47, 48, &[11]),
    ("no orders", 64, 108, &[0]),
    (
        "no order by the name",
        64,
        108,
        &[1, 0, 0, 0, 0, 0, 0, 0, 1, 0, 0, 0, 0, 0, 0, 0, 1, 0x6e, 1],
    ),
    ("a direction of 3", 107, 108, &[3]),
    ("a cursor of no values", 116, 126, &[0]),
    ("a limit of 0", 132, 133, &[0]),
    ("a limit of 2,147,483,648", 129, 133, &[0x80, 0, 0, 0]),
];

/// A point at that time: `rooms/a` with `n` of 1 and no `rooms/b`, id 2 with a token of one byte and both keys, and id 3.
static POINT: [u8; 243] = [
    1, 5, 0, 0, 0, 0, 0x66, 0x31, 0x86, 1, 0, 0, 0, 0, 0, 0, 0, 0, 0, 0, 0, 2, 0, 0, 0, 0, 0, 0, 0,
    2, 0, 0, 0, 0, 0, 0, 0, 5, 0x72, 0x6f, 0x6f, 0x6d, 0x73, 0, 0, 0, 0, 0, 0, 0, 1, 0x61, 1, 0, 0,
    0, 0, 0, 0, 0, 1, 0, 0, 0, 0, 0, 0, 0, 1, 0x6e, 2, 0, 0, 0, 0, 0, 0, 0, 1, 0, 0, 0, 0, 0x66,
    0x31, 0x86, 1, 0, 0, 0, 0, 0, 0, 0, 0, 0, 0, 0, 2, 0, 0, 0, 0, 0, 0, 0, 5, 0x72, 0x6f, 0x6f,
    0x6d, 0x73, 0, 0, 0, 0, 0, 0, 0, 1, 0x62, 2, 0, 0, 0, 0, 0x66, 0x31, 0x86, 1, 0, 0, 0, 0, 0, 0,
    0, 0, 0, 0, 0, 2, 0, 0, 0, 2, 0, 0, 0, 0, 0, 0, 0, 1, 7, 0, 0, 0, 0, 0, 0, 0, 2, 0, 0, 0, 0, 0,
    0, 0, 2, 0, 0, 0, 0, 0, 0, 0, 5, 0x72, 0x6f, 0x6f, 0x6d, 0x73, 0, 0, 0, 0, 0, 0, 0, 1, 0x61, 0,
    0, 0, 0, 0, 0, 0, 2, 0, 0, 0, 0, 0, 0, 0, 5, 0x72, 0x6f, 0x6f, 0x6d, 0x73, 0, 0, 0, 0, 0, 0, 0,
    1, 0x62, 0, 0, 0, 3, 0, 0, 0, 0, 0, 0, 0, 0, 0, 0, 0, 0, 0, 0, 0, 0,
];

/// What leaves no point.
static NO_POINT: [(&str, usize, usize, &[u8]); 12] = [
    ("an entry less", 21, 22, &[1]),
    ("a key twice", 120, 121, &[0x61]),
    ("keys that descend", 51, 52, &[0x63]),
    ("an entry of 0", 52, 53, &[0]),
    ("an entry whose fields aren't known", 121, 122, &[3]),
    ("a second of nanoseconds", 130, 134, &[0x3b, 0x9a, 0xca, 0]),
    ("a row more", 141, 142, &[3]),
    ("an id twice", 226, 227, &[2]),
    ("ids that descend", 226, 227, &[1]),
    (
        "a token that is longer than the rest",
        147,
        155,
        &[0xff, 0xff, 0xff, 0xff, 0xff, 0xff, 0xff, 7],
    ),
    ("a key of a row twice", 222, 223, &[0x61]),
    ("keys of a row that descend", 192, 193, &[0x63]),
];

/// The ids 1 and 3 become blank.
static RESET: [u8; 18] = [1, 6, 0, 0, 0, 0, 0, 0, 0, 2, 0, 0, 0, 1, 0, 0, 0, 3];

/// What leaves no reset.
static NO_RESET: [(&str, usize, usize, &[u8]); 3] = [
    ("an id less", 9, 10, &[1]),
    ("an id twice", 17, 18, &[1]),
    ("ids that descend", 17, 18, &[0]),
];

/// The entries of `rooms/a` and `rooms/b` go, and the ids 1 and 4,294,967,295 become blank.
static DROP: [u8; 86] = [
    1, 7, 0, 0, 0, 0, 0, 0, 0, 2, 0, 0, 0, 0, 0, 0, 0, 2, 0, 0, 0, 0, 0, 0, 0, 5, 0x72, 0x6f, 0x6f,
    0x6d, 0x73, 0, 0, 0, 0, 0, 0, 0, 1, 0x61, 0, 0, 0, 0, 0, 0, 0, 2, 0, 0, 0, 0, 0, 0, 0, 5, 0x72,
    0x6f, 0x6f, 0x6d, 0x73, 0, 0, 0, 0, 0, 0, 0, 1, 0x62, 0, 0, 0, 0, 0, 0, 0, 2, 0, 0, 0, 1, 0xff,
    0xff, 0xff, 0xff,
];

/// What leaves no drop.
static NO_DROP: [(&str, usize, usize, &[u8]); 5] = [
    ("a key less", 9, 10, &[1]),
    ("a key twice", 69, 70, &[0x61]),
    ("keys that descend", 39, 40, &[0x63]),
    ("an id twice", 82, 86, &[0, 0, 0, 1]),
    ("ids that descend", 82, 86, &[0, 0, 0, 0]),
];

/// Commits with empty lists.
static EMPTY: [(&str, &[u8]); 4] = [
    (
        "no results",
        &[
            1, 2, 0, 0, 0, 0, 0, 0, 0, 1, 0, 0, 0, 0, 0x66, 0x31, 0x86, 1, 0, 0, 0, 0, 0, 0, 0, 0,
            0, 0, 0, 0,
        ],
    ),
    (
        "no entries and no rows",
        &[
            1, 5, 0, 0, 0, 0, 0x66, 0x31, 0x86, 1, 0, 0, 0, 0, 0, 0, 0, 0, 0, 0, 0, 0, 0, 0, 0, 0,
            0, 0, 0, 0,
        ],
    ),
    ("no ids", &[1, 6, 0, 0, 0, 0, 0, 0, 0, 0]),
    (
        "no keys and no ids",
        &[1, 7, 0, 0, 0, 0, 0, 0, 0, 0, 0, 0, 0, 0, 0, 0, 0, 0],
    ),
];

/// What is no commit of any kind.
static NO_KINDS: [(&str, &[u8]); 6] = [
    ("kind 0", &[1, 0, 0, 0, 0, 0, 0, 0, 0, 2]),
    ("kind 8", &[1, 8, 0, 0, 0, 0, 0, 0, 0, 2]),
    ("another format", &[2, 3, 0, 0, 0, 0, 0, 0, 0, 2]),
    ("no members", &[1, 3]),
    ("no kind", &[1]),
    ("nothing", &[]),
];

/// 2024-05-01T00:00:01Z.
const MOMENT: Timestamp = Timestamp {
    seconds: 1_714_521_601,
    nanos: 0,
};

fn is_damaged(
    alloc: Global,
    payload: &[u8],
    from: usize,
    to: usize,
    bytes: &[u8],
) -> Result<bool, Fail> {
    let damaged = replaced(alloc, payload, from, to, bytes)?;
    Ok(!is_commit(alloc, damaged.as_slice())?)
}

/// The bytes are a commit's, and neither with one less nor with one more.
fn check_payload(rt: &(impl Abort + AllocGlobal), payload: &[u8]) -> Result<(), Fail> {
    check_both_ways(rt, payload)?;
    assert!(rt; is_damaged(rt.alloc(), payload, payload.len(), payload.len(), &[0])?);
    let (_, front) = payload.split_last().ok_or("bytes")?;
    assert!(rt; !is_commit(rt.alloc(), front)?);
    Ok(())
}

/// The commit is spelled so, and read from there is spelled so again.
fn check_commit(
    rt: &(impl Abort + AllocGlobal),
    commit: &Commit,
    payload: &[u8],
) -> Result<(), Fail> {
    let spelled = encode(rt.alloc(), commit)?;
    assert!(rt; spelled.as_slice() == payload);
    check_payload(rt, payload)
}

fn check_damages(
    rt: &(impl Abort + AllocGlobal),
    payload: &[u8],
    damages: &[(&str, usize, usize, &[u8])],
) -> Result<(), Fail> {
    for (what, from, to, bytes) in damages {
        assert!(rt;
            is_damaged(rt.alloc(), payload, *from, *to, bytes)?,
            "{what}"
        );
    }
    Ok(())
}

/// The commit is spelled by the payload, and none of the damages leaves a commit. It owns the commit, so that the tests need not.
fn check_kind(
    rt: &(impl Abort + AllocGlobal),
    commit: Commit,
    payload: &[u8],
    damages: &[(&str, usize, usize, &[u8])],
) -> Result<(), Fail> {
    check_damages(rt, payload, damages)?;
    check_commit(rt, &commit, payload)
}

/// A result of no transforms and without an update time.
fn empty_result(alloc: Global) -> WriteResult {
    WriteResult {
        update_time: None,
        transforms: Values::from_vec(Vec::new(alloc)),
    }
}

fn whole_result(alloc: Global) -> Result<WriteResult, Fail> {
    let mut values = Vec::new(alloc);
    values.push(number(5))?;
    Ok(WriteResult {
        update_time: Some(MOMENT),
        transforms: Values::from_vec(values),
    })
}

fn acknowledgement(alloc: Global) -> Result<Commit, Fail> {
    let mut results = Vec::new(alloc);
    results.push(empty_result(alloc))?;
    results.push(whole_result(alloc)?)?;
    Ok(Commit::Acknowledge {
        batch: 1,
        at: MOMENT,
        results: WriteResults::from_vec(results),
    })
}

#[test]
fn acknowledgements(rt: HostRuntime) -> Result<(), Fail> {
    let commit = acknowledgement(rt.alloc())?;
    check_kind(&rt, commit, &ACKNOWLEDGE, &NO_ACKNOWLEDGE)
}

#[test]
fn rejections(rt: HostRuntime) -> Result<(), Fail> {
    check_commit(&rt, &Commit::Reject { batch: 2 }, &REJECT)
}

fn allocation(alloc: Global) -> Result<Commit, Fail> {
    let target = Target::Document(key(alloc, &["rooms", "a"])?);
    Ok(Commit::Allocate { id: 2, target })
}

#[test]
fn allocations(rt: HostRuntime) -> Result<(), Fail> {
    let commit = allocation(rt.alloc())?;
    check_kind(&rt, commit, &ALLOCATE, &NO_ALLOCATE)
}

fn above(alloc: Global, least: i64) -> Result<Filter, Fail> {
    let kind = FilterKind::Field {
        path: FieldPath::read(alloc, "n")?,
        op: Operator::GreaterThan,
        value: number(least),
    };
    Ok(Filter { kind })
}

fn from(alloc: Global, first: i64) -> Result<Cursor, Fail> {
    let mut values = Vec::new(alloc);
    values.push(number(first))?;
    Ok(Cursor {
        values: Sequence::from_vec(values),
        before: true,
    })
}

fn rooms(alloc: Global) -> Result<RawCollection, Fail> {
    let mut names = Vec::new(alloc);
    names.push(Segment::read(alloc, "rooms")?)?;
    Ok(RawCollection {
        parent: None,
        from: Sequence::from_vec(names),
        filter: Some(above(alloc, 1)?),
        orders: Sequence::new(alloc),
        start_at: Some(from(alloc, 3)?),
        end_at: None,
        limit: Some(10),
    })
}

fn query_of_rooms(alloc: Global) -> Result<Query, Fail> {
    let raw = rooms(alloc)?;
    Ok(Query::check(alloc, RawQuery::Collection(raw))?)
}

fn query_allocation(alloc: Global) -> Result<Commit, Fail> {
    let query = query_of_rooms(alloc)?;
    let target = query.target(alloc)?;
    Ok(Commit::Allocate { id: 1, target })
}

#[test]
fn allocations_of_queries(rt: HostRuntime) -> Result<(), Fail> {
    let commit = query_allocation(rt.alloc())?;
    check_kind(&rt, commit, &QUERY, &NO_QUERY)
}

fn keys(alloc: Global) -> Result<KeySet, Fail> {
    let mut keys = KeySet::new(alloc);
    keys.insert(alloc, key(alloc, &["rooms", "b"])?)?;
    keys.insert(alloc, key(alloc, &["rooms", "a"])?)?;
    Ok(keys)
}

fn found(alloc: Global) -> Result<Entry, Fail> {
    let mut fields = Fields::new(alloc);
    put(alloc, &mut fields, "n", number(1))?;
    Ok(Entry::Found(fields, MOMENT))
}

fn entry(alloc: Global, id: &str, entry: Entry) -> Result<KeyedEntry, Fail> {
    let key = key(alloc, &["rooms", id])?;
    Ok(KeyedEntry { key, entry })
}

fn entries(alloc: Global) -> Result<Sequence<KeyedEntry>, Fail> {
    let mut entries = Vec::new(alloc);
    entries.push(entry(alloc, "a", found(alloc)?)?)?;
    entries.push(entry(alloc, "b", Entry::Missing(MOMENT))?)?;
    Ok(Sequence::from_vec(entries))
}

fn row(alloc: Global, id: u32, token: &[u8], keys: KeySet) -> Result<PointRow, Fail> {
    let token = Bytes::from_vec(Vec::from_slice(alloc, token)?);
    Ok(PointRow { id, token, keys })
}

fn rows(alloc: Global) -> Result<Sequence<PointRow>, Fail> {
    let mut rows = Vec::new(alloc);
    rows.push(row(alloc, 2, &[7], keys(alloc)?)?)?;
    rows.push(row(alloc, 3, &[], KeySet::new(alloc))?)?;
    Ok(Sequence::from_vec(rows))
}

fn point(alloc: Global) -> Result<Commit, Fail> {
    Ok(Commit::Point {
        at: MOMENT,
        entries: entries(alloc)?,
        rows: rows(alloc)?,
    })
}

#[test]
fn points(rt: HostRuntime) -> Result<(), Fail> {
    let commit = point(rt.alloc())?;
    check_kind(&rt, commit, &POINT, &NO_POINT)
}

fn ids(alloc: Global, ids: &[u32]) -> Result<Sequence<u32>, Fail> {
    Ok(Sequence::from_vec(Vec::from_slice(alloc, ids)?))
}

fn reset(alloc: Global) -> Result<Commit, Fail> {
    let ids = ids(alloc, &[1, 3])?;
    Ok(Commit::Reset { ids })
}

#[test]
fn resets(rt: HostRuntime) -> Result<(), Fail> {
    let commit = reset(rt.alloc())?;
    check_kind(&rt, commit, &RESET, &NO_RESET)
}

fn dropped(alloc: Global) -> Result<Commit, Fail> {
    let ids = ids(alloc, &[1, 4_294_967_295])?;
    Ok(Commit::Drop {
        keys: keys(alloc)?,
        ids,
    })
}

#[test]
fn drops(rt: HostRuntime) -> Result<(), Fail> {
    let commit = dropped(rt.alloc())?;
    check_kind(&rt, commit, &DROP, &NO_DROP)
}

#[test]
fn empty_lists(rt: HostRuntime) -> Result<(), Fail> {
    for (_, payload) in EMPTY {
        check_payload(&rt, payload)?;
    }
    Ok(())
}

#[test]
fn no_kinds(rt: HostRuntime) -> Result<(), Fail> {
    for (what, payload) in NO_KINDS {
        assert!(rt; !is_commit(rt.alloc(), payload)?, "{what}");
    }
    Ok(())
}
