//! Commits as bytes, and bytes that are no commit.

use document_keys::FieldPath;
use mutations::{Batch, Change, Mask, Precondition, Transform, Write};
use record_codec::{Commit, decode, encode};
use std::alloc::Global;
use std::process::Abort;
use std::test::Fail;
use value_model::Timestamp;

/// A delete of `rooms/a` at 2024-05-01T00:00:01Z.
static DELETE: [u8; 62] = [
    1, 1, 0, 0, 0, 0, 0, 0, 0, 1, 0, 0, 0, 0, 0x66, 0x31, 0x86, 1, 0, 0, 0, 0, 0, 0, 0, 0, 0, 0, 0,
    1, 2, 0, 0, 0, 0, 0, 0, 0, 2, 0, 0, 0, 0, 0, 0, 0, 5, 0x72, 0x6f, 0x6f, 0x6d, 0x73, 0, 0, 0, 0,
    0, 0, 0, 1, 0x61, 0,
];

/// An update of `rooms/a` with the field `n` of 1, at the same time.
static PAYLOAD: [u8; 97] = [
    1, 1, 0, 0, 0, 0, 0, 0, 0, 1, 0, 0, 0, 0, 0x66, 0x31, 0x86, 1, 0, 0, 0, 0, 0, 0, 0, 0, 0, 0, 0,
    1, 1, 0, 0, 0, 0, 0, 0, 0, 2, 0, 0, 0, 0, 0, 0, 0, 5, 0x72, 0x6f, 0x6f, 0x6d, 0x73, 0, 0, 0, 0,
    0, 0, 0, 1, 0x61, 0, 0, 0, 0, 0, 0, 0, 1, 0, 0, 0, 0, 0, 0, 0, 1, 0x6e, 2, 0, 0, 0, 0, 0, 0, 0,
    1, 0, 0, 0, 0, 0, 0, 0, 0, 0, 0,
];

/// The same with the mask of `n` and `a.b`, a transform of each kind, and that time as its precondition.
static WHOLE: [u8; 311] = [
    1, 1, 0, 0, 0, 0, 0, 0, 0, 1, 0, 0, 0, 0, 0x66, 0x31, 0x86, 1, 0, 0, 0, 0, 0, 0, 0, 0, 0, 0, 0,
    1, 1, 0, 0, 0, 0, 0, 0, 0, 2, 0, 0, 0, 0, 0, 0, 0, 5, 0x72, 0x6f, 0x6f, 0x6d, 0x73, 0, 0, 0, 0,
    0, 0, 0, 1, 0x61, 0, 0, 0, 0, 0, 0, 0, 1, 0, 0, 0, 0, 0, 0, 0, 1, 0x6e, 2, 0, 0, 0, 0, 0, 0, 0,
    1, 1, 0, 0, 0, 0, 0, 0, 0, 2, 0, 0, 0, 0, 0, 0, 0, 1, 0, 0, 0, 0, 0, 0, 0, 1, 0x6e, 0, 0, 0, 0,
    0, 0, 0, 2, 0, 0, 0, 0, 0, 0, 0, 1, 0x61, 0, 0, 0, 0, 0, 0, 0, 1, 0x62, 0, 0, 0, 0, 0, 0, 0, 6,
    0, 0, 0, 0, 0, 0, 0, 1, 0, 0, 0, 0, 0, 0, 0, 1, 0x74, 1, 0, 0, 0, 0, 0, 0, 0, 1, 0, 0, 0, 0, 0,
    0, 0, 1, 0x6e, 2, 0xff, 0xff, 0xff, 0xff, 0xff, 0xff, 0xff, 0xff, 0, 0, 0, 0, 0, 0, 0, 1, 0, 0,
    0, 0, 0, 0, 0, 1, 0x6e, 3, 0, 0, 0, 0, 0, 0, 0, 5, 0, 0, 0, 0, 0, 0, 0, 1, 0, 0, 0, 0, 0, 0, 0,
    1, 0x6e, 4, 0, 0, 0, 0, 0, 0, 0, 7, 0, 0, 0, 0, 0, 0, 0, 1, 0, 0, 0, 0, 0, 0, 0, 1, 0x6c, 5, 0,
    0, 0, 0, 0, 0, 0, 1, 0, 0, 0, 0, 0, 0, 0, 0, 1, 0, 0, 0, 0, 0, 0, 0, 1, 0x6c, 6, 0, 0, 0, 0, 0,
    0, 0, 1, 1, 1, 2, 0, 0, 0, 0, 0x66, 0x31, 0x86, 1, 0, 0, 0, 0,
];

/// Where the mask of the payload begins.
const MASK_AT: usize = 87;

/// What is spelled behind the fields of an update: a mask, transforms and a precondition.
static MEMBERS: [(&str, &[u8]); 12] = [
    (
        "an empty mask",
        &[1, 0, 0, 0, 0, 0, 0, 0, 0, 0, 0, 0, 0, 0, 0, 0, 0, 0],
    ),
    (
        "a mask of two paths",
        &[
            1, 0, 0, 0, 0, 0, 0, 0, 2, 0, 0, 0, 0, 0, 0, 0, 1, 0, 0, 0, 0, 0, 0, 0, 1, 0x6e, 0, 0,
            0, 0, 0, 0, 0, 2, 0, 0, 0, 0, 0, 0, 0, 1, 0x61, 0, 0, 0, 0, 0, 0, 0, 1, 0x62, 0, 0, 0,
            0, 0, 0, 0, 0, 0,
        ],
    ),
    (
        "the server's time",
        &[
            0, 0, 0, 0, 0, 0, 0, 0, 1, 0, 0, 0, 0, 0, 0, 0, 1, 0, 0, 0, 0, 0, 0, 0, 1, 0x74, 1, 0,
        ],
    ),
    (
        "an increment",
        &[
            0, 0, 0, 0, 0, 0, 0, 0, 1, 0, 0, 0, 0, 0, 0, 0, 1, 0, 0, 0, 0, 0, 0, 0, 1, 0x6e, 2,
            0xff, 0xff, 0xff, 0xff, 0xff, 0xff, 0xff, 0xff, 0,
        ],
    ),
    (
        "a maximum",
        &[
            0, 0, 0, 0, 0, 0, 0, 0, 1, 0, 0, 0, 0, 0, 0, 0, 1, 0, 0, 0, 0, 0, 0, 0, 1, 0x6e, 3,
            0x7f, 0xff, 0xff, 0xff, 0xff, 0xff, 0xff, 0xff, 0,
        ],
    ),
    (
        "a minimum",
        &[
            0, 0, 0, 0, 0, 0, 0, 0, 1, 0, 0, 0, 0, 0, 0, 0, 1, 0, 0, 0, 0, 0, 0, 0, 1, 0x6e, 4,
            0x80, 0, 0, 0, 0, 0, 0, 0, 0,
        ],
    ),
    (
        "an append",
        &[
            0, 0, 0, 0, 0, 0, 0, 0, 1, 0, 0, 0, 0, 0, 0, 0, 1, 0, 0, 0, 0, 0, 0, 0, 1, 0x6c, 5, 0,
            0, 0, 0, 0, 0, 0, 2, 0, 1, 0, 0,
        ],
    ),
    (
        "a removal",
        &[
            0, 0, 0, 0, 0, 0, 0, 0, 1, 0, 0, 0, 0, 0, 0, 0, 1, 0, 0, 0, 0, 0, 0, 0, 1, 0x6c, 6, 0,
            0, 0, 0, 0, 0, 0, 0, 0,
        ],
    ),
    (
        "two transforms",
        &[
            0, 0, 0, 0, 0, 0, 0, 0, 2, 0, 0, 0, 0, 0, 0, 0, 1, 0, 0, 0, 0, 0, 0, 0, 1, 0x74, 1, 0,
            0, 0, 0, 0, 0, 0, 1, 0, 0, 0, 0, 0, 0, 0, 1, 0x74, 1, 0,
        ],
    ),
    ("no such document", &[0, 0, 0, 0, 0, 0, 0, 0, 0, 1, 0]),
    ("such a document", &[0, 0, 0, 0, 0, 0, 0, 0, 0, 1, 1]),
    (
        "a time of the last change",
        &[
            0, 0, 0, 0, 0, 0, 0, 0, 0, 2, 0, 0, 0, 0, 0x66, 0x31, 0x86, 1, 0, 0, 0, 0,
        ],
    ),
];

/// What is no mask, transforms and precondition.
static NO_MEMBERS: [(&str, &[u8]); 17] = [
    (
        "a mask of 2",
        &[2, 0, 0, 0, 0, 0, 0, 0, 0, 0, 0, 0, 0, 0, 0, 0, 0, 0],
    ),
    (
        "a path of no names",
        &[
            1, 0, 0, 0, 0, 0, 0, 0, 1, 0, 0, 0, 0, 0, 0, 0, 0, 0, 0, 0, 0, 0, 0, 0, 0, 0,
        ],
    ),
    (
        "the document's own name",
        &[
            1, 0, 0, 0, 0, 0, 0, 0, 1, 0, 0, 0, 0, 0, 0, 0, 1, 0, 0, 0, 0, 0, 0, 0, 8, 0x5f, 0x5f,
            0x6e, 0x61, 0x6d, 0x65, 0x5f, 0x5f, 0, 0, 0, 0, 0, 0, 0, 0, 0,
        ],
    ),
    (
        "a reserved name",
        &[
            1, 0, 0, 0, 0, 0, 0, 0, 1, 0, 0, 0, 0, 0, 0, 0, 2, 0, 0, 0, 0, 0, 0, 0, 1, 0x6e, 0, 0,
            0, 0, 0, 0, 0, 5, 0x5f, 0x5f, 0x61, 0x5f, 0x5f, 0, 0, 0, 0, 0, 0, 0, 0, 0,
        ],
    ),
    (
        "a name of no bytes",
        &[
            1, 0, 0, 0, 0, 0, 0, 0, 1, 0, 0, 0, 0, 0, 0, 0, 1, 0, 0, 0, 0, 0, 0, 0, 0, 0, 0, 0, 0,
            0, 0, 0, 0, 0,
        ],
    ),
    (
        "a mask that is shorter than its count",
        &[
            1, 0, 0, 0, 0, 0, 0, 0, 2, 0, 0, 0, 0, 0, 0, 0, 1, 0, 0, 0, 0, 0, 0, 0, 1, 0x6e, 0, 0,
            0, 0, 0, 0, 0, 0, 0,
        ],
    ),
    (
        "the document's own name transformed",
        &[
            0, 0, 0, 0, 0, 0, 0, 0, 1, 0, 0, 0, 0, 0, 0, 0, 1, 0, 0, 0, 0, 0, 0, 0, 8, 0x5f, 0x5f,
            0x6e, 0x61, 0x6d, 0x65, 0x5f, 0x5f, 1, 0,
        ],
    ),
    (
        "a change of 0",
        &[
            0, 0, 0, 0, 0, 0, 0, 0, 1, 0, 0, 0, 0, 0, 0, 0, 1, 0, 0, 0, 0, 0, 0, 0, 1, 0x74, 0, 0,
        ],
    ),
    (
        "a change of 7",
        &[
            0, 0, 0, 0, 0, 0, 0, 0, 1, 0, 0, 0, 0, 0, 0, 0, 1, 0, 0, 0, 0, 0, 0, 0, 1, 0x74, 7, 0,
        ],
    ),
    (
        "an increment of seven bytes",
        &[
            0, 0, 0, 0, 0, 0, 0, 0, 1, 0, 0, 0, 0, 0, 0, 0, 1, 0, 0, 0, 0, 0, 0, 0, 1, 0x6e, 2, 0,
            0, 0, 0, 0, 0, 0,
        ],
    ),
    (
        "a pending time to append",
        &[
            0, 0, 0, 0, 0, 0, 0, 0, 1, 0, 0, 0, 0, 0, 0, 0, 1, 0, 0, 0, 0, 0, 0, 0, 1, 0x6c, 5, 0,
            0, 0, 0, 0, 0, 0, 1, 4, 0, 0, 0, 0, 0x66, 0x31, 0x86, 1, 0, 0, 0, 0, 0,
        ],
    ),
    ("a precondition of 3", &[0, 0, 0, 0, 0, 0, 0, 0, 0, 3]),
    ("a boolean of 2", &[0, 0, 0, 0, 0, 0, 0, 0, 0, 1, 2]),
    (
        "a second of nanoseconds",
        &[
            0, 0, 0, 0, 0, 0, 0, 0, 0, 2, 0, 0, 0, 0, 0x66, 0x31, 0x86, 1, 0x3b, 0x9a, 0xca, 0,
        ],
    ),
    (
        "a second too late",
        &[
            0, 0, 0, 0, 0, 0, 0, 0, 0, 2, 0, 0, 0, 0x3a, 0xff, 0xf4, 0x41, 0x80, 0, 0, 0, 0,
        ],
    ),
    ("no precondition", &[0, 0, 0, 0, 0, 0, 0, 0, 0]),
    ("a byte behind it", &[0, 0, 0, 0, 0, 0, 0, 0, 0, 0, 0]),
];

/// A value of each kind.
static VALUES: [&[u8]; 11] = [
    &[0],
    &[1, 0],
    &[1, 1],
    &[2, 0x80, 0, 0, 0, 0, 0, 0, 0],
    &[3, 0, 0, 0, 0, 0x66, 0x31, 0x86, 1, 0, 0, 0, 9],
    &[5, 0, 0, 0, 0, 0, 0, 0, 2, 0xc3, 0xa9],
    &[6, 0, 0, 0, 0, 0, 0, 0, 1, 0xff],
    &[
        7, 0, 0, 0, 0, 0, 0, 0, 1, 0x70, 0, 0, 0, 0, 0, 0, 0, 1, 0x64, 0, 0, 0, 0, 0, 0, 0, 2, 0,
        0, 0, 0, 0, 0, 0, 1, 0x63, 0, 0, 0, 0, 0, 0, 0, 1, 0x61,
    ],
    &[8, 0, 0, 0, 0, 0, 0, 0, 2, 0, 1, 1],
    &[9, 0, 0, 0, 0, 0, 0, 0, 0],
    &[
        9, 0, 0, 0, 0, 0, 0, 0, 1, 0, 0, 0, 0, 0, 0, 0, 1, 0x61, 8, 0, 0, 0, 0, 0, 0, 0, 0,
    ],
];

/// What is no value, in place of the payload's.
static NO_VALUES: [(&str, &[u8]); 4] = [
    ("a pending time", &[4, 0, 0, 0, 0, 0, 0, 0, 0, 0, 0, 0, 0]),
    ("a boolean of 2", &[1, 2]),
    ("no kind", &[10]),
    (
        "a text that isn't UTF-8",
        &[5, 0, 0, 0, 0, 0, 0, 0, 1, 0xff],
    ),
];

/// Bytes in place of those of the payload between two places, which leave no commit.
static DAMAGES: [(&str, usize, usize, &[u8]); 17] = [
    ("another format", 0, 1, &[2]),
    ("another kind", 1, 2, &[2]),
    (
        "a second too early",
        10,
        18,
        &[0xff, 0xff, 0xff, 0xf1, 0x88, 0x6e, 0x08, 0xff],
    ),
    ("a second of nanoseconds", 18, 22, &[0x3b, 0x9a, 0xca, 0]),
    ("a write less", 29, 30, &[0]),
    ("a write more", 29, 30, &[2]),
    ("another write", 30, 31, &[3]),
    (
        "one segment",
        38,
        61,
        &[1, 0, 0, 0, 0, 0, 0, 0, 5, 0x72, 0x6f, 0x6f, 0x6d, 0x73],
    ),
    ("a slash", 60, 61, &[0x2f]),
    ("no UTF-8", 60, 61, &[0xff]),
    ("more fields than bytes", 61, 62, &[0xff]),
    (
        "a reserved name",
        76,
        78,
        &[5, 0x5f, 0x5f, 0x6e, 0x5f, 0x5f],
    ),
    ("another value", 78, 79, &[1]),
    (
        "a name twice",
        68,
        87,
        &[
            2, 0, 0, 0, 0, 0, 0, 0, 1, 0x6e, 2, 0, 0, 0, 0, 0, 0, 0, 1, 0, 0, 0, 0, 0, 0, 0, 1,
            0x6e, 2, 0, 0, 0, 0, 0, 0, 0, 1,
        ],
    ),
    (
        "names that descend",
        68,
        87,
        &[
            2, 0, 0, 0, 0, 0, 0, 0, 1, 0x6e, 2, 0, 0, 0, 0, 0, 0, 0, 1, 0, 0, 0, 0, 0, 0, 0, 1,
            0x6d, 2, 0, 0, 0, 0, 0, 0, 0, 1,
        ],
    ),
    ("a byte less", 96, 97, &[]),
    ("a byte more", 97, 97, &[0]),
];

/// The payload with other bytes in place of those between the two.
fn changed(alloc: Global, from: usize, to: usize, bytes: &[u8]) -> Result<Vec<u8>, Fail> {
    replaced(alloc, &PAYLOAD, from, to, bytes)
}

/// The bytes with others in place of those between the two.
pub(crate) fn replaced(
    alloc: Global,
    payload: &[u8],
    from: usize,
    to: usize,
    bytes: &[u8],
) -> Result<Vec<u8>, Fail> {
    let (front, _) = payload.split_at_checked(from).ok_or("a place within")?;
    let (_, back) = payload.split_at_checked(to).ok_or("a place within")?;
    let mut all = Vec::from_slice(alloc, front)?;
    all.extend_from_slice(bytes)?;
    all.extend_from_slice(back)?;
    Ok(all)
}

/// The payload with another mask, transforms and precondition.
fn with_members(alloc: Global, members: &[u8]) -> Result<Vec<u8>, Fail> {
    changed(alloc, MASK_AT, PAYLOAD.len(), members)
}

/// The spelling of a value in place of the payload's.
fn with_value(alloc: Global, value: &[u8]) -> Result<Vec<u8>, Fail> {
    changed(alloc, 78, 87, value)
}

pub(crate) fn is_commit(alloc: Global, payload: &[u8]) -> Result<bool, Fail> {
    Ok(decode(alloc, payload)?.is_some())
}

/// The commit that the bytes are.
fn decoded(alloc: Global, payload: &[u8]) -> Result<Commit, Fail> {
    Ok(decode(alloc, payload)?.ok_or("the bytes are a commit")?)
}

/// What is read from the bytes, written again.
fn written_again(alloc: Global, payload: &[u8]) -> Result<Vec<u8>, Fail> {
    let commit = decoded(alloc, payload)?;
    Ok(encode(alloc, &commit)?)
}

pub(crate) fn check_both_ways(rt: &(impl Abort + AllocGlobal), payload: &[u8]) -> Result<(), Fail> {
    let written = written_again(rt.alloc(), payload)?;
    assert!(rt; written.as_slice() == payload);
    Ok(())
}

fn check_value(rt: &(impl Abort + AllocGlobal), value: &[u8]) -> Result<(), Fail> {
    let payload = with_value(rt.alloc(), value)?;
    check_both_ways(rt, payload.as_slice())
}

#[test]
fn both_ways(rt: HostRuntime) -> Result<(), Fail> {
    check_both_ways(&rt, &DELETE)?;
    check_both_ways(&rt, &PAYLOAD)?;
    check_both_ways(&rt, &WHOLE)
}

fn check_members(rt: &(impl Abort + AllocGlobal), members: &[u8]) -> Result<(), Fail> {
    let payload = with_members(rt.alloc(), members)?;
    check_both_ways(rt, payload.as_slice())
}

#[test]
fn members_both_ways(rt: HostRuntime) -> Result<(), Fail> {
    for (_, members) in MEMBERS {
        check_members(&rt, members)?;
    }
    Ok(())
}

#[test]
fn kinds_both_ways(rt: HostRuntime) -> Result<(), Fail> {
    for value in VALUES {
        check_value(&rt, value)?;
    }
    Ok(())
}

fn check_batch(rt: &impl Abort, batch: &Batch) {
    let at = Timestamp {
        seconds: 1_714_521_601,
        nanos: 0,
    };
    assert!(rt; batch.id == 1);
    assert!(rt; batch.at == at);
}

fn check_delete(rt: &impl Abort, writes: &[Write]) {
    let [Write::Delete { key, condition }] = writes else {
        assert!(rt; false, "one delete");
        return;
    };
    assert!(rt; key.len() == 2);
    assert!(rt; key.segment(0) == Some("rooms"));
    assert!(rt; key.segment(1) == Some("a"));
    assert!(rt; matches!(condition, Precondition::Free));
}

fn check_path(rt: &impl Abort, path: &FieldPath, names: &[&str]) {
    assert!(rt; path.len() == names.len() as u64);
    for (i, name) in names.iter().enumerate() {
        assert!(rt; path.segment(i as u64) == Some(*name));
    }
}

fn check_mask(rt: &impl Abort, mask: &Option<Mask>) {
    let Some(mask) = mask else {
        assert!(rt; false, "a mask");
        return;
    };
    let [first, second] = mask.as_slice() else {
        assert!(rt; false, "two paths");
        return;
    };
    check_path(rt, first, &["n"]);
    check_path(rt, second, &["a", "b"]);
}

fn check_numbers(rt: &impl Abort, transforms: &[Transform]) {
    let [time, by, most, least] = transforms else {
        assert!(rt; false, "four transforms");
        return;
    };
    check_path(rt, &time.path, &["t"]);
    check_path(rt, &by.path, &["n"]);
    assert!(rt; matches!(&time.change, Change::ServerTime));
    assert!(rt; matches!(&by.change, Change::Increment(-1)));
    assert!(rt; matches!(&most.change, Change::Maximum(5)));
    assert!(rt; matches!(&least.change, Change::Minimum(7)));
}

fn check_arrays(rt: &impl Abort, transforms: &[Transform]) {
    let [added, removed] = transforms else {
        assert!(rt; false, "two transforms");
        return;
    };
    check_path(rt, &added.path, &["l"]);
    assert!(rt; matches!(&added.change, Change::Append(values) if values.as_slice().len() == 1));
    assert!(rt;
        matches!(&removed.change, Change::RemoveAll(values) if values.as_slice().len() == 1)
    );
}

fn check_update(rt: &impl Abort, writes: &[Write]) {
    let [
        Write::Update {
            fields,
            mask,
            transforms,
            condition,
            ..
        },
    ] = writes
    else {
        assert!(rt; false, "one update");
        return;
    };
    assert!(rt; fields.as_fields().name_at(0) == Some("n"));
    check_mask(rt, mask);
    let Some((numbers, arrays)) = transforms.as_slice().split_at_checked(4) else {
        assert!(rt; false, "transforms");
        return;
    };
    check_numbers(rt, numbers);
    check_arrays(rt, arrays);
    assert!(rt;
        matches!(condition, Precondition::UpdateTime(time) if time.seconds == 1_714_521_601)
    );
}

/// The batch that a commit puts behind the pending ones.
fn batch_in(commit: &Commit) -> Option<&Batch> {
    match commit {
        Commit::Enqueue(batch) => Some(batch),
        _ => None,
    }
}

fn check_deleted(rt: &impl Abort, commit: &Commit) -> Result<(), Fail> {
    let batch = batch_in(commit).ok_or("a batch")?;
    check_batch(rt, batch);
    check_delete(rt, batch.writes.as_slice());
    Ok(())
}

fn check_updated(rt: &impl Abort, commit: &Commit) -> Result<(), Fail> {
    let batch = batch_in(commit).ok_or("a batch")?;
    check_batch(rt, batch);
    check_update(rt, batch.writes.as_slice());
    Ok(())
}

#[test]
fn content_of_a_delete(rt: HostRuntime) -> Result<(), Fail> {
    let commit = decoded(rt.alloc(), &DELETE)?;
    check_deleted(&rt, &commit)
}

#[test]
fn content_of_an_update(rt: HostRuntime) -> Result<(), Fail> {
    let commit = decoded(rt.alloc(), &WHOLE)?;
    check_updated(&rt, &commit)
}

/// An array of an array and so on, so deep.
fn nested(alloc: Global, depth: u64) -> Result<Vec<u8>, Fail> {
    let mut bytes = Vec::new(alloc);
    for level in 0..depth {
        let count: u64 = if level + 1 < depth { 1 } else { 0 };
        bytes.push(8)?;
        bytes.extend_from_slice(&count.to_be_bytes())?;
    }
    Ok(bytes)
}

fn reads_value(alloc: Global, value: &[u8]) -> Result<bool, Fail> {
    let payload = with_value(alloc, value)?;
    is_commit(alloc, payload.as_slice())
}

fn reads_nested(alloc: Global, depth: u64) -> Result<bool, Fail> {
    let value = nested(alloc, depth)?;
    reads_value(alloc, value.as_slice())
}

#[test]
fn depths(rt: HostRuntime) -> Result<(), Fail> {
    assert!(rt; reads_nested(rt.alloc(), 20)?);
    assert!(rt; !reads_nested(rt.alloc(), 21)?);
    Ok(())
}

/// No mask, and an append at a path of so many names: of an array that is nested so deep, or of no values at depth 0.
fn append(alloc: Global, names: u64, depth: u64) -> Result<Vec<u8>, Fail> {
    let mut bytes = Vec::new(alloc);
    bytes.extend_from_slice(&[0, 0, 0, 0, 0, 0, 0, 0, 1])?;
    bytes.extend_from_slice(&names.to_be_bytes())?;
    for _ in 0..names {
        bytes.extend_from_slice(&[0, 0, 0, 0, 0, 0, 0, 1, 0x6e])?;
    }
    let count: u64 = if depth > 0 { 1 } else { 0 };
    bytes.push(5)?;
    bytes.extend_from_slice(&count.to_be_bytes())?;
    bytes.extend_from_slice(nested(alloc, depth)?.as_slice())?;
    bytes.push(0)?;
    Ok(bytes)
}

fn reads_members(alloc: Global, members: &[u8]) -> Result<bool, Fail> {
    let payload = with_members(alloc, members)?;
    is_commit(alloc, payload.as_slice())
}

fn reads_append(alloc: Global, names: u64, depth: u64) -> Result<bool, Fail> {
    let members = append(alloc, names, depth)?;
    reads_members(alloc, members.as_slice())
}

#[test]
fn depths_of_elements(rt: HostRuntime) -> Result<(), Fail> {
    assert!(rt; reads_append(rt.alloc(), 1, 19)?);
    assert!(rt; !reads_append(rt.alloc(), 1, 20)?);
    assert!(rt; reads_append(rt.alloc(), 20, 0)?);
    assert!(rt; !reads_append(rt.alloc(), 20, 1)?);
    assert!(rt; !reads_append(rt.alloc(), 21, 0)?);
    Ok(())
}

/// A mask of one path of so many names, and no transforms and no precondition.
fn masked(alloc: Global, names: u64) -> Result<Vec<u8>, Fail> {
    let mut bytes = Vec::new(alloc);
    bytes.extend_from_slice(&[1, 0, 0, 0, 0, 0, 0, 0, 1])?;
    bytes.extend_from_slice(&names.to_be_bytes())?;
    for _ in 0..names {
        bytes.extend_from_slice(&[0, 0, 0, 0, 0, 0, 0, 1, 0x6e])?;
    }
    bytes.extend_from_slice(&[0; 9])?;
    Ok(bytes)
}

fn reads_masked(alloc: Global, names: u64) -> Result<bool, Fail> {
    let members = masked(alloc, names)?;
    reads_members(alloc, members.as_slice())
}

#[test]
fn lengths_of_paths(rt: HostRuntime) -> Result<(), Fail> {
    assert!(rt; reads_masked(rt.alloc(), 21)?);
    assert!(rt; !reads_masked(rt.alloc(), 22)?);
    Ok(())
}

#[test]
fn no_members(rt: HostRuntime) -> Result<(), Fail> {
    for (what, members) in NO_MEMBERS {
        assert!(rt; !reads_members(rt.alloc(), members)?, "{what}");
    }
    Ok(())
}

#[test]
fn no_values(rt: HostRuntime) -> Result<(), Fail> {
    for (what, value) in NO_VALUES {
        assert!(rt; !reads_value(rt.alloc(), value)?, "{what}");
    }
    Ok(())
}

fn reads_changed(alloc: Global, from: usize, to: usize, bytes: &[u8]) -> Result<bool, Fail> {
    let payload = changed(alloc, from, to, bytes)?;
    is_commit(alloc, payload.as_slice())
}

#[test]
fn damaged(rt: HostRuntime) -> Result<(), Fail> {
    for (what, from, to, bytes) in DAMAGES {
        assert!(rt; !reads_changed(rt.alloc(), from, to, bytes)?, "{what}");
    }
    Ok(())
}
