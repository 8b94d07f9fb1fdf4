//! Which documents in limbo are listened to, under which ids, and which wait.

use document_keys::{DocumentKey, KeyBuilder, KeySet};
use limbo_resolver::{LimboChange, LimboResolver};
use std::alloc::Global;
use std::process::Abort;
use std::test::Fail;

/// The key `rooms/` and the number, in three digits.
pub(crate) fn room(alloc: Global, number: u32) -> Result<DocumentKey, Fail> {
    let id = format!(in alloc; "{number:03}")?;
    let builder = KeyBuilder::new(alloc).with("rooms")?;
    Ok(builder.with(id.as_str())?.finish()?)
}

/// The keys of the rooms from one number on, up to another and without it.
fn rooms(alloc: Global, from: u32, to: u32) -> Result<KeySet, Fail> {
    let mut keys = KeySet::new(alloc);
    for number in from..to {
        keys.insert(alloc, room(alloc, number)?)?;
    }
    Ok(keys)
}

/// How much an update changed, and what is then left.
#[derive(Clone, Copy, Debug, PartialEq, Eq)]
struct Summary {
    ended: usize,
    started: usize,
    /// The ids of the first and the last listen that started.
    first: Option<i32>,
    last: Option<i32>,
    waiting: u64,
}

fn id_of(listen: Option<&(i32, DocumentKey)>) -> Option<i32> {
    let (id, _) = listen?;
    Some(*id)
}

fn summary_of(limbo: &LimboResolver, change: &LimboChange) -> Summary {
    let started = change.started.as_slice();
    Summary {
        ended: change.ended.len(),
        started: started.len(),
        first: id_of(started.first()),
        last: id_of(started.last()),
        waiting: limbo.waiting(),
    }
}

fn update(alloc: Global, limbo: &mut LimboResolver, from: u32, to: u32) -> Result<Summary, Fail> {
    let wanted = rooms(alloc, from, to)?;
    let change = limbo.update(alloc, &wanted)?;
    Ok(summary_of(limbo, &change))
}

/// Whether the room's key is that of the id.
fn is_of(alloc: Global, limbo: &LimboResolver, id: i32, number: u32) -> Result<bool, Fail> {
    let key = room(alloc, number)?;
    match limbo.key_of(id) {
        Some(other) => Ok(*other == key),
        None => Ok(false),
    }
}

fn check_hundred(rt: &(impl Abort + AllocGlobal), limbo: &mut LimboResolver) -> Result<(), Fail> {
    let first = update(rt.alloc(), limbo, 0, 101)?;
    assert!(rt;
        first
            == Summary {
                ended: 0,
                started: 100,
                first: Some(1),
                last: Some(199),
                waiting: 1
            }
    );
    assert!(rt; is_of(rt.alloc(), limbo, 199, 99)?);
    let again = update(rt.alloc(), limbo, 0, 101)?;
    assert!(rt;
        again
            == Summary {
                ended: 0,
                started: 0,
                first: None,
                last: None,
                waiting: 1
            }
    );
    let next = update(rt.alloc(), limbo, 1, 101)?;
    assert!(rt;
        next == Summary {
            ended: 1,
            started: 1,
            first: Some(201),
            last: Some(201),
            waiting: 0
        }
    );
    assert!(rt; is_of(rt.alloc(), limbo, 201, 100)?);
    Ok(())
}

#[test]
fn hundred_and_one(rt: HostRuntime) -> Result<(), Fail> {
    let mut limbo = LimboResolver::new(rt.alloc(), 1);
    check_hundred(&rt, &mut limbo)
}

fn check_refused(rt: &(impl Abort + AllocGlobal), limbo: &mut LimboResolver) -> Result<(), Fail> {
    update(rt.alloc(), limbo, 0, 3)?;
    assert!(rt; limbo.refused(3).is_some());
    assert!(rt; limbo.refused(3).is_none());
    assert!(rt; !is_of(rt.alloc(), limbo, 3, 1)?);
    assert!(rt; is_of(rt.alloc(), limbo, 5, 2)?);
    let again = update(rt.alloc(), limbo, 0, 3)?;
    assert!(rt;
        again
            == Summary {
                ended: 0,
                started: 1,
                first: Some(7),
                last: Some(7),
                waiting: 0
            }
    );
    Ok(())
}

#[test]
fn refused_listen(rt: HostRuntime) -> Result<(), Fail> {
    let mut limbo = LimboResolver::new(rt.alloc(), 1);
    check_refused(&rt, &mut limbo)
}

fn check_last(rt: &(impl Abort + AllocGlobal), limbo: &mut LimboResolver) -> Result<(), Fail> {
    let first = update(rt.alloc(), limbo, 0, 2)?;
    let last = Some(i32::MAX);
    assert!(rt;
        first
            == Summary {
                ended: 0,
                started: 1,
                first: last,
                last,
                waiting: 1
            }
    );
    Ok(())
}

#[test]
fn last_id(rt: HostRuntime) -> Result<(), Fail> {
    let mut limbo = LimboResolver::new(rt.alloc(), i32::MAX);
    check_last(&rt, &mut limbo)
}
