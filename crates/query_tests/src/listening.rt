//! Which listeners a change of a document concerns: of four, one of the rooms, one of the halls, and
//! two of a room each. Which listeners a target has. And that what they show is raised once.

use crate::fixtures::{key, root};
use crate::shelf::Shelf;
use document_keys::{KeySet, NoMemory, Segment, Sequence};
use listeners::Listeners;
use queries::{Query, RawCollection, RawQuery};
use std::alloc::Global;
use std::collections::BTreeSet;
use std::process::Abort;
use std::test::Fail;
use views::Standing;

/// The query of all documents of a collection.
fn collection(alloc: Global, id: &str) -> Result<Query, Fail> {
    let mut from = Vec::new(alloc);
    from.push(Segment::read(alloc, id)?)?;
    let raw = RawCollection {
        parent: None,
        from: Sequence::from_vec(from),
        filter: None,
        orders: Sequence::new(alloc),
        start_at: None,
        end_at: None,
        limit: None,
    };
    Ok(Query::check(alloc, RawQuery::Collection(raw))?)
}

/// The query of a room.
fn room(alloc: Global, id: &str) -> Result<Query, Fail> {
    let key = key(alloc, &["rooms", id])?;
    Ok(Query::check(alloc, RawQuery::Document(key))?)
}

/// Adds a listener of the target, if its id is free.
fn add(
    alloc: Global,
    listeners: &mut Listeners,
    id: u32,
    query: Query,
    target: i32,
) -> Result<(), NoMemory> {
    match listeners.view(id) {
        Some(_) => Ok(()),
        None => listeners.add(alloc, id, query, target),
    }
}

fn four(alloc: Global) -> Result<Listeners, Fail> {
    let mut listeners = Listeners::new(alloc);
    add(alloc, &mut listeners, 1, collection(alloc, "rooms")?, 8)?;
    add(alloc, &mut listeners, 2, collection(alloc, "halls")?, 2)?;
    add(alloc, &mut listeners, 3, room(alloc, "a")?, 4)?;
    add(alloc, &mut listeners, 4, room(alloc, "b")?, 4)?;
    Ok(listeners)
}

fn check(
    rt: &(impl Abort + AllocGlobal),
    listeners: &Listeners,
    segments: &[&str],
    wanted: &[u32],
) -> Result<(), Fail> {
    let key = key(rt.alloc(), segments)?;
    let mut ids = BTreeSet::new(rt.alloc());
    listeners.concerned(rt.alloc(), &key, &mut ids)?;
    assert!(rt; ids.len() == wanted.len());
    for id in wanted {
        assert!(rt; ids.contains(id), "{id}");
    }
    Ok(())
}

fn check_all(rt: &(impl Abort + AllocGlobal), listeners: &Listeners) -> Result<(), Fail> {
    check(rt, listeners, &["rooms", "a"], &[1, 3])?;
    check(rt, listeners, &["rooms", "c"], &[1])?;
    check(rt, listeners, &["halls", "a"], &[2])?;
    check(rt, listeners, &["rooms", "a", "rooms", "b"], &[])
}

#[test]
fn concerned(rt: HostRuntime) -> Result<(), Fail> {
    let listeners = four(rt.alloc())?;
    check_all(&rt, &listeners)
}

fn check_removed(rt: &(impl Abort + AllocGlobal), listeners: &mut Listeners) -> Result<(), Fail> {
    listeners.remove(3);
    listeners.remove(2);
    check(rt, listeners, &["rooms", "a"], &[1])?;
    check(rt, listeners, &["rooms", "b"], &[1, 4])?;
    check(rt, listeners, &["halls", "a"], &[])
}

#[test]
fn removed(rt: HostRuntime) -> Result<(), Fail> {
    let mut listeners = four(rt.alloc())?;
    check_removed(&rt, &mut listeners)
}

fn check_wanted(
    rt: &(impl Abort + AllocGlobal),
    listeners: &Listeners,
    wanted: &[i32],
) -> Result<(), Fail> {
    let targets = listeners.wanted(rt.alloc())?;
    assert!(rt; targets.as_slice() == wanted);
    Ok(())
}

fn check_target(
    rt: &(impl Abort + AllocGlobal),
    listeners: &Listeners,
    target: i32,
    wanted: &[u32],
) -> Result<(), Fail> {
    let ids = listeners.of_target(rt.alloc(), target)?;
    assert!(rt; ids.as_slice() == wanted, "{target}");
    assert!(rt;
        listeners.is_wanted(target) != wanted.is_empty(),
        "{target}"
    );
    Ok(())
}

fn check_targets(rt: &(impl Abort + AllocGlobal), listeners: &mut Listeners) -> Result<(), Fail> {
    check_wanted(rt, listeners, &[2, 4, 8])?;
    check_target(rt, listeners, 4, &[3, 4])?;
    listeners.remove(3);
    listeners.remove(2);
    check_wanted(rt, listeners, &[4, 8])?;
    check_target(rt, listeners, 4, &[4])?;
    check_target(rt, listeners, 2, &[])?;
    assert!(rt; listeners.target_of(1) == Some(8));
    assert!(rt; listeners.target_of(2) == None);
    Ok(())
}

#[test]
fn targets(rt: HostRuntime) -> Result<(), Fail> {
    let mut listeners = four(rt.alloc())?;
    check_targets(&rt, &mut listeners)
}

/// Refreshes the listener over no documents, if it is there, and tells whether it raised a snapshot.
fn refresh(alloc: Global, listeners: &mut Listeners, id: u32) -> Result<bool, Fail> {
    let root = root(alloc)?;
    let shelf = Shelf {
        documents: Vec::new(alloc),
    };
    let standing = Standing {
        current: false,
        keys: KeySet::new(alloc),
    };
    match listeners.view(id) {
        Some(_) => Ok(
            listeners
                .refresh(alloc, &root, &shelf, id, &standing, true)?
                .raised,
        ),
        None => Ok(false),
    }
}

fn check_raised(rt: &(impl Abort + AllocGlobal), listeners: &mut Listeners) -> Result<(), Fail> {
    for (id, wanted) in [(1, true), (1, false), (3, true), (3, false), (5, false)] {
        let raised = refresh(rt.alloc(), listeners, id)?;
        assert!(rt; raised == wanted, "{id}");
    }
    Ok(())
}

#[test]
fn raised_once(rt: HostRuntime) -> Result<(), Fail> {
    let mut listeners = four(rt.alloc())?;
    check_raised(&rt, &mut listeners)
}
