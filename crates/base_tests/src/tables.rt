//! Tables by key, pending batches, and the local documents that they make.

use crate::fixtures::{key, number, put, time};
use document_keys::{DocumentKey, FieldPath};
use key_table::KeyTable;
use keyed_writes::KeyedWrites;
use mutation_queue::MutationQueue;
use mutations::{Batch, Change, Mask, Precondition, Transform, Transforms, Write, Writes};
use overlays::{Overlays, are_of_fields, is_of_fields};
use std::alloc::Global;
use std::process::Abort;
use std::test::Fail;
use value_model::{Entry, Fields, Kind, SharedFields};

fn room(alloc: Global, id: &str) -> Result<DocumentKey, Fail> {
    key(alloc, &["rooms", id])
}

/// An increment of `n` in the document of the room.
fn increment(alloc: Global, id: &str, by: i64) -> Result<Write, Fail> {
    let mut transforms = Vec::new(alloc);
    transforms.push(Transform {
        path: FieldPath::read(alloc, "n")?,
        change: Change::Increment(by),
    })?;
    Ok(Write::Update {
        key: room(alloc, id)?,
        fields: SharedFields::new(alloc, Fields::new(alloc))?,
        mask: Some(Mask::from_vec(Vec::new(alloc))),
        transforms: Transforms::from_vec(transforms),
        condition: Precondition::Free,
    })
}

fn deletion(alloc: Global, id: &str) -> Result<Write, Fail> {
    Ok(Write::Delete {
        key: room(alloc, id)?,
        condition: Precondition::Free,
    })
}

fn batch(alloc: Global, id: u64, write: Write) -> Result<Batch, Fail> {
    let mut writes = Vec::new(alloc);
    writes.push(write)?;
    Ok(Batch {
        id,
        at: time(9),
        writes: Writes::from_vec(writes),
    })
}

/// A batch that deletes the room twice.
fn deleted_twice(alloc: Global, id: u64, room: &str) -> Result<Batch, Fail> {
    let mut writes = Vec::new(alloc);
    writes.push(deletion(alloc, room)?)?;
    writes.push(deletion(alloc, room)?)?;
    Ok(Batch {
        id,
        at: time(9),
        writes: Writes::from_vec(writes),
    })
}

fn check_names(
    rt: &(impl Abort + AllocGlobal),
    queue: &MutationQueue,
    named: &[(&str, bool)],
) -> Result<(), Fail> {
    for (id, wanted) in named {
        let key = room(rt.alloc(), id)?;
        assert!(rt; queue.names(&key) == *wanted, "{id}");
    }
    Ok(())
}

/// Takes the first batch out, which has this id, and tells what the others name.
fn check_removed(
    rt: &(impl Abort + AllocGlobal),
    queue: &mut MutationQueue,
    id: u64,
    named: &[(&str, bool)],
) -> Result<(), Fail> {
    let first = queue.remove_first().ok_or("a batch")?;
    assert!(rt; first.id == id);
    check_names(rt, queue, named)
}

fn push(alloc: Global, queue: &mut MutationQueue, id: u64, write: Write) -> Result<(), Fail> {
    queue.push(alloc, batch(alloc, id, write)?)?;
    Ok(())
}

fn three_batches(alloc: Global) -> Result<MutationQueue, Fail> {
    let mut queue = MutationQueue::new(alloc);
    push(alloc, &mut queue, 1, increment(alloc, "a", 1)?)?;
    push(alloc, &mut queue, 2, increment(alloc, "b", 1)?)?;
    push(alloc, &mut queue, 3, deletion(alloc, "a")?)?;
    Ok(queue)
}

fn id_of(batch: Option<&Batch>) -> Option<u64> {
    Some(batch?.id)
}

fn check_order(rt: &impl Abort, queue: &MutationQueue) {
    assert!(rt; queue.len() == 3);
    assert!(rt; queue.as_slice().len() == 3);
    assert!(rt; id_of(queue.first()) == Some(1));
    assert!(rt; id_of(queue.get(2)) == Some(3));
    assert!(rt; id_of(queue.get(3)).is_none());
}

#[test]
fn batches_leave_in_order(rt: HostRuntime) -> Result<(), Fail> {
    let mut queue = three_batches(rt.alloc())?;
    check_order(&rt, &queue);
    check_removed(
        &rt,
        &mut queue,
        1,
        &[("a", true), ("b", true), ("c", false)],
    )?;
    check_removed(&rt, &mut queue, 2, &[("a", true), ("b", false)])?;
    check_removed(&rt, &mut queue, 3, &[("a", false), ("b", false)])?;
    assert!(rt; queue.remove_first().is_none());
    assert!(rt; queue.len() == 0);
    Ok(())
}

/// The batches that name the room, without the first `past`, have these ids.
fn check_naming(
    rt: &(impl Abort + AllocGlobal),
    queue: &MutationQueue,
    id: &str,
    past: u64,
    wanted: &[u64],
) -> Result<(), Fail> {
    let key = room(rt.alloc(), id)?;
    let found = queue.naming(rt.alloc(), &key, past)?;
    assert!(rt; found.len() == wanted.len(), "{id} {past}");
    for (batch, wanted) in found.iter().zip(wanted) {
        assert!(rt; batch.id == *wanted, "{id} {past}");
    }
    Ok(())
}

fn check_naming_all(rt: &(impl Abort + AllocGlobal), queue: &MutationQueue) -> Result<(), Fail> {
    check_naming(rt, queue, "a", 0, &[1, 3, 4])?;
    check_naming(rt, queue, "b", 0, &[2])?;
    check_naming(rt, queue, "c", 0, &[])
}

fn check_naming_past(rt: &(impl Abort + AllocGlobal), queue: &MutationQueue) -> Result<(), Fail> {
    check_naming(rt, queue, "a", 1, &[3, 4])?;
    check_naming(rt, queue, "a", 3, &[4])?;
    check_naming(rt, queue, "a", 9, &[])?;
    check_naming(rt, queue, "b", 2, &[])
}

/// Takes the first two batches out, of which the first names one room, and the second the other.
fn check_naming_behind(
    rt: &(impl Abort + AllocGlobal),
    queue: &mut MutationQueue,
) -> Result<(), Fail> {
    check_removed(rt, queue, 1, &[("a", true), ("b", true)])?;
    check_naming(rt, queue, "a", 0, &[3, 4])?;
    check_naming(rt, queue, "a", 2, &[4])?;
    check_removed(rt, queue, 2, &[("a", true), ("b", false)])?;
    check_naming(rt, queue, "a", 1, &[4])?;
    check_naming(rt, queue, "b", 0, &[])
}

#[test]
fn batches_are_found_by_key(rt: HostRuntime) -> Result<(), Fail> {
    let mut queue = three_batches(rt.alloc())?;
    queue.push(rt.alloc(), deleted_twice(rt.alloc(), 4, "a")?)?;
    check_naming_all(&rt, &queue)?;
    check_naming_past(&rt, &queue)?;
    check_naming_behind(&rt, &mut queue)
}

/// Makes room for one more batch that deletes the room, and pushes it.
fn push_where_room_is(
    rt: &(impl Abort + AllocGlobal),
    queue: &mut MutationQueue,
    id: u64,
    room: &str,
) -> Result<(), Fail> {
    let batch = batch(rt.alloc(), id, deletion(rt.alloc(), room)?)?;
    let len = queue.len();
    queue.reserve(&batch)?;
    assert!(rt; queue.len() == len);
    queue.push_reserved(batch);
    Ok(())
}

#[test]
fn room_is_kept_for_a_batch(rt: HostRuntime) -> Result<(), Fail> {
    let mut queue = MutationQueue::new(rt.alloc());
    push_where_room_is(&rt, &mut queue, 1, "a")?;
    push_where_room_is(&rt, &mut queue, 2, "a")?;
    push_where_room_is(&rt, &mut queue, 3, "a")?;
    check_names(&rt, &queue, &[("a", true)])?;
    check_naming(&rt, &queue, "a", 1, &[2, 3])
}

/// The number at `n` in the room's document, if there is one.
fn number_in(
    alloc: Global,
    overlays: &Overlays,
    id: &str,
    entry: Option<&Entry>,
) -> Result<Option<i64>, Fail> {
    let key = room(alloc, id)?;
    let Some((fields, _)) = overlays.document(&key, entry) else {
        return Ok(None);
    };
    match fields.get("n") {
        Some(value) => match &value.kind {
            Kind::Integer(number) => Ok(Some(*number)),
            _ => Ok(None),
        },
        None => Ok(None),
    }
}

/// Works out the room's document from the batches, and puts it in place.
fn prepare(
    alloc: Global,
    overlays: &mut Overlays,
    id: &str,
    entry: Option<&Entry>,
    batches: &[Batch],
) -> Result<(), Fail> {
    if !are_of_fields(batches) {
        return Err("a path is __name__".into());
    }
    let key = room(alloc, id)?;
    let overlay = overlays.prepare(alloc, &key, entry, batches, None)?;
    overlays.reserve(&overlay.key)?;
    overlays.set(overlay);
    Ok(())
}

/// Works out the room's document from the pending batches, without the first `past`, and puts it in place.
fn prepare_pending(
    alloc: Global,
    overlays: &mut Overlays,
    id: &str,
    entry: Option<&Entry>,
    queue: &MutationQueue,
    past: u64,
) -> Result<(), Fail> {
    if !are_of_fields(queue.as_slice()) {
        return Err("a path is __name__".into());
    }
    let key = room(alloc, id)?;
    let overlay = overlays.prepare_pending(alloc, &key, entry, queue, past)?;
    overlays.reserve(&overlay.key)?;
    overlays.set(overlay);
    Ok(())
}

fn extend(alloc: Global, overlays: &mut Overlays, id: &str, more: &Batch) -> Result<(), Fail> {
    if !is_of_fields(more) {
        return Err("a path is __name__".into());
    }
    let key = room(alloc, id)?;
    let writes = KeyedWrites::new(alloc, more.writes.as_slice())?;
    let overlay = overlays.extend(alloc, &key, None, &writes, more.at)?;
    overlays.reserve(&overlay.key)?;
    overlays.set(overlay);
    Ok(())
}

/// What is known of a room: `n` is 40.
fn known(alloc: Global) -> Result<Entry, Fail> {
    let mut fields = Fields::new(alloc);
    put(alloc, &mut fields, "n", number(40))?;
    Ok(Entry::Found(fields, time(7)))
}

fn check_overlays(
    rt: &(impl Abort + AllocGlobal),
    queue: &MutationQueue,
    overlays: &mut Overlays,
) -> Result<(), Fail> {
    let alloc = rt.alloc();
    let known = known(alloc)?;
    assert!(rt; number_in(alloc, overlays, "b", Some(&known))? == Some(40));
    prepare(alloc, overlays, "a", Some(&known), &queue.as_slice()[..0])?;
    assert!(rt; number_in(alloc, overlays, "a", None)? == Some(40));
    prepare(alloc, overlays, "b", Some(&known), queue.as_slice())?;
    assert!(rt; number_in(alloc, overlays, "b", None)? == Some(41));
    prepare(alloc, overlays, "a", Some(&known), queue.as_slice())?;
    assert!(rt; number_in(alloc, overlays, "a", Some(&known))? == None);
    Ok(())
}

#[test]
fn documents_are_laid_on(rt: HostRuntime) -> Result<(), Fail> {
    let queue = three_batches(rt.alloc())?;
    let mut overlays = Overlays::new(rt.alloc());
    check_overlays(&rt, &queue, &mut overlays)
}

fn check_pending(
    rt: &(impl Abort + AllocGlobal),
    queue: &MutationQueue,
    overlays: &mut Overlays,
) -> Result<(), Fail> {
    let alloc = rt.alloc();
    let known = known(alloc)?;
    prepare_pending(alloc, overlays, "b", Some(&known), queue, 0)?;
    assert!(rt; number_in(alloc, overlays, "b", None)? == Some(41));
    prepare_pending(alloc, overlays, "b", Some(&known), queue, 2)?;
    assert!(rt; number_in(alloc, overlays, "b", None)? == Some(40));
    prepare_pending(alloc, overlays, "a", Some(&known), queue, 1)?;
    assert!(rt; number_in(alloc, overlays, "a", Some(&known))? == None);
    Ok(())
}

#[test]
fn documents_are_laid_on_by_key(rt: HostRuntime) -> Result<(), Fail> {
    let queue = three_batches(rt.alloc())?;
    let mut overlays = Overlays::new(rt.alloc());
    check_pending(&rt, &queue, &mut overlays)
}

fn check_extended(rt: &(impl Abort + AllocGlobal), overlays: &mut Overlays) -> Result<(), Fail> {
    let alloc = rt.alloc();
    let more = batch(alloc, 1, increment(alloc, "a", 2)?)?;
    extend(alloc, overlays, "a", &more)?;
    extend(alloc, overlays, "a", &more)?;
    extend(alloc, overlays, "b", &more)?;
    assert!(rt; number_in(alloc, overlays, "a", None)? == Some(4));
    Ok(())
}

fn check_taken_away(rt: &(impl Abort + AllocGlobal), overlays: &mut Overlays) -> Result<(), Fail> {
    let alloc = rt.alloc();
    let key = room(alloc, "a")?;
    let rooms = key.parent(alloc)?;
    assert!(rt; overlays.keys_in(alloc, &rooms)?.len() == 1);
    overlays.remove(&key);
    assert!(rt; overlays.keys_in(alloc, &rooms)?.len() == 0);
    Ok(())
}

#[test]
fn documents_are_extended(rt: HostRuntime) -> Result<(), Fail> {
    let mut overlays = Overlays::new(rt.alloc());
    check_extended(&rt, &mut overlays)?;
    check_taken_away(&rt, &mut overlays)
}

fn insert(alloc: Global, table: &mut KeyTable<u64>, segments: &[&str]) -> Result<(), Fail> {
    table.insert(alloc, key(alloc, segments)?, 0)?;
    Ok(())
}

/// Three rooms, a document below one of them, and one of another collection.
fn rooms(alloc: Global) -> Result<KeyTable<u64>, Fail> {
    let mut table = KeyTable::new(alloc);
    insert(alloc, &mut table, &["rooms", "c"])?;
    insert(alloc, &mut table, &["rooms", "a"])?;
    insert(alloc, &mut table, &["rooms", "a", "seats", "b"])?;
    insert(alloc, &mut table, &["walls", "b"])?;
    insert(alloc, &mut table, &["rooms", "b"])?;
    Ok(table)
}

/// The table lists these rooms, and has so many keys.
fn check_rooms(
    rt: &(impl Abort + AllocGlobal),
    table: &KeyTable<u64>,
    wanted: &[&str],
    count: u64,
) -> Result<(), Fail> {
    let alloc = rt.alloc();
    let rooms = room(alloc, "a")?.parent(alloc)?;
    let keys = table.keys_in(alloc, &rooms)?;
    assert!(rt; keys.len() == wanted.len());
    for (key, id) in keys.iter().zip(wanted) {
        assert!(rt; *key == room(alloc, id)?, "{id}");
    }
    assert!(rt; table.keys(alloc)?.len() == count);
    Ok(())
}

/// Puts a room into the table, and takes one out.
fn change_rooms(alloc: Global, table: &mut KeyTable<u64>) -> Result<(), Fail> {
    insert(alloc, table, &["rooms", "aa"])?;
    let _value = table.remove(&room(alloc, "b")?);
    Ok(())
}

fn check_listed(rt: &(impl Abort + AllocGlobal), table: &mut KeyTable<u64>) -> Result<(), Fail> {
    check_rooms(rt, table, &["a", "b", "c"], 5)?;
    change_rooms(rt.alloc(), table)?;
    check_rooms(rt, table, &["a", "aa", "c"], 5)
}

#[test]
fn keys_are_listed_without_an_order(rt: HostRuntime) -> Result<(), Fail> {
    let mut table = rooms(rt.alloc())?;
    check_listed(&rt, &mut table)?;
    table.arrange(rt.alloc())?;
    check_rooms(&rt, &table, &["a", "aa", "c"], 5)
}

#[test]
fn keys_are_listed_along_their_order(rt: HostRuntime) -> Result<(), Fail> {
    let mut table = rooms(rt.alloc())?;
    table.arrange(rt.alloc())?;
    table.arrange(rt.alloc())?;
    check_listed(&rt, &mut table)
}

/// So many deletions, of the rooms `a` and `b` in turn.
fn in_turn(alloc: Global, count: u64) -> Result<Vec<Write>, Fail> {
    let mut writes = Vec::new(alloc);
    for place in 0..count {
        let id = if place % 2 == 0 { "a" } else { "b" };
        writes.push(deletion(alloc, id)?)?;
    }
    Ok(writes)
}

/// The next place of the key of the write at the place.
fn after(writes: &KeyedWrites, place: usize) -> usize {
    if place >= writes.as_slice().len() {
        return place;
    }
    writes.after(place)
}

fn check_places(
    rt: &(impl Abort + AllocGlobal),
    writes: &KeyedWrites,
    count: usize,
) -> Result<(), Fail> {
    let alloc = rt.alloc();
    assert!(rt; writes.first(&room(alloc, "a")?) == 0);
    assert!(rt; writes.first(&room(alloc, "b")?) == 1);
    assert!(rt; writes.first(&room(alloc, "c")?) == count);
    assert!(rt; after(writes, 0) == 2 && after(writes, 1) == 3);
    assert!(rt; after(writes, 2) == count && after(writes, 3) == count);
    Ok(())
}

#[test]
fn few_writes_have_places(rt: HostRuntime) -> Result<(), Fail> {
    let writes = in_turn(rt.alloc(), 4)?;
    check_places(&rt, &KeyedWrites::new(rt.alloc(), writes.as_slice())?, 4)
}

fn check_many(rt: &(impl Abort + AllocGlobal), writes: &KeyedWrites) -> Result<(), Fail> {
    let alloc = rt.alloc();
    assert!(rt; writes.first(&room(alloc, "b")?) == 1);
    assert!(rt; writes.first(&room(alloc, "c")?) == 20);
    assert!(rt; after(writes, 0) == 2 && after(writes, 17) == 19);
    assert!(rt; after(writes, 18) == 20 && after(writes, 19) == 20);
    Ok(())
}

#[test]
fn many_writes_have_places(rt: HostRuntime) -> Result<(), Fail> {
    let writes = in_turn(rt.alloc(), 20)?;
    check_many(&rt, &KeyedWrites::new(rt.alloc(), writes.as_slice())?)
}
