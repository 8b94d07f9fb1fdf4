//! The told keys under a message that names a document: each id of the message is looked up.

ghost use Rattle.std.specs.Prelude.{◌≡◌, List, ℤ, map, OnOk, OnErr};
ghost use Rattle.watch_aggregator.specs.declared.watched.Watched.{Watched};
ghost use Rattle.watch_aggregator.specs.Steps.{AreAscending};
ghost use Rattle.watch_aggregator.specs.Told.{for_id, for_ids, hits, put, settle, take_back, take_out};

use crate::watched::{Watched, lists, place};
use document_keys::{DocumentKey, NoMemory};
use std::alloc::Global;
use value_model::DocumentChange;

/// Whether the change puts its key into the told keys of the id: it counts, and is a target only.
fn hits(one: &Watched, change: &DocumentChange) -> bool
    ensures { result ≡ hits change.now one.now }
{
    one.counts
        && lists(change.target_ids.as_slice(), one.id)
        && !lists(change.removed_target_ids.as_slice(), one.id)
}

/// Puts the change's key into the told keys of the id, if it is to be there, and marks it where it wasn't.
fn put_one(alloc: Global, one: &mut Watched, change: &DocumentChange) -> Result<(), NoMemory>
    ensures done { OnOk result (one.new ≡ put change.now one.old) }
    ensures undone { OnErr result (one.new ≡ one.old) }
{
    if !hits(one, change) {
        return Ok(());
    }
    if one.told.has(&change.key) {
        return Ok(());
    }
    let key = change.key.copy(alloc)?;
    one.told.insert(alloc, key)?;
    one.fresh = true;
    Ok(())
}

/// The same of the id, if it is there.
fn put_at(
    alloc: Global,
    watched: &mut Vec<Watched>,
    id: &i32,
    change: &DocumentChange,
) -> Result<(), NoMemory>
    ensures done { OnOk result (AreAscending watched.old.items
        → watched.new.items ≡ map (for_id id.now (put change.now)) watched.old.items) }
    ensures undone { OnErr result (watched.new.items ≡ watched.old.items) }
{
    match place(watched.as_slice(), id) {
        Ok(at) => {
            let one = &mut watched[at];
            put_one(alloc, one, change)?;
            Ok(())
        }
        Err(_at) => Ok(()),
    }
}

/// The same of each of the change's target ids. After an `Err` the first some of them have the key.
pub(crate) fn put_all(
    alloc: Global,
    watched: &mut Vec<Watched>,
    change: &DocumentChange,
) -> Result<(), NoMemory>
    ensures done { OnOk result (AreAscending watched.old.items
        → watched.new.items ≡ map (for_ids change.now.target_ids (put change.now)) watched.old.items) }
    ensures undone { OnErr result (AreAscending watched.old.items → (ids : List ℤ)
        × (watched.new.items ≡ map (for_ids ids (put change.now)) watched.old.items)) }
{
    for id in change.target_ids.as_slice() {
        match put_at(alloc, watched, id, change) {
            Ok(()) => {}
            Err(NoMemory) => return Err(NoMemory),
        }
    }
    Ok(())
}

/// Takes the key out of the told keys of the id where the message at hand put it in.
fn take_back_at(watched: &mut Vec<Watched>, id: &i32, key: &DocumentKey)
    ensures { AreAscending watched.old.items
        → watched.new.items ≡ map (for_id id.now (take_back key.now)) watched.old.items }
{
    match place(watched.as_slice(), id) {
        Ok(at) => {
            let one = &mut watched[at];
            if one.fresh {
                one.told.remove(key);
                one.fresh = false;
            }
        }
        Err(_at) => {}
    }
}

/// The same of each of the ids.
pub(crate) fn take_back(watched: &mut Vec<Watched>, ids: &[i32], key: &DocumentKey)
    ensures { AreAscending watched.old.items
        → watched.new.items ≡ map (for_ids ids.now (take_back key.now)) watched.old.items }
{
    for id in ids {
        take_back_at(watched, id, key);
    }
}

/// What the message at hand put into the told keys of the id stays there.
fn settle_at(watched: &mut Vec<Watched>, id: &i32)
    ensures { AreAscending watched.old.items
        → watched.new.items ≡ map (for_id id.now settle) watched.old.items }
{
    match place(watched.as_slice(), id) {
        Ok(at) => {
            let one = &mut watched[at];
            one.fresh = false;
        }
        Err(_at) => {}
    }
}

/// The same of each of the ids.
pub(crate) fn settle(watched: &mut Vec<Watched>, ids: &[i32])
    ensures { AreAscending watched.old.items
        → watched.new.items ≡ map (for_ids ids.now settle) watched.old.items }
{
    for id in ids {
        settle_at(watched, id);
    }
}

/// Takes the key out of the told keys of the id, if it counts.
fn take_out_at(watched: &mut Vec<Watched>, id: &i32, key: &DocumentKey)
    ensures { AreAscending watched.old.items
        → watched.new.items ≡ map (for_id id.now (take_out key.now)) watched.old.items }
{
    match place(watched.as_slice(), id) {
        Ok(at) => {
            let one = &mut watched[at];
            if one.counts {
                one.told.remove(key);
            }
        }
        Err(_at) => {}
    }
}

/// The same of each of the ids.
pub(crate) fn take_out(watched: &mut Vec<Watched>, ids: &[i32], key: &DocumentKey)
    ensures { AreAscending watched.old.items
        → watched.new.items ≡ map (for_ids ids.now (take_out key.now)) watched.old.items }
{
    for id in ids {
        take_out_at(watched, id, key);
    }
}
