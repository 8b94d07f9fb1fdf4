//! A store over the journal: opened, committed to, spent, and asked for its documents.

ghost use Rattle.std.specs.Prelude.{IsTrue};
ghost use Rattle.local_store.specs.Store.{IsStored};

use crate::journal::host_of;
use document_keys::{DocumentKey, KeyBuilder};
use host_api::{Host, MemHost};
use local_store::{LocalStore, StoreFault};
use mutations::{Batch, Precondition, Write, Writes};
use record_codec::{Commit, decode};
use std::alloc::Global;
use std::process::Abort;
use std::test::Fail;
use value_model::{DocState, Documents, Kind, Timestamp};

// an update of `rooms/a` with the field `n` of 1, at 2024-05-01T00:00:01Z, as the batch of id 1
static PAYLOAD: [u8; 97] = [
    1, 1, 0, 0, 0, 0, 0, 0, 0, 1, 0, 0, 0, 0, 0x66, 0x31, 0x86, 1, 0, 0, 0, 0, 0, 0, 0, 0, 0, 0, 0,
    1, 1, 0, 0, 0, 0, 0, 0, 0, 2, 0, 0, 0, 0, 0, 0, 0, 5, 0x72, 0x6f, 0x6f, 0x6d, 0x73, 0, 0, 0, 0,
    0, 0, 0, 1, 0x61, 0, 0, 0, 0, 0, 0, 0, 1, 0, 0, 0, 0, 0, 0, 0, 1, 0x6e, 2, 0, 0, 0, 0, 0, 0, 0,
    1, 0, 0, 0, 0, 0, 0, 0, 0, 0, 0,
];

pub(crate) fn room(alloc: Global, id: &str) -> Result<DocumentKey, Fail> {
    let builder = KeyBuilder::new(alloc).with("rooms")?;
    Ok(builder.with(id)?.finish()?)
}

/// The bytes of the commit whose batch has this id.
pub(crate) fn payload(alloc: Global, id: u8) -> Result<Vec<u8>, Fail> {
    let (front, rest) = PAYLOAD.split_at(9);
    let mut bytes = front.to_vec(alloc)?;
    bytes.push(id)?;
    bytes.extend_from_slice(rest.get(1..).ok_or("a rest")?)?;
    Ok(bytes)
}

/// Makes the commit that the payload spells; whether it fits.
pub(crate) fn is_made<H: Host>(
    alloc: Global,
    host: &mut H,
    store: &mut LocalStore,
    payload: &[u8],
) -> Result<bool, Fail>
    requires { IsTrue H.tells_files → IsStored store.old (H.view host.old) }
{
    let commit = decode(alloc, payload)?.ok_or("a commit")?;
    if !store.fits(&commit) {
        return Ok(false);
    }
    store.commit(alloc, host, commit)?;
    Ok(true)
}

/// Makes the commit whose batch has this id, which is the next one.
fn make_batch<H: Host>(
    alloc: Global,
    host: &mut H,
    store: &mut LocalStore,
    id: u8,
) -> Result<(), Fail>
    requires { IsTrue H.tells_files → IsStored store.old (H.view host.old) }
{
    let payload = payload(alloc, id)?;
    if !is_made(alloc, host, store, payload.as_slice())? {
        return Err("it doesn't fit".into());
    }
    Ok(())
}

/// Opens the store and makes the commit whose batch has this id, which is the next one.
fn open_and_commit(alloc: Global, host: &mut MemHost, id: u8) -> Result<LocalStore, Fail> {
    let mut store = LocalStore::open(alloc, host)?;
    make_batch(alloc, host, &mut store, id)?;
    Ok(store)
}

pub(crate) fn number_of(store: &LocalStore, key: &DocumentKey) -> Option<i64> {
    let document = store.document(key)?;
    match &document.fields.get("n")?.kind {
        Kind::Integer(number) => Some(*number),
        _ => None,
    }
}

fn check_documents(rt: &(impl Abort + AllocGlobal), store: &LocalStore) -> Result<(), Fail> {
    let key = room(rt.alloc(), "a")?;
    let other = room(rt.alloc(), "b")?;
    assert!(rt; number_of(store, &key) == Some(1));
    assert!(rt; number_of(store, &other).is_none());
    assert!(rt; store.touched(&key) && !store.touched(&other));
    assert!(rt; store.state_of(&key) == DocState::Pending);
    assert!(rt; store.state_of(&other) == DocState::Unknown);
    let rooms = key.parent(rt.alloc())?;
    assert!(rt; store.collection_keys(rt.alloc(), &rooms)?.len() == 1);
    Ok(())
}

fn check_numbers(rt: &impl Abort, store: &LocalStore, number: u64) {
    assert!(rt; store.number() == number);
    assert!(rt; store.next_batch() == number + 1);
    assert!(rt; store.pending().len() == number);
}

fn check_reopened(rt: &(impl Abort + AllocGlobal), host: &mut MemHost, id: u8) -> Result<(), Fail> {
    let store = open_and_commit(rt.alloc(), host, id)?;
    check_numbers(rt, &store, id as u64);
    check_documents(rt, &store)
}

#[test]
fn commits_are_found_again(rt: HostRuntime) -> Result<(), Fail> {
    let mut host = host_of(rt.alloc(), &[], &[])?;
    check_reopened(&rt, &mut host, 1)?;
    check_reopened(&rt, &mut host, 2)
}

/// A batch of so many deletes of one document.
fn deletes(alloc: Global, id: u64, count: usize) -> Result<Commit, Fail> {
    let mut writes = Vec::new(alloc);
    for _ in 0..count {
        writes.push(Write::Delete {
            key: room(alloc, "a")?,
            condition: Precondition::Free,
        })?;
    }
    Ok(Commit::Enqueue(Batch {
        id,
        at: Timestamp {
            seconds: 0,
            nanos: 0,
        },
        writes: Writes::from_vec(writes),
    }))
}

fn check_fits(
    rt: &(impl Abort + AllocGlobal),
    store: &LocalStore,
    id: u64,
    count: usize,
    fits: bool,
) -> Result<(), Fail> {
    let commit = deletes(rt.alloc(), id, count)?;
    assert!(rt; store.fits(&commit) == fits, "{id} and {count}");
    Ok(())
}

fn check_batches(rt: &(impl Abort + AllocGlobal), store: &LocalStore) -> Result<(), Fail> {
    for (id, count, fits) in [
        (1, 1, true),
        (1, 500, true),
        (1, 0, false),
        (1, 501, false),
        (0, 1, false),
        (2, 1, false),
    ] {
        check_fits(rt, store, id, count, fits)?;
    }
    Ok(())
}

#[test]
fn commits_that_fit(rt: HostRuntime) -> Result<(), Fail> {
    let mut host = host_of(rt.alloc(), &[], &[])?;
    let store = LocalStore::open(rt.alloc(), &mut host)?;
    check_batches(&rt, &store)
}

/// A host of blank files whose call of this number fails.
fn failing_host(alloc: Global, call: u64) -> Result<MemHost, Fail> {
    let mut failing = Vec::new(alloc);
    failing.push(call)?;
    Ok(MemHost::new(alloc, Vec::new(alloc), Vec::new(alloc), failing)?)
}

/// What the commit meets on the store; nothing where it doesn't fit.
fn attempt<H: Host>(
    alloc: Global,
    host: &mut H,
    store: &mut LocalStore,
    payload: &[u8],
) -> Result<Option<StoreFault>, Fail>
    requires { IsTrue H.tells_files → IsStored store.old (H.view host.old) }
    ensures { IsTrue H.tells_files → IsStored store.new (H.view host.new) }
{
    let commit = decode(alloc, payload)?.ok_or("a commit")?;
    if !store.fits(&commit) {
        return Ok(None);
    }
    Ok(store.commit(alloc, host, commit).err())
}

/// What the first commit meets on a new store, tried twice.
fn faults(
    alloc: Global,
    host: &mut MemHost,
    payload: &[u8],
) -> Result<(Option<StoreFault>, Option<StoreFault>), Fail> {
    let mut store = LocalStore::open(alloc, host)?;
    let fault = attempt(alloc, host, &mut store, payload)?;
    let again = attempt(alloc, host, &mut store, payload)?;
    Ok((fault, again))
}

// a new store is formatted in 12 calls, and an append takes four more
#[test]
fn a_store_is_spent(rt: HostRuntime) -> Result<(), Fail> {
    let payload = payload(rt.alloc(), 1)?;
    for call in 13..17 {
        let mut host = failing_host(rt.alloc(), call)?;
        let (fault, again) = faults(rt.alloc(), &mut host, payload.as_slice())?;
        assert!(rt; fault == Some(StoreFault::DiskFault), "{call}");
        assert!(rt; again == Some(StoreFault::Spent), "{call}");
    }
    let mut host = failing_host(rt.alloc(), 17)?;
    let (fault, again) = faults(rt.alloc(), &mut host, payload.as_slice())?;
    assert!(rt; fault.is_none() && again.is_none());
    Ok(())
}
