//! What the backend's side commits to a store: batches that are settled, points, and what is dropped.

use crate::journal::host_of;
use crate::stores::{is_made, number_of, payload, room};
use host_api::MemHost;
use local_store::LocalStore;
use std::alloc::Global;
use std::process::Abort;
use std::test::Fail;
use value_model::{DocState, Documents};

// each is spelled by hand, as docs/FORMATS.md says

/// The first batch was taken at 2024-05-01T00:00:02Z.
static TAKEN: [u8; 39] = [
    1, 2, 0, 0, 0, 0, 0, 0, 0, 1, 0, 0, 0, 0, 0x66, 0x31, 0x86, 2, 0, 0, 0, 0, 0, 0, 0, 0, 0, 0, 0,
    1, 0, 0, 0, 0, 0, 0, 0, 0, 0,
];

/// The first batch was refused.
static REFUSED: [u8; 10] = [1, 3, 0, 0, 0, 0, 0, 0, 0, 1];

/// The document `rooms/a` gets the id 2.
static ALLOCATED: [u8; 37] = [
    1, 4, 0, 0, 0, 2, 1, 0, 0, 0, 0, 0, 0, 0, 2, 0, 0, 0, 0, 0, 0, 0, 5, 0x72, 0x6f, 0x6f, 0x6d,
    0x73, 0, 0, 0, 0, 0, 0, 0, 1, 0x61,
];

/// Up to 2024-05-01T00:00:03Z: `rooms/a` isn't there, and the target 2 has the token 7 and no documents.
static TOLD: [u8; 94] = [
    1, 5, 0, 0, 0, 0, 0x66, 0x31, 0x86, 3, 0, 0, 0, 0, 0, 0, 0, 0, 0, 0, 0, 1, 0, 0, 0, 0, 0, 0, 0,
    2, 0, 0, 0, 0, 0, 0, 0, 5, 0x72, 0x6f, 0x6f, 0x6d, 0x73, 0, 0, 0, 0, 0, 0, 0, 1, 0x61, 2, 0, 0,
    0, 0, 0x66, 0x31, 0x86, 3, 0, 0, 0, 0, 0, 0, 0, 0, 0, 0, 0, 1, 0, 0, 0, 2, 0, 0, 0, 0, 0, 0, 0,
    1, 7, 0, 0, 0, 0, 0, 0, 0, 0,
];

/// The row of the target 2 is made blank.
static RESET: [u8; 14] = [1, 6, 0, 0, 0, 0, 0, 0, 0, 1, 0, 0, 0, 2];

/// The entry of `rooms/a` goes, and the row of the target 2 is made blank.
static DROPPED: [u8; 52] = [
    1, 7, 0, 0, 0, 0, 0, 0, 0, 1, 0, 0, 0, 0, 0, 0, 0, 2, 0, 0, 0, 0, 0, 0, 0, 5, 0x72, 0x6f, 0x6f,
    0x6d, 0x73, 0, 0, 0, 0, 0, 0, 0, 1, 0x61, 0, 0, 0, 0, 0, 0, 0, 1, 0, 0, 0, 2,
];

/// Opens the store and makes the commit that the bytes spell; whether it fits.
fn reopened_and_made(alloc: Global, host: &mut MemHost, bytes: &[u8]) -> Result<bool, Fail> {
    let mut store = LocalStore::open(alloc, host)?;
    is_made(alloc, host, &mut store, bytes)
}

/// What an opened store shows of `rooms/a`: its field, how it stands, and whether an unfinished write touches it.
fn shown(alloc: Global, host: &mut MemHost) -> Result<(Option<i64>, DocState, bool), Fail> {
    let key = room(alloc, "a")?;
    let store = LocalStore::open(alloc, host)?;
    Ok((
        number_of(&store, &key),
        store.state_of(&key),
        store.touched(&key),
    ))
}

fn begin(alloc: Global, host: &mut MemHost) -> Result<(), Fail> {
    let bytes = payload(alloc, 1)?;
    if !reopened_and_made(alloc, host, bytes.as_slice())? {
        return Err("the batch doesn't fit".into());
    }
    Ok(())
}

#[test]
fn a_taken_batch_leaves_its_document(rt: HostRuntime) -> Result<(), Fail> {
    let mut host = host_of(rt.alloc(), &[], &[])?;
    begin(rt.alloc(), &mut host)?;
    assert!(rt; reopened_and_made(rt.alloc(), &mut host, &TAKEN)?);
    assert!(rt; shown(rt.alloc(), &mut host)? == (Some(1), DocState::Committed, true));
    assert!(rt; !reopened_and_made(rt.alloc(), &mut host, &TAKEN)?);
    Ok(())
}

#[test]
fn a_refused_batch_leaves_nothing(rt: HostRuntime) -> Result<(), Fail> {
    let mut host = host_of(rt.alloc(), &[], &[])?;
    assert!(rt; !reopened_and_made(rt.alloc(), &mut host, &REFUSED)?);
    begin(rt.alloc(), &mut host)?;
    assert!(rt; shown(rt.alloc(), &mut host)? == (Some(1), DocState::Pending, true));
    assert!(rt; reopened_and_made(rt.alloc(), &mut host, &REFUSED)?);
    assert!(rt; shown(rt.alloc(), &mut host)? == (None, DocState::Unknown, false));
    Ok(())
}

#[test]
fn a_point_covers_what_was_taken(rt: HostRuntime) -> Result<(), Fail> {
    let mut host = host_of(rt.alloc(), &[], &[])?;
    begin(rt.alloc(), &mut host)?;
    for (bytes, fits) in [
        (TOLD.as_slice(), false),
        (&TAKEN, true),
        (&ALLOCATED, true),
        (&ALLOCATED, false),
        (&TOLD, true),
    ] {
        assert!(rt; reopened_and_made(rt.alloc(), &mut host, bytes)? == fits);
    }
    assert!(rt; shown(rt.alloc(), &mut host)? == (None, DocState::Synced, false));
    Ok(())
}

#[test]
fn rows_are_reset_and_entries_dropped(rt: HostRuntime) -> Result<(), Fail> {
    let mut host = host_of(rt.alloc(), &[], &[])?;
    for (bytes, fits) in [
        (ALLOCATED.as_slice(), true),
        (&RESET, false),
        (&TOLD, true),
        (&RESET, true),
        (&RESET, false),
        (&DROPPED, true),
    ] {
        assert!(rt; reopened_and_made(rt.alloc(), &mut host, bytes)? == fits);
    }
    assert!(rt; shown(rt.alloc(), &mut host)? == (None, DocState::Unknown, false));
    Ok(())
}
