//! The listens of documents in limbo, by what each listener shows.

use crate::limbo::room;
use limbo_listens::LimboListens;
use std::alloc::Global;
use std::process::Abort;
use std::test::Fail;

/// The listener shows just this room in limbo.
fn put(alloc: Global, limbo: &mut LimboListens, id: u32, number: u32) -> Result<(), Fail> {
    let mut keys = Vec::new(alloc);
    keys.push(room(alloc, number)?)?;
    limbo.put(alloc, id, keys)?;
    Ok(())
}

/// Whether just these ids of listens change, and these run then.
fn settles(
    alloc: Global,
    limbo: &mut LimboListens,
    changed: &[i32],
    running: &[i32],
) -> Result<bool, Fail> {
    let ids = limbo.settle(alloc)?;
    let runs = limbo.ids(alloc)?;
    Ok(ids.as_slice() == changed && runs.as_slice() == running)
}

/// A listen stays for as long as one listener shows its room.
fn check_shared(rt: &(impl Abort + AllocGlobal), limbo: &mut LimboListens) -> Result<(), Fail> {
    put(rt.alloc(), limbo, 7, 1)?;
    put(rt.alloc(), limbo, 8, 1)?;
    assert!(rt; settles(rt.alloc(), limbo, &[1], &[1])?);
    limbo.remove(7);
    assert!(rt; settles(rt.alloc(), limbo, &[], &[1])?);
    put(rt.alloc(), limbo, 8, 2)?;
    assert!(rt; settles(rt.alloc(), limbo, &[1, 3], &[3])?);
    Ok(())
}

/// A refused listen starts again under a new id where its room is still shown.
fn check_again(rt: &(impl Abort + AllocGlobal), limbo: &mut LimboListens) -> Result<(), Fail> {
    assert!(rt; limbo.is_running(3));
    assert!(rt; limbo.refused(3).is_some());
    assert!(rt; limbo.key_of(3).is_none());
    assert!(rt; settles(rt.alloc(), limbo, &[5], &[5])?);
    limbo.put(rt.alloc(), 8, Vec::new(rt.alloc()))?;
    assert!(rt; settles(rt.alloc(), limbo, &[5], &[])?);
    Ok(())
}

#[test]
fn listens_of_listeners(rt: HostRuntime) -> Result<(), Fail> {
    let mut limbo = LimboListens::new(rt.alloc());
    check_shared(&rt, &mut limbo)?;
    check_again(&rt, &mut limbo)
}
