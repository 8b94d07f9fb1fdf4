//! Files as a journal opens them, and what an append leaves in them.

use disk_journal::{Frame, Journal, OpenFault, Payloads};
use host_api::{FileId, MemHost};
use std::alloc::Global;
use std::process::Abort;
use std::test::Fail;

/// The file of generation 1 with no record.
pub(crate) static EMPTY: [u8; 17] = [
    1, 0x46, 0x53, 0x4a, 0x52, 0x4e, 0x4c, 0x31, 0, 0, 0, 0, 0, 0, 0, 1, 0,
];

// the same with the record of the payload [7, 8], the gate of a third record closed, and what a torn write left
static ONE_RECORD: [u8; 31] = [
    1, 0x46, 0x53, 0x4a, 0x52, 0x4e, 0x4c, 0x31, 0, 0, 0, 0, 0, 0, 0, 1, 1, 0, 0, 0, 0, 0, 0, 0, 2,
    7, 8, 2, 1, 9, 9,
];

// the record of the payload [7, 8] with its gates
static RECORD: [u8; 12] = [1, 0, 0, 0, 0, 0, 0, 0, 2, 7, 8, 0];

/// A host whose files hold these bytes.
pub(crate) fn host_of(alloc: Global, zero: &[u8], one: &[u8]) -> Result<MemHost, Fail> {
    let zero = zero.to_vec(alloc)?;
    let one = one.to_vec(alloc)?;
    Ok(MemHost::new(alloc, zero, one, Vec::new(alloc))?)
}

/// Opens the files, which count as file 0 of generation 1, and tells the payloads.
pub(crate) fn opened(
    rt: &(impl Abort + AllocGlobal),
    host: &mut MemHost,
) -> Result<Payloads, Fail> {
    let (journal, file, found) = Journal::open(rt.alloc(), host)?;
    assert!(rt; journal.generation() == 1);
    assert!(rt; file == FileId::Zero);
    Ok(found)
}

/// Opens the files and appends the payload.
pub(crate) fn append(alloc: Global, host: &mut MemHost, payload: &[u8]) -> Result<Journal, Fail> {
    let frame = Frame::make(alloc, payload)?;
    let (journal, _, _) = Journal::open(alloc, host)?;
    Ok(journal.append(host, &frame)?)
}

// the files give so many payloads, after so many calls
fn check_open(
    rt: &(impl Abort + AllocGlobal),
    host: &mut MemHost,
    count: usize,
    calls: u64,
) -> Result<(), Fail> {
    let found = opened(rt, host)?;
    assert!(rt; found.len() == count);
    assert!(rt; host.calls() == calls);
    Ok(())
}

// the record of [7, 8] is put at the end of what counts
fn check_append(
    rt: &(impl Abort + AllocGlobal),
    host: &mut MemHost,
    end: usize,
) -> Result<(), Fail> {
    let journal = append(rt.alloc(), host, &[7, 8])?;
    assert!(rt; journal.generation() == 1);
    let (front, rest) = host
        .file(FileId::Zero)
        .split_at_checked(end)
        .ok_or("an end")?;
    assert!(rt; front.starts_with(&EMPTY[..16]));
    assert!(rt; rest.starts_with(&RECORD));
    Ok(())
}

fn check_file(
    rt: &(impl Abort + AllocGlobal),
    bytes: &[u8],
    count: usize,
    calls: u64,
    end: usize,
) -> Result<(), Fail> {
    let mut host = host_of(rt.alloc(), bytes, &[])?;
    check_open(rt, &mut host, count, calls)?;
    check_append(rt, &mut host, end)
}

#[test]
fn files_are_read(rt: HostRuntime) -> Result<(), Fail> {
    check_file(&rt, &EMPTY, 0, 6, 16)?;
    check_file(&rt, &ONE_RECORD, 1, 6, 27)
}

// a blank file is formatted: its gate is closed first, unless it is closed
#[test]
fn blank_files_are_made(rt: HostRuntime) -> Result<(), Fail> {
    check_file(&rt, &[], 0, 12, 16)?;
    check_file(&rt, &EMPTY[..15], 0, 12, 16)?;
    check_file(&rt, &EMPTY[16..], 0, 10, 16)
}

fn check_foreign(rt: &(impl Abort + AllocGlobal), bytes: &[u8]) -> Result<(), Fail> {
    let mut host = host_of(rt.alloc(), bytes, &[])?;
    assert!(rt;
        matches!(
            Journal::open(rt.alloc(), &mut host),
            Err(OpenFault::NotAStore(FileId::Zero))
        )
    );
    Ok(())
}

#[test]
fn foreign_files(rt: HostRuntime) -> Result<(), Fail> {
    check_foreign(&rt, &EMPTY[..16])?;
    check_foreign(&rt, &ONE_RECORD[..27])
}
