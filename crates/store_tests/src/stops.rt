//! A journal with two payloads, stopped at each of its calls.

use crate::journal::{EMPTY, append, host_of, opened};
use disk_journal::Payloads;
use host_api::{CrashPick, FileId, MemHost};
use std::alloc::Global;
use std::process::Abort;
use std::test::Fail;

// a payload of 62 bytes, as a delete writes it
static FIRST: [u8; 62] = [
    1, 1, 0, 0, 0, 0, 0, 0, 0, 1, 0, 0, 0, 0, 0x66, 0x31, 0x86, 1, 0, 0, 0, 0, 0, 0, 0, 0, 0, 0, 0,
    1, 2, 0, 0, 0, 0, 0, 0, 0, 2, 0, 0, 0, 0, 0, 0, 0, 5, 0x72, 0x6f, 0x6f, 0x6d, 0x73, 0, 0, 0, 0,
    0, 0, 0, 1, 0x61, 0,
];

static SECOND: [u8; 2] = [7, 8];

fn check_payloads(rt: &impl Abort, found: &Payloads, count: usize) {
    assert!(rt; found.len() == count);
    if let Some(payload) = found.at(0) {
        assert!(rt; payload == FIRST.as_slice());
    }
    if let Some(payload) = found.at(1) {
        assert!(rt; payload == SECOND.as_slice());
    }
}

// opening the host gives so many of the two payloads, the first ones
fn check_gives(
    rt: &(impl Abort + AllocGlobal),
    host: &mut MemHost,
    count: usize,
) -> Result<(), Fail> {
    let found = opened(rt, host)?;
    check_payloads(rt, &found, count);
    Ok(())
}

#[test]
fn a_file_is_made(rt: HostRuntime) -> Result<(), Fail> {
    let mut host = host_of(rt.alloc(), &[], &[])?;
    check_gives(&rt, &mut host, 0)?;
    assert!(rt; host.file(FileId::Zero) == EMPTY.as_slice());
    assert!(rt; host.calls() == 12);
    Ok(())
}

fn check_length(rt: &impl Abort, host: &MemHost, calls: u64, len: usize) {
    assert!(rt; host.calls() == calls);
    assert!(rt; host.file(FileId::Zero).len() == len);
}

// a host with both payloads: 12 calls formatted it, six opened it again, and each append took four
fn host_with_both(rt: &(impl Abort + AllocGlobal)) -> Result<MemHost, Fail> {
    let mut host = host_of(rt.alloc(), &[], &[])?;
    let _ = append(rt.alloc(), &mut host, &FIRST)?;
    check_length(rt, &host, 16, 88);
    let _ = append(rt.alloc(), &mut host, &SECOND)?;
    check_length(rt, &host, 26, 99);
    Ok(host)
}

fn check_again(rt: &(impl Abort + AllocGlobal), host: &MemHost) -> Result<(), Fail> {
    let zero = host.file(FileId::Zero);
    let mut again = host_of(rt.alloc(), zero, host.file(FileId::One))?;
    check_gives(rt, &mut again, 2)
}

#[test]
fn payloads_are_found_again(rt: HostRuntime) -> Result<(), Fail> {
    let host = host_with_both(&rt)?;
    check_again(&rt, &host)
}

// one payload is left, the second one, and behind it none
fn check_left(rt: &(impl Abort + AllocGlobal), found: Payloads) -> Result<(), Fail> {
    let left = found.behind_first(rt.alloc())?;
    assert!(rt; left.len() == 1);
    assert!(rt; left.at(0) == Some(SECOND.as_slice()));
    let none = left.behind_first(rt.alloc())?.behind_first(rt.alloc())?;
    assert!(rt; none.len() == 0);
    Ok(())
}

#[test]
fn payloads_are_left_behind(rt: HostRuntime) -> Result<(), Fail> {
    let mut host = host_with_both(&rt)?;
    let found = opened(&rt, &mut host)?;
    check_left(&rt, found)
}

fn check_crash(
    rt: &(impl Abort + AllocGlobal),
    host: &MemHost,
    pick: &CrashPick,
    count: usize,
) -> Result<(), Fail> {
    let mut crashed = host.crash(rt.alloc(), pick)?;
    check_gives(rt, &mut crashed, count)
}

// a crash after so many calls leaves so many payloads, at the least and the greatest length of file 0
fn check_stop(
    rt: &(impl Abort + AllocGlobal),
    host: &MemHost,
    calls: u64,
    fill: Option<u8>,
    count: usize,
) -> Result<(), Fail> {
    for len0 in [0, u64::MAX] {
        let pick = CrashPick {
            calls,
            len0,
            len1: 0,
            fill,
        };
        check_crash(rt, host, &pick, count)?;
    }
    Ok(())
}

// after so many calls there are so many payloads, whatever fills the places that a crash leaves open
static STOPS: [(u64, usize); 9] = [
    (12, 0),
    (13, 0),
    (14, 0),
    (16, 1),
    (22, 1),
    (23, 1),
    (24, 1),
    (26, 2),
    (99, 2),
];

fn check_stops(rt: &(impl Abort + AllocGlobal), host: &MemHost) -> Result<(), Fail> {
    for (calls, count) in STOPS {
        for fill in [None, Some(0), Some(1), Some(255)] {
            check_stop(rt, host, calls, fill, count)?;
        }
    }
    Ok(())
}

#[test]
fn stop_in_an_append(rt: HostRuntime) -> Result<(), Fail> {
    let host = host_with_both(&rt)?;
    check_stops(&rt, &host)
}

// the calls 15 and 25 each open the gate of a record, which nothing but a gate of 1 lets count
fn check_gates(rt: &(impl Abort + AllocGlobal), host: &MemHost) -> Result<(), Fail> {
    check_stop(rt, host, 15, None, 1)?;
    check_stop(rt, host, 25, None, 2)?;
    for value in 0..=255 {
        let more = if value == 1 { 1 } else { 0 };
        check_stop(rt, host, 15, Some(value), more)?;
        check_stop(rt, host, 25, Some(value), 1 + more)?;
    }
    Ok(())
}

#[test]
fn stop_at_a_gate(rt: HostRuntime) -> Result<(), Fail> {
    let host = host_with_both(&rt)?;
    check_gates(&rt, &host)
}

fn with_gate(alloc: Global, bytes: &[u8], value: u8) -> Result<Vec<u8>, Fail> {
    let mut bytes = bytes.to_vec(alloc)?;
    let gate = bytes.get_mut(87).ok_or("a gate")?;
    *gate = value;
    Ok(bytes)
}

fn check_gate(
    rt: &(impl Abort + AllocGlobal),
    host: &MemHost,
    value: u8,
    count: usize,
) -> Result<(), Fail> {
    let bytes = with_gate(rt.alloc(), host.file(FileId::Zero), value)?;
    let mut other = host_of(rt.alloc(), bytes.as_slice(), &[])?;
    check_gives(rt, &mut other, count)
}

fn check_each_gate(rt: &(impl Abort + AllocGlobal), host: &MemHost) -> Result<(), Fail> {
    for value in 0..=255 {
        check_gate(rt, host, value, if value == 1 { 2 } else { 1 })?;
    }
    Ok(())
}

#[test]
fn each_gate(rt: HostRuntime) -> Result<(), Fail> {
    let host = host_with_both(&rt)?;
    check_each_gate(&rt, &host)
}
