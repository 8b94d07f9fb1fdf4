//! A run whose call fails, and a crash after each call.

use crate::fixtures::{
    GET, MISSING, OK, PENDING, WRITE, behind, empty_host, host_again, host_over, run_lines,
};
use client_run::Status;
use host_api::{CrashPick, MemHost};
use std::alloc::Global;
use std::process::Abort;
use std::test::Fail;

// whether the document's write is in the files
fn has_write(alloc: Global, host: &mut MemHost) -> Result<bool, Fail> {
    if run_lines(alloc, &[GET], host)? != Status::Done {
        return Err("the store opens".into());
    }
    let found = host.output() == PENDING.as_bytes();
    if !found && host.output() != MISSING.as_bytes() {
        return Err("the document is there, or it isn't".into());
    }
    Ok(found)
}

fn has_write_again(alloc: Global, host: &MemHost) -> Result<bool, Fail> {
    let mut again = host_again(alloc, host)?;
    has_write(alloc, &mut again)
}

// how many calls the run of one write takes
pub(crate) fn last_call(rt: &(impl Abort + AllocGlobal)) -> Result<u64, Fail> {
    let mut host = empty_host(rt.alloc())?;
    assert!(rt; run_lines(rt.alloc(), &[WRITE], &mut host)? == Status::Done);
    Ok(host.calls())
}

fn check_failing(rt: &(impl Abort + AllocGlobal), call: u64, wanted: Status) -> Result<bool, Fail> {
    let mut host = host_over(rt.alloc(), &[], &[], &[call])?;
    assert!(rt; run_lines(rt.alloc(), &[WRITE], &mut host)? == wanted);
    assert!(rt; host.output().is_empty());
    has_write_again(rt.alloc(), &host)
}

#[test]
fn failing_host(rt: HostRuntime) -> Result<(), Fail> {
    let last = last_call(&rt)?;
    for call in 1..last {
        let _ = check_failing(&rt, call, Status::DiskFault)?;
    }
    assert!(rt; check_failing(&rt, last, Status::SinkFault)?);
    Ok(())
}

fn survives_pick(alloc: Global, host: &MemHost, pick: &CrashPick) -> Result<bool, Fail> {
    let mut crashed = host.crash(alloc, pick)?;
    has_write(alloc, &mut crashed)
}

// whether the write is found after a crash at this place, whatever stands at the torn places
fn survives(alloc: Global, host: &MemHost, calls: u64, len0: u64) -> Result<bool, Fail> {
    let mut found = true;
    for fill in [None, Some(0), Some(1), Some(255)] {
        let pick = CrashPick {
            calls,
            len0,
            len1: u64::MAX,
            fill,
        };
        found &= survives_pick(alloc, host, &pick)?;
    }
    Ok(found)
}

// whether the write is reported at the end of a run whose call after these fails
fn is_reported_after(alloc: Global, calls: u64) -> Result<bool, Fail> {
    let mut host = host_over(alloc, &[], &[], &[calls.saturating_add(1)])?;
    let _ = run_lines(alloc, &[GET, WRITE, GET], &mut host)?;
    Ok(behind(host.output(), &[MISSING, OK]).is_some())
}

// a crash after so many calls finds the write where it was reported by then
fn check_crash(rt: &(impl Abort + AllocGlobal), host: &MemHost, calls: u64) -> Result<bool, Fail> {
    let reported = is_reported_after(rt.alloc(), calls)?;
    let short = survives(rt.alloc(), host, calls, 0)?;
    let long = survives(rt.alloc(), host, calls, u64::MAX)?;
    assert!(rt; !reported || (short && long), "after {calls} calls");
    Ok(reported)
}

fn check_crashes(rt: &(impl Abort + AllocGlobal), host: &MemHost) -> Result<(), Fail> {
    let mut reported = false;
    for calls in 0..=host.calls() {
        reported = check_crash(rt, host, calls)?;
    }
    assert!(rt; reported);
    Ok(())
}

#[test]
fn crashes(rt: HostRuntime) -> Result<(), Fail> {
    let mut host = empty_host(rt.alloc())?;
    assert!(rt; run_lines(rt.alloc(), &[GET, WRITE, GET], &mut host)? == Status::Done);
    check_crashes(&rt, &host)
}
