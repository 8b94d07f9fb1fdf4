//! Whole runs, and the statuses that they end with.

use crate::fixtures::{
    GET, MISSING, OK, PENDING, WRITE, empty_host, host_again, host_over, is_joined, run_lines,
    run_words, source_of,
};
use client_run::{Status, run_within};
use document_keys::Database;
use host_api::{FileId, MemHost, MemSource};
use std::alloc::Global;
use std::process::Abort;
use std::test::Fail;

fn check_found_again(rt: &(impl Abort + AllocGlobal), host: &MemHost) -> Result<(), Fail> {
    let mut again = host_again(rt.alloc(), host)?;
    assert!(rt; run_lines(rt.alloc(), &[GET], &mut again)? == Status::Done);
    assert!(rt; again.output() == PENDING.as_bytes());
    Ok(())
}

#[test]
fn plainest_run(rt: HostRuntime) -> Result<(), Fail> {
    let mut host = empty_host(rt.alloc())?;
    assert!(rt; run_lines(rt.alloc(), &[GET, WRITE, GET], &mut host)? == Status::Done);
    assert!(rt; is_joined(host.output(), &[MISSING, OK, PENDING]));
    check_found_again(&rt, &host)
}

fn check_words(
    rt: &(impl Abort + AllocGlobal),
    words: &[&str],
    source: &mut MemSource,
) -> Result<(), Fail> {
    let mut host = empty_host(rt.alloc())?;
    assert!(rt; run_words(rt.alloc(), words, source, &mut host)? == Status::Usage);
    assert!(rt; host.calls() == 0);
    Ok(())
}

#[test]
fn wrong_words(rt: HostRuntime) -> Result<(), Fail> {
    let cases: [&[&str]; 7] = [
        &[],
        &["run"],
        &["run", ""],
        &["run", "-d"],
        &["run", "d", "projects/p"],
        &["get", "d"],
        &["soak", "1"],
    ];
    let mut source = source_of(rt.alloc(), &[WRITE], &[])?;
    for words in cases {
        check_words(&rt, words, &mut source)?;
    }
    Ok(())
}

fn run_two(alloc: Global, source: &mut MemSource, host: &mut MemHost) -> Result<Status, Fail> {
    let root = Database::read(alloc, "projects/demo/databases/(default)")?;
    Ok(run_within(alloc, root, source, host, 2))
}

fn check_budget(rt: &(impl Abort + AllocGlobal), source: &mut MemSource) -> Result<(), Fail> {
    let mut host = empty_host(rt.alloc())?;
    assert!(rt; run_two(rt.alloc(), source, &mut host)? == Status::Budget);
    assert!(rt; is_joined(host.output(), &[MISSING, MISSING]));
    Ok(())
}

#[test]
fn budget(rt: HostRuntime) -> Result<(), Fail> {
    let mut source = source_of(rt.alloc(), &[GET, GET, GET], &[])?;
    check_budget(&rt, &mut source)
}

fn check_fault(rt: &(impl Abort + AllocGlobal), source: &mut MemSource) -> Result<(), Fail> {
    let mut host = empty_host(rt.alloc())?;
    let status = run_words(rt.alloc(), &["run", "d"], source, &mut host)?;
    assert!(rt; status == Status::SourceFault);
    assert!(rt; host.output() == MISSING.as_bytes());
    Ok(())
}

#[test]
fn failing_source(rt: HostRuntime) -> Result<(), Fail> {
    let mut source = source_of(rt.alloc(), &[GET, GET], &[2])?;
    check_fault(&rt, &mut source)
}

const FOREIGN: [u8; 16] = [
    1, b'A', b'A', b'A', b'A', b'A', b'A', b'A', b'A', b'A', b'A', b'A', b'A', b'A', b'A', b'A',
];

#[test]
fn foreign_file(rt: HostRuntime) -> Result<(), Fail> {
    let mut host = host_over(rt.alloc(), &FOREIGN, &[], &[])?;
    assert!(rt; run_lines(rt.alloc(), &[WRITE], &mut host)? == Status::NotAStore);
    assert!(rt; host.file(FileId::Zero) == FOREIGN.as_slice());
    assert!(rt; host.output().is_empty());
    Ok(())
}
