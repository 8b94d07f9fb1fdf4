//! The host in memory: what its calls leave, and what a crash leaves of that.

use host_api::{CrashPick, Failed, FileId, Host, MemHost};
use std::alloc::Global;
use std::process::Abort;
use std::test::Fail;

fn write(
    rt: &impl Abort,
    host: &mut MemHost,
    file: FileId,
    at: u64,
    piece: &[u8],
) -> Result<(), Failed> {
    assert!(rt; at <= host.file(file).len() as u64);
    host.write(file, at, piece)
}

fn cut(rt: &impl Abort, host: &mut MemHost, file: FileId, len: u64) -> Result<(), Failed> {
    assert!(rt; len <= host.file(file).len() as u64);
    host.cut(file, len)
}

fn read(
    rt: &impl Abort,
    host: &mut MemHost,
    file: FileId,
    at: u64,
    into: &mut [u8],
) -> Result<(), Failed> {
    assert!(rt; at < 1000 && at as usize <= host.file(file).len());
    assert!(rt; into.len() <= host.file(file).len() - at as usize);
    host.read(file, at, into)
}

// a host of which the third call fails
fn fresh_host(alloc: Global) -> Result<MemHost, Fail> {
    let text = b"abcd".to_vec(alloc)?;
    let failing = vec![in alloc; 3]?;
    Ok(MemHost::new(alloc, text, Vec::new(alloc), failing)?)
}

fn first_calls(rt: &impl Abort, host: &mut MemHost) {
    assert!(rt; write(rt, host, FileId::Zero, 2, b"XYZ") == Ok(()));
    assert!(rt; host.emit(b"hi") == Ok(()));
    assert!(rt; write(rt, host, FileId::One, 0, b"q") == Err(Failed));
    assert!(rt; host.file(FileId::One).is_empty());
    assert!(rt; host.sync(FileId::Zero) == Ok(()));
}

fn later_calls(rt: &impl Abort, host: &mut MemHost) {
    assert!(rt; cut(rt, host, FileId::Zero, 1) == Ok(()));
    assert!(rt; write(rt, host, FileId::Zero, 1, b"mn") == Ok(()));
    assert!(rt; host.file_len(FileId::Zero) == Ok(3));
    let mut bytes = [0u8; 2];
    assert!(rt; read(rt, host, FileId::Zero, 1, &mut bytes) == Ok(()));
    assert!(rt; bytes.as_slice() == b"mn".as_slice());
}

fn used_host(rt: &(impl Abort + AllocGlobal)) -> Result<MemHost, Fail> {
    let mut host = fresh_host(rt.alloc())?;
    first_calls(rt, &mut host);
    later_calls(rt, &mut host);
    Ok(host)
}

#[test]
fn eight_calls(rt: HostRuntime) -> Result<(), Fail> {
    let host = used_host(&rt)?;
    assert!(rt; host.calls() == 8);
    assert!(rt; host.starved() == 0);
    assert!(rt; host.output() == b"hi".as_slice());
    assert!(rt; host.file(FileId::Zero) == b"amn".as_slice());
    Ok(())
}

const DASH: Option<u8> = Some(b'-');

// after so many calls, of this length, with this fill: what the files are
static CRASHES: [(u64, u64, Option<u8>, &[u8], &[u8]); 9] = [
    (0, 9, DASH, b"abcd", b""),
    (1, 9, DASH, b"ab---", b""),
    (1, 9, None, b"abXYZ", b""),
    (1, 0, None, b"abXY", b""),
    (3, 9, DASH, b"ab---", b"-"),
    (4, 0, DASH, b"abXYZ", b""),
    (5, 3, DASH, b"a--", b"-"),
    (99, 9, None, b"amn\0\0", b"\0"),
    (99, 0, DASH, b"a", b""),
];

fn check_crash(
    rt: &(impl Abort + AllocGlobal),
    host: &MemHost,
    pick: &CrashPick,
    zero: &[u8],
    one: &[u8],
) -> Result<(), Fail> {
    let crashed = host.crash(rt.alloc(), pick)?;
    assert!(rt;
        crashed.file(FileId::Zero) == zero,
        "after {} calls",
        pick.calls
    );
    assert!(rt;
        crashed.file(FileId::One) == one,
        "after {} calls",
        pick.calls
    );
    assert!(rt; crashed.calls() == 0);
    Ok(())
}

fn check_crashes(rt: &(impl Abort + AllocGlobal), host: &MemHost) -> Result<(), Fail> {
    for (calls, len, fill, zero, one) in CRASHES {
        let pick = CrashPick {
            calls,
            len0: len,
            len1: len,
            fill,
        };
        check_crash(rt, host, &pick, zero, one)?;
    }
    Ok(())
}

#[test]
fn crashes(rt: HostRuntime) -> Result<(), Fail> {
    let host = used_host(&rt)?;
    check_crashes(&rt, &host)
}
