//! A host over a folder of the operating system.

use host_api::{Failed, FileHost, FileId, Host};
use std::fs::Files;
use std::io::Print;
use std::os::unix::fs::FileExt;
use std::process::Abort;
use std::test::Fail;
use std::{env, fs, process};

fn check_written<R: Files<File: FileExt> + Print + Drop>(rt: &impl Abort, host: &mut FileHost<R>) {
    assert!(rt; host.emit(b"files\n") == Ok(()));
    assert!(rt; host.file_len(FileId::Zero) == Ok(0));
    assert!(rt; host.write(FileId::Zero, 0, b"abcdef") == Ok(()));
    assert!(rt; host.write(FileId::Zero, 2, b"XY") == Ok(()));
    assert!(rt; host.sync(FileId::Zero) == Ok(()));
    assert!(rt; host.cut(FileId::Zero, 5) == Ok(()));
}

fn check_read<R: Files<File: FileExt> + Print + Drop>(rt: &impl Abort, host: &mut FileHost<R>) {
    let mut bytes = [0u8; 5];
    assert!(rt; host.read(FileId::Zero, 0, &mut bytes) == Ok(()));
    assert!(rt; bytes.as_slice() == b"abXYe".as_slice());
    assert!(rt; host.read(FileId::Zero, 1, &mut bytes) == Err(Failed));
    assert!(rt; host.write(FileId::One, 1 << 62, b"a") == Err(Failed));
}

// a folder of this process
fn top_folder(rt: &HostRuntime) -> Result<String, Fail> {
    let name = format!(in rt.alloc(); "fsclient-host_api-{}", process::id(rt.process()))?;
    let top = env::temp_dir(rt)?.join(rt.alloc(), name.as_str())?;
    Ok(String::from_str(rt.alloc(), top.as_str())?)
}

fn host_in(rt: &HostRuntime, top: &str) -> Result<FileHost<HostRuntime>, Fail> {
    let folder = format!(in rt.alloc(); "{top}/journals")?;
    Ok(FileHost::new(rt.clone()?, folder))
}

fn file_in(rt: &HostRuntime, top: &str) -> Result<Vec<u8>, Fail> {
    let path = format!(in rt.alloc(); "{top}/journals/journal.0")?;
    Ok(fs::read(rt, path.as_str())?)
}

fn has_file(rt: &HostRuntime, top: &str) -> Result<bool, Fail> {
    let bytes = file_in(rt, top)?;
    Ok(bytes.as_slice() == b"abXYe".as_slice())
}

#[test]
fn files(rt: HostRuntime) -> Result<(), Fail> {
    let top = top_folder(&rt)?;
    let _ = fs::remove_dir_all(&rt, top.as_str());
    let mut host = host_in(&rt, top.as_str())?;
    check_written(&rt, &mut host);
    check_read(&rt, &mut host);
    assert!(rt; has_file(&rt, top.as_str())?);
    fs::remove_dir_all(&rt, top.as_str())?;
    Ok(())
}
