//! `fsclient`: the offline core of a Cloud Firestore client, over a folder, the standard input and the standard output.
//!
//! `main` makes what the run needs: the words behind the program's name (`words_of`), a `StdSource` over the
//! standard input, and a `FileHost` over the folder that the words name. `run_client` does all else and answers the
//! status, which is the exit status of the process; at Usage the usage text goes to the standard error (`usage`).
#![tactic(auto)]

mod usage;
mod words;

use crate::usage::print_usage;
use crate::words::words_of;
use client_run::{Status, folder_of, run_client};
use host_api::{FileHost, StdSource};
use std::env::Env;
use std::fs::Files;
use std::io::BufReader;
use std::os::unix::fs::FileExt;
use std::process::ExitCode;

/// How many bytes of the standard input are read at once: as many as a pipe holds.
const READ_AHEAD: usize = 65536;

/// Runs what the words ask for over the folder that they name, the standard input and the standard output.
fn run<R: Files<File: FileExt> + Print + Input + Env + AllocGlobal + Clone + Drop>(
    rt: &R,
) -> Status {
    let words = match words_of(rt) {
        Ok(words) => words,
        Err(status) => return status,
    };
    let Ok(reader) = BufReader::with_capacity(rt.alloc(), READ_AHEAD, rt.reader()) else {
        return Status::NoMemory;
    };
    let handle: Result<R, _> = rt.clone();
    let Ok(handle) = handle else {
        return Status::NoMemory;
    };
    let Ok(folder) = folder_of(rt.alloc(), words.as_slice()) else {
        return Status::NoMemory;
    };
    let mut source = StdSource::new(reader);
    let mut host = FileHost::new(handle, folder);
    run_client(rt.alloc(), words.as_slice(), &mut source, &mut host)
}

fn main(rt: HostRuntime) -> ExitCode {
    let status = run(&rt);
    if status == Status::Usage {
        let _ = print_usage(&rt);
    }
    ExitCode::from(status as u8)
}
