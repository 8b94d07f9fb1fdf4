//! Lines and their answers, and hosts and sources in memory.

use client_run::{Status, run_client};
use host_api::{FileId, MemHost, MemSource};
use std::alloc::Global;
use std::test::Fail;

pub(crate) const WRITE: &str =
    r#"{"write":{"at":"2024-05-01T00:00:01Z","writes":[{"update":{"name":"projects/demo/databases/(default)/documents/rooms/a","fields":{"n":{"integerValue":"1"}}}}]}}"#;

pub(crate) const GET: &str =
    r#"{"get":{"name":"projects/demo/databases/(default)/documents/rooms/a"}}"#;

pub(crate) const OK: &str = "{\"ok\":{\"batch\":1,\"commit\":1}}\n";

pub(crate) const PENDING: &str =
    "{\"document\":{\"exists\":true,\"fields\":{\"n\":{\"integerValue\":\"1\"}},\"name\":\"projects/demo/databases/(default)/documents/rooms/a\",\"state\":\"pending\"}}\n";

pub(crate) const MISSING: &str =
    "{\"document\":{\"exists\":false,\"name\":\"projects/demo/databases/(default)/documents/rooms/a\",\"state\":\"unknown\"}}\n";

/// A host over these two files, of which the calls with these numbers fail.
pub(crate) fn host_over(
    alloc: Global,
    zero: &[u8],
    one: &[u8],
    failing: &[u64],
) -> Result<MemHost, Fail> {
    let zero = zero.to_vec(alloc)?;
    let one = one.to_vec(alloc)?;
    let failing = failing.to_vec(alloc)?;
    Ok(MemHost::new(alloc, zero, one, failing)?)
}

/// A host over empty files.
pub(crate) fn empty_host(alloc: Global) -> Result<MemHost, Fail> {
    host_over(alloc, &[], &[], &[])
}

/// A host over what the files of another give.
pub(crate) fn host_again(alloc: Global, host: &MemHost) -> Result<MemHost, Fail> {
    host_over(alloc, host.file(FileId::Zero), host.file(FileId::One), &[])
}

fn text_of(alloc: Global, lines: &[&str]) -> Result<Vec<u8>, Fail> {
    let mut text = Vec::new(alloc);
    for line in lines {
        text.extend_from_slice(line.as_bytes())?;
        text.push(b'\n')?;
    }
    Ok(text)
}

/// A source of these lines, of which the calls with these numbers fail.
pub(crate) fn source_of(alloc: Global, lines: &[&str], failing: &[u64]) -> Result<MemSource, Fail> {
    let text = text_of(alloc, lines)?;
    let failing = failing.to_vec(alloc)?;
    Ok(MemSource::new(text, failing))
}

fn words_of(alloc: Global, words: &[&str]) -> Result<Vec<String>, Fail> {
    let mut given = Vec::new(alloc);
    for word in words {
        given.push(String::from_str(alloc, word)?)?;
    }
    Ok(given)
}

/// The status of a run with these words over the source and the host.
pub(crate) fn run_words(
    alloc: Global,
    words: &[&str],
    source: &mut MemSource,
    host: &mut MemHost,
) -> Result<Status, Fail> {
    let words = words_of(alloc, words)?;
    Ok(run_client(alloc, words.as_slice(), source, host))
}

/// The status of a run of the lines over the host.
pub(crate) fn run_lines(alloc: Global, lines: &[&str], host: &mut MemHost) -> Result<Status, Fail> {
    let mut source = source_of(alloc, lines, &[])?;
    run_words(alloc, &["run", "d"], &mut source, host)
}

/// What stands behind these texts, if the bytes begin with them, one behind the other.
pub(crate) fn behind<'a>(bytes: &'a [u8], texts: &[&str]) -> Option<&'a [u8]> {
    let mut rest = bytes;
    for text in texts {
        rest = rest.strip_prefix(text.as_bytes())?;
    }
    Some(rest)
}

/// Whether the bytes are these texts, one behind the other.
pub(crate) fn is_joined(bytes: &[u8], texts: &[&str]) -> bool {
    behind(bytes, texts).is_some_and(|rest| rest.is_empty())
}
