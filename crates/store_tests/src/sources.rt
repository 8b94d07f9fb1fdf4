//! Lines, from memory and from a stream.

use host_api::{Line, MemSource, Source, SourceFault, StdSource};
use std::alloc::Global;
use std::process::Abort;
use std::test::Fail;

static CASES: [(&str, &[&str]); 6] = [
    ("", &[]),
    ("a", &["a"]),
    ("a\n", &["a"]),
    ("\n", &[""]),
    ("a\n\nbc", &["a", "", "bc"]),
    ("x\ny\n", &["x", "y"]),
];

fn check_line<S: Source>(rt: &(impl Abort + AllocGlobal), source: &mut S, line: &str) {
    let mut out = Vec::new(rt.alloc());
    assert!(rt; source.line(rt.alloc(), &mut out) == Ok(Line::Text));
    assert!(rt; out.as_slice() == line.as_bytes());
}

fn told<S: Source>(alloc: Global, source: &mut S) -> Result<Line, SourceFault> {
    let mut out = Vec::new(alloc);
    source.line(alloc, &mut out)
}

// the source gives these lines and then nothing more
fn check_lines<S: Source>(rt: &(impl Abort + AllocGlobal), source: &mut S, lines: &[&str]) {
    for line in lines {
        check_line(rt, source, line);
    }
    assert!(rt; told(rt.alloc(), source) == Ok(Line::End));
    assert!(rt; told(rt.alloc(), source) == Ok(Line::End));
}

fn check_memory(rt: &(impl Abort + AllocGlobal), text: &str, lines: &[&str]) -> Result<(), Fail> {
    let mut source = MemSource::new(text.as_bytes().to_vec(rt.alloc())?, Vec::new(rt.alloc()));
    check_lines(rt, &mut source, lines);
    Ok(())
}

#[test]
fn lines_from_memory(rt: HostRuntime) -> Result<(), Fail> {
    for (text, lines) in CASES {
        check_memory(&rt, text, lines)?;
    }
    Ok(())
}

fn check_stream(rt: &(impl Abort + AllocGlobal), text: &str, lines: &[&str]) {
    let mut source = StdSource::new(text.as_bytes());
    check_lines(rt, &mut source, lines);
}

#[test]
fn lines_from_a_stream(rt: HostRuntime) {
    for (text, lines) in CASES {
        check_stream(&rt, text, lines);
    }
}

// a line of this many bytes, and one of one byte
fn long_text(alloc: Global, len: usize) -> Result<Vec<u8>, Fail> {
    let mut text = vec![in alloc; b'a'; len]?;
    text.extend_from_slice(b"\nz")?;
    Ok(text)
}

fn check_long_stream(
    rt: &(impl Abort + AllocGlobal),
    len: usize,
    wanted: Line,
) -> Result<(), Fail> {
    let text = long_text(rt.alloc(), len)?;
    let mut source = StdSource::new(text.as_slice());
    assert!(rt; told(rt.alloc(), &mut source) == Ok(wanted));
    check_lines(rt, &mut source, &["z"]);
    Ok(())
}

#[test]
fn long_lines_from_a_stream(rt: HostRuntime) -> Result<(), Fail> {
    check_long_stream(&rt, 4_194_304, Line::Text)?;
    check_long_stream(&rt, 4_194_305, Line::TooLong)
}

// a source whose second call fails
fn long_source(alloc: Global, len: usize) -> Result<MemSource, Fail> {
    let text = long_text(alloc, len)?;
    Ok(MemSource::new(text, vec![in alloc; 2]?))
}

fn check_long_memory(
    rt: &(impl Abort + AllocGlobal),
    len: usize,
    wanted: Line,
) -> Result<(), Fail> {
    let mut source = long_source(rt.alloc(), len)?;
    assert!(rt; told(rt.alloc(), &mut source) == Ok(wanted));
    assert!(rt; told(rt.alloc(), &mut source) == Err(SourceFault::Failed));
    check_lines(rt, &mut source, &["z"]);
    Ok(())
}

#[test]
fn long_lines_from_memory(rt: HostRuntime) -> Result<(), Fail> {
    check_long_memory(&rt, 4_194_304, Line::Text)?;
    check_long_memory(&rt, 4_194_305, Line::TooLong)
}
