ghost use Rattle.std.specs.Prelude.{◌≡◌, ◌+◌, ◌≤◌, ◌<◌, length, IfOk, IsNone};

use crate::source::{LINE_LIMIT, Line, SKIP_LIMIT, Source, SourceFault, newline_in};
use std::alloc::Global;
use std::io;
use std::io::{BufRead, ErrorKind};

/// A source over a buffered reader, as of the standard input. It tells nothing of the bytes that are left.
#[derive(Drop)]
pub struct StdSource<B: BufRead + Drop> {
    reader: B,
    skipping: bool,
    faults: u64,
}

// whether a read is to be tried again
fn is_interrupted(error: &io::Error) -> bool {
    error.kind() == ErrorKind::Interrupted
}

// Takes up to the next newline, but no more than `most` bytes: how many, and whether the line ends there.
fn skip_some<B: BufRead>(reader: &mut B, most: usize) -> Result<(usize, bool), SourceFault>
    ensures { IfOk result (λ r. r.0 ≤ most) }
{
    let buffer = match reader.fill_buf() {
        Ok(buffer) => buffer,
        Err(error) if is_interrupted(&error) => return Ok((0, false)),
        Err(_) => return Err(SourceFault::Failed),
    };
    if buffer.is_empty() {
        return Ok((0, true));
    }
    let window = &buffer[..buffer.len().min(most)];
    let (skipped, ends) = match newline_in(window) {
        Some(index) => (index + 1, true),
        None => (window.len(), false),
    };
    reader.consume(skipped);
    Ok((skipped, ends))
}

// Adds what the reader has to the line, which is the answer once it ends.
fn take_some<B: BufRead>(reader: &mut B, out: &mut Vec<u8>) -> Result<Option<Line>, SourceFault>
    requires { length out.old.items ≤ LINE_LIMIT }
    ensures { IfOk result (λ line. IsNone line → length out.new.items ≤ LINE_LIMIT) }
{
    let buffer = match reader.fill_buf() {
        Ok(buffer) => buffer,
        Err(error) if is_interrupted(&error) => return Ok(None),
        Err(_) => return Err(SourceFault::Failed),
    };
    if buffer.is_empty() {
        return Ok(Some(if out.is_empty() {
            Line::End
        } else {
            Line::Text
        }));
    }
    let room = LINE_LIMIT - out.len();
    let window = &buffer[..buffer.len().min(room + 1)];
    let (text, taken, line) = match newline_in(window) {
        Some(index) => (&window[..index], index + 1, Some(Line::Text)),
        None if window.len() <= room => (window, window.len(), None),
        None => (&window[..room], window.len(), Some(Line::TooLong)),
    };
    out.extend_from_slice(text)?;
    reader.consume(taken);
    Ok(line)
}

impl<B: BufRead + Drop> StdSource<B> {
    ghost use Rattle.host_api.specs.Edge.{stream_faults};

    /// A source before what the reader gives.
    pub fn new(reader: B) -> StdSource<B>
        ensures { stream_faults result ≡ 0 }
    {
        StdSource {
            reader,
            skipping: false,
            faults: 0,
        }
    }

    // Goes past the rest of a line that was too long.
    fn skip(&mut self) -> Result<(), SourceFault>
        ensures { self.new.faults ≡ self.old.faults }
    {
        let mut left = SKIP_LIMIT;
        for _ in 0..u64::MAX {
            if !self.skipping {
                return Ok(());
            }
            if left == 0 {
                break;
            }
            let (skipped, ends) = skip_some(&mut self.reader, left)?;
            left -= skipped;
            self.skipping = !ends;
        }
        Err(SourceFault::Failed)
    }

    fn take_line(&mut self, out: &mut Vec<u8>) -> Result<Line, SourceFault>
        ensures { self.new.faults ≡ self.old.faults }
    {
        self.skip()?;
        out.clear();
        for _ in 0..u64::MAX {
            if let Some(line) = take_some(&mut self.reader, out)? {
                self.skipping = line == Line::TooLong;
                return Ok(line);
            }
        }
        Err(SourceFault::Failed)
    }
}

impl<B: BufRead + Drop> Source for StdSource<B> {
    ghost use Rattle.std.specs.Prelude.{false, []};
    ghost use Rattle.host_api.specs.Edge.{stream_faults};

    ghost tells = { false };

    ghost left = { λ _. [] };

    ghost faults = { stream_faults };

    ghost answered = { λ _. 0 };

    fn line(&mut self, _alloc: Global, out: &mut Vec<u8>) -> Result<Line, SourceFault> {
        let result = self.take_line(out);
        if let Err(SourceFault::Failed) = result {
            self.faults = self.faults.saturating_add(1);
        }
        result
    }
}
