ghost use Rattle.std.specs.Prelude.{◌≡◌, ◌≤◌, ◌<◌, ◌⊎◌, false, [], length, drop, IsTrue, MatchBool, MatchOption, IfOk, OnErr, IsErrOf};
ghost use Rattle.host_api.specs.Items.{split, item_of, Next, IsSuffix};
ghost use Rattle.host_api.specs.Counts.{SourceCounts, CountsAnswered};
ghost use Rattle.host_api.specs.Front.{IsFront};
ghost use Rattle.host_api.specs.Reading.{IsListed, left_of, next_number, SameCounts, IsWholeSkip, EndsSkip, SkipsAll, Refuses, Skips, Leaves};

use crate::source::{LINE_LIMIT, Line, SKIP_LIMIT, Source, SourceFault, newline_in};
use std::alloc::{AllocError, Global};
use std::marker::Model;

/// A source over bytes in memory, of which chosen calls fail.
///
/// A call answers `Failed` exactly where its number, from 1, is listed, or where it skipped 4,294,967,296 bytes of a line
/// that was too long. It then takes nothing.
#[derive(Debug, Drop)]
pub struct MemSource {
    text: Vec<u8>,
    at: usize,
    skipping: bool,
    failing: Vec<u64>,
    calls: u64,
    faults: u64,
    answered: u64,
}

impl Model for MemSource {
    ghost use Rattle.std.specs.Prelude.{◌≤◌, length, drop};
    ghost use Rattle.host_api.specs.Reading.{Reading};

    ghost Value = { Reading };

    ghost view = { λ s. record { text = drop s.at s.text.items; skipping = s.skipping; failing = s.failing.items; calls = s.calls; faults = s.faults; answered = s.answered } };

    ghost invariant = { λ s. s.at ≤ length s.text.items };
}

// what a stream begins with
enum Front {
    // nothing is left
    Nothing,
    // a line, and how many bytes it takes with its newline
    Line { length: usize, taken: usize },
    TooLong,
}

fn front_of(rest: &[u8]) -> Front
    ensures { IsFront result rest.now }
{
    if rest.is_empty() {
        return Front::Nothing;
    }
    let window = &rest[..rest.len().min(LINE_LIMIT + 1)];
    match newline_in(window) {
        Some(length) => Front::Line {
            length,
            taken: length + 1,
        },
        None if window.len() <= LINE_LIMIT => Front::Line {
            length: window.len(),
            taken: window.len(),
        },
        None => Front::TooLong,
    }
}

// How many bytes the rest of a line takes with its newline. None where the bound of one call comes first.
fn rest_of_line(rest: &[u8]) -> Option<usize>
    ensures { MatchOption result (IsWholeSkip rest.now) (λ n. EndsSkip n rest.now) }
{
    let window = &rest[..rest.len().min(SKIP_LIMIT)];
    match newline_in(window) {
        Some(index) => Some(index + 1),
        None if window.len() < SKIP_LIMIT => Some(rest.len()),
        None => None,
    }
}

impl MemSource {
    /// A source before the text. The calls with these numbers, from 1, answer `Failed`.
    pub fn new(text: Vec<u8>, failing: Vec<u64>) -> MemSource
        ensures { result ≡ record {
          text = text.items;
          skipping = false;
          failing = failing.items;
          calls = 0;
          faults = 0;
          answered = 0;
        } }
    {
        MemSource {
            text,
            at: 0,
            skipping: false,
            failing,
            calls: 0,
            faults: 0,
            answered: 0,
        }
    }

    // Counts a call, and tells whether it is one of those that fail.
    fn begin(&mut self) -> bool
        ensures listed { MatchBool result (IsListed self.old) (IsListed self.old → ⊥) }
        ensures number { self.new.calls ≡ next_number self.old }
        ensures rest { (self.new.text ≡ self.old.text) × (self.new.skipping ≡ self.old.skipping) }
        ensures counts { (self.new.failing ≡ self.old.failing) × (self.new.faults ≡ self.old.faults) }
        ensures answered { self.new.answered ≡ self.old.answered }
    {
        self.calls = self.calls.saturating_add(1);
        self.failing.contains(&self.calls)
    }

    fn rest(&self) -> &[u8]
        ensures { result.now ≡ self.now.text }
    {
        &self.text[self.at..]
    }

    fn advance(&mut self, count: usize)
        requires { count ≤ length self.old.text }
        ensures { self.new ≡ record self.old { text = drop count self.old.text } }
    {
        self.at += count;
    }

    // Goes past the rest of a line that was too long. False where the bound of one call came first.
    fn skip(&mut self) -> bool
        ensures left { left_of self.new ≡ left_of self.old }
        ensures behind { IsTrue result → self.new.skipping ≡ false }
        ensures bound { MatchBool result (SkipsAll self.old → ⊥) (Skips self.old self.new) }
        ensures counts { SameCounts self.old self.new }
    {
        if !self.skipping {
            return true;
        }
        let Some(count) = rest_of_line(self.rest()) else {
            self.advance(SKIP_LIMIT);
            return false;
        };
        self.advance(count);
        self.skipping = false;
        true
    }

    // Puts the next line into the empty `out`.
    fn take_line(&mut self, out: &mut Vec<u8>) -> Result<Line, AllocError>
        requires start { self.old.skipping ≡ false }
        requires empty { out.old.items ≡ [] }
        ensures takes { IfOk result (λ line. Next (item_of line out.new.items)
            (split (left_of self.old)) (split (left_of self.new))) }
        ensures leaves { IfOk result (λ line. Leaves line self.old self.new) }
        ensures stays { OnErr result (self.new ≡ self.old) }
        ensures counts { SameCounts self.old self.new }
    {
        match front_of(self.rest()) {
            Front::Nothing => Ok(Line::End),
            Front::Line { length, taken } => {
                out.extend_from_slice(&self.rest()[..length])?;
                self.advance(taken);
                Ok(Line::Text)
            }
            Front::TooLong => {
                self.advance(LINE_LIMIT + 1);
                self.skipping = true;
                Ok(Line::TooLong)
            }
        }
    }
}

impl Source for MemSource {
    ghost use Rattle.std.specs.Prelude.{true};
    ghost use Rattle.host_api.specs.Reading.{left_of};

    ghost tells = { true };

    ghost left = { left_of };

    ghost faults = { λ s. s.faults };

    ghost answered = { λ s. s.answered };

    fn line(&mut self, _alloc: Global, out: &mut Vec<u8>) -> Result<Line, SourceFault>
        ensures takes { IfOk result (λ line. Next (item_of line out.new.items)
            (split (left_of self.old)) (split (left_of self.new))) }
        ensures stays { OnErr result (left_of self.new ≡ left_of self.old) }
        ensures suffix { OnErr result (IsSuffix (left_of self.old) (left_of self.new)) }
        ensures cause { SourceCounts result self.old.faults self.new.faults }
        ensures counted { CountsAnswered result self.old.answered self.new.answered }
        ensures leaves { IfOk result (λ line. Leaves line self.old self.new) }
        ensures failed { IsErrOf result SourceFault.Failed → Refuses self.old self.new
            ⊎ Skips self.old self.new }
        ensures fails { IsListed self.old ⊎ SkipsAll self.old → IsErrOf result SourceFault.Failed }
        ensures number { self.new.calls ≡ next_number self.old }
        ensures failing { self.new.failing ≡ self.old.failing }
    {
        if self.begin() || !self.skip() {
            self.faults = self.faults.saturating_add(1);
            return Err(SourceFault::Failed);
        }
        out.clear();
        let line = self.take_line(out)?;
        self.answered = self.answered.saturating_add(1);
        Ok(line)
    }
}
