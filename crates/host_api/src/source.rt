ghost use Rattle.std.specs.Prelude.{◌≡◌, ◌<◌, ℕ, Bool, List, length, take, slice_index, IsTrue, MatchOption, IfOk, OnErr};
ghost use Rattle.host_api.specs.Items.{split, item_of, Next, IsSuffix};
ghost use Rattle.host_api.specs.Counts.{SourceCounts, CountsAnswered};
ghost use Rattle.host_api.specs.Reading.{IsLine};

use memchr::memchr;
use std::alloc::{AllocError, Global};

// the most bytes that a line may have
pub(crate) const LINE_LIMIT: usize = 4_194_304;
// the most bytes that one call skips
pub(crate) const SKIP_LIMIT: usize = 4_294_967_296;

// where the first newline is
pub(crate) fn newline_in(text: &[u8]) -> Option<usize>
    ensures { MatchOption result (IsLine text.now)
        (λ i. (i < length text.now) × IsLine (take i text.now) × (slice_index text.now i ≡ 10)) }
{
    memchr(b'\n', text)
}

/// What a call of [`Source::line`] found.
#[derive(Clone, Copy, Debug, PartialEq, Eq)]
pub enum Line {
    /// A line of at most 4,194,304 bytes, without its newline.
    Text,
    /// A line of more than 4,194,304 bytes. It isn't kept.
    TooLong,
    /// Nothing is left.
    End,
}

/// Why a call of [`Source::line`] has no answer.
#[derive(Clone, Copy, Debug, PartialEq, Eq)]
pub enum SourceFault {
    /// The source failed, and counted it.
    Failed,
    /// There was no memory for the line.
    NoMemory,
}

impl From<AllocError> for SourceFault {
    ghost use Rattle.std.specs.Prelude.{◌≡◌};
    ghost use Rattle.host_api.specs.declared.source.SourceFault.TheVariants as fault;

    ghost from_gives = { λ _ e. e ≡ fault.NoMemory };

    fn from(_error: AllocError) -> SourceFault {
        SourceFault::NoMemory
    }
}

/// Lines, one at a time.
pub trait Source {
    // whether the source tells which bytes are left, and counts its answers
    ghost tells: { Bool };
    // the bytes that are left; after a line that is too long they begin past it
    ghost left: { Self → List ℕ };
    // how often the source has failed
    ghost faults: { Self → ℕ };
    // how many calls were answered, where that is told, up to the last value of a `u64`
    ghost answered: { Self → ℕ };

    /// Clears `out` and puts the next line there, without its newline. A last line without a newline counts
    /// where it isn't empty. After [`Line::TooLong`] and [`Line::End`] nothing is said of `out`.
    ///
    /// # Errors
    /// `Failed` only where the count of faults rose by one, `NoMemory` where the line found no room. After either, no line
    /// was taken, the bytes left are a suffix of those before, and nothing is said of `out`. A call counts as answered just
    /// where it met neither.
    fn line(&mut self, alloc: Global, out: &mut Vec<u8>) -> Result<Line, SourceFault>
        ensures takes { IsTrue tells → IfOk result
            (λ line. Next (item_of line out.new.items) (split (left self.old))
            (split (left self.new))) }
        ensures suffix { IsTrue tells → OnErr result (IsSuffix (left self.old) (left self.new)) }
        ensures counted { IsTrue tells → CountsAnswered result (answered self.old) (answered self.new) }
        ensures cause { SourceCounts result (faults self.old) (faults self.new) };
}
