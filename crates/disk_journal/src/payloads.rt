//! The payloads of a file, lent from the buffer that was read, which shrinks as they are left behind.

ghost use Rattle.std.specs.Prelude.{◌≡◌, ℕ, ◌+◌, ◌-◌, ◌≤◌, List, [], length, take, drop, flat_map, map, slice_get, option_map, All, IfOk, MatchOption};
ghost use Rattle.disk_journal.specs.File.{record_of};
ghost use Rattle.disk_journal.specs.Parts.{IsRecords};
ghost use Rattle.disk_journal.specs.Lent.{lent, IsInside, Follow};

use crate::entry::{Entry, entry_at};
use std::alloc::{AllocError, Global};
use std::marker::Model;

/// Where a payload stands, told from the end of the file, which is the same where bytes in front of it are gone.
#[derive(Clone, Copy)]
pub(crate) struct Span {
    // the bytes of the file from the payload's first one on
    left: usize,
    len: usize,
}

/// The payloads of a file, in the order of their appends. Contracts see the list of those that aren't left behind.
#[derive(Drop)]
pub struct Payloads {
    file: Vec<u8>,
    spans: Vec<Span>,
    // the number of spans that are left behind
    behind: usize,
}

impl Model for Payloads {
    ghost use Rattle.std.specs.Prelude.{ℕ, ◌≤◌, List, drop, length, map, All};
    ghost use Rattle.disk_journal.specs.Lent.{lent, IsInside, Follow};

    ghost Value = { List (List ℕ) };

    ghost view = { λ p. map (lent p.file.items) (drop p.behind p.spans.items) };

    ghost invariant = { λ p. All (IsInside p.file.items) p.spans.items
        × Follow p.spans.items × (p.behind ≤ length p.spans.items) };
}

impl Payloads {
    /// None.
    pub fn new(alloc: Global) -> Payloads
        ensures { result ≡ [] }
    {
        Payloads {
            file: Vec::new(alloc),
            spans: Vec::new(alloc),
            behind: 0,
        }
    }

    /// The open records of the file from this byte on, and the byte at which the closed gate behind them stands.
    pub(crate) fn read(
        alloc: Global,
        file: Vec<u8>,
        from: usize,
    ) -> Result<Option<(Payloads, usize)>, AllocError>
        requires { from ≤ length file.items }
        ensures { IfOk result (λ o. MatchOption o
            ((ps : List (List ℕ)) → ¬ IsRecords ps (drop from file.items))
            (λ x. IsRecords x.0 (drop from file.items)
            × (from + length (flat_map record_of x.0) ≡ x.1) × (x.1 ≤ length file.items))) }
    {
        match spans_in(alloc, &file, from)? {
            Some((spans, end)) => {
                let payloads = Payloads {
                    file,
                    spans,
                    behind: 0,
                };
                Ok(Some((payloads, end)))
            }
            None => Ok(None),
        }
    }

    /// The number of payloads.
    pub fn len(&self) -> usize
        ensures { result ≡ length self.now }
    {
        self.spans.len() - self.behind
    }

    /// The payload at the index, from 0, lent, or `None` past the last.
    pub fn at(&self, index: usize) -> Option<&[u8]>
        ensures { option_map (λ payload. payload.now) result ≡ slice_get self.now index }
    {
        let span = self.spans[self.behind..].get(index)?;
        let from = self.file.len() - span.left;
        Some(&self.file[from..from + span.len])
    }

    /// The payloads behind the first one. Where they take less than half of the buffer, they move to its front, and the
    /// rest of its memory is given back.
    ///
    /// # Errors
    /// `AllocError`
    pub fn behind_first(self, alloc: Global) -> Result<Payloads, AllocError>
        ensures { IfOk result (λ rest. rest ≡ drop 1 self) }
    {
        let mut rest = self;
        rest.behind = (rest.behind + 1).min(rest.spans.len());
        rest.cut(alloc)
    }

    // The payloads, in less of the buffer where more than half of it is not theirs.
    fn cut(self, alloc: Global) -> Result<Payloads, AllocError>
        ensures { IfOk result (λ same. same ≡ self) }
    {
        let Payloads {
            mut file,
            spans,
            behind,
        } = self;
        let size = size(&spans[behind..]);
        if file.len() / 2 <= size {
            return Ok(Payloads {
                file,
                spans,
                behind,
            });
        }
        let spans = Vec::from_slice(alloc, &spans[behind..])?;
        keep_last(&mut file, size);
        Ok(Payloads {
            file,
            spans,
            behind: 0,
        })
    }
}

// The bytes of the file from the first payload on.
fn size(spans: &[Span]) -> usize
    ensures { Follow spans.now → All (λ span. span.left ≤ result) spans.now }
{
    match spans.first() {
        Some(span) => span.left,
        None => 0,
    }
}

// Copies the last bytes of the file, at most half of it, to its front.
fn copy_to_front(file: &mut [u8], size: usize)
    requires { size + size ≤ length file.old }
    ensures { take size file.new ≡ drop (length file.old - size) file.old }
{
    let (front, back) = file.split_at_mut(file.len() - size);
    front[..size].copy_from_slice(back);
}

// Keeps the last bytes of the buffer, at most half of it, and gives back the memory of the others.
fn keep_last(file: &mut Vec<u8>, size: usize)
    requires { size + size ≤ length file.old.items }
    ensures { file.new.items ≡ drop (length file.old.items - size) file.old.items }
{
    copy_to_front(file.as_mut_slice(), size);
    file.truncate(size);
    file.shrink_to_fit();
}

// Where the payloads of the open records stand, and the byte of the closed gate.
fn spans_in(
    alloc: Global,
    file: &[u8],
    from: usize,
) -> Result<Option<(Vec<Span>, usize)>, AllocError>
    requires { from ≤ length file.now }
    ensures { IfOk result (λ o. MatchOption o
        ((ps : List (List ℕ)) → ¬ IsRecords ps (drop from file.now))
        (λ x. IsRecords (map (lent file.now) x.0.items) (drop from file.now)
        × All (IsInside file.now) x.0.items × Follow x.0.items
        × (from + length (flat_map record_of (map (lent file.now) x.0.items)) ≡ x.1)
        × (x.1 ≤ length file.now))) }
{
    let mut spans = Vec::new(alloc);
    let mut rest = &file[from..];
    'records: loop {
        match entry_at(rest) {
            Entry::Open(payload, behind) => {
                spans.push(Span {
                    left: payload.len() + behind.len(),
                    len: payload.len(),
                })?;
                rest = behind;
            }
            Entry::Shut => return Ok(Some((spans, file.len() - rest.len()))),
            Entry::Broken => return Ok(None),
        }
    }
}
