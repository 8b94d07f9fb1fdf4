ghost use Rattle.std.specs.Prelude.{◌^◌, ◌≤◌, length, IfOk, MatchOption};
ghost use Rattle.disk_journal.specs.File.{IsBlank};
ghost use Rattle.disk_journal.specs.Reading.{IsBlankAs, IsReading, IsWithin};

use crate::entry::header_at;
use crate::payloads::Payloads;
use std::alloc::{AllocError, Global};

/// What one file holds.
#[derive(Drop)]
pub(crate) enum Reading {
    /// No header, or one whose gate is closed.
    Blank(Blank),
    /// A header, open records, and a closed gate.
    Records(Records),
    /// Anything else.
    Foreign,
}

/// Why a file is blank.
#[derive(Clone, Copy)]
pub(crate) enum Blank {
    /// It has no byte, or an open gate and less than a header.
    Bare,
    /// Its first byte is a closed gate.
    Closed,
}

/// The generation and the payloads of a file, and the byte at which its first closed gate stands.
#[derive(Drop)]
pub(crate) struct Records {
    pub(crate) generation: u64,
    pub(crate) payloads: Payloads,
    pub(crate) end: u64,
}

// Why a file of these bytes is blank, if it is.
fn blank_in(bytes: &[u8]) -> Option<Blank>
    ensures { MatchOption result (¬ IsBlank bytes.now) (λ blank. IsBlankAs blank bytes.now) }
{
    if bytes.is_empty() || bytes[0] == 1 && bytes.len() < 16 {
        return Some(Blank::Bare);
    }
    if bytes[0] != 1 {
        return Some(Blank::Closed);
    }
    None
}

/// What a file of these bytes holds.
pub(crate) fn reading_of(alloc: Global, bytes: Vec<u8>) -> Result<Reading, AllocError>
    requires { length bytes.items ≤ 2 ^ 62 }
    ensures reading { IfOk result (λ reading. IsReading reading bytes.items) }
    ensures within { IfOk result IsWithin }
{
    if let Some(blank) = blank_in(&bytes) {
        return Ok(Reading::Blank(blank));
    }
    let Some((generation, rest)) = header_at(&bytes) else {
        return Ok(Reading::Foreign);
    };
    let from = bytes.len() - rest.len();
    let Some((payloads, end)) = Payloads::read(alloc, bytes, from)? else {
        return Ok(Reading::Foreign);
    };
    Ok(Reading::Records(Records {
        generation,
        payloads,
        end: end as u64,
    }))
}
