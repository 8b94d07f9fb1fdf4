ghost use Rattle.std.specs.Prelude.{◌≡◌, ◌≢◌, ℕ, ◌^◌, ◌≤◌, ◌<◌, List, ◌++◌, length, MatchOption};
ghost use Rattle.disk_journal.specs.File.{header_of};
ghost use Rattle.disk_journal.specs.Parts.{start, number};
ghost use Rattle.disk_journal.specs.Reading.{IsEntry};

/// The first entry of the bytes behind a header or a record.
pub(crate) enum Entry<'a> {
    /// An open record's payload, and the bytes behind it.
    Open(&'a [u8], &'a [u8]),
    /// A closed gate.
    Shut,
    /// Neither: the bytes end too early.
    Broken,
}

// an open gate and the magic
const START: [u8; 8] = [1, b'F', b'S', b'J', b'R', b'N', b'L', b'1'];

fn after_start(bytes: &[u8]) -> Option<&[u8]>
    ensures { MatchOption result ((rest : List ℕ) → bytes.now ≢ start ++ rest)
        (λ x. bytes.now ≡ start ++ x.now) }
{
    bytes.strip_prefix(&START)
}

fn number_at(bytes: &[u8]) -> Option<(u64, &[u8])>
    ensures { MatchOption result (length bytes.now < 8)
        (λ x. (x.0 < 2 ^ 64) × (bytes.now ≡ number x.0 ++ x.1.now)) }
{
    let (front, rest) = bytes.split_first_chunk::<8>()?;
    Some((u64::from_be_bytes(*front), rest))
}

/// The generation of an open header, and the bytes behind it.
pub(crate) fn header_at(bytes: &[u8]) -> Option<(u64, &[u8])>
    ensures { MatchOption result ((generation : ℕ) (rest : List ℕ) → 1 ≤ generation
        → generation < 2 ^ 64 → bytes.now ≢ header_of generation ++ rest)
        (λ x. (1 ≤ x.0) × (x.0 < 2 ^ 64) × (bytes.now ≡ header_of x.0 ++ x.1.now)) }
{
    let rest = after_start(bytes)?;
    let (generation, rest) = number_at(rest)?;
    if generation == 0 {
        return None;
    }
    Some((generation, rest))
}

// The payload of a record whose gate was read, and the bytes behind it.
fn payload_at(bytes: &[u8]) -> Option<(&[u8], &[u8])>
    ensures { MatchOption result ((p : List ℕ) (rest : List ℕ) → length p < 2 ^ 64
        → bytes.now ≢ number (length p) ++ (p ++ rest))
        (λ x. (length x.0.now < 2 ^ 64)
        × (bytes.now ≡ number (length x.0.now) ++ (x.0.now ++ x.1.now))) }
{
    let (size, rest) = number_at(bytes)?;
    rest.split_at_checked(size as usize)
}

pub(crate) fn entry_at(bytes: &[u8]) -> Entry<'_>
    ensures { IsEntry result bytes.now }
{
    match bytes {
        [] => Entry::Broken,
        [1, rest @ ..] => match payload_at(rest) {
            Some((payload, behind)) => Entry::Open(payload, behind),
            None => Entry::Broken,
        },
        [_, ..] => Entry::Shut,
    }
}
