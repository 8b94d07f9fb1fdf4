//! What keys and collection paths share: lists of segments, read, copied and written.

ghost use Rattle.std.specs.Prelude.{◌≡◌, ◌≢◌, IfOk, IfErr, MatchOption, List, ℕ, ◌++◌, ◌∷◌};
ghost use Rattle.std.specs.String.{string_bytes};
ghost use Rattle.std.specs.List.{All, slice_split};
ghost use Rattle.std.specs.Bool.{◌==◌};
ghost use Rattle.document_keys.specs.Names.{IsSegment, documents_text, name_text};

use crate::database::Database;
use crate::faults::{NameFault, NoMemory};
use crate::segment::Segment;
use std::alloc::Global;

/// What follows the front in the text, if the text begins with it.
pub(crate) fn after<'a>(text: &'a str, front: &str) -> Option<&'a str>
    ensures { MatchOption result ((rest : List ℕ) → text.now ≢ front.now ++ rest)
        (λ rest. text.now ≡ front.now ++ rest.now) }
{
    text.strip_prefix(front)
}

/// What follows `{root}/documents/` in the text, if the text begins with it.
pub(crate) fn after_documents<'a>(root: &Database, text: &'a str) -> Option<&'a str>
    ensures { MatchOption result ((rest : List ℕ) → text.now ≢ documents_text root.now ++ 47 ∷ rest)
        (λ rest. text.now ≡ documents_text root.now ++ 47 ∷ rest.now) }
{
    let path = after(text, root.as_str())?;
    after(path, "/documents/")
}

/// The segments of the path, cut at each `/`.
pub(crate) fn read_segments(alloc: Global, path: &str) -> Result<Vec<Segment>, NameFault>
    ensures parts { IfOk result (λ segments. segments.items ≡ slice_split (λ byte. byte == 47) path.now) }
    ensures segments { IfOk result (λ segments. All IsSegment segments.items) }
    ensures fault { IfErr result (λ fault. fault ≢ NameFault.NoMemory
        → (fault ≡ NameFault.BadSegment)
        × ¬ (All IsSegment (slice_split (λ byte. byte == 47) path.now))) }
{
    // most keys have two segments
    let mut segments = Vec::with_capacity(alloc, 2)?;
    let mut rest = path;
    while let Some((part, others)) = rest.split_once('/') {
        segments.push(Segment::read(alloc, part)?)?;
        rest = others;
    }
    segments.push(Segment::read(alloc, rest)?)?;
    Ok(segments)
}

/// Each segment of a list is one. Nothing is done when it runs.
pub(crate) fn show_segments(segments: &[Segment])
    ensures { All IsSegment segments.now }
{
    for segment in segments {
        let _text = segment.as_str();
    }
}

/// Copies of the segments.
pub(crate) fn copy_segments(alloc: Global, segments: &[Segment]) -> Result<Vec<Segment>, NoMemory>
    ensures { IfOk result (λ copies. copies.items ≡ segments.now) }
{
    let mut copies = Vec::with_capacity(alloc, segments.len())?;
    for segment in segments {
        copies.push(segment.copy(alloc)?)?;
    }
    Ok(copies)
}

/// The name of the path under the root: `{root}/documents`, and per segment `/` and the segment.
pub(crate) fn print_name(
    alloc: Global,
    root: &Database,
    segments: &[Segment],
) -> Result<String, NoMemory>
    ensures { IfOk result (λ name. string_bytes name ≡ name_text root.now segments.now) }
{
    let mut name = String::from_str(alloc, root.as_str())?;
    name.push_str("/documents")?;
    for segment in segments {
        name.push('/')?;
        name.push_str(segment.as_str())?;
    }
    Ok(name)
}
