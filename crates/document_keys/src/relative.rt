//! The text of a path below the root's `documents`, in which a `/` stands between each two segments.

ghost use Rattle.std.specs.Prelude.{◌≡◌, ◌≢◌, ◌↔◌, ◌<◌, IsTrue, IfOk, IfErr, OnOk, IfSome, MatchOption, option_map, List, ℕ, [], ◌++◌, ◌∷◌, length};
ghost use Rattle.std.specs.Cmp.Lexicographic.{slice_cmp};
ghost use Rattle.std.specs.Int.{to_be_bytes, w64};
ghost use Rattle.std.specs.List.{All, slice_get};
ghost use Rattle.std.specs.Ordering.{nat_cmp};
ghost use Rattle.std.specs.String.{string_bytes};
ghost use Rattle.document_keys.specs.Names.{IsSegment, parts_of, path_text, relative_path};
ghost use Rattle.document_keys.specs.Order.{byte_order};

use crate::faults::{NameFault, NoMemory};
use crate::segment::{Segment, is_segment};
use std::alloc::Global;
use std::cmp::Ordering;

/// The first part of the path, and what follows the `/` behind it.
fn cut(path: &str) -> (&str, Option<&str>)
    ensures cut { MatchOption result.1 (parts_of path.now ≡ result.0.now ∷ [])
        (λ rest. parts_of path.now ≡ result.0.now ∷ parts_of rest.now) }
    ensures shorter { IfSome result.1 (λ rest. length rest.now < length path.now) }
{
    match path.split_once('/') {
        Some((part, rest)) => (part, Some(rest)),
        None => (path, None),
    }
}

/// Nothing where each part of the path is a segment.
///
/// # Errors
/// `BadSegment` where one isn't.
pub(crate) fn check_segments(path: &str) -> Result<(), NameFault>
    ensures segments { OnOk result (All IsSegment (parts_of path.now)) }
    ensures fault { IfErr result (λ fault. (fault ≡ NameFault.BadSegment)
        × ¬ (All IsSegment (parts_of path.now))) }
{
    let mut rest = path;
    loop {
        let (part, others) = cut(rest);
        if !is_segment(part) {
            return Err(NameFault::BadSegment);
        }
        let Some(next) = others else {
            return Ok(());
        };
        rest = next;
    }
}

/// The number of the path's parts.
pub(crate) fn count_parts(path: &str) -> usize
    ensures { result ≡ length (parts_of path.now) }
{
    path.as_bytes().iter().filter(|byte| **byte == b'/').count() + 1
}

/// The part of the path at the index, from 0, or `None` past the last.
pub(crate) fn part_at(path: &str, index: u64) -> Option<&str>
    ensures { option_map (λ part. part.now) result ≡ slice_get (parts_of path.now) index }
{
    let mut rest = path;
    for _ in 0..index {
        let (_, others) = cut(rest);
        let Some(next) = others else {
            return None;
        };
        rest = next;
    }
    Some(cut(rest).0)
}

/// What follows the segments and the `/` behind them, where the path begins with them.
fn after_segments<'a>(path: &'a str, segments: &[Segment]) -> Option<&'a str>
    ensures { MatchOption result ((id : List ℕ) → parts_of path.now ≢ segments.now ++ id ∷ [])
        (λ rest. parts_of path.now ≡ segments.now ++ parts_of rest.now) }
{
    let mut rest = path;
    for segment in segments {
        let (part, others) = cut(rest);
        if part != segment.as_str() {
            return None;
        }
        let Some(next) = others else {
            return None;
        };
        rest = next;
    }
    Some(rest)
}

/// Whether the path is that of the segments, and one part more.
pub(crate) fn is_one_below(path: &str, segments: &[Segment]) -> bool
    ensures { IsTrue result ↔ ((id : List ℕ) × (parts_of path.now ≡ segments.now ++ id ∷ [])) }
{
    match after_segments(path, segments) {
        Some(rest) => cut(rest).1.is_none(),
        None => false,
    }
}

/// The order of two bytes of paths that differ: a `/` comes first.
fn compare_bytes(left: u8, right: u8) -> Ordering
    ensures { result ≡ byte_order left right }
{
    if left == b'/' {
        return Ordering::Less;
    }
    if right == b'/' {
        return Ordering::Greater;
    }
    left.cmp(&right)
}

/// A word of eight bytes and what follows it, where there are so many.
fn word(bytes: &[u8]) -> Option<(u64, &[u8])>
    ensures word { IfSome result (λ x. to_be_bytes w64 x.0 ++ x.1.now ≡ bytes.now) }
    ensures shorter { IfSome result (λ x. length x.1.now < length bytes.now) }
{
    let (front, rest) = bytes.split_first_chunk::<8>()?;
    Some((u64::from_be_bytes(*front), rest))
}

/// The two without the words that they have in common at their fronts.
fn after_same_words<'a>(left: &'a [u8], right: &'a [u8]) -> (&'a [u8], &'a [u8])
    ensures { (same : List ℕ) × (left.now ≡ same ++ result.0.now) × (right.now ≡ same ++ result.1.now) }
{
    let mut one = left;
    let mut other = right;
    loop {
        let Some((word_of_one, behind)) = word(one) else {
            return (one, other);
        };
        let Some((word_of_other, beyond)) = word(other) else {
            return (one, other);
        };
        if word_of_one != word_of_other {
            return (one, other);
        }
        one = behind;
        other = beyond;
    }
}

/// The order of paths by their parts. It looks for the first byte that differs: a part that ends there comes first.
pub(crate) fn compare_paths(left: &str, right: &str) -> Ordering
    ensures { result ≡ slice_cmp (slice_cmp nat_cmp) (parts_of left.now) (parts_of right.now) }
{
    let (left, right) = after_same_words(left.as_bytes(), right.as_bytes());
    let least = left.len().min(right.len());
    for i in 0..least {
        if left[i] != right[i] {
            return compare_bytes(left[i], right[i]);
        }
    }
    left.len().cmp(&right.len())
}

/// Appends a `/` and the segment, for each of them.
fn push_segments(text: &mut String, segments: &[Segment]) -> Result<(), NoMemory>
    ensures { OnOk result (string_bytes text.new ≡ string_bytes text.old ++ path_text segments.now) }
{
    for segment in segments {
        text.push('/')?;
        text.push_str(segment.as_str())?;
    }
    Ok(())
}

/// The text of the path that has these segments.
pub(crate) fn join(alloc: Global, segments: &[Segment]) -> Result<String, NoMemory>
    ensures { IfOk result (λ text. string_bytes text ≡ relative_path segments.now) }
{
    let Some((first, others)) = segments.split_first() else {
        return Ok(String::new(alloc));
    };
    let mut text = String::from_str(alloc, first.as_str())?;
    push_segments(&mut text, others)?;
    Ok(text)
}
