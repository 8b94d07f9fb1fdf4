//! Filters.

ghost use Rattle.std.specs.Prelude.{◌≡◌, ◌+◌, ◌∷◌, ◌++◌, OnOk, IfSome};
ghost use Rattle.record_parts.specs.Reading.{Reads};
ghost use Rattle.record_parts.specs.Spelling.{many, opt, AreSpelled};
ghost use Rattle.target_codec.specs.Spelling.{filter, IsSpelledFilter};

use crate::bytes::{junction_byte, junction_of, operator_byte, operator_of, test_byte, test_of};
use crate::paths::query_path_of;
use document_keys::NoMemory;
use queries::{Filter, FilterKind};
use record_parts::{DEPTH, ReadError, byte_of, put_number, put_path, put_value, u64_of, value_of};
use std::alloc::Global;

/// How deep filters nest.
const NESTING: u32 = 20;

/// A filter that nests at most so deep, and what follows it.
#[cycle(filters)]
fn filter_of(alloc: Global, most: u32, bytes: &[u8]) -> Result<(Filter, &[u8]), ReadError>
    ensures { Reads filter (IsSpelledFilter most) bytes.now (λ x. (x.0, x.1.now)) result }
{
    if most == 0 {
        return Err(ReadError::NotSpelled);
    }
    let (byte, rest) = byte_of(bytes)?;
    match byte {
        1 => composite_of(alloc, most - 1, rest),
        2 => comparison_of(alloc, rest),
        3 => unary_of(alloc, rest),
        _ => Err(ReadError::NotSpelled),
    }
}

/// Filters that nest at most so deep, as many as the number before them says, and what follows them.
#[cycle(filters)]
fn filters_of(alloc: Global, most: u32, bytes: &[u8]) -> Result<(Vec<Filter>, &[u8]), ReadError>
    ensures { Reads (many filter) (AreSpelled (IsSpelledFilter most)) bytes.now
        (λ x. (x.0.items, x.1.now)) result }
{
    let (count, start) = u64_of(bytes)?;
    let mut filters = Vec::new(alloc);
    let mut rest = start;
    for _ in 0..count {
        let (filter, next) = filter_of(alloc, most, rest)?;
        filters.push(filter)?;
        rest = next;
    }
    Ok((filters, rest))
}

/// What follows the byte of joined filters, each of which nests at most so deep, and what follows that.
#[cycle(filters)]
fn composite_of(alloc: Global, most: u32, bytes: &[u8]) -> Result<(Filter, &[u8]), ReadError>
    ensures { Reads filter (IsSpelledFilter (most + 1)) (1 ∷ bytes.now) (λ x. (x.0, x.1.now)) result }
{
    let (op, rest) = junction_of(bytes)?;
    let (filters, rest) = filters_of(alloc, most, rest)?;
    let kind = FilterKind::Composite { op, filters };
    Ok((Filter { kind }, rest))
}

/// What follows the byte of a comparison, and what follows that.
fn comparison_of(alloc: Global, bytes: &[u8]) -> Result<(Filter, &[u8]), ReadError>
    ensures { (most : _) → Reads filter (IsSpelledFilter (most + 1)) (2 ∷ bytes.now)
        (λ x. (x.0, x.1.now)) result }
{
    let (path, rest) = query_path_of(alloc, bytes)?;
    let (op, rest) = operator_of(rest)?;
    let (value, rest) = value_of(alloc, DEPTH, rest)?;
    let kind = FilterKind::Field { path, op, value };
    Ok((Filter { kind }, rest))
}

/// What follows the byte of a test, and what follows that.
fn unary_of(alloc: Global, bytes: &[u8]) -> Result<(Filter, &[u8]), ReadError>
    ensures { (most : _) → Reads filter (IsSpelledFilter (most + 1)) (3 ∷ bytes.now)
        (λ x. (x.0, x.1.now)) result }
{
    let (op, rest) = test_of(bytes)?;
    let (path, rest) = query_path_of(alloc, rest)?;
    let kind = FilterKind::Unary { path, op };
    Ok((Filter { kind }, rest))
}

/// A filter or none, and what follows it.
pub(crate) fn given_filter_of(
    alloc: Global,
    bytes: &[u8],
) -> Result<(Option<Filter>, &[u8]), ReadError>
    ensures { Reads (opt filter) (λ given. IfSome given (IsSpelledFilter 20)) bytes.now
        (λ x. (x.0, x.1.now)) result }
{
    let (byte, rest) = byte_of(bytes)?;
    match byte {
        0 => Ok((None, rest)),
        1 => {
            let (content, rest) = filter_of(alloc, NESTING, rest)?;
            Ok((Some(content), rest))
        }
        _ => Err(ReadError::NotSpelled),
    }
}

#[cycle(putting)]
#[tactic(auto, unfolding(crate::specs::Spelling::filter))]
fn put_filter(out: &mut Vec<u8>, content: &Filter) -> Result<(), NoMemory>
    ensures { OnOk result (out.new.items ≡ out.old.items ++ filter content.now) }
{
    match &content.kind {
        FilterKind::Composite { op, filters } => {
            out.extend_from_slice(&[1, junction_byte(*op)])?;
            put_filters(out, filters)?;
        }
        FilterKind::Field { path, op, value } => {
            out.push(2)?;
            put_path(out, path)?;
            out.push(operator_byte(*op))?;
            put_value(out, value)?;
        }
        FilterKind::Unary { path, op } => {
            out.extend_from_slice(&[3, test_byte(*op)])?;
            put_path(out, path)?;
        }
    }
    Ok(())
}

#[cycle(putting)]
fn put_filters(out: &mut Vec<u8>, filters: &Vec<Filter>) -> Result<(), NoMemory>
    ensures { OnOk result (out.new.items ≡ out.old.items ++ many filter filters.now.items) }
{
    put_number(out, filters.len() as u64)?;
    for filter in filters {
        put_filter(out, filter)?;
    }
    Ok(())
}

/// Appends the spelling of the filter, or of none.
pub(crate) fn put_given_filter(out: &mut Vec<u8>, given: &Option<Filter>) -> Result<(), NoMemory>
    ensures { OnOk result (out.new.items ≡ out.old.items ++ opt filter given.now) }
{
    match given {
        None => out.push(0)?,
        Some(content) => {
            out.push(1)?;
            put_filter(out, content)?;
        }
    }
    Ok(())
}
