//! Targets.

ghost use Rattle.std.specs.Prelude.{◌≡◌, ◌++◌, OnOk};
ghost use Rattle.record_parts.specs.Reading.{Reads};
ghost use Rattle.record_parts.specs.Spelling.{many, text};
ghost use Rattle.target_codec.specs.Spelling.{query, target, HasSpelledQuery, IsSpelledQuery, IsSpelledTarget};

use crate::checked::is_checked;
use crate::cursors::{given_cursor_of, put_given_cursor};
use crate::filters::{given_filter_of, put_given_filter};
use crate::limits::{given_limit_of, put_given_limit};
use crate::orders::{orders_of, put_orders};
use crate::paths::collection_of;
use document_keys::{CollectionPath, NoMemory};
use queries::{CollectionTarget, Target};
use record_parts::{ReadError, byte_of, key_of, put_key, put_number, put_text};
use std::alloc::Global;

/// The parts of a query of a collection, and what follows them.
fn parts_of(alloc: Global, bytes: &[u8]) -> Result<(CollectionTarget, &[u8]), ReadError>
    ensures { Reads query HasSpelledQuery bytes.now (λ x. (x.0, x.1.now)) result }
{
    let (collection, rest) = collection_of(alloc, bytes)?;
    let (filter, rest) = given_filter_of(alloc, rest)?;
    let (orders, rest) = orders_of(alloc, rest)?;
    let (start_at, rest) = given_cursor_of(alloc, rest)?;
    let (end_at, rest) = given_cursor_of(alloc, rest)?;
    let (limit, rest) = given_limit_of(rest)?;
    let parts = CollectionTarget {
        collection,
        filter,
        orders,
        start_at,
        end_at,
        limit,
    };
    Ok((parts, rest))
}

/// A query of a collection that was checked, and what follows it.
fn query_of(alloc: Global, bytes: &[u8]) -> Result<(CollectionTarget, &[u8]), ReadError>
    ensures { Reads query IsSpelledQuery bytes.now (λ x. (x.0, x.1.now)) result }
{
    let (parts, rest) = parts_of(alloc, bytes)?;
    if is_checked(alloc, &parts)? {
        Ok((parts, rest))
    } else {
        Err(ReadError::NotSpelled)
    }
}

/// The target that the bytes begin with, and what follows it.
///
/// # Errors
/// `NotSpelled` where they begin with no target of a checked query; or `Memory`.
pub fn target_of(alloc: Global, bytes: &[u8]) -> Result<(Target, &[u8]), ReadError>
    ensures { Reads target IsSpelledTarget bytes.now (λ x. (x.0, x.1.now)) result }
{
    let (byte, rest) = byte_of(bytes)?;
    match byte {
        1 => {
            let (key, rest) = key_of(alloc, rest)?;
            Ok((Target::Document(key), rest))
        }
        2 => {
            let (content, rest) = query_of(alloc, rest)?;
            Ok((Target::Collection(content), rest))
        }
        _ => Err(ReadError::NotSpelled),
    }
}

fn put_collection(out: &mut Vec<u8>, path: &CollectionPath) -> Result<(), NoMemory>
    ensures { OnOk result (out.new.items ≡ out.old.items ++ many text path.now) }
{
    let count = path.len();
    put_number(out, count)?;
    for i in 0..count {
        if let Some(segment) = path.segment(i) {
            put_text(out, segment)?;
        }
    }
    Ok(())
}

#[tactic(auto, unfolding(crate::specs::Spelling::query))]
fn put_query(out: &mut Vec<u8>, content: &CollectionTarget) -> Result<(), NoMemory>
    ensures { OnOk result (out.new.items ≡ out.old.items ++ query content.now) }
{
    put_collection(out, &content.collection)?;
    put_given_filter(out, &content.filter)?;
    put_orders(out, content.orders.as_slice())?;
    put_given_cursor(out, &content.start_at)?;
    put_given_cursor(out, &content.end_at)?;
    put_given_limit(out, content.limit)
}

/// Appends the target's spelling.
///
/// # Errors
/// `NoMemory`
#[tactic(auto, unfolding(crate::specs::Spelling::target))]
pub fn put_target(out: &mut Vec<u8>, content: &Target) -> Result<(), NoMemory>
    ensures { OnOk result (out.new.items ≡ out.old.items ++ target content.now) }
{
    match content {
        Target::Document(key) => {
            out.push(1)?;
            put_key(out, key)
        }
        Target::Collection(content) => {
            out.push(2)?;
            put_query(out, content)
        }
    }
}
