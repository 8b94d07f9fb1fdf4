//! The rows of a point.

ghost use Rattle.std.specs.Prelude.{◌≡◌, ◌++◌, OnOk};
ghost use Rattle.value_model.specs.Storable.{AreStorableBytes};
ghost use Rattle.record_parts.specs.Reading.{Reads};
ghost use Rattle.record_parts.specs.Spelling.{many, text, AreSpelled};
ghost use Rattle.outcome_codec.specs.Spelling.{row, AreSpelledRows, IsSpelledRow};

use crate::ascending::rows_ascend;
use crate::ids::put_id;
use crate::keys::{keys_of, put_keys};
use crate::parts::PointRow;
use document_keys::NoMemory;
use record_parts::{ReadError, put_bytes, put_number, room_for, slice_of, u32_of, u64_of};
use std::alloc::Global;
use value_model::Bytes;

/// How many bytes a row spells at least.
const ROW: usize = 20;

/// A token, and what follows it.
fn token_of(alloc: Global, bytes: &[u8]) -> Result<(Bytes, &[u8]), ReadError>
    ensures { Reads text AreStorableBytes bytes.now (λ x. (x.0, x.1.now)) result }
{
    let (content, rest) = slice_of(bytes)?;
    let token = Bytes::from_vec(Vec::from_slice(alloc, content)?);
    Ok((token, rest))
}

/// A row, and what follows it.
fn row_of(alloc: Global, bytes: &[u8]) -> Result<(PointRow, &[u8]), ReadError>
    ensures { Reads row IsSpelledRow bytes.now (λ x. (x.0, x.1.now)) result }
{
    let (id, rest) = u32_of(bytes)?;
    let (token, rest) = token_of(alloc, rest)?;
    let (keys, rest) = keys_of(alloc, rest)?;
    Ok((PointRow { id, token, keys }, rest))
}

/// Rows in whatever order, as many as the number before them says, and what follows them.
fn any_rows_of(alloc: Global, bytes: &[u8]) -> Result<(Vec<PointRow>, &[u8]), ReadError>
    ensures { Reads (many row) (AreSpelled IsSpelledRow) bytes.now (λ x. (x.0.items, x.1.now)) result }
{
    let (count, start) = u64_of(bytes)?;
    let mut rows = Vec::with_capacity(alloc, room_for(count, start, ROW))?;
    let mut rest = start;
    for _ in 0..count {
        let (row, next) = row_of(alloc, rest)?;
        rows.push(row)?;
        rest = next;
    }
    Ok((rows, rest))
}

/// Rows whose ids strictly ascend, as many as the number before them says, and what follows them.
///
/// # Errors
/// `NotSpelled` where the bytes begin with no such list; or `Memory`.
pub fn rows_of(alloc: Global, bytes: &[u8]) -> Result<(Vec<PointRow>, &[u8]), ReadError>
    ensures { Reads (many row) AreSpelledRows bytes.now (λ x. (x.0.items, x.1.now)) result }
{
    let (rows, rest) = any_rows_of(alloc, bytes)?;
    if rows_ascend(rows.as_slice()) {
        Ok((rows, rest))
    } else {
        Err(ReadError::NotSpelled)
    }
}

#[tactic(auto, unfolding(crate::specs::Spelling::row))]
fn put_row(out: &mut Vec<u8>, content: &PointRow) -> Result<(), NoMemory>
    ensures { OnOk result (out.new.items ≡ out.old.items ++ row content.now) }
{
    put_id(out, content.id)?;
    put_bytes(out, content.token.as_slice())?;
    put_keys(out, &content.keys)
}

/// Appends the spelling of the rows.
///
/// # Errors
/// `NoMemory`
pub fn put_rows(out: &mut Vec<u8>, rows: &[PointRow]) -> Result<(), NoMemory>
    ensures { OnOk result (out.new.items ≡ out.old.items ++ many row rows.now) }
{
    put_number(out, rows.len() as u64)?;
    for row in rows {
        put_row(out, row)?;
    }
    Ok(())
}
