//! Cursors.

ghost use Rattle.std.specs.Prelude.{◌≡◌, ◌++◌, OnOk, IfSome};
ghost use Rattle.record_parts.specs.Reading.{Reads};
ghost use Rattle.record_parts.specs.Spelling.{many, opt, value};
ghost use Rattle.target_codec.specs.Spelling.{cursor, IsSpelledCursor};

use document_keys::{NoMemory, Sequence};
use queries::Cursor;
use record_parts::{DEPTH, ReadError, byte_of, flag_of, put_number, put_value, values_of};
use std::alloc::Global;
use value_model::Value;

/// A cursor, and what follows it.
fn cursor_of(alloc: Global, bytes: &[u8]) -> Result<(Cursor, &[u8]), ReadError>
    ensures { Reads cursor IsSpelledCursor bytes.now (λ x. (x.0, x.1.now)) result }
{
    let (values, rest) = values_of(alloc, DEPTH, bytes)?;
    let (before, rest) = flag_of(rest)?;
    let values = Sequence::from_vec(values);
    Ok((Cursor { values, before }, rest))
}

/// A cursor or none, and what follows it.
pub(crate) fn given_cursor_of(
    alloc: Global,
    bytes: &[u8],
) -> Result<(Option<Cursor>, &[u8]), ReadError>
    ensures { Reads (opt cursor) (λ given. IfSome given IsSpelledCursor) bytes.now
        (λ x. (x.0, x.1.now)) result }
{
    let (byte, rest) = byte_of(bytes)?;
    match byte {
        0 => Ok((None, rest)),
        1 => {
            let (content, rest) = cursor_of(alloc, rest)?;
            Ok((Some(content), rest))
        }
        _ => Err(ReadError::NotSpelled),
    }
}

fn put_values(out: &mut Vec<u8>, values: &[Value]) -> Result<(), NoMemory>
    ensures { OnOk result (out.new.items ≡ out.old.items ++ many value values.now) }
{
    put_number(out, values.len() as u64)?;
    for value in values {
        put_value(out, value)?;
    }
    Ok(())
}

#[tactic(auto, unfolding(crate::specs::Spelling::cursor))]
fn put_cursor(out: &mut Vec<u8>, content: &Cursor) -> Result<(), NoMemory>
    ensures { OnOk result (out.new.items ≡ out.old.items ++ cursor content.now) }
{
    put_values(out, content.values.as_slice())?;
    out.push(content.before as u8)?;
    Ok(())
}

/// Appends the spelling of the cursor, or of none.
pub(crate) fn put_given_cursor(out: &mut Vec<u8>, given: &Option<Cursor>) -> Result<(), NoMemory>
    ensures { OnOk result (out.new.items ≡ out.old.items ++ opt cursor given.now) }
{
    match given {
        None => out.push(0)?,
        Some(content) => {
            out.push(1)?;
            put_cursor(out, content)?;
        }
    }
    Ok(())
}
