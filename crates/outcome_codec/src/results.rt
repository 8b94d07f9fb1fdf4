//! Results of writes.

ghost use Rattle.std.specs.Prelude.{◌≡◌, ◌++◌, OnOk, IfSome};
ghost use Rattle.value_model.specs.Time.{IsMoment};
ghost use Rattle.record_parts.specs.Reading.{Reads};
ghost use Rattle.record_parts.specs.Spelling.{many, opt, time, value, AreSpelled};
ghost use Rattle.outcome_codec.specs.Spelling.{result as spelled, IsSpelledResult};

use document_keys::NoMemory;
use mutations::{Values, WriteResult, WriteResults};
use record_parts::{
    DEPTH, ReadError, byte_of, put_number, put_time, put_value, room_for, time_of, u64_of,
    values_of,
};
use std::alloc::Global;
use value_model::{Timestamp, Value};

/// How many bytes a result spells at least.
const RESULT: usize = 9;

/// A time or none, and what follows it.
fn given_time_of(bytes: &[u8]) -> Result<(Option<Timestamp>, &[u8]), ReadError>
    ensures { Reads (opt time) (λ given. IfSome given IsMoment) bytes.now (λ x. (x.0, x.1.now)) result }
{
    let (byte, rest) = byte_of(bytes)?;
    match byte {
        0 => Ok((None, rest)),
        1 => {
            let (time, rest) = time_of(rest)?;
            Ok((Some(time), rest))
        }
        _ => Err(ReadError::NotSpelled),
    }
}

/// A result, and what follows it.
fn result_of(alloc: Global, bytes: &[u8]) -> Result<(WriteResult, &[u8]), ReadError>
    ensures { Reads spelled IsSpelledResult bytes.now (λ x. (x.0, x.1.now)) result }
{
    let (update_time, rest) = given_time_of(bytes)?;
    let (values, rest) = values_of(alloc, DEPTH, rest)?;
    let transforms = Values::from_vec(values);
    Ok((
        WriteResult {
            update_time,
            transforms,
        },
        rest,
    ))
}

/// Results, as many as the number before them says, and what follows them.
///
/// # Errors
/// `NotSpelled` where the bytes begin with no such list; or `Memory`.
pub fn results_of(alloc: Global, bytes: &[u8]) -> Result<(WriteResults, &[u8]), ReadError>
    ensures { Reads (many spelled) (AreSpelled IsSpelledResult) bytes.now (λ x. (x.0, x.1.now)) result }
{
    let (count, start) = u64_of(bytes)?;
    let mut results = Vec::with_capacity(alloc, room_for(count, start, RESULT))?;
    let mut rest = start;
    for _ in 0..count {
        let (one, next) = result_of(alloc, rest)?;
        results.push(one)?;
        rest = next;
    }
    Ok((WriteResults::from_vec(results), rest))
}

fn put_given_time(out: &mut Vec<u8>, given: Option<Timestamp>) -> Result<(), NoMemory>
    ensures { OnOk result (out.new.items ≡ out.old.items ++ opt time given) }
{
    match given {
        None => out.push(0)?,
        Some(time) => {
            out.push(1)?;
            put_time(out, time)?;
        }
    }
    Ok(())
}

fn put_values(out: &mut Vec<u8>, values: &[Value]) -> Result<(), NoMemory>
    ensures { OnOk result (out.new.items ≡ out.old.items ++ many value values.now) }
{
    put_number(out, values.len() as u64)?;
    for value in values {
        put_value(out, value)?;
    }
    Ok(())
}

#[tactic(auto, unfolding(crate::specs::Spelling::result))]
fn put_result(out: &mut Vec<u8>, one: &WriteResult) -> Result<(), NoMemory>
    ensures { OnOk result (out.new.items ≡ out.old.items ++ spelled one.now) }
{
    put_given_time(out, one.update_time)?;
    put_values(out, one.transforms.as_slice())
}

/// Appends the spelling of the results.
///
/// # Errors
/// `NoMemory`
pub fn put_results(out: &mut Vec<u8>, results: &WriteResults) -> Result<(), NoMemory>
    ensures { OnOk result (out.new.items ≡ out.old.items ++ many spelled results.now) }
{
    let results = results.as_slice();
    put_number(out, results.len() as u64)?;
    for one in results {
        put_result(out, one)?;
    }
    Ok(())
}
