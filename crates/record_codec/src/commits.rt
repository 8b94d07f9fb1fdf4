ghost use Rattle.std.specs.Prelude.{◌≡◌, ◌∷◌, ◌++◌, OnOk};
ghost use Rattle.record_parts.specs.Spelling.{number, time, many};
ghost use Rattle.outcome_codec.specs.Spelling.{result as spelled, keyed, row};
ghost use Rattle.record_codec.specs.Spelling.{batch, step, spelling, IsSpelledBatch, HasSpelling};
ghost use Rattle.record_parts.specs.Reading.{Reads};

use crate::commit::Commit;
use document_keys::{NoMemory, Sequence};
use mutations::{Batch, WriteResults};
use outcome_codec::{
    KeyedEntry, PointRow, entries_of, ids_of, keys_of, put_entries, put_id, put_ids, put_keys,
    put_results, put_rows, results_of, rows_of,
};
use record_parts::{
    ReadError, after, byte_of, put_number, put_time, put_writes, time_of, u32_of, u64_of, writes_of,
};
use std::alloc::Global;
use target_codec::{put_target, target_of};
use value_model::Timestamp;

/// The byte that begins a commit, and names the format.
const FORMAT: u8 = 1;

/// The byte of a batch that joins the pending ones.
const ENQUEUE: u8 = 1;

/// The byte of an acknowledgement.
const ACKNOWLEDGE: u8 = 2;

/// The byte of a rejection.
const REJECT: u8 = 3;

/// The byte of a target that gets an id.
const ALLOCATE: u8 = 4;

/// The byte of a point.
const POINT: u8 = 5;

/// The byte of rows that become blank.
const RESET: u8 = 6;

/// The byte of entries that go.
const DROP: u8 = 7;

/// A batch, and what follows it.
fn batch_of(alloc: Global, bytes: &[u8]) -> Result<(Batch, &[u8]), ReadError>
    ensures { Reads batch IsSpelledBatch bytes.now (λ x. (x.0, x.1.now)) result }
{
    let (id, rest) = u64_of(bytes)?;
    let (at, rest) = time_of(rest)?;
    let (writes, rest) = writes_of(alloc, rest)?;
    Ok((Batch { id, at, writes }, rest))
}

/// What follows the byte of an acknowledgement, and what follows that.
fn acknowledge_of(alloc: Global, bytes: &[u8]) -> Result<(Commit, &[u8]), ReadError>
    ensures { Reads step HasSpelling (2 ∷ bytes.now) (λ x. (x.0, x.1.now)) result }
{
    let (batch, rest) = u64_of(bytes)?;
    let (at, rest) = time_of(rest)?;
    let (results, rest) = results_of(alloc, rest)?;
    Ok((Commit::Acknowledge { batch, at, results }, rest))
}

/// What follows the byte of a rejection, and what follows that.
fn reject_of(bytes: &[u8]) -> Result<(Commit, &[u8]), ReadError>
    ensures { Reads step HasSpelling (3 ∷ bytes.now) (λ x. (x.0, x.1.now)) result }
{
    let (batch, rest) = u64_of(bytes)?;
    Ok((Commit::Reject { batch }, rest))
}

/// What follows the byte of a target that gets an id, and what follows that.
fn allocate_of(alloc: Global, bytes: &[u8]) -> Result<(Commit, &[u8]), ReadError>
    ensures { Reads step HasSpelling (4 ∷ bytes.now) (λ x. (x.0, x.1.now)) result }
{
    let (id, rest) = u32_of(bytes)?;
    let (target, rest) = target_of(alloc, rest)?;
    Ok((Commit::Allocate { id, target }, rest))
}

/// What follows the byte of a point, and what follows that.
fn point_of(alloc: Global, bytes: &[u8]) -> Result<(Commit, &[u8]), ReadError>
    ensures { Reads step HasSpelling (5 ∷ bytes.now) (λ x. (x.0, x.1.now)) result }
{
    let (at, rest) = time_of(bytes)?;
    let (entries, rest) = entries_of(alloc, rest)?;
    let (rows, rest) = rows_of(alloc, rest)?;
    let entries = Sequence::from_vec(entries);
    let rows = Sequence::from_vec(rows);
    Ok((Commit::Point { at, entries, rows }, rest))
}

/// What follows the byte of a reset, and what follows that.
fn reset_of(alloc: Global, bytes: &[u8]) -> Result<(Commit, &[u8]), ReadError>
    ensures { Reads step HasSpelling (6 ∷ bytes.now) (λ x. (x.0, x.1.now)) result }
{
    let (ids, rest) = ids_of(alloc, bytes)?;
    let ids = Sequence::from_vec(ids);
    Ok((Commit::Reset { ids }, rest))
}

/// What follows the byte of entries that go, and what follows that.
fn drop_of(alloc: Global, bytes: &[u8]) -> Result<(Commit, &[u8]), ReadError>
    ensures { Reads step HasSpelling (7 ∷ bytes.now) (λ x. (x.0, x.1.now)) result }
{
    let (keys, rest) = keys_of(alloc, bytes)?;
    let (ids, rest) = ids_of(alloc, rest)?;
    let ids = Sequence::from_vec(ids);
    Ok((Commit::Drop { keys, ids }, rest))
}

/// What follows the byte of a batch that joins the pending ones, and what follows that.
fn enqueue_of(alloc: Global, bytes: &[u8]) -> Result<(Commit, &[u8]), ReadError>
    ensures { Reads step HasSpelling (1 ∷ bytes.now) (λ x. (x.0, x.1.now)) result }
{
    let (batch, rest) = batch_of(alloc, bytes)?;
    Ok((Commit::Enqueue(batch), rest))
}

/// What is committed, and what follows it.
fn step_of(alloc: Global, bytes: &[u8]) -> Result<(Commit, &[u8]), ReadError>
    ensures { Reads step HasSpelling bytes.now (λ x. (x.0, x.1.now)) result }
{
    let (byte, rest) = byte_of(bytes)?;
    match byte {
        ENQUEUE => enqueue_of(alloc, rest),
        ACKNOWLEDGE => acknowledge_of(alloc, rest),
        REJECT => reject_of(rest),
        ALLOCATE => allocate_of(alloc, rest),
        POINT => point_of(alloc, rest),
        RESET => reset_of(alloc, rest),
        DROP => drop_of(alloc, rest),
        _ => Err(ReadError::NotSpelled),
    }
}

/// A commit, and what follows it.
pub(crate) fn commit_of(alloc: Global, bytes: &[u8]) -> Result<(Commit, &[u8]), ReadError>
    ensures { Reads spelling HasSpelling bytes.now (λ x. (x.0, x.1.now)) result }
{
    let rest = after(bytes, &[FORMAT])?;
    step_of(alloc, rest)
}

#[tactic(auto, unfolding(crate::specs::Spelling::batch))]
fn put_batch(out: &mut Vec<u8>, pending: &Batch) -> Result<(), NoMemory>
    ensures { OnOk result (out.new.items ≡ out.old.items ++ batch pending.now) }
{
    put_number(out, pending.id)?;
    put_time(out, pending.at)?;
    put_writes(out, &pending.writes)
}

fn put_acknowledgement(
    out: &mut Vec<u8>,
    batch: u64,
    at: Timestamp,
    results: &WriteResults,
) -> Result<(), NoMemory>
    ensures { OnOk result (out.new.items
        ≡ out.old.items ++ (2 ∷ (number batch ++ (time at ++ many spelled results.now)))) }
{
    out.push(ACKNOWLEDGE)?;
    put_number(out, batch)?;
    put_time(out, at)?;
    put_results(out, results)
}

fn put_point(
    out: &mut Vec<u8>,
    at: Timestamp,
    entries: &Sequence<KeyedEntry>,
    rows: &Sequence<PointRow>,
) -> Result<(), NoMemory>
    ensures { OnOk result (out.new.items
        ≡ out.old.items ++ (5 ∷ (time at ++ (many keyed entries.now ++ many row rows.now)))) }
{
    out.push(POINT)?;
    put_time(out, at)?;
    put_entries(out, entries.as_slice())?;
    put_rows(out, rows.as_slice())
}

#[tactic(auto, unfolding(crate::specs::Spelling::step))]
fn put_step(out: &mut Vec<u8>, commit: &Commit) -> Result<(), NoMemory>
    ensures { OnOk result (out.new.items ≡ out.old.items ++ step commit.now) }
{
    match commit {
        Commit::Enqueue(pending) => {
            out.push(ENQUEUE)?;
            put_batch(out, pending)
        }
        Commit::Acknowledge { batch, at, results } => put_acknowledgement(
            out, *batch, *at, results,
        ),
        Commit::Reject { batch } => {
            out.push(REJECT)?;
            put_number(out, *batch)
        }
        Commit::Allocate { id, target } => {
            out.push(ALLOCATE)?;
            put_id(out, *id)?;
            put_target(out, target)
        }
        Commit::Point { at, entries, rows } => put_point(out, *at, entries, rows),
        Commit::Reset { ids } => {
            out.push(RESET)?;
            put_ids(out, ids.as_slice())
        }
        Commit::Drop { keys, ids } => {
            out.push(DROP)?;
            put_keys(out, keys)?;
            put_ids(out, ids.as_slice())
        }
    }
}

/// Appends the commit's spelling.
#[tactic(auto, unfolding(crate::specs::Spelling::spelling))]
pub(crate) fn put_commit(out: &mut Vec<u8>, commit: &Commit) -> Result<(), NoMemory>
    ensures { OnOk result (out.new.items ≡ out.old.items ++ spelling commit.now) }
{
    out.push(FORMAT)?;
    put_step(out, commit)
}
