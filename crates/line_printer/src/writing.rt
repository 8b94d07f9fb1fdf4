//! The lines of the stream of writes: the requests that are sent, and what became of the batches.

ghost use Rattle.std.specs.Prelude.{◌≡◌, codes, IfOk};
ghost use Rattle.std.specs.String.{string_bytes};
ghost use Rattle.serde_json.specs.Data.{string};
ghost use Rattle.serde_json.specs.View.{view};
ghost use Rattle.mutations.specs.declared.results.WriteRequest.TheVariants.{Handshake, Batch};
ghost use Rattle.line_printer.specs.Lines.{line_of, count, result_tree, rejected_tree, send_write_tree};
ghost use Rattle.line_printer.specs.Trees.{one, three};

use crate::line::print_line;
use document_keys::{Database, NoMemory};
use json_messages::{print_batch_request, print_status, print_write_request};
use mutations::{Write, WriteRequest};
use serde_json::{Value as Json, json};
use std::alloc::{AllocError, Global};
use value_model::{RpcStatus, Timestamp};

fn result_json(alloc: Global, batch: u64, commit: u64, time: &str) -> Result<Json, AllocError>
    ensures { IfOk result (λ json. view json ≡ one (codes "result")
        (three (codes "batch") (count batch) (codes "commit") (count commit)
        (codes "commitTime") (string time.now))) }
{
    json!(in alloc; {"result": {"batch": batch, "commit": commit, "commitTime": time}})
}

/// A batch was committed by the backend: its id, the id of the commit that acknowledges it, and the backend's time.
///
/// # Errors
/// `NoMemory`
pub fn print_result(
    alloc: Global,
    batch: u64,
    commit: u64,
    time: Timestamp,
) -> Result<String, NoMemory>
    ensures { IfOk result (λ line. string_bytes line ≡ line_of (result_tree batch commit time)) }
{
    let time = time.print(alloc)?;
    let json = result_json(alloc, batch, commit, time.as_str())?;
    print_line(alloc, &json)
}

fn rejected_json(alloc: Global, batch: u64, commit: u64, status: Json) -> Result<Json, AllocError>
    ensures { IfOk result (λ json. view json ≡ one (codes "rejected")
        (three (codes "batch") (count batch) (codes "commit") (count commit)
        (codes "status") (view status))) }
{
    json!(in alloc; {"rejected": {"batch": batch, "commit": commit, "status": status}})
}

/// A batch was rejected by the backend: its id, the id of the commit that drops it, and the status.
///
/// # Errors
/// `NoMemory`
pub fn print_rejected(
    alloc: Global,
    batch: u64,
    commit: u64,
    status: &RpcStatus,
) -> Result<String, NoMemory>
    ensures { IfOk result (λ line. string_bytes line
        ≡ line_of (rejected_tree batch commit status.now)) }
{
    let json = rejected_json(alloc, batch, commit, print_status(alloc, status)?)?;
    print_line(alloc, &json)
}

fn send_json(alloc: Global, request: Json) -> Result<Json, AllocError>
    ensures { IfOk result (λ json. view json
        ≡ one (codes "send") (one (codes "write") (view request))) }
{
    json!(in alloc; {"send": {"write": request}})
}

/// The first request on a stream of writes, which names the database.
///
/// # Errors
/// `NoMemory`
pub fn print_handshake(alloc: Global, root: &Database) -> Result<String, NoMemory>
    ensures { IfOk result (λ line. string_bytes line
        ≡ line_of (send_write_tree root.now Handshake)) }
{
    let request = print_write_request(alloc, root, &WriteRequest::Handshake)?;
    let json = send_json(alloc, request)?;
    print_line(alloc, &json)
}

/// A later request: the latest token of the stream, and the writes of a batch.
///
/// # Errors
/// `NoMemory`
pub fn print_batch(
    alloc: Global,
    root: &Database,
    token: &[u8],
    writes: &[Write],
) -> Result<String, NoMemory>
    ensures { IfOk result (λ line. string_bytes line
        ≡ line_of (send_write_tree root.now (Batch token.now writes.now))) }
{
    let request = print_batch_request(alloc, root, token, writes)?;
    let json = send_json(alloc, request)?;
    print_line(alloc, &json)
}
