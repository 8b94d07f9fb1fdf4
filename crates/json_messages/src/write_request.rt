//! Requests on a write stream.

ghost use Rattle.std.specs.Prelude.{◌≡◌, [], ◌∷◌, false, IfOk, codes};
ghost use Rattle.serde_json.specs.Data.{string};
ghost use Rattle.serde_json.specs.View.{view, items_view, members_view};
ghost use Rattle.serde_json.specs.Written.{has_float};
ghost use Rattle.json_model.specs.Forms.{present, printed_each, unless_empty as unless_empty_of};
ghost use Rattle.json_model.specs.Trees.{one};
ghost use Rattle.json_rpc.specs.Printed.{printed_write};
ghost use Rattle.json_messages.specs.Printed.{printed_token, printed_write_request};
ghost use Rattle.mutations.specs.declared.results.WriteRequest.TheVariants.{Batch};

use crate::parts::token_tree;
use document_keys::{Database, NoMemory};
use json_model::{put_given, unless_empty};
use json_rpc::print_write;
use mutations::{Write, WriteRequest};
use serde_json::{Map, Value as Json, json};
use std::alloc::{AllocError, Global};

/// The trees of writes.
fn print_writes(alloc: Global, root: &Database, writes: &[Write]) -> Result<Vec<Json>, NoMemory>
    ensures { IfOk result (λ trees. items_view trees.items
        ≡ printed_each (printed_write root.now) writes.now) }
{
    let mut trees = Vec::new(alloc);
    for write in writes {
        trees.push(print_write(alloc, root, write)?)?;
    }
    Ok(trees)
}

/// The members of a request with writes.
fn print_batch(
    alloc: Global,
    root: &Database,
    token: &[u8],
    writes: &[Write],
) -> Result<Map<String, Json>, NoMemory>
    ensures { IfOk result (λ members. members_view members.entries
        ≡ present ((codes "streamToken", printed_token token.now) ∷
        (codes "writes", unless_empty_of (printed_each (printed_write root.now) writes.now)) ∷ [])) }
{
    let trees = print_writes(alloc, root, writes)?;
    let mut members = Map::new(alloc);
    put_given(alloc, &mut members, "writes", unless_empty(trees))?;
    put_given(
        alloc,
        &mut members,
        "streamToken",
        token_tree(alloc, token)?,
    )?;
    Ok(members)
}

fn handshake_json(alloc: Global, database: &str) -> Result<Json, AllocError>
    ensures { IfOk result (λ json. view json ≡ one (codes "database") (string database.now)) }
{
    json!(in alloc; {"database": database})
}

/// The tree of a request with the token of the message before it and the writes of a batch, with the names of documents under
/// the root. It has no floats.
///
/// # Errors
/// `NoMemory`
pub fn print_batch_request(
    alloc: Global,
    root: &Database,
    token: &[u8],
    writes: &[Write],
) -> Result<Json, NoMemory>
    ensures tree { IfOk result (λ json. view json
        ≡ printed_write_request root.now (Batch token.now writes.now)) }
    ensures digits { IfOk result (λ json. has_float (view json) ≡ false) }
{
    let members = print_batch(alloc, root, token, writes)?;
    Ok(Json::Object(members))
}

/// The tree of a request.
fn print_tree(alloc: Global, root: &Database, request: &WriteRequest) -> Result<Json, NoMemory>
    ensures { IfOk result (λ json. view json ≡ printed_write_request root.now request.now) }
{
    match request {
        WriteRequest::Handshake => Ok(handshake_json(alloc, root.as_str())?),
        WriteRequest::Batch { token, writes } => {
            print_batch_request(alloc, root, token.as_slice(), writes.as_slice())
        }
    }
}

/// The tree of a request on a write stream, with the names of documents under the root: the first names the database, a later
/// one has the token of the message before it and the writes of a batch. It has no floats.
///
/// # Errors
/// `NoMemory`
pub fn print_write_request(
    alloc: Global,
    root: &Database,
    request: &WriteRequest,
) -> Result<Json, NoMemory>
    ensures tree { IfOk result (λ json. view json ≡ printed_write_request root.now request.now) }
    ensures digits { IfOk result (λ json. has_float (view json) ≡ false) }
{
    print_tree(alloc, root, request)
}
