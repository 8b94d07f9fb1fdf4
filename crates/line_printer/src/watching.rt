//! The lines of the stream of listeners: the requests that are sent, and why a listener was removed.

ghost use Rattle.std.specs.Prelude.{◌≡◌, codes, IfOk};
ghost use Rattle.std.specs.String.{string_bytes};
ghost use Rattle.serde_json.specs.View.{view};
ghost use Rattle.json_messages.specs.Printed.{lent_point};
ghost use Rattle.queries.specs.declared.listen_request.ListenRequest.TheVariants.{Add, Remove};
ghost use Rattle.line_printer.specs.Lines.{line_of, count, error_tree, send_listen_tree};
ghost use Rattle.line_printer.specs.Trees.{one, two};

use crate::line::print_line;
use document_keys::{Database, NoMemory};
use json_messages::{print_add_request, print_listen_request, print_status};
use queries::{ListenRequest, Target};
use serde_json::{Value as Json, json};
use std::alloc::{AllocError, Global};
use value_model::RpcStatus;

fn error_json(alloc: Global, id: u32, status: Json) -> Result<Json, AllocError>
    ensures { IfOk result (λ json. view json ≡ one (codes "error")
        (two (codes "id") (count id) (codes "status") (view status))) }
{
    json!(in alloc; {"error": {"id": id, "status": status}})
}

/// The backend ended the target of a listener, which is removed: its id, and the status.
///
/// # Errors
/// `NoMemory`
pub fn print_error(alloc: Global, id: u32, status: &RpcStatus) -> Result<String, NoMemory>
    ensures { IfOk result (λ line. string_bytes line ≡ line_of (error_tree id status.now)) }
{
    let json = error_json(alloc, id, print_status(alloc, status)?)?;
    print_line(alloc, &json)
}

fn send_json(alloc: Global, request: Json) -> Result<Json, AllocError>
    ensures { IfOk result (λ json. view json
        ≡ one (codes "send") (one (codes "listen") (view request))) }
{
    json!(in alloc; {"send": {"listen": request}})
}

/// A request to add the target under the id, from a point if there is one: its token, and the number
/// of documents that the target had then.
///
/// # Errors
/// `NoMemory`
pub fn print_add_target(
    alloc: Global,
    root: &Database,
    id: i32,
    target: &Target,
    resume: Option<(&[u8], u64)>,
) -> Result<String, NoMemory>
    ensures { IfOk result (λ line. string_bytes line ≡ line_of
        (send_listen_tree root.now (Add id target.now (lent_point resume.entry)))) }
{
    let request = print_add_request(alloc, root, id, target, resume)?;
    let json = send_json(alloc, request)?;
    print_line(alloc, &json)
}

/// A request to remove the target of the id.
///
/// # Errors
/// `NoMemory`
pub fn print_remove_target(alloc: Global, root: &Database, id: i32) -> Result<String, NoMemory>
    ensures { IfOk result (λ line. string_bytes line
        ≡ line_of (send_listen_tree root.now (Remove id))) }
{
    let request = print_listen_request(alloc, root, &ListenRequest::Remove { id })?;
    let json = send_json(alloc, request)?;
    print_line(alloc, &json)
}
