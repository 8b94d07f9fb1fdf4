//! Requests on a watch stream.

ghost use Rattle.std.specs.Prelude.{◌≡◌, false, IfOk, codes, option_map};
ghost use Rattle.serde_json.specs.Data.{string, number, object, no_members, member, put};
ghost use Rattle.serde_json.specs.Find.{of_integer};
ghost use Rattle.serde_json.specs.View.{view, members_view};
ghost use Rattle.serde_json.specs.Written.{has_float};
ghost use Rattle.document_keys.specs.Names.{root_text};
ghost use Rattle.json_queries.specs.Printed.{target_tree};
ghost use Rattle.json_messages.specs.Printed.{added_target, lent_point, point_count, point_token, printed_listen_request};
ghost use Rattle.queries.specs.declared.listen_request.ListenRequest.TheVariants.{Add};

use crate::parts::token_tree;
use document_keys::{Database, NoMemory};
use json_model::{put_given, put_member, text_tree};
use json_queries::print_target;
use queries::{ListenRequest, Resume, Target};
use serde_json::{Map, Number, Value as Json};
use std::alloc::Global;

/// The point, lent as its token and its number of documents.
fn lent(point: &Option<Resume>) -> Option<(&[u8], u64)>
    ensures { lent_point result ≡ point.now }
{
    match point {
        Some(point) => Some((point.token.as_slice(), point.expected_count)),
        None => None,
    }
}

/// The token of a point.
fn point_token_tree(alloc: Global, point: Option<(&[u8], u64)>) -> Result<Option<Json>, NoMemory>
    ensures { IfOk result (λ found. option_map view found
        ≡ point_token (lent_point point.entry)) }
{
    match point {
        Some((token, _)) => token_tree(alloc, token),
        None => Ok(None),
    }
}

/// The most documents that can be told to be expected.
const MAX_COUNT: u64 = 2_147_483_647;

/// The number of documents that the target had at a point.
fn point_count_tree(point: Option<(&[u8], u64)>) -> Option<Json>
    ensures { option_map view result ≡ point_count (lent_point point.entry) }
{
    let Some((_, expected_count)) = point else {
        return None;
    };
    if expected_count > MAX_COUNT {
        return None;
    }
    Some(Json::Number(Number::from(expected_count)))
}

/// The id of a target.
fn id_tree(id: i32) -> Json
    ensures { view result ≡ number (of_integer id) }
{
    Json::Number(Number::from(id))
}

/// The members of a target's tree.
fn print_target_members(
    alloc: Global,
    root: &Database,
    target: &Target,
) -> Result<Map<String, Json>, NoMemory>
    ensures { IfOk result (λ members. object (members_view members.entries)
        ≡ target_tree root.now target.now) }
{
    match print_target(alloc, root, target)? {
        Json::Object(members) => Ok(members),
        _ => unreachable!(),
    }
}

/// What `addTarget` holds.
fn print_added_target(
    alloc: Global,
    root: &Database,
    id: i32,
    target: &Target,
    point: Option<(&[u8], u64)>,
) -> Result<Json, NoMemory>
    ensures { IfOk result (λ json. view json
        ≡ added_target root.now id target.now (lent_point point.entry)) }
{
    let mut members = print_target_members(alloc, root, target)?;
    put_given(
        alloc,
        &mut members,
        "expectedCount",
        point_count_tree(point),
    )?;
    let token = point_token_tree(alloc, point)?;
    put_given(alloc, &mut members, "resumeToken", token)?;
    put_member(alloc, &mut members, "targetId", id_tree(id))?;
    Ok(Json::Object(members))
}

/// An object of the database and a request.
fn request_tree(alloc: Global, root: &Database, name: &str, request: Json) -> Result<Json, NoMemory>
    ensures { IfOk result (λ json. view json
        ≡ object (put name.now (view request)
        (member (codes "database") (string (root_text root.now)) no_members))) }
{
    let mut members = Map::new(alloc);
    put_member(
        alloc,
        &mut members,
        "database",
        text_tree(alloc, root.as_str())?,
    )?;
    put_member(alloc, &mut members, name, request)?;
    Ok(Json::Object(members))
}

/// The tree of a request that adds a target.
fn print_added_tree(
    alloc: Global,
    root: &Database,
    id: i32,
    target: &Target,
    point: Option<(&[u8], u64)>,
) -> Result<Json, NoMemory>
    ensures { IfOk result (λ json. view json
        ≡ printed_listen_request root.now (Add id target.now (lent_point point.entry))) }
{
    let added = print_added_target(alloc, root, id, target, point)?;
    request_tree(alloc, root, "addTarget", added)
}

/// The tree of a request that adds a target under the id, from the point if there is one: its token
/// and the number of documents that the target had then. The names of documents stand under the
/// root. It has no floats.
///
/// # Errors
/// `NoMemory`
pub fn print_add_request(
    alloc: Global,
    root: &Database,
    id: i32,
    target: &Target,
    resume: Option<(&[u8], u64)>,
) -> Result<Json, NoMemory>
    ensures tree { IfOk result (λ json. view json
        ≡ printed_listen_request root.now (Add id target.now (lent_point resume.entry))) }
    ensures digits { IfOk result (λ json. has_float (view json) ≡ false) }
{
    print_added_tree(alloc, root, id, target, resume)
}

/// The tree of a request.
fn print_tree(alloc: Global, root: &Database, request: &ListenRequest) -> Result<Json, NoMemory>
    ensures { IfOk result (λ json. view json ≡ printed_listen_request root.now request.now) }
{
    match request {
        ListenRequest::Add { id, target, resume } => {
            print_add_request(alloc, root, *id, target, lent(resume))
        }
        ListenRequest::Remove { id } => request_tree(alloc, root, "removeTarget", id_tree(*id)),
    }
}

/// The tree of a request on a watch stream, with the names of documents under the root. It has no floats.
///
/// # Errors
/// `NoMemory`
pub fn print_listen_request(
    alloc: Global,
    root: &Database,
    request: &ListenRequest,
) -> Result<Json, NoMemory>
    ensures tree { IfOk result (λ json. view json ≡ printed_listen_request root.now request.now) }
    ensures digits { IfOk result (λ json. has_float (view json) ≡ false) }
{
    print_tree(alloc, root, request)
}
