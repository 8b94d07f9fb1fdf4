//! Targets.

ghost use Rattle.std.specs.Prelude.{◌≡◌, IfOk, false, codes, option_map};
ghost use Rattle.std.specs.String.{string_bytes};
ghost use Rattle.serde_json.specs.Data.{string};
ghost use Rattle.serde_json.specs.View.{view};
ghost use Rattle.serde_json.specs.Written.{has_float};
ghost use Rattle.document_keys.specs.Names.{name_text};
ghost use Rattle.json_model.specs.Trees.{one, two};
ghost use Rattle.json_queries.specs.Printed.{id_of, only, parent_of, printed_limit, printed_structured, target_tree};

use crate::cursor::print_cursor;
use crate::filter::print_where;
use crate::order::print_orders;
use document_keys::{CollectionPath, Database, DocumentKey, NoMemory};
use json_model::{put_given, put_member};
use queries::{CollectionTarget, Target};
use serde_json::{Map, Number, Value as Json, json};
use std::alloc::{AllocError, Global};

fn documents_json(alloc: Global, name: &str) -> Result<Json, AllocError>
    ensures { IfOk result (λ json. view json
        ≡ one (codes "documents") (one (codes "documents") (only (string name.now)))) }
{
    json!(in alloc; {"documents": {"documents": [name]}})
}

fn query_json(alloc: Global, parent: &str, structured: Json) -> Result<Json, AllocError>
    ensures { IfOk result (λ json. view json
        ≡ one (codes "query") (two (codes "parent") (string parent.now) (codes "structuredQuery")
        (view structured))) }
{
    json!(in alloc; {"query": {"parent": parent, "structuredQuery": structured}})
}

fn from_json(alloc: Global, id: &str) -> Result<Json, AllocError>
    ensures { IfOk result (λ json. view json ≡ only (one (codes "collectionId") (string id.now))) }
{
    json!(in alloc; [{"collectionId": id}])
}

/// The id of a collection, lent.
fn id_in(collection: &CollectionPath) -> &str
    ensures { result.now ≡ id_of collection.now }
{
    let count = collection.len();
    match collection.segment(count - 1) {
        Some(id) => id,
        None => unreachable!(),
    }
}

/// The name of the document that has a collection, or of the root's `documents`.
fn print_parent(
    alloc: Global,
    root: &Database,
    collection: &CollectionPath,
) -> Result<String, NoMemory>
    ensures { IfOk result (λ name. string_bytes name ≡ name_text root.now (parent_of collection.now)) }
{
    collection.print_parent(alloc, root)
}

/// A limit as a number; it is left out where there is none.
fn limit_tree(limit: Option<u32>) -> Option<Json>
    ensures { option_map view result ≡ option_map printed_limit limit }
{
    match limit {
        Some(limit) => Some(Json::Number(Number::from(limit))),
        None => None,
    }
}

/// What `structuredQuery` holds.
fn print_structured(alloc: Global, target: &CollectionTarget) -> Result<Json, NoMemory>
    ensures { IfOk result (λ json. view json ≡ printed_structured target.now) }
{
    let mut members = Map::new(alloc);
    put_given(
        alloc,
        &mut members,
        "where",
        print_where(alloc, &target.filter)?,
    )?;
    put_given(
        alloc,
        &mut members,
        "startAt",
        print_cursor(alloc, &target.start_at)?,
    )?;
    put_given(
        alloc,
        &mut members,
        "orderBy",
        print_orders(alloc, &target.orders)?,
    )?;
    put_given(alloc, &mut members, "limit", limit_tree(target.limit))?;
    put_member(
        alloc,
        &mut members,
        "from",
        from_json(alloc, id_in(&target.collection))?,
    )?;
    put_given(
        alloc,
        &mut members,
        "endAt",
        print_cursor(alloc, &target.end_at)?,
    )?;
    Ok(Json::Object(members))
}

/// The target of one document.
fn print_documents(alloc: Global, root: &Database, key: &DocumentKey) -> Result<Json, NoMemory>
    ensures { IfOk result (λ json. view json ≡ target_tree root.now (Target.Document key.now)) }
{
    let name = key.print(alloc, root)?;
    Ok(documents_json(alloc, name.as_str())?)
}

/// The query of a collection, in its parent.
fn print_query(alloc: Global, root: &Database, target: &CollectionTarget) -> Result<Json, NoMemory>
    ensures { IfOk result (λ json. view json ≡ target_tree root.now (Target.Collection target.now)) }
{
    let parent = print_parent(alloc, root, &target.collection)?;
    let structured = print_structured(alloc, target)?;
    Ok(query_json(alloc, parent.as_str(), structured)?)
}

/// The printed tree of a target.
fn print_tree(alloc: Global, root: &Database, target: &Target) -> Result<Json, NoMemory>
    ensures { IfOk result (λ json. view json ≡ target_tree root.now target.now) }
{
    match target {
        Target::Document(key) => print_documents(alloc, root, key),
        Target::Collection(target) => print_query(alloc, root, target),
    }
}

/// The tree of a target: the one printed form of it, with the names of documents under the root. It has no floats.
///
/// # Errors
/// `NoMemory`
pub fn print_target(alloc: Global, root: &Database, target: &Target) -> Result<Json, NoMemory>
    ensures tree { IfOk result (λ json. view json ≡ target_tree root.now target.now) }
    ensures digits { IfOk result (λ json. has_float (view json) ≡ false) }
{
    print_tree(alloc, root, target)
}
