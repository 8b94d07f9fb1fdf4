//! The faults of trees that aren't looked into.

ghost use Rattle.std.specs.Prelude.{◌≡◌, ◌≢◌, ◌↔◌, ℕ, ℤ, Bool, Some, None, IsTrue, IfOk, codes, if◌then◌else◌};
ghost use Rattle.serde_json.specs.Data.{boolean, string};
ghost use Rattle.serde_json.specs.View.{view};
ghost use Rattle.json_model.specs.declared.fault.JsonFault.TheVariants as json_fault;
ghost use Rattle.json_model.specs.Ranks.{first_of_least};
ghost use Rattle.json_model.specs.Numbers.{SpellsWhole, SpellsShort, SpellsUpTo};
ghost use Rattle.json_model.specs.Faults.{FirstOf, FlatFaults, unknown_faults};
ghost use Rattle.json_model.specs.Leaves.{Unless, InText, IsNullTree, IsText, IsTimeText, IsBytesText, ReferenceFaults, DocumentFaults, ParentFaults, PathFaults, QueryPathFaults, IdFaults, constant_faults, descendants_faults, TextFaults, LeafFaults};

use crate::bytes::read_bytes;
use crate::constants::{is_constant, is_untaken};
use crate::fault::{JsonFault, NamingFault};
use crate::names::{
    bad_name, is_documents, read_key, read_path, read_query_path, read_reference, read_segment,
};
use crate::numbers::{MAX_CODE, MAX_COUNT, MAX_LISTENER_ID, read_short, read_up_to, read_whole};
use crate::place::{Constants, Leaf, Place};
use crate::setting::Setting;
use crate::side::Side;
use document_keys::{Database, NoMemory, Text};
use serde_json::Value as Json;
use std::alloc::Global;
use value_model::Timestamp;

/// A wrong shape under the name, unless the shape is right.
pub(crate) fn bad_shape_unless(
    alloc: Global,
    holds: bool,
    name: &str,
) -> Result<Option<JsonFault>, NoMemory>
    ensures { IfOk result (λ found. found ≡ (if holds then None else Some (json_fault.BadShape name.now))) }
{
    if holds {
        return Ok(None);
    }
    Ok(Some(JsonFault::BadShape(Text::from_str(alloc, name)?)))
}

/// Whether the tree is null, or the text that stands for it.
pub(crate) fn is_null_tree(json: &Json) -> bool
    ensures { IsTrue result ↔ IsNullTree (view json.now) }
{
    if json.is_null() {
        return true;
    }
    match json.as_str() {
        Some(text) => text == "NULL_VALUE",
        None => false,
    }
}

fn find_in_null(alloc: Global, name: &str, json: &Json) -> Result<Option<JsonFault>, NoMemory>
    ensures { IfOk result (λ found. FirstOf
        (Unless (IsNullTree (view json.now)) (json_fault.BadShape name.now)) found) }
{
    bad_shape_unless(alloc, is_null_tree(json), name)
}

fn find_in_boolean(alloc: Global, name: &str, json: &Json) -> Result<Option<JsonFault>, NoMemory>
    ensures { IfOk result (λ found. FirstOf
        (Unless ((is : Bool) × (view json.now ≡ boolean is)) (json_fault.BadShape name.now)) found) }
{
    bad_shape_unless(alloc, json.is_boolean(), name)
}

fn find_in_integer(alloc: Global, name: &str, json: &Json) -> Result<Option<JsonFault>, NoMemory>
    ensures { IfOk result (λ found. FirstOf
        (Unless ((z : ℤ) × SpellsWhole (view json.now) z) (json_fault.BadShape name.now)) found) }
{
    let number = read_whole(json);
    bad_shape_unless(alloc, number.is_some(), name)
}

fn find_in_text(alloc: Global, name: &str, json: &Json) -> Result<Option<JsonFault>, NoMemory>
    ensures { IfOk result (λ found. FirstOf
        (Unless (IsText (view json.now)) (json_fault.BadShape name.now)) found) }
{
    bad_shape_unless(alloc, json.is_string(), name)
}

#[tactic(auto, using(crate::proofs::Kinded::unless_some, crate::proofs::Kinded::no_time))]
fn find_in_time_text(alloc: Global, name: &str, text: &str) -> Result<Option<JsonFault>, NoMemory>
    ensures { IfOk result (λ found. FirstOf
        (Unless (IsTimeText text.now) (json_fault.BadTime name.now)) found) }
{
    if Timestamp::read(text).is_some() {
        return Ok(None);
    }
    Ok(Some(JsonFault::BadTime(Text::from_str(alloc, name)?)))
}

#[tactic(auto, using(crate::proofs::Kinded::unless_none, crate::proofs::Kinded::unless_some, crate::proofs::Kinded::bytes_then, crate::proofs::Kinded::no_bytes))]
fn find_in_bytes_text(alloc: Global, name: &str, text: &str) -> Result<Option<JsonFault>, NoMemory>
    ensures { IfOk result (λ found. FirstOf
        (Unless (IsBytesText text.now) (json_fault.BadBytes name.now)) found) }
{
    if read_bytes(alloc, text)?.is_some() {
        return Ok(None);
    }
    Ok(Some(JsonFault::BadBytes(Text::from_str(alloc, name)?)))
}

/// The fault, unless it is want of memory.
fn told(fault: JsonFault) -> Result<Option<JsonFault>, NoMemory>
    ensures { IfOk result (λ found. (found ≡ Some fault) × (fault ≢ json_fault.NoMemory)) }
{
    fault.unless_memory()?;
    Ok(Some(fault))
}

fn find_in_reference_text(alloc: Global, text: &str) -> Result<Option<JsonFault>, NoMemory>
    ensures { IfOk result (λ found. FirstOf (ReferenceFaults text.now) found) }
{
    match read_reference(alloc, text) {
        Ok(_) => Ok(None),
        Err(fault) => told(fault),
    }
}

fn find_in_document_text(
    alloc: Global,
    root: &Database,
    text: &str,
) -> Result<Option<JsonFault>, NoMemory>
    ensures { IfOk result (λ found. FirstOf (DocumentFaults root.now text.now) found) }
{
    match read_key(alloc, root, text) {
        Ok(_) => Ok(None),
        Err(fault) => told(fault),
    }
}

fn find_in_path_text(alloc: Global, text: &str) -> Result<Option<JsonFault>, NoMemory>
    ensures { IfOk result (λ found. FirstOf (PathFaults text.now) found) }
{
    match read_path(alloc, text) {
        Ok(_) => Ok(None),
        Err(fault) => told(fault),
    }
}

/// Whether the tree is the text that stands for the time of the commit.
fn is_server_time(json: &Json) -> bool
    ensures { IsTrue result ↔ (view json.now ≡ string (codes "REQUEST_TIME")) }
{
    match json.as_str() {
        Some(text) => text == "REQUEST_TIME",
        None => false,
    }
}

fn find_in_server_time(
    alloc: Global,
    name: &str,
    json: &Json,
) -> Result<Option<JsonFault>, NoMemory>
    ensures { IfOk result (λ found. FirstOf
        (Unless (view json.now ≡ string (codes "REQUEST_TIME")) (json_fault.BadShape name.now)) found) }
{
    bad_shape_unless(alloc, is_server_time(json), name)
}

fn find_in_id_text(alloc: Global, text: &str) -> Result<Option<JsonFault>, NoMemory>
    ensures { IfOk result (λ found. FirstOf (IdFaults text.now) found) }
{
    if read_segment(alloc, text)?.is_some() {
        return Ok(None);
    }
    Ok(Some(bad_name(alloc, NamingFault::BadSegment, text)?))
}

fn find_in_parent_text(
    alloc: Global,
    root: &Database,
    text: &str,
) -> Result<Option<JsonFault>, NoMemory>
    ensures { IfOk result (λ found. FirstOf (ParentFaults root.now text.now) found) }
{
    if is_documents(root, text) {
        return Ok(None);
    }
    find_in_document_text(alloc, root, text)
}

fn find_in_query_path_text(alloc: Global, text: &str) -> Result<Option<JsonFault>, NoMemory>
    ensures { IfOk result (λ found. FirstOf (QueryPathFaults text.now) found) }
{
    match read_query_path(alloc, text) {
        Ok(_) => Ok(None),
        Err(fault) => told(fault),
    }
}

fn find_in_limit(alloc: Global, name: &str, json: &Json) -> Result<Option<JsonFault>, NoMemory>
    ensures { IfOk result (λ found. FirstOf
        (Unless ((z : ℤ) × SpellsShort (view json.now) z) (json_fault.BadShape name.now)) found) }
{
    let number = read_short(json);
    bad_shape_unless(alloc, number.is_some(), name)
}

fn find_up_to(
    alloc: Global,
    most: u32,
    name: &str,
    json: &Json,
) -> Result<Option<JsonFault>, NoMemory>
    ensures { IfOk result (λ found. FirstOf
        (Unless ((n : ℕ) × SpellsUpTo most (view json.now) n) (json_fault.BadShape name.now)) found) }
{
    let number = read_up_to(most, json);
    bad_shape_unless(alloc, number.is_some(), name)
}

fn find_in_descendants(
    alloc: Global,
    name: &str,
    json: &Json,
) -> Result<Option<JsonFault>, NoMemory>
    ensures { IfOk result (λ found. found ≡ first_of_least (descendants_faults name.now (view json.now))) }
{
    match json.as_bool() {
        Some(false) => Ok(None),
        Some(true) => Ok(Some(JsonFault::Unsupported(Text::from_str(alloc, name)?))),
        None => bad_shape_unless(alloc, false, name),
    }
}

fn find_in_constant_text(
    alloc: Global,
    which: Constants,
    name: &str,
    text: &str,
) -> Result<Option<JsonFault>, NoMemory>
    ensures { IfOk result (λ found. found ≡ first_of_least (constant_faults which name.now text.now)) }
{
    if is_constant(which, text) {
        return Ok(None);
    }
    if is_untaken(which, text) {
        return Ok(Some(JsonFault::Unsupported(Text::from_str(alloc, text)?)));
    }
    bad_shape_unless(alloc, false, name)
}

/// The fault of a text that is to be a leaf of that kind.
fn find_in_leaf_text(
    alloc: Global,
    root: &Database,
    leaf: Leaf,
    name: &str,
    text: &str,
) -> Result<Option<JsonFault>, NoMemory>
    ensures { IfOk result (λ found. FirstOf (TextFaults root.now leaf name.now text.now) found) }
{
    match leaf {
        Leaf::Time => find_in_time_text(alloc, name, text),
        Leaf::Bytes => find_in_bytes_text(alloc, name, text),
        Leaf::Reference => find_in_reference_text(alloc, text),
        Leaf::Name => find_in_document_text(alloc, root, text),
        Leaf::Path => find_in_path_text(alloc, text),
        Leaf::Id => find_in_id_text(alloc, text),
        Leaf::Parent => find_in_parent_text(alloc, root, text),
        Leaf::QueryPath => find_in_query_path_text(alloc, text),
        Leaf::Constant(which) => find_in_constant_text(alloc, which, name, text),
        _ => Ok(None),
    }
}

/// The fault of a tree that is to be a text of that kind.
fn find_by_text(
    alloc: Global,
    root: &Database,
    leaf: Leaf,
    name: &str,
    json: &Json,
) -> Result<Option<JsonFault>, NoMemory>
    ensures { IfOk result (λ found. FirstOf
        (InText (view json.now) name.now (TextFaults root.now leaf name.now)) found) }
{
    match json.as_str() {
        Some(text) => find_in_leaf_text(alloc, root, leaf, name, text),
        None => bad_shape_unless(alloc, false, name),
    }
}

/// The fault of a leaf.
fn find_in_leaf(
    alloc: Global,
    root: &Database,
    leaf: Leaf,
    name: &str,
    json: &Json,
) -> Result<Option<JsonFault>, NoMemory>
    ensures { IfOk result (λ found. FirstOf (LeafFaults root.now leaf name.now (view json.now)) found) }
{
    match leaf {
        Leaf::Null => find_in_null(alloc, name, json),
        Leaf::Boolean => find_in_boolean(alloc, name, json),
        Leaf::Integer => find_in_integer(alloc, name, json),
        Leaf::Text => find_in_text(alloc, name, json),
        Leaf::ServerTime => find_in_server_time(alloc, name, json),
        Leaf::Limit => find_in_limit(alloc, name, json),
        Leaf::Descendants => find_in_descendants(alloc, name, json),
        Leaf::TargetId => find_in_limit(alloc, name, json),
        Leaf::Count => find_up_to(alloc, MAX_COUNT, name, json),
        Leaf::Code => find_up_to(alloc, MAX_CODE, name, json),
        Leaf::ListenerId => find_up_to(alloc, MAX_LISTENER_ID, name, json),
        Leaf::Time
        | Leaf::Bytes
        | Leaf::Reference
        | Leaf::Name
        | Leaf::Path
        | Leaf::Id
        | Leaf::Parent
        | Leaf::QueryPath
        | Leaf::Constant(_) => find_by_text(alloc, root, leaf, name, json),
    }
}

/// The fault of a member that isn't known.
fn find_in_unknown(alloc: Global, side: Side, name: &str) -> Result<Option<JsonFault>, NoMemory>
    ensures { IfOk result (λ found. found ≡ first_of_least (unknown_faults side name.now)) }
{
    bad_shape_unless(alloc, side == Side::Backend, name)
}

/// The fault of a tree that isn't looked into, or isn't one that is to be.
pub(crate) fn find_flat(
    alloc: Global,
    setting: &Setting<'_>,
    place: Place,
    name: &str,
    json: &Json,
) -> Result<Option<JsonFault>, NoMemory>
    ensures { IfOk result (λ found. FirstOf (FlatFaults setting.now place name.now (view json.now)) found) }
{
    match place {
        Place::Leaf(leaf) => find_in_leaf(alloc, setting.root, leaf, name, json),
        Place::Unsupported => Ok(Some(JsonFault::Unsupported(Text::from_str(alloc, name)?))),
        Place::Unknown => find_in_unknown(alloc, setting.side, name),
        Place::Ignored => Ok(None),
        Place::Object(_) => bad_shape_unless(alloc, false, name),
        Place::Series(_) => bad_shape_unless(alloc, false, name),
    }
}
