//! Leaves without faults, read.

ghost use Rattle.std.specs.Prelude.{◌≡◌, ℕ, ℤ, true, IfOk, IfSome};
ghost use Rattle.document_keys.specs.Names.{IsKey, name_text};
ghost use Rattle.serde_json.specs.Data.{boolean};
ghost use Rattle.serde_json.specs.View.{view};
ghost use Rattle.value_model.specs.Storable.{IsStorableKey, IsStorableSegment};
ghost use Rattle.value_model.specs.Time.{IsMoment};
ghost use Rattle.json_model.specs.declared.place.Place.TheVariants as places;
ghost use Rattle.json_model.specs.declared.place.Leaf.TheVariants as leaves;
ghost use Rattle.json_model.specs.declared.fault.JsonFault.TheVariants as json_fault;
ghost use Rattle.json_model.specs.Clean.{IsClean};
ghost use Rattle.json_model.specs.Constants.{is_constant};
ghost use Rattle.json_model.specs.Grammar.{SpellsTime, SpellsName, SpellsText, SpellsBytesTree, SpellsPathTree, SpellsId, SpellsParent, SpellsQueryPathTree};
ghost use Rattle.json_model.specs.Leaves.{FitsLeaf, is_of_text, FitsText, IsDocumentText};
ghost use Rattle.json_model.specs.Numbers.{SpellsWhole, SpellsShort, SpellsUpTo, max_count, max_code, max_listener_id};
ghost use Rattle.json_model.specs.Storable.{IsStorablePath, IsStorableQueryPath};

use crate::bytes::read_bytes;
use crate::fault::JsonFault;
use crate::names::{is_documents, read_key, read_path, read_query_path, read_segment};
use crate::numbers::{MAX_CODE, MAX_COUNT, MAX_LISTENER_ID, read_short, read_up_to, read_whole};
use crate::place::{Constants, Leaf};
use crate::scalars::read_time;
use crate::setting::Setting;
use crate::texts::{show_key, show_path, show_segment};
use document_keys::{Database, DocumentKey, FieldPath, NoMemory, Segment};
use serde_json::Value as Json;
use std::alloc::Global;
use value_model::Timestamp;

/// A fault that is want of memory, as such.
fn want_of_memory(fault: JsonFault) -> NoMemory
    requires { fault ≡ json_fault.NoMemory }
{
    match fault {
        JsonFault::NoMemory => NoMemory,
        _ => unreachable!(),
    }
}

/// A leaf without faults is what may stand there. Nothing is done when this runs.
#[tactic(auto, using(crate::proofs::Fine::clean_leaf))]
fn show_leaf(_setting: &Setting<'_>, _leaf: Leaf, _json: &Json)
    requires { IsClean _setting.now (places.Leaf _leaf) (view _json.now) }
    ensures { FitsLeaf _setting.now.root _leaf (view _json.now) }
{}

/// The text of a leaf that is one.
fn clean_leaf_text<'a>(_setting: &Setting<'_>, _leaf: Leaf, json: &'a Json) -> &'a str
    requires clean { IsClean _setting.now (places.Leaf _leaf) (view json.now) }
    requires of_text { is_of_text _leaf ≡ true }
    ensures text { SpellsText (view json.now) result.now }
    ensures fits { FitsText _setting.now.root _leaf result.now }
{
    match json.as_str() {
        Some(text) => text,
        None => unreachable!(),
    }
}

/// true or false.
pub fn clean_boolean(setting: &Setting<'_>, json: &Json) -> bool
    requires { IsClean setting.now (places.Leaf leaves.Boolean) (view json.now) }
    ensures { view json.now ≡ boolean result }
{
    show_leaf(setting, Leaf::Boolean, json);
    match json.as_bool() {
        Some(is) => is,
        None => unreachable!(),
    }
}

/// A whole number.
pub fn clean_integer(setting: &Setting<'_>, json: &Json) -> i64
    requires { IsClean setting.now (places.Leaf leaves.Integer) (view json.now) }
    ensures { SpellsWhole (view json.now) result }
{
    show_leaf(setting, Leaf::Integer, json);
    match read_whole(json) {
        Some(number) => number,
        None => unreachable!(),
    }
}

/// A time.
pub fn clean_time(setting: &Setting<'_>, json: &Json) -> Timestamp
    requires { IsClean setting.now (places.Leaf leaves.Time) (view json.now) }
    ensures time { SpellsTime (view json.now) result }
    ensures moment { IsMoment result }
{
    show_leaf(setting, Leaf::Time, json);
    match read_time(json) {
        Some(time) => time,
        None => unreachable!(),
    }
}

/// A text.
pub fn clean_text<'a>(setting: &Setting<'_>, json: &'a Json) -> &'a str
    requires { IsClean setting.now (places.Leaf leaves.Text) (view json.now) }
    ensures { SpellsText (view json.now) result.now }
{
    show_leaf(setting, Leaf::Text, json);
    match json.as_str() {
        Some(text) => text,
        None => unreachable!(),
    }
}

/// Bytes.
///
/// # Errors
/// `NoMemory`
pub fn clean_bytes(alloc: Global, setting: &Setting<'_>, json: &Json) -> Result<Vec<u8>, NoMemory>
    requires { IsClean setting.now (places.Leaf leaves.Bytes) (view json.now) }
    ensures { IfOk result (λ bytes. SpellsBytesTree (view json.now) bytes.items) }
{
    let text = clean_leaf_text(setting, Leaf::Bytes, json);
    match read_bytes(alloc, text)? {
        Some(bytes) => Ok(bytes),
        None => unreachable!(),
    }
}

/// The key of the document that the text names.
fn clean_key(alloc: Global, root: &Database, text: &str) -> Result<DocumentKey, NoMemory>
    requires { IsDocumentText root.now text.now }
    ensures name { IfOk result (λ key. IsKey key × (text.now ≡ name_text root.now key)) }
    ensures storable { IfOk result IsStorableKey }
{
    match read_key(alloc, root, text) {
        Ok(key) => {
            show_key(&key);
            Ok(key)
        }
        Err(fault) => Err(want_of_memory(fault)),
    }
}

/// The key of the document that the tree names.
///
/// # Errors
/// `NoMemory`
pub fn clean_name(
    alloc: Global,
    setting: &Setting<'_>,
    json: &Json,
) -> Result<DocumentKey, NoMemory>
    requires { IsClean setting.now (places.Leaf leaves.Name) (view json.now) }
    ensures name { IfOk result (λ key. SpellsName setting.now.root (view json.now) key) }
    ensures storable { IfOk result IsStorableKey }
{
    let text = clean_leaf_text(setting, Leaf::Name, json);
    clean_key(alloc, setting.root, text)
}

/// The path of a field.
///
/// # Errors
/// `NoMemory`
#[tactic(auto, using(crate::proofs::OneLeaf::no_path_fault))]
pub fn clean_path(alloc: Global, setting: &Setting<'_>, json: &Json) -> Result<FieldPath, NoMemory>
    requires { IsClean setting.now (places.Leaf leaves.Path) (view json.now) }
    ensures path { IfOk result (λ path. SpellsPathTree (view json.now) path) }
    ensures storable { IfOk result IsStorablePath }
{
    let text = clean_leaf_text(setting, Leaf::Path, json);
    match read_path(alloc, text) {
        Ok(path) => {
            show_path(&path);
            Ok(path)
        }
        Err(fault) => Err(want_of_memory(fault)),
    }
}

/// The id of a collection.
///
/// # Errors
/// `NoMemory`
pub fn clean_id(alloc: Global, setting: &Setting<'_>, json: &Json) -> Result<Segment, NoMemory>
    requires { IsClean setting.now (places.Leaf leaves.Id) (view json.now) }
    ensures id { IfOk result (λ id. SpellsId (view json.now) id) }
    ensures storable { IfOk result IsStorableSegment }
{
    let text = clean_leaf_text(setting, Leaf::Id, json);
    match read_segment(alloc, text)? {
        Some(id) => {
            show_segment(&id);
            Ok(id)
        }
        None => unreachable!(),
    }
}

/// The key of the document that the tree names; none, where that is the root's `documents`.
///
/// # Errors
/// `NoMemory`
pub fn clean_parent(
    alloc: Global,
    setting: &Setting<'_>,
    json: &Json,
) -> Result<Option<DocumentKey>, NoMemory>
    requires { IsClean setting.now (places.Leaf leaves.Parent) (view json.now) }
    ensures parent { IfOk result (λ parent. SpellsParent setting.now.root (view json.now) parent) }
    ensures storable { IfOk result (λ parent. IfSome parent IsStorableKey) }
{
    let text = clean_leaf_text(setting, Leaf::Parent, json);
    if is_documents(setting.root, text) {
        return Ok(None);
    }
    Ok(Some(clean_key(alloc, setting.root, text)?))
}

/// The path of a field in a query, or `__name__`.
///
/// # Errors
/// `NoMemory`
#[tactic(auto, using(crate::proofs::OneLeaf::no_query_fault))]
pub fn clean_query_path(
    alloc: Global,
    setting: &Setting<'_>,
    json: &Json,
) -> Result<FieldPath, NoMemory>
    requires { IsClean setting.now (places.Leaf leaves.QueryPath) (view json.now) }
    ensures path { IfOk result (λ path. SpellsQueryPathTree (view json.now) path) }
    ensures storable { IfOk result IsStorableQueryPath }
{
    let text = clean_leaf_text(setting, Leaf::QueryPath, json);
    match read_query_path(alloc, text) {
        Ok(path) => {
            show_path(&path);
            Ok(path)
        }
        Err(fault) => Err(want_of_memory(fault)),
    }
}

/// The whole number of 32 bits with sign that the tree spells.
fn clean_short(json: &Json) -> i32
    requires { (z : ℤ) × SpellsShort (view json.now) z }
    ensures { SpellsShort (view json.now) result }
{
    match read_short(json) {
        Some(number) => number,
        None => unreachable!(),
    }
}

/// A whole number of 32 bits with sign.
pub fn clean_limit(setting: &Setting<'_>, json: &Json) -> i32
    requires { IsClean setting.now (places.Leaf leaves.Limit) (view json.now) }
    ensures { SpellsShort (view json.now) result }
{
    show_leaf(setting, Leaf::Limit, json);
    clean_short(json)
}

/// The id of a target.
pub fn clean_target_id(setting: &Setting<'_>, json: &Json) -> i32
    requires { IsClean setting.now (places.Leaf leaves.TargetId) (view json.now) }
    ensures { SpellsShort (view json.now) result }
{
    show_leaf(setting, Leaf::TargetId, json);
    clean_short(json)
}

/// The whole number from 0 to the most that the tree spells.
fn clean_up_to(most: u32, json: &Json) -> u32
    requires { (n : ℕ) × SpellsUpTo most (view json.now) n }
    ensures { SpellsUpTo most (view json.now) result }
{
    match read_up_to(most, json) {
        Some(number) => number,
        None => unreachable!(),
    }
}

/// A number of documents.
pub fn clean_count(setting: &Setting<'_>, json: &Json) -> u32
    requires { IsClean setting.now (places.Leaf leaves.Count) (view json.now) }
    ensures { SpellsUpTo max_count (view json.now) result }
{
    show_leaf(setting, Leaf::Count, json);
    clean_up_to(MAX_COUNT, json)
}

/// The code of a status.
pub fn clean_code(setting: &Setting<'_>, json: &Json) -> u8
    requires { IsClean setting.now (places.Leaf leaves.Code) (view json.now) }
    ensures { SpellsUpTo max_code (view json.now) result }
{
    show_leaf(setting, Leaf::Code, json);
    clean_up_to(MAX_CODE, json) as u8
}

/// The id of a listener.
pub fn clean_listener_id(setting: &Setting<'_>, json: &Json) -> u32
    requires { IsClean setting.now (places.Leaf leaves.ListenerId) (view json.now) }
    ensures { SpellsUpTo max_listener_id (view json.now) result }
{
    show_leaf(setting, Leaf::ListenerId, json);
    clean_up_to(MAX_LISTENER_ID, json)
}

/// The text of a constant.
pub fn clean_constant<'a>(setting: &Setting<'_>, which: Constants, json: &'a Json) -> &'a str
    requires { IsClean setting.now (places.Leaf (leaves.Constant which)) (view json.now) }
    ensures text { SpellsText (view json.now) result.now }
    ensures constant { is_constant which result.now ≡ true }
{
    clean_leaf_text(setting, Leaf::Constant(which), json)
}
