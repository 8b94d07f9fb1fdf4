//! The walk through a tree in search of the fault that is reported.

ghost use Rattle.std.specs.Prelude.{◌≡◌, IfOk, codes};
ghost use Rattle.serde_json.specs.View.{view, items_view, members_view};
ghost use Rattle.json_model.specs.Ranks.{first_of_least};
ghost use Rattle.json_model.specs.Faults.{FirstOf, FaultsAt, ItemsFaults, MembersFaults, OwnName, Takes, CountsPath, levels_inside as levels_inside_of, own_faults, own_list_faults, depth_faults};
ghost use Rattle.json_model.specs.Members.{given as given_of, lacks_only as lacks_only_of};
ghost use Rattle.json_model.specs.Places.{required as required_of};

use crate::fault::{JsonFault, improve};
use crate::leaves::{bad_shape_unless, find_flat};
use crate::members::{given, is_vector_map, lacks_choice, lone_scalar, refined};
use crate::names::{count_names, find_in_field_name};
use crate::place::{Object, Place, Series};
use crate::reading::MAX_NESTING;
use crate::required::{find_missed, find_missing, later};
use crate::setting::Setting;
use crate::table::{item_place, member_place, required};
use document_keys::{NoMemory, Text};
use serde_json::{Map, Value as Json};
use std::alloc::Global;

/// What an object has in place of what is inside it.
fn own_fault(
    alloc: Global,
    object: Object,
    name: &str,
    members: &Map<String, Json>,
) -> Result<Option<JsonFault>, NoMemory>
    ensures { IfOk result (λ found. found
        ≡ first_of_least (own_faults object name.now (members_view members.now.entries))) }
{
    if lacks_choice(object, members) {
        return bad_shape_unless(alloc, false, name);
    }
    if is_vector_map(object, members) {
        return Ok(Some(JsonFault::Unsupported(Text::from_str(alloc, "vectorValue")?)));
    }
    Ok(None)
}

/// Whether the list must have exactly one item, and hasn't.
#[tactic(auto, using(crate::proofs::Walked::lacks_by))]
fn lacks_only(series: Series, items: &Vec<Json>) -> bool
    ensures { result ≡ lacks_only_of series (items_view items.now.items) }
{
    match series {
        Series::Names => items.len() != 1,
        _ => false,
    }
}

/// What a list has in place of what is inside it.
fn own_list_fault(
    alloc: Global,
    series: Series,
    name: &str,
    items: &Vec<Json>,
) -> Result<Option<JsonFault>, NoMemory>
    ensures { IfOk result (λ found. found
        ≡ first_of_least (own_list_faults series name.now (items_view items.now.items))) }
{
    bad_shape_unless(alloc, !lacks_only(series, items), name)
}

/// How many names the path under `fieldPath` has; none where it isn't a path.
#[tactic(auto, using(crate::proofs::Walked::no_given, crate::proofs::Walked::no_text_path, crate::proofs::Walked::counted, crate::proofs::Walked::no_names))]
fn count_path(alloc: Global, members: &Map<String, Json>) -> Result<u64, NoMemory>
    ensures { IfOk result (λ count. CountsPath
        (given_of (codes "fieldPath") (members_view members.now.entries)) count) }
{
    let Some(json) = given(members, "fieldPath") else {
        return Ok(0);
    };
    let Some(text) = json.as_str() else {
        return Ok(0);
    };
    let names = count_names(alloc, text)?;
    match names {
        Some(count) => Ok(count),
        None => Ok(0),
    }
}

/// How many levels of nesting an object takes up.
fn count_levels(alloc: Global, object: Object, members: &Map<String, Json>) -> Result<u64, NoMemory>
    ensures { IfOk result (λ levels. Takes object (members_view members.now.entries) levels) }
{
    match object {
        Object::Array | Object::Map | Object::Filter => Ok(1),
        Object::ArrayTransform => count_path(alloc, members),
        _ => Ok(0),
    }
}

/// How many levels there are inside an object where so many are left. The operand of a filter nests as deep as any value may.
fn levels_inside(object: Object, left: u64) -> u64
    ensures { result ≡ levels_inside_of object left }
{
    match object {
        Object::FieldFilter => MAX_NESTING,
        _ => left,
    }
}

/// An object that takes up more levels than there are is too deep.
fn depth_fault(limit: u64, levels: u64) -> Option<JsonFault>
    ensures { result ≡ first_of_least (depth_faults limit levels) }
{
    if limit < levels {
        return Some(JsonFault::TooDeep);
    }
    None
}

/// The first fault of the least kind of a tree at a place, under that name, where so many arrays and maps may nest; none when
/// the tree has no fault.
///
/// # Errors
/// `NoMemory` alone.
#[cycle(find)]
pub(crate) fn find_fault(
    alloc: Global,
    setting: &Setting<'_>,
    limit: u64,
    place: Place,
    name: &str,
    json: &Json,
) -> Result<Option<JsonFault>, NoMemory>
    ensures { IfOk result (λ found. FirstOf
        (FaultsAt setting.now limit place name.now (view json.now)) found) }
{
    match json {
        Json::Object(members) => {
            let Place::Object(object) = place else {
                return find_flat(alloc, setting, place, name, json);
            };
            if let Some(scalar) = lone_scalar(object, members) {
                return find_flat(
                    alloc,
                    setting,
                    Place::Leaf(scalar.leaf),
                    scalar.name,
                    scalar.json,
                );
            }
            if let Some(fault) = own_fault(alloc, object, name, members)? {
                return Ok(Some(fault));
            }
            let form = refined(object, members);
            let levels = count_levels(alloc, form, members)?;
            let mut fault = depth_fault(limit, levels);
            let left = limit.saturating_sub(levels);
            let inner = levels_inside(object, left);
            let inside = find_in_members(alloc, setting, inner, form, members)?;
            improve(&mut fault, inside);
            Ok(fault)
        }
        Json::Array(items) => {
            let Place::Series(series) = place else {
                return find_flat(alloc, setting, place, name, json);
            };
            if let Some(fault) = own_list_fault(alloc, series, name, items)? {
                return Ok(Some(fault));
            }
            find_in_items(alloc, setting, limit, series, name, items)
        }
        Json::Null | Json::Bool(_) | Json::Number(_) | Json::String(_) => {
            find_flat(alloc, setting, place, name, json)
        }
    }
}

/// The fault of the items of a list of that name.
#[cycle(find)]
fn find_in_items(
    alloc: Global,
    setting: &Setting<'_>,
    limit: u64,
    series: Series,
    name: &str,
    items: &Vec<Json>,
) -> Result<Option<JsonFault>, NoMemory>
    ensures { IfOk result (λ found. FirstOf
        (ItemsFaults setting.now limit series name.now (items_view items.now.items)) found) }
{
    let mut first = None;
    for item in items {
        let found = find_fault(alloc, setting, limit, item_place(series), name, item)?;
        improve(&mut first, found);
    }
    Ok(first)
}

/// The fault of a field's name, and none of other members' names.
fn find_in_name(alloc: Global, object: Object, name: &str) -> Result<Option<JsonFault>, NoMemory>
    ensures { IfOk result (λ found. FirstOf (OwnName object name.now) found) }
{
    match object {
        Object::Fields => find_in_field_name(alloc, name),
        _ => Ok(None),
    }
}

/// The fault of the members of an object.
#[cycle(find)]
fn find_in_members(
    alloc: Global,
    setting: &Setting<'_>,
    limit: u64,
    object: Object,
    members: &Map<String, Json>,
) -> Result<Option<JsonFault>, NoMemory>
    ensures { IfOk result (λ found. FirstOf
        (MembersFaults setting.now limit object (required_of object)
        (members_view members.now.entries)) found) }
{
    let mut first = None;
    let mut names = required(object);
    for (key, member) in members {
        let name = key.as_str();
        let missed = find_missed(alloc, object, names, name, member)?;
        improve(&mut first, missed);
        names = later(names, name);
        let inside = member_place(object, name);
        if inside.is_left_out(member) {
            continue;
        }
        let mut own = find_in_name(alloc, object, name)?;
        let found = find_fault(alloc, setting, limit, inside, name, member)?;
        improve(&mut own, found);
        improve(&mut first, own);
    }
    let last = find_missing(alloc, object, names)?;
    improve(&mut first, last);
    Ok(first)
}
