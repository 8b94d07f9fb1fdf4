ghost use Rattle.std.specs.Prelude.{◌≡◌, IfOk, codes, false};
ghost use Rattle.std.specs.String.{string_bytes};
ghost use Rattle.serde_json.specs.View.{view, items_view, members_view};
ghost use Rattle.serde_json.specs.Data.{boolean as boolean_tree};
ghost use Rattle.serde_json.specs.Written.{has_float};
ghost use Rattle.document_keys.specs.Names.{name_text};
ghost use Rattle.value_model.specs.Data.{items_of, members_of};
ghost use Rattle.json_model.specs.Trees.{one, empty};
ghost use Rattle.json_model.specs.Printed.{printed_null, printed_text, printed_value, printed_items, printed_members, printed_fields, values_tree, fields_tree};
ghost use Rattle.json_model.specs.References.{root_of};

use crate::bytes::print_bytes;
use document_keys::{Database, NoMemory};
use serde_json::{Map, Value as Json, json};
use std::alloc::{AllocError, Global};
use value_model::{Fields, Kind, RefName, Value};

fn null_json(alloc: Global) -> Result<Json, AllocError>
    ensures { IfOk result (λ json. view json ≡ printed_null) }
{
    json!(in alloc; {"nullValue": null})
}

fn boolean_json(alloc: Global, is: bool) -> Result<Json, AllocError>
    ensures { IfOk result (λ json. view json ≡ one (codes "booleanValue") (boolean_tree is)) }
{
    json!(in alloc; {"booleanValue": is})
}

fn integer_json(alloc: Global, text: &str) -> Result<Json, AllocError>
    ensures { IfOk result (λ json. view json ≡ printed_text (codes "integerValue") text.now) }
{
    json!(in alloc; {"integerValue": text})
}

fn time_json(alloc: Global, text: &str) -> Result<Json, AllocError>
    ensures { IfOk result (λ json. view json ≡ printed_text (codes "timestampValue") text.now) }
{
    json!(in alloc; {"timestampValue": text})
}

fn text_json(alloc: Global, text: &str) -> Result<Json, AllocError>
    ensures { IfOk result (λ json. view json ≡ printed_text (codes "stringValue") text.now) }
{
    json!(in alloc; {"stringValue": text})
}

fn bytes_json(alloc: Global, text: &str) -> Result<Json, AllocError>
    ensures { IfOk result (λ json. view json ≡ printed_text (codes "bytesValue") text.now) }
{
    json!(in alloc; {"bytesValue": text})
}

fn reference_json(alloc: Global, text: &str) -> Result<Json, AllocError>
    ensures { IfOk result (λ json. view json ≡ printed_text (codes "referenceValue") text.now) }
{
    json!(in alloc; {"referenceValue": text})
}

fn empty_array_json(alloc: Global) -> Result<Json, AllocError>
    ensures { IfOk result (λ json. view json ≡ one (codes "arrayValue") empty) }
{
    json!(in alloc; {"arrayValue": {}})
}

fn full_array_json(alloc: Global, values: Json) -> Result<Json, AllocError>
    ensures { IfOk result (λ json. view json
        ≡ one (codes "arrayValue") (one (codes "values") (view values))) }
{
    json!(in alloc; {"arrayValue": {"values": values}})
}

#[tactic(auto, using(crate::proofs::Shown::full_array))]
fn array_json(alloc: Global, values: Vec<Json>) -> Result<Json, AllocError>
    ensures { IfOk result (λ json. view json
        ≡ one (codes "arrayValue") (values_tree (items_view values.items))) }
{
    if values.is_empty() {
        return empty_array_json(alloc);
    }
    full_array_json(alloc, Json::Array(values))
}

fn empty_map_json(alloc: Global) -> Result<Json, AllocError>
    ensures { IfOk result (λ json. view json ≡ one (codes "mapValue") empty) }
{
    json!(in alloc; {"mapValue": {}})
}

fn full_map_json(alloc: Global, fields: Json) -> Result<Json, AllocError>
    ensures { IfOk result (λ json. view json ≡ one (codes "mapValue") (one (codes "fields") (view fields))) }
{
    json!(in alloc; {"mapValue": {"fields": fields}})
}

#[tactic(auto, using(crate::proofs::Shown::full_map))]
fn map_json(alloc: Global, fields: Map<String, Json>) -> Result<Json, AllocError>
    ensures { IfOk result (λ json. view json
        ≡ one (codes "mapValue") (fields_tree (members_view fields.entries))) }
{
    if fields.is_empty() {
        return empty_map_json(alloc);
    }
    full_map_json(alloc, Json::Object(fields))
}

/// The text of a reference: the name of its document under its database.
///
/// # Errors
/// `NoMemory`
pub fn reference_text(alloc: Global, name: &RefName) -> Result<String, NoMemory>
    ensures { IfOk result (λ text. string_bytes text ≡ name_text (root_of name.now) name.now.key) }
{
    let project = name.project.copy(alloc)?;
    let database = name.database.copy(alloc)?;
    let root = Database::from_segments(alloc, project, database)?;
    name.key.print(alloc, &root)
}

/// The tree of a value: the one printed form of it. A time that isn't known yet prints as null.
///
/// # Errors
/// `NoMemory`
#[cycle(print)]
pub fn print_value(alloc: Global, value: &Value) -> Result<Json, NoMemory>
    ensures { IfOk result (λ json. view json ≡ printed_value value.now) }
{
    match &value.kind {
        Kind::Null => Ok(null_json(alloc)?),
        Kind::Boolean(is) => Ok(boolean_json(alloc, *is)?),
        Kind::Integer(number) => {
            let text = number.to_string(alloc)?;
            Ok(integer_json(alloc, text.as_str())?)
        }
        Kind::Time(time) => {
            let text = time.print(alloc)?;
            Ok(time_json(alloc, text.as_str())?)
        }
        Kind::Pending(_) => Ok(null_json(alloc)?),
        Kind::Text(text) => Ok(text_json(alloc, text.as_str())?),
        Kind::Bytes(bytes) => {
            let text = print_bytes(alloc, bytes.as_slice())?;
            Ok(bytes_json(alloc, text.as_str())?)
        }
        Kind::Reference(name) => {
            let text = reference_text(alloc, name)?;
            Ok(reference_json(alloc, text.as_str())?)
        }
        Kind::Array(values) => {
            let values = print_values(alloc, values.as_slice())?;
            Ok(array_json(alloc, values)?)
        }
        Kind::Map(fields) => {
            let fields = print_members(alloc, fields.as_fields())?;
            Ok(map_json(alloc, fields)?)
        }
    }
}

#[tactic(auto, using(crate::proofs::Shown::items_more, value_model::proofs::Sizes::item_below))]
#[cycle(print)]
fn print_values(alloc: Global, values: &[Value]) -> Result<Vec<Json>, NoMemory>
    ensures { IfOk result (λ trees. items_view trees.items ≡ printed_items (items_of values.now)) }
{
    let mut trees = Vec::new(alloc);
    for value in values {
        trees.push(print_value(alloc, value)?)?;
    }
    Ok(trees)
}

#[tactic(auto, using(crate::proofs::Shown::members_more, crate::proofs::Shown::field_below))]
#[cycle(print)]
fn print_members(alloc: Global, fields: &Fields) -> Result<Map<String, Json>, NoMemory>
    ensures { IfOk result (λ members. members_view members.entries
        ≡ printed_members (members_of fields.now)) }
{
    let mut members = Map::new(alloc);
    for field in fields.as_slice() {
        let name = String::from_str(alloc, field.name.as_str())?;
        members.insert(name, print_value(alloc, &field.value)?)?;
    }
    Ok(members)
}

/// The tree of fields: an object with the printed value of each under its name. It has no floats.
///
/// # Errors
/// `NoMemory`
pub fn print_fields(alloc: Global, fields: &Fields) -> Result<Json, NoMemory>
    ensures tree { IfOk result (λ json. view json ≡ printed_fields fields.now) }
    ensures digits { IfOk result (λ json. has_float (view json) ≡ false) }
{
    let members = print_members(alloc, fields)?;
    Ok(Json::Object(members))
}
