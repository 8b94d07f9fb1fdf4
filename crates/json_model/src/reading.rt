//! The values and fields that trees spell.

ghost use Rattle.std.specs.Prelude.{◌≡◌, ◌≢◌, ◌≤◌, ◌⊎◌, ℕ, List, [], true, Some, Ok, Err, IfOk, IfErr};
ghost use Rattle.serde_json.specs.View.{view};
ghost use Rattle.value_model.specs.Data.{Entries, items_of, depth, items_depth, entries_depth};
ghost use Rattle.value_model.specs.Storable.{IsStorable, AreStorableItems, AreStorable, IsStorableKey};
ghost use Rattle.json_model.specs.declared.place.Place.TheVariants as places;
ghost use Rattle.json_model.specs.declared.place.Object.TheVariants as objects;
ghost use Rattle.json_model.specs.declared.place.Series.TheVariants as serieses;
ghost use Rattle.json_model.specs.declared.fault.JsonFault.TheVariants as json_fault;
ghost use Rattle.json_model.specs.Clean.{IsClean};
ghost use Rattle.json_model.specs.Faults.{IsFault, FieldsFaults, NameFaults, max_nesting};
ghost use Rattle.json_model.specs.Grammar.{SpellsScalar, SpellsValue, SpellsKind, SpellsList, SpellsFields, SpellsName, is_scalar, is_kind};
ghost use Rattle.json_model.specs.Printed.{printed_fields};

use crate::clean::{check, clean_choice, clean_list, clean_member, clean_object};
use crate::fault::JsonFault;
use crate::members::lone_scalar;
use crate::names::read_key;
use crate::place::{Leaf, Object, Place, Series};
use crate::scalars::read_scalar;
use crate::setting::Setting;
use crate::side::Side;
use crate::table::value_member;
use crate::texts::{show_key, show_text};
use document_keys::{Database, DocumentKey, NoMemory, Text};
use serde_json::{Map, Value as Json};
use std::alloc::Global;
use value_model::{Fields, Value};

/// How many arrays and maps may nest in a field's value.
pub const MAX_NESTING: u64 = 20;

/// The scalar that stands under the name of its kind.
fn build_scalar(
    alloc: Global,
    _setting: &Setting<'_>,
    leaf: Leaf,
    json: &Json,
) -> Result<Value, NoMemory>
    requires scalar { is_scalar leaf ≡ true }
    requires clean { IsClean _setting.now (places.Leaf leaf) (view json.now) }
    ensures found { IfOk result (λ v. SpellsScalar leaf (view json.now) v) }
    ensures storable { IfOk result IsStorable }
{
    match read_scalar(alloc, leaf, json)? {
        Some(value) => Ok(value),
        None => unreachable!(),
    }
}

/// The value that a tree without faults spells.
///
/// # Errors
/// `NoMemory`
#[cycle(build)]
pub fn clean_value(alloc: Global, setting: &Setting<'_>, json: &Json) -> Result<Value, NoMemory>
    requires { IsClean setting.now (places.Object objects.Value) (view json.now) }
    ensures value { IfOk result (λ v. SpellsValue (view json.now) v) }
    ensures storable { IfOk result IsStorable }
    ensures deep { IfOk result (λ v. depth v ≤ max_nesting) }
{
    let members = clean_object(setting, Object::Value, json);
    if let Some(scalar) = lone_scalar(Object::Value, members) {
        return build_scalar(alloc, setting, scalar.leaf, scalar.json);
    }
    let (name, inner) = clean_choice(setting, Object::Value, members);
    build_kind(alloc, setting, value_member(name), inner)
}

/// The value that stands under the name of its kind.
#[cycle(build)]
fn build_kind(
    alloc: Global,
    setting: &Setting<'_>,
    place: Place,
    json: &Json,
) -> Result<Value, NoMemory>
    requires kind { is_kind place ≡ true }
    requires clean { IsClean setting.now place (view json.now) }
    ensures found { IfOk result (λ v. SpellsKind place (view json.now) v) }
    ensures storable { IfOk result IsStorable }
{
    match place {
        Place::Object(object) => build_nested(alloc, setting, object, json),
        Place::Leaf(leaf) => build_scalar(alloc, setting, leaf, json),
        _ => unreachable!(),
    }
}

/// The array or the map that stands under the name of its kind.
#[tactic(auto, using(crate::proofs::Built::no_other_object))]
#[cycle(build)]
fn build_nested(
    alloc: Global,
    setting: &Setting<'_>,
    object: Object,
    json: &Json,
) -> Result<Value, NoMemory>
    requires kind { is_kind (places.Object object) ≡ true }
    requires clean { IsClean setting.now (places.Object object) (view json.now) }
    ensures found { IfOk result (λ v. SpellsKind (places.Object object) (view json.now) v) }
    ensures storable { IfOk result IsStorable }
{
    match object {
        Object::Array => build_array(alloc, setting, json),
        Object::Map => build_map(alloc, setting, json),
        _ => unreachable!(),
    }
}

/// The array that stands under `arrayValue`.
#[tactic(auto, using(crate::proofs::Built::empty_array, crate::proofs::Built::full_array, crate::proofs::Stored::array_stored))]
#[cycle(build)]
fn build_array(alloc: Global, setting: &Setting<'_>, json: &Json) -> Result<Value, NoMemory>
    requires { IsClean setting.now (places.Object objects.Array) (view json.now) }
    ensures found { IfOk result (λ v. SpellsKind (places.Object objects.Array) (view json.now) v) }
    ensures storable { IfOk result IsStorable }
{
    let members = clean_object(setting, Object::Array, json);
    let Some(list) = clean_member(setting, Object::Array, members, "values") else {
        return Ok(Value::array(alloc, Vec::new(alloc))?);
    };
    let values = clean_values(alloc, setting, list)?;
    Ok(Value::array(alloc, values)?)
}

/// The values of a list without faults.
///
/// # Errors
/// `NoMemory`
#[tactic(auto, using(crate::proofs::Built::no_items))]
#[cycle(build)]
pub fn clean_values(
    alloc: Global,
    setting: &Setting<'_>,
    json: &Json,
) -> Result<Vec<Value>, NoMemory>
    requires { IsClean setting.now (places.Series serieses.Values) (view json.now) }
    ensures values { IfOk result (λ vs. SpellsList (Some (view json.now)) vs.items) }
    ensures storable { IfOk result (λ vs. AreStorableItems (items_of vs.items)) }
    ensures deep { IfOk result (λ vs. items_depth (items_of vs.items) ≤ max_nesting) }
{
    let items = clean_list(setting, Series::Values, json);
    let mut values = Vec::with_capacity(alloc, items.len())?;
    for item in items {
        let value = clean_value(alloc, setting, item)?;
        values.push(value)?;
    }
    Ok(values)
}

/// The map that stands under `mapValue`.
#[tactic(auto, using(crate::proofs::Built::empty_map, crate::proofs::Built::full_map, crate::proofs::Stored::map_stored))]
#[cycle(build)]
fn build_map(alloc: Global, setting: &Setting<'_>, json: &Json) -> Result<Value, NoMemory>
    requires { IsClean setting.now (places.Object objects.Map) (view json.now) }
    ensures found { IfOk result (λ v. SpellsKind (places.Object objects.Map) (view json.now) v) }
    ensures storable { IfOk result IsStorable }
{
    let members = clean_object(setting, Object::Map, json);
    let Some(object) = clean_member(setting, Object::Map, members, "fields") else {
        return Ok(Value::map(alloc, Fields::new(alloc))?);
    };
    let fields = clean_fields(alloc, setting, object)?;
    Ok(Value::map(alloc, fields)?)
}

/// The fields that a tree without faults spells.
///
/// # Errors
/// `NoMemory`
#[cycle(build)]
pub fn clean_fields(alloc: Global, setting: &Setting<'_>, json: &Json) -> Result<Fields, NoMemory>
    requires { IsClean setting.now (places.Object objects.Fields) (view json.now) }
    ensures fields { IfOk result (λ fields. SpellsFields (view json.now) fields) }
    ensures storable { IfOk result AreStorable }
    ensures deep { IfOk result (λ fields. entries_depth fields ≤ max_nesting) }
{
    let members = clean_object(setting, Object::Fields, json);
    let mut fields = Fields::with_capacity(alloc, members.len())?;
    for (key, member) in members {
        if member.is_null() {
            continue;
        }
        let name = key.as_str();
        let value = clean_value(alloc, setting, member)?;
        show_text(name);
        let name = Text::from_str(alloc, name)?;
        fields.put(alloc, name, value)?;
    }
    let _count = fields.len();
    Ok(fields)
}

/// The fields that the tree spells: an object of values, in each of which at most 20 arrays and maps nest. References name
/// documents of any database. The tree then has no fault. Of the printed tree of fields that can be stored, these.
///
/// # Errors
/// The first fault of the least kind, in the walk through the tree: members in byte order of their names, lists in order. A
/// wrong shape of the tree itself names `fields`. Or `NoMemory`.
pub fn read_fields(
    alloc: Global,
    root: &Database,
    side: Side,
    json: &Json,
) -> Result<Fields, JsonFault>
    ensures fields { IfOk result (λ fields. SpellsFields (view json.now) fields) }
    ensures storable { IfOk result AreStorable }
    ensures deep { IfOk result (λ fields. entries_depth fields ≤ max_nesting) }
    ensures clean { IfOk result (λ _. FieldsFaults (record { side = side; root = root.now })
        (view json.now) []) }
    ensures fault { IfErr result (λ fault. IsFault
        (FieldsFaults (record { side = side; root = root.now }) (view json.now)) fault) }
    ensures printed { (fields : Entries) → AreStorable fields → entries_depth fields ≤ max_nesting
        → view json.now ≡ printed_fields fields → (result ≡ Ok fields)
        ⊎ (result ≡ Err json_fault.NoMemory) }
{
    let setting = Setting { side, root };
    let place = Place::Object(Object::Fields);
    if let Err(fault) = check(alloc, &setting, MAX_NESTING, place, "fields", json) {
        return Err(fault);
    }
    let fields = clean_fields(alloc, &setting, json)?;
    Ok(fields)
}

/// The key of the document that the tree names under the root.
#[tactic(auto, using(crate::proofs::Answered::name_fault, crate::proofs::Answered::no_text_fault))]
fn named_key(alloc: Global, root: &Database, json: &Json) -> Result<DocumentKey, JsonFault>
    ensures name { IfOk result (λ key. SpellsName root.now (view json.now) key) }
    ensures storable { IfOk result IsStorableKey }
    ensures fault { IfErr result (λ fault. IsFault (NameFaults root.now (view json.now)) fault) }
{
    let Some(text) = json.as_str() else {
        return Err(JsonFault::BadShape(Text::from_str(alloc, "name")?));
    };
    let key = match read_key(alloc, root, text) {
        Ok(key) => key,
        Err(fault) => return Err(fault),
    };
    show_key(&key);
    Ok(key)
}

/// The key of the document that the tree names under the root. Both sides write names alike. The tree then has no fault as a
/// name.
///
/// # Errors
/// `BadShape` of `name` where the tree is no text, `BadName` as `DocumentKey::read` says: the tree then names no document
/// under the root. Or `NoMemory`.
#[tactic(auto, using(crate::proofs::Answered::name_clean, crate::proofs::Answered::names_none))]
pub fn read_name(
    alloc: Global,
    root: &Database,
    _side: Side,
    json: &Json,
) -> Result<DocumentKey, JsonFault>
    ensures name { IfOk result (λ key. SpellsName root.now (view json.now) key) }
    ensures storable { IfOk result IsStorableKey }
    ensures fault { IfErr result (λ fault. IsFault (NameFaults root.now (view json.now)) fault) }
    ensures clean { IfOk result (λ _. NameFaults root.now (view json.now) []) }
    ensures names_none { IfErr result (λ fault. fault ≢ json_fault.NoMemory
        → (key : List (List ℕ)) → ¬ (SpellsName root.now (view json.now) key)) }
{
    named_key(alloc, root, json)
}
