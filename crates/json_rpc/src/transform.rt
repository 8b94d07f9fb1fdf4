//! Transforms.

ghost use Rattle.std.specs.Prelude.{◌≡◌, true, false, IfOk, IfSome, Some, codes, option_map};
ghost use Rattle.serde_json.specs.Data.{object, string, no_members, put};
ghost use Rattle.serde_json.specs.View.{view, items_view};
ghost use Rattle.value_model.specs.Data.{items_of, integer};
ghost use Rattle.value_model.specs.Storable.{AreStorableItems, IsCountable};
ghost use Rattle.json_model.specs.Clean.{IsClean};
ghost use Rattle.json_model.specs.Forms.{SpellsEach, printed_each, unless_empty as unless_empty_of};
ghost use Rattle.json_model.specs.Numbers.{SpellsWhole};
ghost use Rattle.json_model.specs.Places.{is_choice, is_unknown, member_place};
ghost use Rattle.json_model.specs.Printed.{printed_value};
ghost use Rattle.json_model.specs.declared.place.Object.TheVariants as objects;
ghost use Rattle.json_model.specs.declared.place.Place.TheVariants as places;
ghost use Rattle.json_model.specs.declared.place.Series.TheVariants as serieses;
ghost use Rattle.json_rpc.specs.Grammar.{SpellsOperand, SpellsElements, SpellsChange, SpellsTransform};
ghost use Rattle.json_rpc.specs.Printed.{printed_elements, printed_change, printed_transform};
ghost use Rattle.json_rpc.specs.Storable.{AreAllStorable, HoldsStorable, IsStorableTransform};

use crate::lists::list_object;
use document_keys::NoMemory;
use json_model::{
    Object, Series, Setting, clean_choice, clean_integer, clean_list, clean_member, clean_object,
    clean_path, clean_values, print_value, put_member, text_tree, unless_empty,
};
use mutations::{Change, Transform, Transforms, Values};
use serde_json::{Map, Value as Json};
use std::alloc::Global;
use value_model::{Kind, Value};

/// The whole number under its name.
#[tactic(auto, unfolding(json_model::specs::Places::operand_rows))]
fn clean_number(setting: &Setting<'_>, name: &str, json: &Json) -> i64
    requires known { is_unknown (member_place objects.Operand name.now) ≡ false }
    requires clean { IsClean setting.now (member_place objects.Operand name.now) (view json.now) }
    ensures { (name.now ≡ codes "integerValue") × SpellsWhole (view json.now) result }
{
    match name {
        "integerValue" => clean_integer(setting, json),
        _ => unreachable!(),
    }
}

/// The operand of an arithmetic transform.
fn clean_operand(setting: &Setting<'_>, json: &Json) -> i64
    requires { IsClean setting.now (places.Object objects.Operand) (view json.now) }
    ensures { SpellsOperand (view json.now) result }
{
    let members = clean_object(setting, Object::Operand, json);
    let (name, inner) = clean_choice(setting, Object::Operand, members);
    clean_number(setting, name, inner)
}

/// The elements of a transform of an array.
#[tactic(auto, using(crate::proofs::Given::no_elements))]
fn clean_elements(alloc: Global, setting: &Setting<'_>, json: &Json) -> Result<Values, NoMemory>
    requires { IsClean setting.now (places.Object objects.Elements) (view json.now) }
    ensures elements { IfOk result (λ values. SpellsElements (view json.now) values) }
    ensures storable { IfOk result (λ values. AreStorableItems (items_of values) × IsCountable values) }
{
    let members = clean_object(setting, Object::Elements, json);
    let Some(list) = clean_member(setting, Object::Elements, members, "values") else {
        return Ok(Values::from_vec(Vec::new(alloc)));
    };
    let values = clean_values(alloc, setting, list)?;
    let _count = values.len();
    Ok(Values::from_vec(values))
}

/// What stands under the name of a change.
#[tactic(auto, unfolding(json_model::specs::Places::transform_rows))]
fn clean_change(
    alloc: Global,
    setting: &Setting<'_>,
    name: &str,
    json: &Json,
) -> Result<Change, NoMemory>
    requires choice { is_choice objects.Transform name.now ≡ true }
    requires clean { IsClean setting.now (member_place objects.Transform name.now) (view json.now) }
    ensures change { IfOk result (λ change. SpellsChange name.now (view json.now) change) }
    ensures stored { IfOk result HoldsStorable }
{
    match name {
        "setToServerValue" => Ok(Change::ServerTime),
        "increment" => Ok(Change::Increment(clean_operand(setting, json))),
        "maximum" => Ok(Change::Maximum(clean_operand(setting, json))),
        "minimum" => Ok(Change::Minimum(clean_operand(setting, json))),
        "appendMissingElements" => Ok(Change::Append(clean_elements(alloc, setting, json)?)),
        "removeAllFromArray" => Ok(Change::RemoveAll(clean_elements(alloc, setting, json)?)),
        _ => unreachable!(),
    }
}

/// A transform.
fn clean_transform(alloc: Global, setting: &Setting<'_>, json: &Json) -> Result<Transform, NoMemory>
    requires { IsClean setting.now (places.Object objects.Transform) (view json.now) }
    ensures transform { IfOk result (λ transform. SpellsTransform (view json.now) transform) }
    ensures storable { IfOk result IsStorableTransform }
{
    let members = clean_object(setting, Object::Transform, json);
    let Some(path) = clean_member(setting, Object::Transform, members, "fieldPath") else {
        unreachable!();
    };
    let path = clean_path(alloc, setting, path)?;
    let (name, inner) = clean_choice(setting, Object::Transform, members);
    let change = clean_change(alloc, setting, name, inner)?;
    Ok(Transform { path, change })
}

/// The transforms of a list.
#[tactic(auto, using(json_model::proofs::Forms::all_spelled))]
fn clean_items(
    alloc: Global,
    setting: &Setting<'_>,
    json: &Json,
) -> Result<Vec<Transform>, NoMemory>
    requires { IsClean setting.now (places.Series serieses.Transforms) (view json.now) }
    ensures transforms { IfOk result (λ transforms. SpellsEach SpellsTransform
        (Some (view json.now)) transforms.items) }
    ensures storable { IfOk result (λ transforms. AreAllStorable IsStorableTransform transforms.items) }
{
    let items = clean_list(setting, Series::Transforms, json);
    let mut transforms = Vec::with_capacity(alloc, items.len())?;
    for item in items {
        transforms.push(clean_transform(alloc, setting, item)?)?;
    }
    let _count = transforms.len();
    Ok(transforms)
}

/// The transforms under `updateTransforms`.
pub(crate) fn clean_transforms(
    alloc: Global,
    setting: &Setting<'_>,
    found: Option<&Json>,
) -> Result<Transforms, NoMemory>
    requires { IfSome found (λ json. IsClean setting.now (places.Series serieses.Transforms)
        (view json.now)) }
    ensures transforms { IfOk result (λ transforms. SpellsEach SpellsTransform
        (option_map (λ json. view json.now) found.entry) transforms) }
    ensures storable { IfOk result (λ transforms. AreAllStorable IsStorableTransform transforms) }
{
    let Some(json) = found else {
        return Ok(Transforms::from_vec(Vec::new(alloc)));
    };
    let transforms = clean_items(alloc, setting, json)?;
    Ok(Transforms::from_vec(transforms))
}

/// The operand of an arithmetic transform.
fn print_operand(alloc: Global, number: i64) -> Result<Json, NoMemory>
    ensures { IfOk result (λ json. view json ≡ printed_value (integer number)) }
{
    let value = Value {
        kind: Kind::Integer(number),
    };
    print_value(alloc, &value)
}

/// The trees of values.
#[tactic(auto, using(json_model::proofs::PrintedLists::printed_more))]
fn print_values(alloc: Global, values: &[Value]) -> Result<Vec<Json>, NoMemory>
    ensures { IfOk result (λ trees. items_view trees.items ≡ printed_each printed_value values.now) }
{
    let mut trees = Vec::new(alloc);
    for value in values {
        trees.push(print_value(alloc, value)?)?;
    }
    Ok(trees)
}

/// The elements of a transform of an array.
fn print_elements(alloc: Global, values: &Values) -> Result<Json, NoMemory>
    ensures { IfOk result (λ json. view json ≡ printed_elements values.now) }
{
    let trees = print_values(alloc, values.as_slice())?;
    list_object(alloc, "values", trees)
}

/// A change under its name, at the path of this text.
fn change_object(alloc: Global, path: &str, name: &str, change: Json) -> Result<Json, NoMemory>
    ensures { IfOk result (λ json. view json
        ≡ object (put name.now (view change) (put (codes "fieldPath") (string path.now) no_members))) }
{
    let mut members = Map::new(alloc);
    put_member(alloc, &mut members, "fieldPath", text_tree(alloc, path)?)?;
    put_member(alloc, &mut members, name, change)?;
    Ok(Json::Object(members))
}

/// A transform at the path of this text.
fn print_change(alloc: Global, path: &str, change: &Change) -> Result<Json, NoMemory>
    ensures { IfOk result (λ json. view json ≡ printed_change path.now change.now) }
{
    match change {
        Change::ServerTime => {
            let time = text_tree(alloc, "REQUEST_TIME")?;
            change_object(alloc, path, "setToServerValue", time)
        }
        Change::Increment(by) => {
            change_object(alloc, path, "increment", print_operand(alloc, *by)?)
        }
        Change::Maximum(other) => {
            change_object(alloc, path, "maximum", print_operand(alloc, *other)?)
        }
        Change::Minimum(other) => {
            change_object(alloc, path, "minimum", print_operand(alloc, *other)?)
        }
        Change::Append(values) => {
            let elements = print_elements(alloc, values)?;
            change_object(alloc, path, "appendMissingElements", elements)
        }
        Change::RemoveAll(values) => {
            let elements = print_elements(alloc, values)?;
            change_object(alloc, path, "removeAllFromArray", elements)
        }
    }
}

/// A transform.
fn print_transform(alloc: Global, transform: &Transform) -> Result<Json, NoMemory>
    ensures { IfOk result (λ json. view json ≡ printed_transform transform.now) }
{
    let path = transform.path.print(alloc)?;
    print_change(alloc, path.as_str(), &transform.change)
}

/// The trees of transforms.
#[tactic(auto, using(json_model::proofs::PrintedLists::printed_more))]
fn print_items(alloc: Global, transforms: &[Transform]) -> Result<Vec<Json>, NoMemory>
    ensures { IfOk result (λ trees. items_view trees.items ≡ printed_each printed_transform transforms.now) }
{
    let mut trees = Vec::new(alloc);
    for transform in transforms {
        trees.push(print_transform(alloc, transform)?)?;
    }
    Ok(trees)
}

/// The list `updateTransforms`; it is left out where it is empty.
pub(crate) fn print_transforms(
    alloc: Global,
    transforms: &Transforms,
) -> Result<Option<Json>, NoMemory>
    ensures { IfOk result (λ found. option_map view found
        ≡ unless_empty_of (printed_each printed_transform transforms.now)) }
{
    let trees = print_items(alloc, transforms.as_slice())?;
    Ok(unless_empty(trees))
}
