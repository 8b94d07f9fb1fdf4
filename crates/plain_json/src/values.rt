//! Values and fields: each value has its kind for its only member, each array its list and each map its fields.

ghost use Rattle.json.specs.Value.{value_view};
ghost use Rattle.serde_json.specs.Data.{Data};
ghost use Rattle.std.specs.Prelude.{Some};
ghost use Rattle.value_model.specs.Data.{items_of};
ghost use Rattle.value_model.specs.Storable.{IsStorable, AreStorableItems};
ghost use Rattle.json_model.specs.declared.place.Place.TheVariants as places;
ghost use Rattle.json_model.specs.declared.place.Object.TheVariants as objects;
ghost use Rattle.json_model.specs.declared.place.Series.TheVariants as serieses;
ghost use Rattle.json_model.specs.Grammar.{SpellsValue, SpellsKind, SpellsList, SpellsFields};
ghost use Rattle.plain_json.specs.Built.{IfBuilt};
ghost use Rattle.plain_json.specs.Trees.{AreStoredFields, IsBuiltOf, StandsFor};

use crate::room::Tree;
use crate::scalars::plain_scalar;
use crate::tree::{only_member, only_under};
use document_keys::{NoMemory, Text, check_field_name};
use json_model::{Object, Place, Setting, show_text, value_member};
use std::alloc::Global;
use value_model::{Fields, Value};

/// The value that a tree of one member spells.
#[tactic(auto, using(crate::proofs::Single::value))]
#[cycle(plain)]
fn plain_value(
    alloc: Global,
    setting: &Setting<'_>,
    limit: u64,
    tree: &Tree<'_>,
) -> Result<Option<Value>, NoMemory>
    ensures { IfBuilt result (λ v. StandsFor (value_view tree.now)
        (IsBuiltOf setting.now limit (places.Object objects.Value) SpellsValue IsStorable v)) }
{
    let Some(only) = only_member(tree) else {
        return Ok(None);
    };
    let place = value_member(only.name);
    let Some(value) = plain_kind(alloc, setting, limit, place, only.tree)? else {
        return Ok(None);
    };
    Ok(Some(value))
}

/// The value that stands under the name of its kind.
#[tactic(auto, using(crate::proofs::Single::scalar_built))]
#[cycle(plain)]
fn plain_kind(
    alloc: Global,
    setting: &Setting<'_>,
    limit: u64,
    place: Place,
    tree: &Tree<'_>,
) -> Result<Option<Value>, NoMemory>
    ensures { IfBuilt result (λ v. StandsFor (value_view tree.now)
        (IsBuiltOf setting.now limit place (SpellsKind place) IsStorable v)) }
{
    match place {
        Place::Leaf(leaf) => plain_scalar(alloc, leaf, tree),
        Place::Object(Object::Array) => plain_array(alloc, setting, limit, tree),
        Place::Object(Object::Map) => plain_map(alloc, setting, limit, tree),
        _ => Ok(None),
    }
}

/// The array that stands under `arrayValue`, whose list is given.
#[tactic(auto, using(crate::proofs::Lists::array))]
#[cycle(plain)]
fn plain_array(
    alloc: Global,
    setting: &Setting<'_>,
    limit: u64,
    tree: &Tree<'_>,
) -> Result<Option<Value>, NoMemory>
    ensures { IfBuilt result (λ v. StandsFor (value_view tree.now) (IsBuiltOf setting.now limit
        (places.Object objects.Array) (SpellsKind (places.Object objects.Array)) IsStorable v)) }
{
    let Some(list) = only_under(tree, "values") else {
        return Ok(None);
    };
    if limit == 0 {
        return Ok(None);
    }
    let Some(values) = plain_values(alloc, setting, limit - 1, list)? else {
        return Ok(None);
    };
    Ok(Some(Value::array(alloc, values)?))
}

/// The values of a list.
#[cycle(plain)]
pub(crate) fn plain_values(
    alloc: Global,
    setting: &Setting<'_>,
    limit: u64,
    tree: &Tree<'_>,
) -> Result<Option<Vec<Value>>, NoMemory>
    ensures { IfBuilt result (λ vs. StandsFor (value_view tree.now) (IsBuiltOf setting.now limit
        (places.Series serieses.Values) (λ d. SpellsList (Some d))
        (λ values. AreStorableItems (items_of values)) vs.items)) }
{
    let Tree::Array(items) = tree else {
        return Ok(None);
    };
    let mut values = Vec::with_capacity(alloc, items.len())?;
    for item in items {
        let Some(value) = plain_value(alloc, setting, limit, item)? else {
            return Ok(None);
        };
        values.push(value)?;
    }
    Ok(Some(values))
}

/// The map that stands under `mapValue`, whose fields are given.
#[tactic(auto, using(crate::proofs::Fields::map))]
#[cycle(plain)]
fn plain_map(
    alloc: Global,
    setting: &Setting<'_>,
    limit: u64,
    tree: &Tree<'_>,
) -> Result<Option<Value>, NoMemory>
    ensures { IfBuilt result (λ v. StandsFor (value_view tree.now) (IsBuiltOf setting.now limit
        (places.Object objects.Map) (SpellsKind (places.Object objects.Map)) IsStorable v)) }
{
    let Some(object) = only_under(tree, "fields") else {
        return Ok(None);
    };
    if limit == 0 {
        return Ok(None);
    }
    let Some(fields) = plain_fields(alloc, setting, limit - 1, object)? else {
        return Ok(None);
    };
    Ok(Some(Value::map(alloc, fields)?))
}

/// The fields that the tree spells, in whose values at most so many arrays and maps nest, where each value in it has its kind for
/// its only member, each array its list and each map its fields, and no number stands outside a text. Then it has no fault. Else
/// none, which says nothing of the tree.
///
/// # Errors
/// `NoMemory`
#[cycle(plain)]
pub fn plain_fields(
    alloc: Global,
    setting: &Setting<'_>,
    limit: u64,
    tree: &Tree<'_>,
) -> Result<Option<Fields>, NoMemory>
    ensures { IfBuilt result (λ fields. StandsFor (value_view tree.now) (IsBuiltOf setting.now limit
        (places.Object objects.Fields) SpellsFields (AreStoredFields limit) fields)) }
{
    let Tree::Object(members) = tree else {
        return Ok(None);
    };
    let mut fields = Fields::with_capacity(alloc, members.len())?;
    for member in members {
        let name = member.0;
        let Ok(()) = check_field_name(name) else {
            return Ok(None);
        };
        let Some(value) = plain_value(alloc, setting, limit, &member.1)? else {
            return Ok(None);
        };
        show_text(name);
        let name = Text::from_str(alloc, name)?;
        fields.put(alloc, name, value)?;
    }
    let _count = fields.len();
    Ok(Some(fields))
}
