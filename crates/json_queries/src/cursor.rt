//! Cursors.

ghost use Rattle.std.specs.Prelude.{◌≡◌, IfOk, IfSome, codes, option_map};
ghost use Rattle.std.specs.List.{All};
ghost use Rattle.serde_json.specs.View.{view, items_view, members_view};
ghost use Rattle.value_model.specs.Storable.{IsCountable};
ghost use Rattle.json_model.specs.Clean.{IsClean, AreClean};
ghost use Rattle.json_model.specs.Forms.{printed_each};
ghost use Rattle.json_model.specs.Grammar.{SpellsList};
ghost use Rattle.json_model.specs.Members.{given};
ghost use Rattle.json_model.specs.Printed.{printed_value};
ghost use Rattle.json_model.specs.declared.place.Object.TheVariants as objects;
ghost use Rattle.json_model.specs.declared.place.Place.TheVariants as places;
ghost use Rattle.json_queries.specs.Grammar.{SpellsCursor, SpellsCursorIn};
ghost use Rattle.json_queries.specs.Printed.{printed_cursor, unless_false as unless_false_of};
ghost use Rattle.json_queries.specs.Storable.{IsStorableCursor, IsStorableOperand};

use crate::constants::clean_flag;
use document_keys::{NoMemory, Sequence};
use json_model::{
    Object, Setting, clean_member, clean_object, clean_values, print_value, put_given, unless_empty,
};
use queries::Cursor;
use serde_json::{Map, Value as Json};
use std::alloc::Global;
use value_model::Value;

/// The values of a cursor.
#[tactic(auto, unfolding(json_model::specs::Places::cursor_rows))]
fn clean_cursor_values(
    alloc: Global,
    setting: &Setting<'_>,
    members: &Map<String, Json>,
) -> Result<Sequence<Value>, NoMemory>
    requires { AreClean setting.now objects.Cursor (members_view members.now.entries) }
    ensures values { IfOk result (λ values. SpellsList
        (given (codes "values") (members_view members.now.entries)) values) }
    ensures count { IfOk result (λ values. IsCountable values) }
    ensures storable { IfOk result (λ values. All IsStorableOperand values) }
{
    match clean_member(setting, Object::Cursor, members, "values") {
        Some(list) => {
            let values = clean_values(alloc, setting, list)?;
            let _count = values.len();
            Ok(Sequence::from_vec(values))
        }
        None => Ok(Sequence::new(alloc)),
    }
}

/// What a cursor holds.
#[tactic(auto, unfolding(json_model::specs::Places::cursor_rows))]
fn clean_cursor_in(
    alloc: Global,
    setting: &Setting<'_>,
    members: &Map<String, Json>,
) -> Result<Cursor, NoMemory>
    requires { AreClean setting.now objects.Cursor (members_view members.now.entries) }
    ensures cursor { IfOk result (λ cursor. SpellsCursorIn (members_view members.now.entries) cursor) }
    ensures storable { IfOk result IsStorableCursor }
{
    let before = clean_member(setting, Object::Cursor, members, "before");
    let before = clean_flag(setting, before);
    let values = clean_cursor_values(alloc, setting, members)?;
    Ok(Cursor { values, before })
}

/// The cursor under `startAt` or `endAt`; where it is left out there is none.
pub(crate) fn clean_cursor(
    alloc: Global,
    setting: &Setting<'_>,
    found: Option<&Json>,
) -> Result<Option<Cursor>, NoMemory>
    requires { IfSome found (λ json. IsClean setting.now (places.Object objects.Cursor) (view json.now)) }
    ensures cursor { IfOk result (λ cursor. SpellsCursor
        (option_map (λ json. view json.now) found.entry) cursor) }
    ensures storable { IfOk result (λ cursor. IfSome cursor IsStorableCursor) }
{
    let Some(json) = found else {
        return Ok(None);
    };
    let members = clean_object(setting, Object::Cursor, json);
    Ok(Some(clean_cursor_in(alloc, setting, members)?))
}

/// The trees of values.
fn print_values(alloc: Global, values: &[Value]) -> Result<Vec<Json>, NoMemory>
    ensures { IfOk result (λ trees. items_view trees.items ≡ printed_each printed_value values.now) }
{
    let mut trees = Vec::new(alloc);
    for value in values {
        trees.push(print_value(alloc, value)?)?;
    }
    Ok(trees)
}

/// A boolean, unless it is false.
fn unless_false(is: bool) -> Option<Json>
    ensures { option_map view result ≡ unless_false_of is }
{
    if is { Some(Json::Bool(true)) } else { None }
}

/// What a cursor holds.
fn print_cursor_in(alloc: Global, cursor: &Cursor) -> Result<Json, NoMemory>
    ensures { IfOk result (λ json. view json ≡ printed_cursor cursor.now) }
{
    let values = print_values(alloc, cursor.values.as_slice())?;
    let mut members = Map::new(alloc);
    put_given(alloc, &mut members, "values", unless_empty(values))?;
    put_given(alloc, &mut members, "before", unless_false(cursor.before))?;
    Ok(Json::Object(members))
}

/// What `startAt` or `endAt` holds; it is left out where there is no cursor.
pub(crate) fn print_cursor(alloc: Global, cursor: &Option<Cursor>) -> Result<Option<Json>, NoMemory>
    ensures { IfOk result (λ found. option_map view found ≡ option_map printed_cursor cursor.now) }
{
    match cursor {
        Some(cursor) => Ok(Some(print_cursor_in(alloc, cursor)?)),
        None => Ok(None),
    }
}
