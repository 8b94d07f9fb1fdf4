//! Statuses.

ghost use Rattle.std.specs.Prelude.{◌≡◌, [], ◌∷◌, false, IfOk, IfErr, codes, option_map};
ghost use Rattle.serde_json.specs.View.{view, members_view};
ghost use Rattle.serde_json.specs.Written.{has_float};
ghost use Rattle.json_model.specs.Clean.{IsClean, AreClean};
ghost use Rattle.json_model.specs.Faults.{FaultsAt, IsFault, max_nesting};
ghost use Rattle.json_model.specs.Forms.{present};
ghost use Rattle.json_model.specs.Members.{given};
ghost use Rattle.json_model.specs.Numbers.{max_code};
ghost use Rattle.json_model.specs.declared.place.Leaf.TheVariants as leaves;
ghost use Rattle.json_model.specs.declared.place.Object.TheVariants as objects;
ghost use Rattle.json_model.specs.declared.place.Place.TheVariants as places;
ghost use Rattle.json_messages.specs.Faults.{StatusFaults};
ghost use Rattle.json_messages.specs.Grammar.{SpellsNumber, SpellsStatus, SpellsCause};
ghost use Rattle.json_messages.specs.Parts.{HasPlace};
ghost use Rattle.json_messages.specs.Printed.{printed_status, unless_zero as unless_zero_of, text_unless_empty as text_unless_empty_of};

use crate::parts;
use document_keys::{Database, NoMemory};
use json_model::{
    JsonFault, MAX_NESTING, Object, Place, Setting, Side, check, clean_code, clean_member,
    clean_object, put_given, text_tree,
};
use serde_json::{Map, Number, Value as Json};
use std::alloc::Global;
use value_model::RpcStatus;

/// The code under the name; where it is left out it is 0.
fn clean_code_in(
    setting: &Setting<'_>,
    object: Object,
    members: &Map<String, Json>,
    name: &str,
) -> u8
    requires clean { AreClean setting.now object (members_view members.now.entries) }
    requires place { HasPlace object (members_view members.now.entries) name.now (places.Leaf leaves.Code) }
    ensures { SpellsNumber max_code (given name.now (members_view members.now.entries)) result }
{
    match clean_member(setting, object, members, name) {
        Some(json) => clean_code(setting, json),
        None => 0,
    }
}

/// The status that a tree without faults spells.
///
/// # Errors
/// `NoMemory`
pub fn clean_status(
    alloc: Global,
    setting: &Setting<'_>,
    json: &Json,
) -> Result<RpcStatus, NoMemory>
    requires { IsClean setting.now (places.Object objects.Status) (view json.now) }
    ensures { IfOk result (λ status. SpellsStatus (view json.now) status) }
{
    let object = Object::Status;
    let members = clean_object(setting, object, json);
    Ok(RpcStatus {
        code: clean_code_in(setting, object, members, "code"),
        message: parts::text_in(alloc, setting, object, members, "message")?,
    })
}

/// The status under the name of a cause, if there is one.
pub(crate) fn clean_cause_in(
    alloc: Global,
    setting: &Setting<'_>,
    object: Object,
    members: &Map<String, Json>,
    name: &str,
) -> Result<Option<RpcStatus>, NoMemory>
    requires clean { AreClean setting.now object (members_view members.now.entries) }
    requires place { HasPlace object (members_view members.now.entries)
        name.now (places.Object objects.Status) }
    ensures { IfOk result (λ cause. SpellsCause (given name.now (members_view members.now.entries)) cause) }
{
    match clean_member(setting, object, members, name) {
        Some(json) => Ok(Some(clean_status(alloc, setting, json)?)),
        None => Ok(None),
    }
}

/// The status that the tree spells, of that side and under that root.
fn read_under(alloc: Global, setting: &Setting<'_>, json: &Json) -> Result<RpcStatus, JsonFault>
    ensures status { IfOk result (λ status. SpellsStatus (view json.now) status) }
    ensures clean { IfOk result (λ _. FaultsAt setting.now max_nesting
        (places.Object objects.Status) (codes "status") (view json.now) []) }
    ensures fault { IfErr result (λ fault. IsFault
        (FaultsAt setting.now max_nesting (places.Object objects.Status) (codes "status")
        (view json.now)) fault) }
{
    let place = Place::Object(Object::Status);
    if let Err(fault) = check(alloc, setting, MAX_NESTING, place, "status", json) {
        return Err(fault);
    }
    let status = clean_status(alloc, setting, json)?;
    Ok(status)
}

/// The status that the tree spells, by either side. The tree then has no fault.
///
/// # Errors
/// The first fault of the least kind, in the walk through the tree; one of the tree itself names `status`. Or `NoMemory`.
pub fn read_status(alloc: Global, side: Side, json: &Json) -> Result<RpcStatus, JsonFault>
    ensures status { IfOk result (λ status. SpellsStatus (view json.now) status) }
    ensures clean { IfOk result (λ _. StatusFaults side (view json.now) []) }
    ensures fault { IfErr result (λ fault. IsFault (StatusFaults side (view json.now)) fault) }
{
    // a status names no document, so any root serves
    let Ok(root) = Database::read(alloc, "projects/p/databases/d") else {
        return Err(JsonFault::NoMemory);
    };
    read_under(alloc, &Setting { side, root: &root }, json)
}

/// A number, unless it is 0.
fn unless_zero(number: u8) -> Option<Json>
    ensures { option_map view result ≡ unless_zero_of number }
{
    if number == 0 {
        return None;
    }
    Some(Json::Number(Number::from(number)))
}

/// A text, unless it is empty.
fn text_unless_empty(alloc: Global, text: &str) -> Result<Option<Json>, NoMemory>
    ensures { IfOk result (λ found. option_map view found ≡ text_unless_empty_of text.now) }
{
    if text.is_empty() {
        return Ok(None);
    }
    Ok(Some(text_tree(alloc, text)?))
}

/// The members of a status.
fn print_members(alloc: Global, status: &RpcStatus) -> Result<Map<String, Json>, NoMemory>
    ensures { IfOk result (λ members. members_view members.entries
        ≡ present ((codes "code", unless_zero_of status.now.code) ∷
        (codes "message", text_unless_empty_of status.now.message) ∷ [])) }
{
    let mut members = Map::new(alloc);
    let message = text_unless_empty(alloc, status.message.as_str())?;
    put_given(alloc, &mut members, "message", message)?;
    put_given(alloc, &mut members, "code", unless_zero(status.code))?;
    Ok(members)
}

/// The tree of a status: its code and its message, each left out at its default. It has no floats.
///
/// # Errors
/// `NoMemory`
pub fn print_status(alloc: Global, status: &RpcStatus) -> Result<Json, NoMemory>
    ensures tree { IfOk result (λ json. view json ≡ printed_status status.now) }
    ensures digits { IfOk result (λ json. has_float (view json) ≡ false) }
{
    let members = print_members(alloc, status)?;
    Ok(Json::Object(members))
}
