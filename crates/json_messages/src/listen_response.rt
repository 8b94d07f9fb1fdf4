//! Messages of a watch stream.

ghost use Rattle.std.specs.Prelude.{◌≡◌, [], true, IfOk, IfErr};
ghost use Rattle.serde_json.specs.View.{view};
ghost use Rattle.json_model.specs.Clean.{IsClean};
ghost use Rattle.json_model.specs.Faults.{IsFault};
ghost use Rattle.json_model.specs.Places.{is_choice, member_place};
ghost use Rattle.json_model.specs.declared.place.Object.TheVariants as objects;
ghost use Rattle.json_model.specs.declared.place.Place.TheVariants as places;
ghost use Rattle.json_messages.specs.Faults.{ListenFaults};
ghost use Rattle.json_messages.specs.Grammar.{SpellsListenUnder, SpellsListenResponse};
ghost use Rattle.json_messages.specs.Storable.{IsStorableResponse};

use crate::document::{clean_document_change, clean_document_delete, clean_document_remove};
use crate::target_change::{clean_existence_filter, clean_target_change};
use document_keys::{Database, NoMemory};
use json_model::{
    JsonFault, MAX_NESTING, Object, Place, Setting, Side, check, clean_choice, clean_object,
};
use serde_json::Value as Json;
use std::alloc::Global;
use value_model::ListenResponse;

/// What stands under the name of a message's kind.
#[tactic(auto, unfolding(json_model::specs::Places::listen_response_rows))]
fn clean_listen_under(
    alloc: Global,
    setting: &Setting<'_>,
    name: &str,
    json: &Json,
) -> Result<ListenResponse, NoMemory>
    requires choice { is_choice objects.ListenResponse name.now ≡ true }
    requires clean { IsClean setting.now (member_place objects.ListenResponse name.now) (view json.now) }
    ensures response { IfOk result (λ response. SpellsListenUnder setting.now.root name.now
        (view json.now) response) }
    ensures storable { IfOk result IsStorableResponse }
{
    match name {
        "targetChange" => {
            let change = clean_target_change(alloc, setting, json)?;
            Ok(ListenResponse::Target(change))
        }
        "documentChange" => {
            let change = clean_document_change(alloc, setting, json)?;
            Ok(ListenResponse::Change(change))
        }
        "documentDelete" => {
            let gone = clean_document_delete(alloc, setting, json)?;
            Ok(ListenResponse::Delete(gone))
        }
        "documentRemove" => {
            let gone = clean_document_remove(alloc, setting, json)?;
            Ok(ListenResponse::Remove(gone))
        }
        "filter" => {
            let filter = clean_existence_filter(setting, json);
            Ok(ListenResponse::Filter(filter))
        }
        _ => unreachable!(),
    }
}

/// The message of a watch stream that a tree without faults spells.
///
/// # Errors
/// `NoMemory`
pub fn clean_listen_response(
    alloc: Global,
    setting: &Setting<'_>,
    json: &Json,
) -> Result<ListenResponse, NoMemory>
    requires { IsClean setting.now (places.Object objects.ListenResponse) (view json.now) }
    ensures response { IfOk result (λ response. SpellsListenResponse setting.now.root
        (view json.now) response) }
    ensures storable { IfOk result IsStorableResponse }
{
    let members = clean_object(setting, Object::ListenResponse, json);
    let (name, inner) = clean_choice(setting, Object::ListenResponse, members);
    clean_listen_under(alloc, setting, name, inner)
}

/// The message of a watch stream that the tree spells, by the backend's side. The tree then has no fault, and the key, the
/// fields, the token and the times of the message can be stored.
///
/// # Errors
/// The first fault of the least kind, in the walk through the tree; one of the tree itself names `watch`. Or `NoMemory`.
pub fn read_listen_response(
    alloc: Global,
    root: &Database,
    json: &Json,
) -> Result<ListenResponse, JsonFault>
    ensures response { IfOk result (λ response. SpellsListenResponse root.now (view json.now) response) }
    ensures storable { IfOk result IsStorableResponse }
    ensures clean { IfOk result (λ _. ListenFaults root.now (view json.now) []) }
    ensures fault { IfErr result (λ fault. IsFault (ListenFaults root.now (view json.now)) fault) }
{
    let setting = Setting {
        side: Side::Backend,
        root,
    };
    let place = Place::Object(Object::ListenResponse);
    if let Err(fault) = check(alloc, &setting, MAX_NESTING, place, "watch", json) {
        return Err(fault);
    }
    let response = clean_listen_response(alloc, &setting, json)?;
    Ok(response)
}
