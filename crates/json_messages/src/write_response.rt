//! Messages of a write stream.

ghost use Rattle.std.specs.Prelude.{[], IfOk, IfErr, Some};
ghost use Rattle.serde_json.specs.View.{view, members_view};
ghost use Rattle.json_model.specs.Clean.{IsClean, AreClean};
ghost use Rattle.json_model.specs.Faults.{IsFault, max_nesting};
ghost use Rattle.json_model.specs.Forms.{SpellsEach};
ghost use Rattle.json_model.specs.Grammar.{SpellsList};
ghost use Rattle.json_model.specs.Members.{given};
ghost use Rattle.json_model.specs.declared.place.Object.TheVariants as objects;
ghost use Rattle.json_model.specs.declared.place.Place.TheVariants as places;
ghost use Rattle.json_model.specs.declared.place.Series.TheVariants as serieses;
ghost use Rattle.json_rpc.specs.Storable.{AreAllStorable, IsStorableWithin};
ghost use Rattle.json_messages.specs.Faults.{WriteResponseFaults};
ghost use Rattle.json_messages.specs.Grammar.{SpellsWriteResult, SpellsWriteResponse};
ghost use Rattle.json_messages.specs.Parts.{HasPlace};
ghost use Rattle.json_messages.specs.Storable.{IsStorableResult, IsStorableAnswer};

use crate::parts;
use document_keys::{Database, NoMemory};
use json_model::{
    JsonFault, MAX_NESTING, Object, Place, Series, Setting, Side, check, clean_list, clean_member,
    clean_object, clean_values,
};
use mutations::{Values, WriteResponse, WriteResult, WriteResults};
use serde_json::{Map, Value as Json};
use std::alloc::Global;

/// The results of transforms under the name; where they are left out there are none.
fn clean_transforms_in(
    alloc: Global,
    setting: &Setting<'_>,
    object: Object,
    members: &Map<String, Json>,
    name: &str,
) -> Result<Values, NoMemory>
    requires clean { AreClean setting.now object (members_view members.now.entries) }
    requires place { HasPlace object (members_view members.now.entries)
        name.now (places.Series serieses.Values) }
    ensures values { IfOk result (λ values. SpellsList
        (given name.now (members_view members.now.entries)) values) }
    ensures storable { IfOk result (AreAllStorable (IsStorableWithin max_nesting)) }
{
    match clean_member(setting, object, members, name) {
        Some(list) => {
            let values = clean_values(alloc, setting, list)?;
            let _count = values.len();
            Ok(Values::from_vec(values))
        }
        None => Ok(Values::from_vec(Vec::new(alloc))),
    }
}

/// The result of a write.
#[tactic(auto, unfolding(json_model::specs::Places::write_result_rows))]
fn clean_result(alloc: Global, setting: &Setting<'_>, json: &Json) -> Result<WriteResult, NoMemory>
    requires { IsClean setting.now (places.Object objects.WriteResult) (view json.now) }
    ensures answer { IfOk result (λ answer. SpellsWriteResult (view json.now) answer) }
    ensures storable { IfOk result IsStorableResult }
{
    let object = Object::WriteResult;
    let members = clean_object(setting, object, json);
    Ok(WriteResult {
        update_time: parts::time_in(setting, object, members, "updateTime"),
        transforms: clean_transforms_in(alloc, setting, object, members, "transformResults")?,
    })
}

/// The results of a list.
fn clean_result_items(
    alloc: Global,
    setting: &Setting<'_>,
    json: &Json,
) -> Result<Vec<WriteResult>, NoMemory>
    requires { IsClean setting.now (places.Series serieses.Results) (view json.now) }
    ensures results { IfOk result (λ results. SpellsEach SpellsWriteResult
        (Some (view json.now)) results.items) }
    ensures storable { IfOk result (λ results. AreAllStorable IsStorableResult results.items) }
{
    let items = clean_list(setting, Series::Results, json);
    let mut results = Vec::new(alloc);
    for item in items {
        results.push(clean_result(alloc, setting, item)?)?;
    }
    let _count = results.len();
    Ok(results)
}

/// The results of writes under the name; where they are left out there are none.
fn clean_results_in(
    alloc: Global,
    setting: &Setting<'_>,
    object: Object,
    members: &Map<String, Json>,
    name: &str,
) -> Result<WriteResults, NoMemory>
    requires clean { AreClean setting.now object (members_view members.now.entries) }
    requires place { HasPlace object (members_view members.now.entries)
        name.now (places.Series serieses.Results) }
    ensures results { IfOk result (λ results. SpellsEach SpellsWriteResult
        (given name.now (members_view members.now.entries)) results) }
    ensures storable { IfOk result (λ results. AreAllStorable IsStorableResult results) }
{
    match clean_member(setting, object, members, name) {
        Some(json) => Ok(WriteResults::from_vec(clean_result_items(alloc, setting, json)?)),
        None => Ok(WriteResults::from_vec(Vec::new(alloc))),
    }
}

/// The message of a write stream that a tree without faults spells.
///
/// # Errors
/// `NoMemory`
#[tactic(auto, unfolding(json_model::specs::Places::write_response_rows))]
pub fn clean_write_response(
    alloc: Global,
    setting: &Setting<'_>,
    json: &Json,
) -> Result<WriteResponse, NoMemory>
    requires { IsClean setting.now (places.Object objects.WriteResponse) (view json.now) }
    ensures response { IfOk result (λ response. SpellsWriteResponse (view json.now) response) }
    ensures storable { IfOk result IsStorableAnswer }
{
    let object = Object::WriteResponse;
    let members = clean_object(setting, object, json);
    Ok(WriteResponse {
        token: parts::token_in(alloc, setting, object, members, "streamToken")?,
        results: clean_results_in(alloc, setting, object, members, "writeResults")?,
        commit_time: parts::time_in(setting, object, members, "commitTime"),
    })
}

/// The message of a write stream that the tree spells, by the backend's side. The tree then has no fault, and the token, the
/// values and the times of the message can be stored; the values nest at most 20 deep.
///
/// # Errors
/// The first fault of the least kind, in the walk through the tree; one of the tree itself names `written`. Or `NoMemory`.
pub fn read_write_response(
    alloc: Global,
    root: &Database,
    json: &Json,
) -> Result<WriteResponse, JsonFault>
    ensures response { IfOk result (λ response. SpellsWriteResponse (view json.now) response) }
    ensures storable { IfOk result IsStorableAnswer }
    ensures clean { IfOk result (λ _. WriteResponseFaults root.now (view json.now) []) }
    ensures fault { IfErr result (λ fault. IsFault (WriteResponseFaults root.now (view json.now)) fault) }
{
    let setting = Setting {
        side: Side::Backend,
        root,
    };
    let place = Place::Object(Object::WriteResponse);
    if let Err(fault) = check(alloc, &setting, MAX_NESTING, place, "written", json) {
        return Err(fault);
    }
    let response = clean_write_response(alloc, &setting, json)?;
    Ok(response)
}
