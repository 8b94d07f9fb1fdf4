//! Documents that changed or are gone.

ghost use Rattle.std.specs.Prelude.{◌≡◌, ◌≤◌, IfOk, codes};
ghost use Rattle.serde_json.specs.View.{view, members_view};
ghost use Rattle.value_model.specs.Data.{entries_depth};
ghost use Rattle.value_model.specs.Storable.{AreStorable, IsStorableKey};
ghost use Rattle.value_model.specs.Time.{IsMoment};
ghost use Rattle.json_model.specs.Clean.{IsClean, AreClean};
ghost use Rattle.json_model.specs.Faults.{max_nesting};
ghost use Rattle.json_model.specs.Forms.{InObject, IsGiven};
ghost use Rattle.json_model.specs.Grammar.{SpellsName, SpellsTime};
ghost use Rattle.json_model.specs.Members.{given};
ghost use Rattle.json_model.specs.declared.place.Object.TheVariants as objects;
ghost use Rattle.json_model.specs.declared.place.Place.TheVariants as places;
ghost use Rattle.json_rpc.specs.Grammar.{SpellsFieldsIn};
ghost use Rattle.json_messages.specs.Grammar.{SpellsDocumentIn, SpellsDocumentChange, SpellsDocumentGone};
ghost use Rattle.json_messages.specs.Parts.{HasPlace};
ghost use Rattle.json_messages.specs.Storable.{IsStorableDocument, IsStorableGone};

use crate::parts;
use document_keys::{DocumentKey, NoMemory};
use json_model::{
    Object, Setting, clean_fields, clean_member, clean_name, clean_object, clean_time,
};
use serde_json::{Map, Value as Json};
use std::alloc::Global;
use value_model::{DocumentChange, DocumentDelete, DocumentRemove, Fields, TargetIds, Timestamp};

/// The key under `name` of a document.
#[tactic(auto, unfolding(json_model::specs::Places::document_rows))]
fn clean_key(
    alloc: Global,
    setting: &Setting<'_>,
    members: &Map<String, Json>,
) -> Result<DocumentKey, NoMemory>
    requires { AreClean setting.now objects.Document (members_view members.now.entries) }
    ensures key { IfOk result (λ key. IsGiven
        (given (codes "name") (members_view members.now.entries))
        (λ d. SpellsName setting.now.root d key)) }
    ensures storable { IfOk result IsStorableKey }
{
    match clean_member(setting, Object::Document, members, "name") {
        Some(json) => clean_name(alloc, setting, json),
        None => unreachable!(),
    }
}

/// The fields of a document under the name; where they are left out there are none.
fn clean_fields_in(
    alloc: Global,
    setting: &Setting<'_>,
    object: Object,
    members: &Map<String, Json>,
    name: &str,
) -> Result<Fields, NoMemory>
    requires clean { AreClean setting.now object (members_view members.now.entries) }
    requires place { HasPlace object (members_view members.now.entries)
        name.now (places.Object objects.Fields) }
    ensures fields { IfOk result (λ fields. SpellsFieldsIn
        (given name.now (members_view members.now.entries)) fields) }
    ensures storable { IfOk result AreStorable }
    ensures deep { IfOk result (λ fields. entries_depth fields ≤ max_nesting) }
{
    match clean_member(setting, object, members, name) {
        Some(json) => clean_fields(alloc, setting, json),
        None => Ok(Fields::new(alloc)),
    }
}

/// The time under `updateTime` of a document.
#[tactic(auto, unfolding(json_model::specs::Places::document_rows))]
fn clean_update_time(setting: &Setting<'_>, members: &Map<String, Json>) -> Timestamp
    requires { AreClean setting.now objects.Document (members_view members.now.entries) }
    ensures time { IsGiven (given (codes "updateTime") (members_view members.now.entries))
        (λ d. SpellsTime d result) }
    ensures moment { IsMoment result }
{
    match clean_member(setting, Object::Document, members, "updateTime") {
        Some(json) => clean_time(setting, json),
        None => unreachable!(),
    }
}

/// The change of the document that a tree without faults spells, in these targets and no more in those.
#[tactic(auto, unfolding(json_model::specs::Places::document_rows))]
fn clean_document(
    alloc: Global,
    setting: &Setting<'_>,
    target_ids: TargetIds,
    removed_target_ids: TargetIds,
    json: &Json,
) -> Result<DocumentChange, NoMemory>
    requires { IsClean setting.now (places.Object objects.Document) (view json.now) }
    ensures document { IfOk result (λ change. InObject (view json.now)
        (λ ms. SpellsDocumentIn setting.now.root ms change)) }
    ensures targets { IfOk result (λ change. change.target_ids ≡ target_ids) }
    ensures removed { IfOk result (λ change. change.removed_target_ids ≡ removed_target_ids) }
    ensures storable { IfOk result IsStorableDocument }
{
    let object = Object::Document;
    let members = clean_object(setting, object, json);
    Ok(DocumentChange {
        key: clean_key(alloc, setting, members)?,
        fields: clean_fields_in(alloc, setting, object, members, "fields")?,
        update_time: clean_update_time(setting, members),
        target_ids,
        removed_target_ids,
    })
}

/// What `documentChange` holds.
#[tactic(auto, unfolding(json_model::specs::Places::document_change_rows))]
pub(crate) fn clean_document_change(
    alloc: Global,
    setting: &Setting<'_>,
    json: &Json,
) -> Result<DocumentChange, NoMemory>
    requires { IsClean setting.now (places.Object objects.DocumentChange) (view json.now) }
    ensures change { IfOk result (λ change. InObject (view json.now)
        (λ ms. SpellsDocumentChange setting.now.root ms change)) }
    ensures storable { IfOk result IsStorableDocument }
{
    let object = Object::DocumentChange;
    let members = clean_object(setting, object, json);
    let ids = parts::ids_in(alloc, setting, object, members, "targetIds")?;
    let removed = parts::ids_in(alloc, setting, object, members, "removedTargetIds")?;
    match clean_member(setting, object, members, "document") {
        Some(document) => clean_document(alloc, setting, ids, removed, document),
        None => unreachable!(),
    }
}

/// The key under `document` of one that is gone.
#[tactic(auto, unfolding(json_model::specs::Places::document_delete_rows))]
fn clean_gone_key(
    alloc: Global,
    setting: &Setting<'_>,
    members: &Map<String, Json>,
) -> Result<DocumentKey, NoMemory>
    requires { AreClean setting.now objects.DocumentDelete (members_view members.now.entries) }
    ensures key { IfOk result (λ key. IsGiven
        (given (codes "document") (members_view members.now.entries))
        (λ d. SpellsName setting.now.root d key)) }
    ensures storable { IfOk result IsStorableKey }
{
    match clean_member(setting, Object::DocumentDelete, members, "document") {
        Some(json) => clean_name(alloc, setting, json),
        None => unreachable!(),
    }
}

/// What `documentDelete` holds.
#[tactic(auto, unfolding(json_model::specs::Places::document_delete_rows))]
pub(crate) fn clean_document_delete(
    alloc: Global,
    setting: &Setting<'_>,
    json: &Json,
) -> Result<DocumentDelete, NoMemory>
    requires { IsClean setting.now (places.Object objects.DocumentDelete) (view json.now) }
    ensures gone { IfOk result (λ gone. InObject (view json.now)
        (λ ms. SpellsDocumentGone setting.now.root ms gone.key gone.removed_target_ids
        gone.read_time)) }
    ensures storable { IfOk result (λ gone. IsStorableGone gone.key gone.read_time) }
{
    let object = Object::DocumentDelete;
    let members = clean_object(setting, object, json);
    Ok(DocumentDelete {
        key: clean_gone_key(alloc, setting, members)?,
        removed_target_ids: parts::ids_in(alloc, setting, object, members, "removedTargetIds")?,
        read_time: parts::time_in(setting, object, members, "readTime"),
    })
}

/// What `documentRemove` holds: the same as `documentDelete`.
pub(crate) fn clean_document_remove(
    alloc: Global,
    setting: &Setting<'_>,
    json: &Json,
) -> Result<DocumentRemove, NoMemory>
    requires { IsClean setting.now (places.Object objects.DocumentDelete) (view json.now) }
    ensures gone { IfOk result (λ gone. InObject (view json.now)
        (λ ms. SpellsDocumentGone setting.now.root ms gone.key gone.removed_target_ids
        gone.read_time)) }
    ensures storable { IfOk result (λ gone. IsStorableGone gone.key gone.read_time) }
{
    let gone = clean_document_delete(alloc, setting, json)?;
    let DocumentDelete {
        key,
        removed_target_ids,
        read_time,
    } = gone;
    Ok(DocumentRemove {
        key,
        removed_target_ids,
        read_time,
    })
}
