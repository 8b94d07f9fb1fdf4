//! Changes of targets, and how many documents one has.

ghost use Rattle.std.specs.Prelude.{IfOk, IfSome};
ghost use Rattle.serde_json.specs.View.{view, members_view};
ghost use Rattle.value_model.specs.Storable.{AreStorableBytes};
ghost use Rattle.value_model.specs.Time.{IsMoment};
ghost use Rattle.json_model.specs.Clean.{IsClean, AreClean};
ghost use Rattle.json_model.specs.Forms.{InObject};
ghost use Rattle.json_model.specs.Members.{given};
ghost use Rattle.json_model.specs.Numbers.{max_count};
ghost use Rattle.json_model.specs.declared.place.Constants.TheVariants as constants;
ghost use Rattle.json_model.specs.declared.place.Leaf.TheVariants as leaves;
ghost use Rattle.json_model.specs.declared.place.Object.TheVariants as objects;
ghost use Rattle.json_model.specs.declared.place.Place.TheVariants as places;
ghost use Rattle.json_messages.specs.Grammar.{SpellsChangeType, SpellsNumber, SpellsTargetId, SpellsTargetChange, SpellsExistenceFilter};
ghost use Rattle.json_messages.specs.Parts.{HasPlace};

use crate::parts;
use crate::status::clean_cause_in;
use document_keys::NoMemory;
use json_model::{
    Constants, Object, Setting, clean_constant, clean_count, clean_member, clean_object,
    clean_target_id,
};
use serde_json::{Map, Value as Json};
use std::alloc::Global;
use value_model::{ChangeKind, ExistenceFilter, TargetChange};

/// What became of targets, by the name; where it is left out, nothing did.
#[tactic(auto, unfolding(json_model::specs::Constants::is_change_type))]
fn clean_change_type_in(
    setting: &Setting<'_>,
    object: Object,
    members: &Map<String, Json>,
    name: &str,
) -> ChangeKind
    requires clean { AreClean setting.now object (members_view members.now.entries) }
    requires place { HasPlace object (members_view members.now.entries)
        name.now (places.Leaf (leaves.Constant constants.ChangeType)) }
    ensures { SpellsChangeType (given name.now (members_view members.now.entries)) result }
{
    let Some(json) = clean_member(setting, object, members, name) else {
        return ChangeKind::NoChange;
    };
    match clean_constant(setting, Constants::ChangeType, json) {
        "ADD" => ChangeKind::Add,
        "CURRENT" => ChangeKind::Current,
        "NO_CHANGE" => ChangeKind::NoChange,
        "REMOVE" => ChangeKind::Remove,
        "RESET" => ChangeKind::Reset,
        _ => unreachable!(),
    }
}

/// What `targetChange` holds.
#[tactic(auto, unfolding(json_model::specs::Places::target_change_rows))]
pub(crate) fn clean_target_change(
    alloc: Global,
    setting: &Setting<'_>,
    json: &Json,
) -> Result<TargetChange, NoMemory>
    requires { IsClean setting.now (places.Object objects.TargetChange) (view json.now) }
    ensures change { IfOk result (λ change. InObject (view json.now) (λ ms. SpellsTargetChange ms change)) }
    ensures token { IfOk result (λ change. AreStorableBytes change.resume_token) }
    ensures moment { IfOk result (λ change. IfSome change.read_time IsMoment) }
{
    let object = Object::TargetChange;
    let members = clean_object(setting, object, json);
    Ok(TargetChange {
        kind: clean_change_type_in(setting, object, members, "targetChangeType"),
        target_ids: parts::ids_in(alloc, setting, object, members, "targetIds")?,
        cause: clean_cause_in(alloc, setting, object, members, "cause")?,
        resume_token: parts::token_in(alloc, setting, object, members, "resumeToken")?,
        read_time: parts::time_in(setting, object, members, "readTime"),
    })
}

/// The id of a target under the name; where it is left out it is 0.
fn clean_target_id_in(
    setting: &Setting<'_>,
    object: Object,
    members: &Map<String, Json>,
    name: &str,
) -> i32
    requires clean { AreClean setting.now object (members_view members.now.entries) }
    requires place { HasPlace object (members_view members.now.entries)
        name.now (places.Leaf leaves.TargetId) }
    ensures { SpellsTargetId (given name.now (members_view members.now.entries)) result }
{
    match clean_member(setting, object, members, name) {
        Some(json) => clean_target_id(setting, json),
        None => 0,
    }
}

/// The number of documents under the name; where it is left out it is 0.
fn clean_count_in(
    setting: &Setting<'_>,
    object: Object,
    members: &Map<String, Json>,
    name: &str,
) -> u32
    requires clean { AreClean setting.now object (members_view members.now.entries) }
    requires place { HasPlace object (members_view members.now.entries) name.now (places.Leaf leaves.Count) }
    ensures { SpellsNumber max_count (given name.now (members_view members.now.entries)) result }
{
    match clean_member(setting, object, members, name) {
        Some(json) => clean_count(setting, json),
        None => 0,
    }
}

/// What `filter` of a message holds.
#[tactic(auto, unfolding(json_model::specs::Places::existence_filter_rows))]
pub(crate) fn clean_existence_filter(setting: &Setting<'_>, json: &Json) -> ExistenceFilter
    requires { IsClean setting.now (places.Object objects.ExistenceFilter) (view json.now) }
    ensures { InObject (view json.now) (λ ms. SpellsExistenceFilter ms result) }
{
    let object = Object::ExistenceFilter;
    let members = clean_object(setting, object, json);
    ExistenceFilter {
        target_id: clean_target_id_in(setting, object, members, "targetId"),
        count: clean_count_in(setting, object, members, "count"),
    }
}
