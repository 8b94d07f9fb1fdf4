//! Members that trees without faults may leave out.

ghost use Rattle.std.specs.Prelude.{◌≡◌, IfOk, IfSome, Some, option_map};
ghost use Rattle.serde_json.specs.View.{view, members_view};
ghost use Rattle.value_model.specs.Storable.{AreStorableBytes};
ghost use Rattle.value_model.specs.Time.{IsMoment};
ghost use Rattle.json_model.specs.Clean.{IsClean, AreClean};
ghost use Rattle.json_model.specs.Forms.{SpellsEach};
ghost use Rattle.json_model.specs.Members.{given};
ghost use Rattle.json_model.specs.Numbers.{SpellsShort};
ghost use Rattle.json_model.specs.declared.place.Leaf.TheVariants as leaves;
ghost use Rattle.json_model.specs.declared.place.Place.TheVariants as places;
ghost use Rattle.json_model.specs.declared.place.Series.TheVariants as serieses;
ghost use Rattle.json_messages.specs.Grammar.{SpellsTextIn, SpellsToken, SpellsTimeIn};
ghost use Rattle.json_messages.specs.Parts.{HasPlace};
ghost use Rattle.json_messages.specs.Printed.{printed_token};

use document_keys::{NoMemory, Text};
use json_model::{
    Object, Series, Setting, clean_bytes, clean_list, clean_member, clean_target_id, clean_text,
    clean_time, print_bytes, text_tree,
};
use serde_json::{Map, Value as Json};
use std::alloc::Global;
use value_model::{Bytes, TargetIds, Timestamp};

/// The ids of a list.
fn clean_id_items(alloc: Global, setting: &Setting<'_>, json: &Json) -> Result<Vec<i32>, NoMemory>
    requires { IsClean setting.now (places.Series serieses.TargetIds) (view json.now) }
    ensures { IfOk result (λ ids. SpellsEach SpellsShort (Some (view json.now)) ids.items) }
{
    let items = clean_list(setting, Series::TargetIds, json);
    let mut ids = Vec::new(alloc);
    for item in items {
        ids.push(clean_target_id(setting, item))?;
    }
    Ok(ids)
}

/// The ids of targets under the name; where they are left out there are none.
pub(crate) fn ids_in(
    alloc: Global,
    setting: &Setting<'_>,
    object: Object,
    members: &Map<String, Json>,
    name: &str,
) -> Result<TargetIds, NoMemory>
    requires clean { AreClean setting.now object (members_view members.now.entries) }
    requires place { HasPlace object (members_view members.now.entries)
        name.now (places.Series serieses.TargetIds) }
    ensures { IfOk result (λ ids. SpellsEach SpellsShort
        (given name.now (members_view members.now.entries)) ids) }
{
    match clean_member(setting, object, members, name) {
        Some(json) => Ok(TargetIds::from_vec(clean_id_items(alloc, setting, json)?)),
        None => Ok(TargetIds::from_vec(Vec::new(alloc))),
    }
}

/// The text under the name; where it is left out it is empty.
pub(crate) fn text_in(
    alloc: Global,
    setting: &Setting<'_>,
    object: Object,
    members: &Map<String, Json>,
    name: &str,
) -> Result<Text, NoMemory>
    requires clean { AreClean setting.now object (members_view members.now.entries) }
    requires place { HasPlace object (members_view members.now.entries) name.now (places.Leaf leaves.Text) }
    ensures { IfOk result (λ text. SpellsTextIn (given name.now (members_view members.now.entries)) text) }
{
    match clean_member(setting, object, members, name) {
        Some(json) => Text::from_str(alloc, clean_text(setting, json)),
        None => Text::from_str(alloc, ""),
    }
}

/// The token under the name; where it is left out it is empty.
pub(crate) fn token_in(
    alloc: Global,
    setting: &Setting<'_>,
    object: Object,
    members: &Map<String, Json>,
    name: &str,
) -> Result<Bytes, NoMemory>
    requires clean { AreClean setting.now object (members_view members.now.entries) }
    requires place { HasPlace object (members_view members.now.entries) name.now (places.Leaf leaves.Bytes) }
    ensures token { IfOk result (λ token. SpellsToken
        (given name.now (members_view members.now.entries)) token) }
    ensures storable { IfOk result AreStorableBytes }
{
    match clean_member(setting, object, members, name) {
        Some(json) => Ok(Bytes::from_vec(clean_bytes(alloc, setting, json)?)),
        None => Ok(Bytes::from_vec(Vec::new(alloc))),
    }
}

/// The time under the name, if there is one.
pub(crate) fn time_in(
    setting: &Setting<'_>,
    object: Object,
    members: &Map<String, Json>,
    name: &str,
) -> Option<Timestamp>
    requires clean { AreClean setting.now object (members_view members.now.entries) }
    requires place { HasPlace object (members_view members.now.entries) name.now (places.Leaf leaves.Time) }
    ensures time { SpellsTimeIn (given name.now (members_view members.now.entries)) result }
    ensures moment { IfSome result IsMoment }
{
    match clean_member(setting, object, members, name) {
        Some(json) => Some(clean_time(setting, json)),
        None => None,
    }
}

/// A token in base64, unless it is empty.
pub(crate) fn token_tree(alloc: Global, token: &[u8]) -> Result<Option<Json>, NoMemory>
    ensures { IfOk result (λ found. option_map view found ≡ printed_token token.now) }
{
    if token.is_empty() {
        return Ok(None);
    }
    let text = print_bytes(alloc, token)?;
    Ok(Some(text_tree(alloc, text.as_str())?))
}
