//! Trees that the walk found no fault in, taken apart.

ghost use Rattle.std.specs.Prelude.{◌≡◌, ◌≤◌, ◌∷◌, [], suc, true, false, Some, IsSome, IfSome, IfErr, OnOk, option_map};
ghost use Rattle.serde_json.specs.Data.{depth, items_depth, members_depth};
ghost use Rattle.serde_json.specs.Find.{as_object, as_array};
ghost use Rattle.serde_json.specs.View.{view, items_view, members_view};
ghost use Rattle.json_model.specs.declared.place.Place.TheVariants as places;
ghost use Rattle.json_model.specs.Clean.{IsClean, AreClean, ItemsAreClean};
ghost use Rattle.json_model.specs.Faults.{FaultsAt, IsFault};
ghost use Rattle.json_model.specs.Members.{given as given_of, chosen, refined as refined_of};
ghost use Rattle.json_model.specs.Places.{chooses, is_among, is_choice, is_unknown, required, member_place as member_place_of};

use crate::fault::JsonFault;
use crate::members::{given, only_choice};
use crate::place::{Object, Place, Series};
use crate::setting::Setting;
use crate::walk::find_fault;
use document_keys::NoMemory;
use serde_json::{Map, Value as Json};
use std::alloc::Global;

/// Whether the tree has no fault at the place.
///
/// # Errors
/// The first fault of the least kind, or `NoMemory`.
#[tactic(auto, using(crate::proofs::Firsts::none_found))]
pub fn check(
    alloc: Global,
    setting: &Setting<'_>,
    limit: u64,
    place: Place,
    name: &str,
    json: &Json,
) -> Result<(), JsonFault>
    ensures clean { OnOk result (FaultsAt setting.now limit place name.now (view json.now) []) }
    ensures fault { IfErr result (λ fault. IsFault
        (FaultsAt setting.now limit place name.now (view json.now)) fault) }
{
    match find_fault(alloc, setting, limit, place, name, json) {
        Ok(Some(fault)) => Err(fault),
        Ok(None) => Ok(()),
        Err(NoMemory) => Err(JsonFault::NoMemory),
    }
}

/// The members of an object without faults.
#[tactic(auto, using(crate::proofs::Sound::object_there))]
pub fn clean_object<'a>(
    _setting: &Setting<'_>,
    _object: Object,
    json: &'a Json,
) -> &'a Map<String, Json>
    requires { IsClean _setting.now (places.Object _object) (view json.now) }
    ensures is { as_object (view json.now) ≡ Some (members_view result.now.entries) }
    ensures clean { AreClean _setting.now _object (members_view result.now.entries) }
    ensures depth { depth (view json.now) ≡ suc (members_depth (members_view result.now.entries)) }
{
    match json.as_object() {
        Some(members) => members,
        None => unreachable!(),
    }
}

/// The items of a list without faults.
#[tactic(auto, using(crate::proofs::Sound::list_there))]
pub fn clean_list<'a>(_setting: &Setting<'_>, _series: Series, json: &'a Json) -> &'a Vec<Json>
    requires { IsClean _setting.now (places.Series _series) (view json.now) }
    ensures is { as_array (view json.now) ≡ Some (items_view result.now.items) }
    ensures clean { ItemsAreClean _setting.now _series (items_view result.now.items) }
    ensures depth { depth (view json.now) ≡ suc (items_depth (items_view result.now.items)) }
{
    match json.as_array() {
        Some(items) => items,
        None => unreachable!(),
    }
}

/// What stands under the name in an object without faults. A required member is there.
#[tactic(auto, using(crate::proofs::Sound::given_all))]
pub fn clean_member<'a>(
    _setting: &Setting<'_>,
    _object: Object,
    members: &'a Map<String, Json>,
    name: &str,
) -> Option<&'a Json>
    requires { AreClean _setting.now _object (members_view members.now.entries) }
    ensures is { option_map (λ v. view v.now) result ≡ given_of name.now (members_view members.now.entries) }
    ensures clean { IfSome result (λ v. IsClean _setting.now
        (member_place_of (refined_of _object (members_view members.now.entries)) name.now)
        (view v.now)) }
    ensures there { is_among name.now (required
        (refined_of _object (members_view members.now.entries))) ≡ true → IsSome result }
    ensures depth { IfSome result (λ v. depth (view v.now) ≤ members_depth
        (members_view members.now.entries)) }
{
    given(members, name)
}

/// The alternative of an object without faults that must have exactly one, with its name.
#[tactic(auto, using(crate::proofs::Choices::choice_clean, crate::proofs::Choices::chosen_choice, crate::proofs::Trees::choice_depth))]
pub fn clean_choice<'a>(
    _setting: &Setting<'_>,
    object: Object,
    members: &'a Map<String, Json>,
) -> (&'a str, &'a Json)
    requires chooses { chooses object ≡ true }
    requires clean { AreClean _setting.now object (members_view members.now.entries) }
    ensures known { is_unknown (member_place_of object result.0.now) ≡ false }
    ensures choice { is_choice object result.0.now ≡ true }
    ensures only { chosen object (members_view members.now.entries) ≡ (result.0.now, view result.1.now) ∷ [] }
    ensures clean { IsClean _setting.now
        (member_place_of (refined_of object (members_view members.now.entries)) result.0.now)
        (view result.1.now) }
    ensures depth { depth (view result.1.now) ≤ members_depth (members_view members.now.entries) }
{
    match only_choice(object, members) {
        Some(choice) => choice,
        None => unreachable!(),
    }
}
