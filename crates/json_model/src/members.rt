ghost use Rattle.std.specs.Prelude.{◌≡◌, ◌≢◌, [], ◌∷◌, length, false, IfSome, MatchOption, option_map};
ghost use Rattle.serde_json.specs.Find.{get_member};
ghost use Rattle.serde_json.specs.View.{view, members_view};
ghost use Rattle.json_model.specs.Members.{IsLone, given as given_of, is_vector_map as is_vector_map_of, is_vector as is_vector_of, is_chosen as is_chosen_of, chosen as chosen_of, is_one_known, only_name as only_name_of, lacks_array as lacks_array_of, lacks_choice as lacks_choice_of, is_of_array as is_of_array_of, takes_list as takes_list_of, refined as refined_of};
ghost use Rattle.json_model.specs.Places.{member_place as member_place_of, is_unknown as is_unknown_of};

use crate::constants::is_list_operator;
use crate::place::{Leaf, Object, Place};
use crate::table::{chooses, is_choice, member_place};
use serde_json::{Map, Value as Json};

/// The value of the object's member of that name.
fn member<'a>(members: &'a Map<String, Json>, name: &str) -> Option<&'a Json>
    ensures { option_map (λ v. view v.now) result ≡ get_member name.now (members_view members.now.entries) }
{
    members.get(name)
}

/// The value of the object's member of that name, where it is there and isn't null.
pub fn given<'a>(members: &'a Map<String, Json>, name: &str) -> Option<&'a Json>
    ensures { option_map (λ v. view v.now) result ≡ given_of name.now (members_view members.now.entries) }
{
    let value = member(members, name)?;
    if value.is_null() {
        return None;
    }
    Some(value)
}

/// Whether the map of these members is a vector: one of its fields has the name `__type__`.
fn is_vector(members: &Map<String, Json>) -> bool
    ensures { result ≡ is_vector_of (members_view members.now.entries) }
{
    let Some(json) = given(members, "fields") else {
        return false;
    };
    let Some(fields) = json.as_object() else {
        return false;
    };
    given(fields, "__type__").is_some()
}

/// Whether the object is a map, and a vector.
pub(crate) fn is_vector_map(object: Object, members: &Map<String, Json>) -> bool
    ensures { result ≡ is_vector_map_of object (members_view members.now.entries) }
{
    match object {
        Object::Map => is_vector(members),
        _ => false,
    }
}

/// Whether the member is one of the object's alternatives, and isn't left out.
fn is_chosen(object: Object, name: &str, json: &Json) -> bool
    ensures { result ≡ is_chosen_of object name.now (view json.now) }
{
    if json.is_null() && member_place(object, name).is_left_out(json) {
        return false;
    }
    is_choice(object, name)
}

/// The alternative that is given, with its name, where exactly one is.
fn only_chosen(object: Object, members: &Map<String, Json>) -> Option<(&str, &Json)>
    ensures { MatchOption result
        (length (chosen_of object (members_view members.now.entries)) ≢ 1)
        (λ kind. chosen_of object (members_view members.now.entries) ≡ (kind.0.now, view kind.1.now) ∷ []) }
{
    let mut only = None;
    for (name, value) in members {
        if !is_chosen(object, name.as_str(), value) {
            continue;
        }
        if only.is_some() {
            return None;
        }
        only = Some((name.as_str(), value));
    }
    only
}

/// The name of the alternative that is given; none, where there isn't just one.
#[tactic(auto, using(crate::proofs::Choices::no_only))]
fn only_name(object: Object, members: &Map<String, Json>) -> &str
    ensures { result.now ≡ only_name_of (chosen_of object (members_view members.now.entries)) }
{
    match only_chosen(object, members) {
        Some((name, _json)) => name,
        None => "",
    }
}

/// The alternative that is given, with its name, where exactly one is and it is known.
#[tactic(auto, using(crate::proofs::Choices::kind_known))]
pub(crate) fn only_choice(object: Object, members: &Map<String, Json>) -> Option<(&str, &Json)>
    ensures { MatchOption result
        (is_one_known object (chosen_of object (members_view members.now.entries)) ≡ false)
        (λ kind. (chosen_of object (members_view members.now.entries) ≡ (kind.0.now, view kind.1.now) ∷ []) × (is_unknown_of (member_place_of object kind.0.now) ≡ false)) }
{
    let Some((name, json)) = only_chosen(object, members) else {
        return None;
    };
    match object {
        // the alternatives of a value are the kinds that are known
        Object::Value => Some((name, json)),
        _ if member_place(object, name).is_unknown() => None,
        _ => Some((name, json)),
    }
}

/// The one member of a value: its kind, with its name and what stands under it.
#[derive(Clone, Copy)]
pub(crate) struct LoneScalar<'a> {
    pub leaf: Leaf,
    pub name: &'a str,
    pub json: &'a Json,
}

/// The scalar that a value is, where it has no other member. None for other objects, and where it is left out.
#[tactic(auto, using(crate::proofs::Lone::alone))]
pub(crate) fn lone_scalar(object: Object, members: &Map<String, Json>) -> Option<LoneScalar<'_>>
    ensures { IfSome result (λ scalar. IsLone object (members_view members.now.entries)
        scalar.leaf scalar.name.now (view scalar.json.now)) }
{
    let Object::Value = object else {
        return None;
    };
    if members.len() != 1 {
        return None;
    }
    let (key, json) = members.first_key_value()?;
    let name = key.as_str();
    let Place::Leaf(leaf) = member_place(Object::Value, name) else {
        return None;
    };
    if Place::Leaf(leaf).is_left_out(json) {
        return None;
    }
    Some(LoneScalar { leaf, name, json })
}

/// Whether the object must be an array among values, and isn't one.
fn lacks_array(object: Object, members: &Map<String, Json>) -> bool
    ensures { result ≡ lacks_array_of object (members_view members.now.entries) }
{
    match object {
        Object::ListOperand => only_name(Object::Value, members) != "arrayValue",
        _ => false,
    }
}

/// Whether the object must have exactly one of several members, or just an array, and hasn't.
pub(crate) fn lacks_choice(object: Object, members: &Map<String, Json>) -> bool
    ensures { result ≡ lacks_choice_of object (members_view members.now.entries) }
{
    if lacks_array(object, members) {
        return true;
    }
    if !chooses(object) {
        return false;
    }
    only_choice(object, members).is_none()
}

/// Whether a transform whose alternative has this name is one of an array.
fn is_of_array(name: &str) -> bool
    ensures { result ≡ is_of_array_of name.now }
{
    if name == "appendMissingElements" {
        return true;
    }
    name == "removeAllFromArray"
}

/// Whether the operator of a filter asks for a list of operands.
fn takes_list(members: &Map<String, Json>) -> bool
    ensures { result ≡ takes_list_of (members_view members.now.entries) }
{
    let Some(json) = given(members, "op") else {
        return false;
    };
    let Some(text) = json.as_str() else {
        return false;
    };
    is_list_operator(text)
}

/// What object it is by its alternative, or by its operator.
pub fn refined(object: Object, members: &Map<String, Json>) -> Object
    ensures { result ≡ refined_of object (members_view members.now.entries) }
{
    match object {
        Object::Write if only_name(object, members) == "delete" => Object::DeleteWrite,
        Object::Transform if is_of_array(only_name(object, members)) => Object::ArrayTransform,
        Object::FieldFilter if takes_list(members) => Object::ListFilter,
        Object::ListOperand => Object::Value,
        _ => object,
    }
}
