//! Objects that are put together member by member.

ghost use Rattle.std.specs.Prelude.{◌≡◌, OnOk, IfOk, option_map};
ghost use Rattle.serde_json.specs.Data.{string, put};
ghost use Rattle.serde_json.specs.View.{view, items_view, members_view};
ghost use Rattle.json_model.specs.Forms.{unless_empty as unless_empty_of};
ghost use Rattle.json_model.specs.Objects.{with_given};

use document_keys::NoMemory;
use serde_json::{Map, Value as Json};
use std::alloc::Global;

/// Puts the member into the object, in its place in the order of names.
///
/// # Errors
/// `NoMemory`
pub fn put_member(
    alloc: Global,
    members: &mut Map<String, Json>,
    name: &str,
    json: Json,
) -> Result<(), NoMemory>
    ensures { OnOk result (members_view members.new.entries
        ≡ put name.now (view json) (members_view members.old.entries)) }
{
    let name = String::from_str(alloc, name)?;
    members.insert(name, json)?;
    Ok(())
}

/// Puts the member into the object, unless it is left out.
///
/// # Errors
/// `NoMemory`
pub fn put_given(
    alloc: Global,
    members: &mut Map<String, Json>,
    name: &str,
    json: Option<Json>,
) -> Result<(), NoMemory>
    ensures { OnOk result (members_view members.new.entries
        ≡ with_given name.now (option_map view json) (members_view members.old.entries)) }
{
    match json {
        Some(json) => put_member(alloc, members, name, json),
        None => Ok(()),
    }
}

/// A text as a tree.
///
/// # Errors
/// `NoMemory`
pub fn text_tree(alloc: Global, text: &str) -> Result<Json, NoMemory>
    ensures { IfOk result (λ json. view json ≡ string text.now) }
{
    Ok(Json::String(String::from_str(alloc, text)?))
}

/// A list as a tree, unless it is empty.
#[tactic(auto, using(crate::proofs::Shown::list_shown))]
pub fn unless_empty(items: Vec<Json>) -> Option<Json>
    ensures { option_map view result ≡ unless_empty_of (items_view items.items) }
{
    if items.is_empty() {
        return None;
    }
    Some(Json::Array(items))
}
