//! Lists as trees.

ghost use Rattle.std.specs.Prelude.{◌≡◌, IfOk, [], ◌∷◌};
ghost use Rattle.serde_json.specs.Data.{object};
ghost use Rattle.serde_json.specs.View.{view, items_view};
ghost use Rattle.json_model.specs.Forms.{present, unless_empty as unless_empty_of};

use document_keys::NoMemory;
use json_model::{put_given, unless_empty};
use serde_json::{Map, Value as Json};
use std::alloc::Global;

/// An object of a list, which is left out where it is empty.
pub(crate) fn list_object(alloc: Global, name: &str, trees: Vec<Json>) -> Result<Json, NoMemory>
    ensures { IfOk result (λ json. view json
        ≡ object (present ((name.now, unless_empty_of (items_view trees.items)) ∷ []))) }
{
    let mut members = Map::new(alloc);
    put_given(alloc, &mut members, name, unless_empty(trees))?;
    Ok(Json::Object(members))
}
