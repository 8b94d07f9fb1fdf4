//! Fields.

ghost use Rattle.std.specs.Prelude.{◌≡◌, IfOk, codes};
ghost use Rattle.serde_json.specs.Data.{string};
ghost use Rattle.serde_json.specs.View.{view};
ghost use Rattle.json_model.specs.Clean.{IsClean};
ghost use Rattle.json_model.specs.declared.place.Object.TheVariants as objects;
ghost use Rattle.json_model.specs.declared.place.Place.TheVariants as places;
ghost use Rattle.json_model.specs.Storable.{IsStorableQueryPath};
ghost use Rattle.json_model.specs.Trees.{one};
ghost use Rattle.json_queries.specs.Grammar.{SpellsField};
ghost use Rattle.json_queries.specs.Printed.{printed_field};

use document_keys::{FieldPath, NoMemory};
use json_model::{Object, Setting, clean_member, clean_object, clean_query_path};
use serde_json::{Value as Json, json};
use std::alloc::{AllocError, Global};

/// The path under `fieldPath`.
pub(crate) fn clean_field(
    alloc: Global,
    setting: &Setting<'_>,
    json: &Json,
) -> Result<FieldPath, NoMemory>
    requires { IsClean setting.now (places.Object objects.Field) (view json.now) }
    ensures path { IfOk result (λ path. SpellsField (view json.now) path) }
    ensures storable { IfOk result IsStorableQueryPath }
{
    let members = clean_object(setting, Object::Field, json);
    match clean_member(setting, Object::Field, members, "fieldPath") {
        Some(path) => clean_query_path(alloc, setting, path),
        None => unreachable!(),
    }
}

fn field_json(alloc: Global, path: &str) -> Result<Json, AllocError>
    ensures { IfOk result (λ json. view json ≡ one (codes "fieldPath") (string path.now)) }
{
    json!(in alloc; {"fieldPath": path})
}

/// A field by its path.
pub(crate) fn print_field(alloc: Global, path: &FieldPath) -> Result<Json, NoMemory>
    ensures { IfOk result (λ json. view json ≡ printed_field path.now) }
{
    let text = path.print(alloc)?;
    Ok(field_json(alloc, text.as_str())?)
}
