//! Masks.

ghost use Rattle.std.specs.Prelude.{◌≡◌, IfOk, IfSome, Some, option_map};
ghost use Rattle.serde_json.specs.View.{view, items_view};
ghost use Rattle.json_model.specs.Clean.{IsClean};
ghost use Rattle.json_model.specs.Forms.{SpellsEach, printed_each};
ghost use Rattle.json_model.specs.Grammar.{SpellsPathTree};
ghost use Rattle.json_model.specs.Storable.{IsStorablePath};
ghost use Rattle.json_model.specs.declared.place.Object.TheVariants as objects;
ghost use Rattle.json_model.specs.declared.place.Place.TheVariants as places;
ghost use Rattle.json_model.specs.declared.place.Series.TheVariants as serieses;
ghost use Rattle.json_rpc.specs.Grammar.{SpellsMask, SpellsMaskIn};
ghost use Rattle.json_rpc.specs.Printed.{path_tree, printed_mask};
ghost use Rattle.json_rpc.specs.Storable.{AreAllStorable};

use crate::lists::list_object;
use document_keys::{FieldPath, NoMemory};
use json_model::{
    Object, Series, Setting, clean_list, clean_member, clean_object, clean_path, text_tree,
};
use mutations::Mask;
use serde_json::Value as Json;
use std::alloc::Global;

/// The paths of a list.
#[tactic(auto, using(json_model::proofs::Forms::all_spelled))]
fn clean_paths(
    alloc: Global,
    setting: &Setting<'_>,
    json: &Json,
) -> Result<Vec<FieldPath>, NoMemory>
    requires { IsClean setting.now (places.Series serieses.Paths) (view json.now) }
    ensures paths { IfOk result (λ paths. SpellsEach SpellsPathTree (Some (view json.now)) paths.items) }
    ensures storable { IfOk result (λ paths. AreAllStorable IsStorablePath paths.items) }
{
    let items = clean_list(setting, Series::Paths, json);
    let mut paths = Vec::with_capacity(alloc, items.len())?;
    for item in items {
        paths.push(clean_path(alloc, setting, item)?)?;
    }
    let _count = paths.len();
    Ok(paths)
}

/// What `updateMask` holds.
#[tactic(auto, unfolding(json_model::specs::Places::mask_rows))]
fn clean_paths_in(alloc: Global, setting: &Setting<'_>, json: &Json) -> Result<Mask, NoMemory>
    requires { IsClean setting.now (places.Object objects.Mask) (view json.now) }
    ensures mask { IfOk result (λ mask. SpellsMask (view json.now) mask) }
    ensures storable { IfOk result (λ mask. AreAllStorable IsStorablePath mask) }
{
    let members = clean_object(setting, Object::Mask, json);
    let Some(list) = clean_member(setting, Object::Mask, members, "fieldPaths") else {
        return Ok(Mask::from_vec(Vec::new(alloc)));
    };
    let paths = clean_paths(alloc, setting, list)?;
    Ok(Mask::from_vec(paths))
}

/// The mask under `updateMask`; where it is left out there is none.
pub(crate) fn clean_mask(
    alloc: Global,
    setting: &Setting<'_>,
    found: Option<&Json>,
) -> Result<Option<Mask>, NoMemory>
    requires { IfSome found (λ json. IsClean setting.now (places.Object objects.Mask) (view json.now)) }
    ensures mask { IfOk result (λ mask. SpellsMaskIn (option_map (λ json. view json.now) found.entry) mask) }
    ensures storable { IfOk result (λ mask. IfSome mask (AreAllStorable IsStorablePath)) }
{
    match found {
        Some(json) => Ok(Some(clean_paths_in(alloc, setting, json)?)),
        None => Ok(None),
    }
}

/// A path.
fn print_path(alloc: Global, path: &FieldPath) -> Result<Json, NoMemory>
    ensures { IfOk result (λ json. view json ≡ path_tree path.now) }
{
    let text = path.print(alloc)?;
    text_tree(alloc, text.as_str())
}

/// The trees of paths.
#[tactic(auto, using(json_model::proofs::PrintedLists::printed_more))]
fn print_paths(alloc: Global, paths: &[FieldPath]) -> Result<Vec<Json>, NoMemory>
    ensures { IfOk result (λ trees. items_view trees.items ≡ printed_each path_tree paths.now) }
{
    let mut trees = Vec::new(alloc);
    for path in paths {
        trees.push(print_path(alloc, path)?)?;
    }
    Ok(trees)
}

/// What `updateMask` holds.
fn print_paths_in(alloc: Global, mask: &Mask) -> Result<Json, NoMemory>
    ensures { IfOk result (λ json. view json ≡ printed_mask mask.now) }
{
    let trees = print_paths(alloc, mask.as_slice())?;
    list_object(alloc, "fieldPaths", trees)
}

/// What `updateMask` holds; it is left out where there is no mask.
pub(crate) fn print_mask(alloc: Global, mask: &Option<Mask>) -> Result<Option<Json>, NoMemory>
    ensures { IfOk result (λ found. option_map view found ≡ option_map printed_mask mask.now) }
{
    match mask {
        Some(mask) => Ok(Some(print_paths_in(alloc, mask)?)),
        None => Ok(None),
    }
}
