//! The masks of updates.

ghost use Rattle.json.specs.Value.{value_view};
ghost use Rattle.std.specs.Prelude.{Some};
ghost use Rattle.json_model.specs.declared.place.Object.TheVariants as objects;
ghost use Rattle.json_model.specs.declared.place.Place.TheVariants as places;
ghost use Rattle.json_model.specs.Forms.{SpellsEach};
ghost use Rattle.json_model.specs.Grammar.{SpellsPathTree};
ghost use Rattle.json_model.specs.Storable.{IsStorablePath};
ghost use Rattle.json_rpc.specs.Grammar.{SpellsMask};
ghost use Rattle.json_rpc.specs.Storable.{AreAllStorable};
ghost use Rattle.plain_json.specs.Built.{IfBuilt};
ghost use Rattle.plain_json.specs.Trees.{IsBuiltAnywhere, StandsFor};

use crate::room::Tree;
use crate::tree::only_under;
use document_keys::{FieldPath, NoMemory};
use json_model::{read_names, show_path};
use mutations::Mask;
use std::alloc::Global;

/// How many names a path may have.
const MAX_NAMES: u64 = 21;

/// The path that the tree spells.
#[tactic(auto, using(crate::proofs::Masked::path))]
pub(crate) fn plain_path(alloc: Global, tree: &Tree<'_>) -> Result<Option<FieldPath>, NoMemory>
    ensures path { IfBuilt result (λ path.
        StandsFor (value_view tree.now) (λ d. SpellsPathTree d path)) }
    ensures storable { IfBuilt result IsStorablePath }
{
    let Tree::String(text) = tree else {
        return Ok(None);
    };
    match read_names(alloc, text) {
        Ok(path) => {
            if path.len() > MAX_NAMES {
                return Ok(None);
            }
            show_path(&path);
            Ok(Some(path))
        }
        Err(fault) => {
            fault.unless_memory()?;
            Ok(None)
        }
    }
}

/// The paths of a list.
fn plain_paths(alloc: Global, tree: &Tree<'_>) -> Result<Option<Vec<FieldPath>>, NoMemory>
    ensures paths { IfBuilt result (λ paths.
        StandsFor (value_view tree.now) (λ d. SpellsEach SpellsPathTree (Some d) paths.items)) }
    ensures storable { IfBuilt result (λ paths. AreAllStorable IsStorablePath paths.items) }
{
    let Tree::Array(items) = tree else {
        return Ok(None);
    };
    let mut paths = Vec::with_capacity(alloc, items.len())?;
    for item in items {
        let Some(path) = plain_path(alloc, item)? else {
            return Ok(None);
        };
        paths.push(path)?;
    }
    let _count = paths.len();
    Ok(Some(paths))
}

/// The mask that stands under `updateMask`, whose list is given.
#[tactic(auto, using(crate::proofs::Masked::mask))]
pub(crate) fn plain_mask(alloc: Global, tree: &Tree<'_>) -> Result<Option<Mask>, NoMemory>
    ensures { IfBuilt result (λ mask. StandsFor (value_view tree.now) (IsBuiltAnywhere
        (places.Object objects.Mask) SpellsMask (AreAllStorable IsStorablePath) mask)) }
{
    let Some(list) = only_under(tree, "fieldPaths") else {
        return Ok(None);
    };
    let Some(paths) = plain_paths(alloc, list)? else {
        return Ok(None);
    };
    Ok(Some(Mask::from_vec(paths)))
}
