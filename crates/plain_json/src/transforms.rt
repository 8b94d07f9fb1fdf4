//! The transforms of updates.

ghost use Rattle.json.specs.Value.{value_view};
ghost use Rattle.std.specs.Prelude.{codes, Some, IfSome};
ghost use Rattle.json_model.specs.declared.place.Object.TheVariants as objects;
ghost use Rattle.json_model.specs.declared.place.Place.TheVariants as places;
ghost use Rattle.json_model.specs.declared.place.Series.TheVariants as serieses;
ghost use Rattle.json_model.specs.Faults.{max_nesting};
ghost use Rattle.json_model.specs.Forms.{SpellsEach};
ghost use Rattle.json_rpc.specs.Grammar.{SpellsTransform};
ghost use Rattle.json_rpc.specs.Storable.{AreAllStorable, IsStorableTransform};
ghost use Rattle.plain_json.specs.Built.{IfBuilt};
ghost use Rattle.plain_json.specs.Trees.{HoldsBoth, IsBuiltOf, StandsFor};

use crate::changes::plain_change;
use crate::masks::plain_path;
use crate::room::Tree;
use crate::tree::{Member, both_members};
use document_keys::NoMemory;
use json_model::Setting;
use mutations::{Transform, Transforms};
use std::alloc::Global;

/// The path of a transform, and its change under its name.
fn path_and_change<'t, 'a>(tree: &'t Tree<'a>) -> Option<(&'t Tree<'a>, Member<'t, 'a>)>
    ensures { IfSome result (λ both. HoldsBoth (value_view tree.now) (codes "fieldPath")
        both.1.name.now (value_view both.0.now) (value_view both.1.tree.now)) }
{
    let (one, other) = both_members(tree)?;
    if one.tree.is_null() {
        return None;
    }
    if other.tree.is_null() {
        return None;
    }
    if one.name == "fieldPath" {
        return Some((one.tree, other));
    }
    if other.name != "fieldPath" {
        return None;
    }
    Some((other.tree, one))
}

/// The transform that the tree spells.
fn plain_transform(
    alloc: Global,
    setting: &Setting<'_>,
    tree: &Tree<'_>,
) -> Result<Option<Transform>, NoMemory>
    ensures { IfBuilt result (λ transform. StandsFor (value_view tree.now)
        (IsBuiltOf setting.now max_nesting (places.Object objects.Transform) SpellsTransform
        IsStorableTransform transform)) }
{
    let Some((path, member)) = path_and_change(tree) else {
        return Ok(None);
    };
    let Some(path) = plain_path(alloc, path)? else {
        return Ok(None);
    };
    let names = path.len();
    let Some(change) = plain_change(alloc, setting, names, member.name, member.tree)? else {
        return Ok(None);
    };
    Ok(Some(Transform { path, change }))
}

/// The transforms that stand under `updateTransforms`.
pub(crate) fn plain_transforms(
    alloc: Global,
    setting: &Setting<'_>,
    tree: &Tree<'_>,
) -> Result<Option<Transforms>, NoMemory>
    ensures { IfBuilt result (λ transforms. StandsFor (value_view tree.now) (IsBuiltOf setting.now
        max_nesting (places.Series serieses.Transforms) (λ d. SpellsEach SpellsTransform (Some d))
        (AreAllStorable IsStorableTransform) transforms)) }
{
    let Tree::Array(items) = tree else {
        return Ok(None);
    };
    let mut transforms = Vec::with_capacity(alloc, items.len())?;
    for item in items {
        let Some(transform) = plain_transform(alloc, setting, item)? else {
            return Ok(None);
        };
        transforms.push(transform)?;
    }
    let _count = transforms.len();
    Ok(Some(Transforms::from_vec(transforms)))
}
