//! The members of a write that is an update: the document, and what stands beside it.

ghost use Rattle.json.specs.Value.{value_view};
ghost use Rattle.std.specs.Prelude.{codes, IsTrue, IfSome};
ghost use Rattle.json_model.specs.Origin.{Origin};
ghost use Rattle.plain_json.specs.Built.{IfBuilt};
ghost use Rattle.plain_json.specs.Parts.{IsPart, Puts};
ghost use Rattle.plain_json.specs.Trees.{StandsFor};

use crate::conditions::plain_condition;
use crate::documents::{Updated, plain_document};
use crate::masks::plain_mask;
use crate::room::Tree;
use crate::transforms::plain_transforms;
use document_keys::NoMemory;
use json_model::Setting;
use mutations::{Mask, Precondition, Transforms};
use std::alloc::Global;

/// What a member of an update holds.
#[derive(Drop)]
pub(crate) enum Part {
    Update(Updated),
    Mask(Mask),
    Transforms(Transforms),
    Condition(Precondition),
}

/// The document that stands under `update`.
fn plain_update(
    alloc: Global,
    setting: &Setting<'_>,
    tree: &Tree<'_>,
) -> Result<Option<Part>, NoMemory>
    ensures { IfBuilt result (λ part.
        StandsFor (value_view tree.now) (IsPart setting.now (codes "update") part)) }
{
    let Some(update) = plain_document(alloc, setting, tree)? else {
        return Ok(None);
    };
    Ok(Some(Part::Update(update)))
}

/// The mask that stands under `updateMask`.
fn mask_part(alloc: Global, tree: &Tree<'_>) -> Result<Option<Part>, NoMemory>
    ensures { (o : Origin) → IfBuilt result (λ part.
        StandsFor (value_view tree.now) (IsPart o (codes "updateMask") part)) }
{
    let Some(mask) = plain_mask(alloc, tree)? else {
        return Ok(None);
    };
    Ok(Some(Part::Mask(mask)))
}

/// The transforms that stand under `updateTransforms`.
fn transforms_part(
    alloc: Global,
    setting: &Setting<'_>,
    tree: &Tree<'_>,
) -> Result<Option<Part>, NoMemory>
    ensures { IfBuilt result (λ part.
        StandsFor (value_view tree.now) (IsPart setting.now (codes "updateTransforms") part)) }
{
    let Some(transforms) = plain_transforms(alloc, setting, tree)? else {
        return Ok(None);
    };
    Ok(Some(Part::Transforms(transforms)))
}

/// The precondition that stands under `currentDocument`.
fn condition_part(tree: &Tree<'_>) -> Option<Part>
    ensures { (o : Origin) → IfSome result (λ part.
        StandsFor (value_view tree.now) (IsPart o (codes "currentDocument") part)) }
{
    let condition = plain_condition(tree)?;
    Some(Part::Condition(condition))
}

/// What stands under the name in a write.
pub(crate) fn plain_part(
    alloc: Global,
    setting: &Setting<'_>,
    name: &str,
    tree: &Tree<'_>,
) -> Result<Option<Part>, NoMemory>
    ensures { IfBuilt result (λ part.
        StandsFor (value_view tree.now) (IsPart setting.now name.now part)) }
{
    match name {
        "update" => plain_update(alloc, setting, tree),
        "updateMask" => mask_part(alloc, tree),
        "updateTransforms" => transforms_part(alloc, setting, tree),
        "currentDocument" => Ok(condition_part(tree)),
        _ => Ok(None),
    }
}

/// The parts of an update that are there, each once.
#[derive(Drop)]
pub(crate) struct Parts {
    pub(crate) update: Option<Updated>,
    pub(crate) mask: Option<Mask>,
    pub(crate) transforms: Option<Transforms>,
    pub(crate) condition: Precondition,
}

impl Parts {
    /// Puts the part beside the others, where there is none of its kind.
    pub(crate) fn put(&mut self, part: Part) -> bool
        ensures { IsTrue result → Puts part self.old self.new }
    {
        match part {
            Part::Update(update) => {
                if self.update.is_some() {
                    return false;
                }
                self.update = Some(update);
            }
            Part::Mask(mask) => {
                if self.mask.is_some() {
                    return false;
                }
                self.mask = Some(mask);
            }
            Part::Transforms(transforms) => {
                if self.transforms.is_some() {
                    return false;
                }
                self.transforms = Some(transforms);
            }
            Part::Condition(condition) => {
                let Precondition::Free = self.condition else {
                    return false;
                };
                self.condition = condition;
            }
        }
        true
    }
}
