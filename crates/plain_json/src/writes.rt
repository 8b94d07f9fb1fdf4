//! Writes, and the lists of them.

ghost use Rattle.json.specs.Value.{value_view};
ghost use Rattle.std.specs.Prelude.{◌≡◌, Some};
ghost use Rattle.std.specs.List.{All};
ghost use Rattle.json_model.specs.declared.place.Object.TheVariants as objects;
ghost use Rattle.json_model.specs.declared.place.Place.TheVariants as places;
ghost use Rattle.json_model.specs.declared.place.Series.TheVariants as serieses;
ghost use Rattle.json_model.specs.Faults.{max_nesting};
ghost use Rattle.json_model.specs.Forms.{SpellsEach};
ghost use Rattle.json_rpc.specs.Grammar.{SpellsWrite};
ghost use Rattle.json_rpc.specs.Storable.{IsStorableWrite};
ghost use Rattle.plain_json.specs.Built.{IfBuilt};
ghost use Rattle.plain_json.specs.Parts.{HasParts, transforms_of};
ghost use Rattle.plain_json.specs.Trees.{IsBuiltOf, StandsFor};

use crate::deletes::plain_delete;
use crate::documents::Updated;
use crate::parts::{Parts, plain_part};
use crate::room::Tree;
use document_keys::NoMemory;
use json_model::Setting;
use mutations::{Precondition, Transforms, Write};
use std::alloc::Global;

/// How many writes are built in one pass: as many as a batch may have. Room for them is taken before they are looked at.
const MOST_WRITES: usize = 500;

/// The parts of a write, each under its name.
fn plain_parts(
    alloc: Global,
    setting: &Setting<'_>,
    tree: &Tree<'_>,
) -> Result<Option<Parts>, NoMemory>
    ensures { IfBuilt result (λ parts. StandsFor (value_view tree.now) (HasParts setting.now parts)) }
{
    let Tree::Object(members) = tree else {
        return Ok(None);
    };
    let mut parts = Parts {
        update: None,
        mask: None,
        transforms: None,
        condition: Precondition::Free,
    };
    for member in members {
        let Some(part) = plain_part(alloc, setting, member.0, &member.1)? else {
            return Ok(None);
        };
        if !parts.put(part) {
            return Ok(None);
        }
    }
    Ok(Some(parts))
}

/// The transforms that are there.
fn transforms_or_none(alloc: Global, transforms: Option<Transforms>) -> Transforms
    ensures { result ≡ transforms_of transforms }
{
    match transforms {
        Some(transforms) => transforms,
        None => Transforms::from_vec(Vec::new(alloc)),
    }
}

/// The write that an update spells.
fn update_write(
    alloc: Global,
    setting: &Setting<'_>,
    tree: &Tree<'_>,
) -> Result<Option<Write>, NoMemory>
    ensures { IfBuilt result (λ write. StandsFor (value_view tree.now)
        (IsBuiltOf setting.now max_nesting (places.Object objects.Write)
        (SpellsWrite setting.now.root) IsStorableWrite write)) }
{
    let Some(parts) = plain_parts(alloc, setting, tree)? else {
        return Ok(None);
    };
    let Parts {
        update,
        mask,
        transforms,
        condition,
    } = parts;
    let Some(Updated { key, fields }) = update else {
        return Ok(None);
    };
    Ok(Some(Write::Update {
        key,
        fields,
        mask,
        transforms: transforms_or_none(alloc, transforms),
        condition,
    }))
}

/// The write that the tree spells.
fn plain_write(
    alloc: Global,
    setting: &Setting<'_>,
    tree: &Tree<'_>,
) -> Result<Option<Write>, NoMemory>
    ensures { IfBuilt result (λ write. StandsFor (value_view tree.now)
        (IsBuiltOf setting.now max_nesting (places.Object objects.Write)
        (SpellsWrite setting.now.root) IsStorableWrite write)) }
{
    let Some(write) = plain_delete(alloc, setting, tree)? else {
        return update_write(alloc, setting, tree);
    };
    Ok(Some(write))
}

/// The writes that a list of at most 500 spells, where each is a delete that nothing but a precondition stands beside, or an
/// update of a document that has just its name and fields of the form of `plain_fields`, and nothing stands beside it but a mask,
/// whose list is given, transforms, and a precondition. Each transform has just its path and its change, an operand is a whole
/// number in a text, and the list of elements is given. Then the list has no fault. Else none, which says nothing of the list.
///
/// # Errors
/// `NoMemory`
pub fn plain_writes(
    alloc: Global,
    setting: &Setting<'_>,
    tree: &Tree<'_>,
) -> Result<Option<Vec<Write>>, NoMemory>
    ensures { IfBuilt result (λ writes. StandsFor (value_view tree.now)
        (IsBuiltOf setting.now max_nesting (places.Series serieses.Writes)
        (λ d. SpellsEach (SpellsWrite setting.now.root) (Some d)) (All IsStorableWrite)
        writes.items)) }
{
    let Tree::Array(items) = tree else {
        return Ok(None);
    };
    if items.len() > MOST_WRITES {
        return Ok(None);
    }
    let mut writes = Vec::with_capacity(alloc, items.len())?;
    for item in items {
        let Some(write) = plain_write(alloc, setting, item)? else {
            return Ok(None);
        };
        writes.push(write)?;
    }
    Ok(Some(writes))
}
