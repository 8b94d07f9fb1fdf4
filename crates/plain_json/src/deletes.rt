//! Deletes, and the preconditions beside them.

ghost use Rattle.json.specs.Value.{value_view};
ghost use Rattle.json_model.specs.declared.place.Object.TheVariants as objects;
ghost use Rattle.json_model.specs.declared.place.Place.TheVariants as places;
ghost use Rattle.json_model.specs.Faults.{max_nesting};
ghost use Rattle.json_rpc.specs.Grammar.{SpellsWrite};
ghost use Rattle.json_rpc.specs.Storable.{IsStorableWrite};
ghost use Rattle.plain_json.specs.Built.{IfBuilt};
ghost use Rattle.plain_json.specs.Trees.{IsBuiltOf, StandsFor};

use crate::conditions::plain_condition;
use crate::documents::plain_key;
use crate::room::Tree;
use crate::tree::{both_under, only_under};
use document_keys::NoMemory;
use json_model::Setting;
use mutations::{Precondition, Write};
use std::alloc::Global;

/// The delete that nothing stands beside.
fn free_delete(
    alloc: Global,
    setting: &Setting<'_>,
    tree: &Tree<'_>,
) -> Result<Option<Write>, NoMemory>
    ensures { IfBuilt result (λ write. StandsFor (value_view tree.now)
        (IsBuiltOf setting.now max_nesting (places.Object objects.Write)
        (SpellsWrite setting.now.root) IsStorableWrite write)) }
{
    let Some(name) = only_under(tree, "delete") else {
        return Ok(None);
    };
    let Some(key) = plain_key(alloc, setting, name)? else {
        return Ok(None);
    };
    Ok(Some(Write::Delete {
        key,
        condition: Precondition::Free,
    }))
}

/// The delete that a precondition stands beside.
fn asked_delete(
    alloc: Global,
    setting: &Setting<'_>,
    tree: &Tree<'_>,
) -> Result<Option<Write>, NoMemory>
    ensures { IfBuilt result (λ write. StandsFor (value_view tree.now)
        (IsBuiltOf setting.now max_nesting (places.Object objects.Write)
        (SpellsWrite setting.now.root) IsStorableWrite write)) }
{
    let Some((asked, name)) = both_under(tree, "currentDocument", "delete") else {
        return Ok(None);
    };
    let Some(condition) = plain_condition(asked) else {
        return Ok(None);
    };
    let Some(key) = plain_key(alloc, setting, name)? else {
        return Ok(None);
    };
    Ok(Some(Write::Delete { key, condition }))
}

/// The write that a delete spells.
pub(crate) fn plain_delete(
    alloc: Global,
    setting: &Setting<'_>,
    tree: &Tree<'_>,
) -> Result<Option<Write>, NoMemory>
    ensures { IfBuilt result (λ write. StandsFor (value_view tree.now)
        (IsBuiltOf setting.now max_nesting (places.Object objects.Write)
        (SpellsWrite setting.now.root) IsStorableWrite write)) }
{
    let Some(write) = free_delete(alloc, setting, tree)? else {
        return asked_delete(alloc, setting, tree);
    };
    Ok(Some(write))
}
