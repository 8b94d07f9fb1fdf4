//! What a transform does with the field at its path.

ghost use Rattle.json.specs.Value.{value_view};
ghost use Rattle.std.specs.Prelude.{◌≤◌, ◌-◌, ℕ, codes, IfSome, FitsSigned};
ghost use Rattle.std.specs.Int.{w64};
ghost use Rattle.value_model.specs.Data.{items_of};
ghost use Rattle.value_model.specs.Storable.{AreStorableItems, IsCountable};
ghost use Rattle.json_model.specs.declared.place.Object.TheVariants as objects;
ghost use Rattle.json_model.specs.declared.place.Place.TheVariants as places;
ghost use Rattle.json_model.specs.Faults.{max_nesting};
ghost use Rattle.json_model.specs.Origin.{Origin};
ghost use Rattle.json_rpc.specs.Grammar.{SpellsElements, SpellsOperand};
ghost use Rattle.plain_json.specs.Built.{IfBuilt};
ghost use Rattle.plain_json.specs.Changes.{IsChange};
ghost use Rattle.plain_json.specs.Trees.{IsBuiltAnywhere, IsBuiltOf, StandsFor};

use crate::room::Tree;
use crate::tree::only_under;
use crate::values::plain_values;
use document_keys::NoMemory;
use json_model::{MAX_NESTING, Setting, read_integer};
use mutations::{Change, Values};
use std::alloc::Global;

/// The whole number of an operand, in a text.
fn plain_operand(tree: &Tree<'_>) -> Option<i64>
    ensures { IfSome result (λ number. StandsFor (value_view tree.now) (IsBuiltAnywhere
        (places.Object objects.Operand) SpellsOperand (FitsSigned w64) number)) }
{
    let Tree::String(text) = only_under(tree, "integerValue")? else {
        return None;
    };
    let Some(number) = read_integer(text) else {
        return None;
    };
    Some(number)
}

/// The arithmetic change of that name.
#[tactic(auto, using(crate::proofs::Changed::increment, crate::proofs::Changed::maximum, crate::proofs::Changed::minimum,))]
fn arithmetic_change(name: &str, tree: &Tree<'_>) -> Option<Change>
    ensures { (o : Origin) (names : ℕ) → IfSome result (λ change.
        StandsFor (value_view tree.now) (IsChange o names name.now change)) }
{
    let number = plain_operand(tree)?;
    match name {
        "increment" => Some(Change::Increment(number)),
        "maximum" => Some(Change::Maximum(number)),
        "minimum" => Some(Change::Minimum(number)),
        _ => None,
    }
}

/// The change to the time of the commit.
fn time_change(tree: &Tree<'_>) -> Option<Change>
    ensures { (o : Origin) (names : ℕ) → IfSome result (λ change. StandsFor (value_view tree.now)
        (IsChange o names (codes "setToServerValue") change)) }
{
    let Tree::String(text) = tree else {
        return None;
    };
    if *text != "REQUEST_TIME" {
        return None;
    }
    Some(Change::ServerTime)
}

/// The elements of a change of an array, whose list is given, below a path of so many names.
#[tactic(auto, using(crate::proofs::Changed::elements))]
fn plain_elements(
    alloc: Global,
    setting: &Setting<'_>,
    names: u64,
    tree: &Tree<'_>,
) -> Result<Option<Values>, NoMemory>
    ensures room { IfBuilt result (λ values. names ≤ max_nesting) }
    ensures elements { IfBuilt result (λ values. StandsFor (value_view tree.now)
        (IsBuiltOf setting.now (max_nesting - names) (places.Object objects.Elements) SpellsElements
        (λ those. AreStorableItems (items_of those) × IsCountable those) values)) }
{
    let Some(list) = only_under(tree, "values") else {
        return Ok(None);
    };
    if names > MAX_NESTING {
        return Ok(None);
    }
    let Some(values) = plain_values(alloc, setting, MAX_NESTING - names, list)? else {
        return Ok(None);
    };
    let _count = values.len();
    Ok(Some(Values::from_vec(values)))
}

/// The change that stands under the name, below a path of so many names.
pub(crate) fn plain_change(
    alloc: Global,
    setting: &Setting<'_>,
    names: u64,
    name: &str,
    tree: &Tree<'_>,
) -> Result<Option<Change>, NoMemory>
    ensures { IfBuilt result (λ change.
        StandsFor (value_view tree.now) (IsChange setting.now names name.now change)) }
{
    match name {
        "setToServerValue" => Ok(time_change(tree)),
        "appendMissingElements" => {
            let Some(values) = plain_elements(alloc, setting, names, tree)? else {
                return Ok(None);
            };
            Ok(Some(Change::Append(values)))
        }
        "removeAllFromArray" => {
            let Some(values) = plain_elements(alloc, setting, names, tree)? else {
                return Ok(None);
            };
            Ok(Some(Change::RemoveAll(values)))
        }
        _ => Ok(arithmetic_change(name, tree)),
    }
}
