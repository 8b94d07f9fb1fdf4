//! The preconditions of updates.

ghost use Rattle.json.specs.Value.{value_view};
ghost use Rattle.json.specs.Json.{boolean};
ghost use Rattle.std.specs.Prelude.{◌≡◌, Some, IfSome};
ghost use Rattle.value_model.specs.Time.{IsMoment};
ghost use Rattle.json_model.specs.declared.place.Object.TheVariants as objects;
ghost use Rattle.json_model.specs.declared.place.Place.TheVariants as places;
ghost use Rattle.json_model.specs.Grammar.{SpellsTime};
ghost use Rattle.json_rpc.specs.Grammar.{SpellsCondition};
ghost use Rattle.json_rpc.specs.Storable.{IsStorableCondition};
ghost use Rattle.plain_json.specs.Trees.{IsBuiltAnywhere, StandsFor};

use crate::room::Tree;
use crate::tree::only_member;
use mutations::Precondition;
use value_model::Timestamp;

/// The time that the tree spells.
#[tactic(auto, using(crate::proofs::Asked::time))]
pub fn plain_time(tree: &Tree<'_>) -> Option<Timestamp>
    ensures is { IfSome result (λ at. StandsFor (value_view tree.now) (λ d. SpellsTime d at)) }
    ensures moment { IfSome result IsMoment }
{
    let Tree::String(text) = tree else {
        return None;
    };
    let at = Timestamp::read(text)?;
    Some(at)
}

/// The truth value that the tree is.
fn plain_boolean(tree: &Tree<'_>) -> Option<bool>
    ensures { IfSome result (λ is. value_view tree.now ≡ boolean is) }
{
    let Tree::Bool(is) = tree else {
        return None;
    };
    Some(*is)
}

/// The precondition that stands under `currentDocument`.
#[tactic(auto, using(crate::proofs::Asked::exists, crate::proofs::Asked::update_time))]
pub(crate) fn plain_condition(tree: &Tree<'_>) -> Option<Precondition>
    ensures { IfSome result (λ condition. StandsFor (value_view tree.now) (IsBuiltAnywhere
        (places.Object objects.Condition) (λ d. SpellsCondition (Some d)) IsStorableCondition
        condition)) }
{
    let only = only_member(tree)?;
    match only.name {
        "exists" => Some(Precondition::Exists(plain_boolean(only.tree)?)),
        "updateTime" => Some(Precondition::UpdateTime(plain_time(only.tree)?)),
        _ => None,
    }
}
