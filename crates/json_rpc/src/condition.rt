//! Preconditions.

ghost use Rattle.std.specs.Prelude.{◌≡◌, true, IfOk, IfSome, codes, option_map};
ghost use Rattle.serde_json.specs.Data.{boolean, string};
ghost use Rattle.serde_json.specs.View.{view};
ghost use Rattle.json_model.specs.Clean.{IsClean};
ghost use Rattle.json_model.specs.Places.{is_choice, member_place};
ghost use Rattle.json_model.specs.Trees.{one};
ghost use Rattle.json_model.specs.declared.place.Object.TheVariants as objects;
ghost use Rattle.json_model.specs.declared.place.Place.TheVariants as places;
ghost use Rattle.json_rpc.specs.Grammar.{SpellsCondition, SpellsConditionUnder};
ghost use Rattle.json_rpc.specs.Printed.{printed_condition};
ghost use Rattle.json_rpc.specs.Storable.{IsStorableCondition};

use document_keys::NoMemory;
use json_model::{Object, Setting, clean_boolean, clean_choice, clean_object, clean_time};
use mutations::Precondition;
use serde_json::{Value as Json, json};
use std::alloc::{AllocError, Global};

/// What stands under the name of a condition.
#[tactic(auto, unfolding(json_model::specs::Places::condition_rows))]
fn clean_condition_under(setting: &Setting<'_>, name: &str, json: &Json) -> Precondition
    requires choice { is_choice objects.Condition name.now ≡ true }
    requires clean { IsClean setting.now (member_place objects.Condition name.now) (view json.now) }
    ensures condition { SpellsConditionUnder name.now (view json.now) result }
    ensures storable { IsStorableCondition result }
{
    match name {
        "exists" => Precondition::Exists(clean_boolean(setting, json)),
        "updateTime" => Precondition::UpdateTime(clean_time(setting, json)),
        _ => unreachable!(),
    }
}

/// The precondition under `currentDocument`.
pub(crate) fn clean_condition(setting: &Setting<'_>, found: Option<&Json>) -> Precondition
    requires { IfSome found (λ json. IsClean setting.now (places.Object objects.Condition) (view json.now)) }
    ensures condition { SpellsCondition (option_map (λ json. view json.now) found.entry) result }
    ensures storable { IsStorableCondition result }
{
    let Some(json) = found else {
        return Precondition::Free;
    };
    let members = clean_object(setting, Object::Condition, json);
    let (name, inner) = clean_choice(setting, Object::Condition, members);
    clean_condition_under(setting, name, inner)
}

fn exists_json(alloc: Global, is: bool) -> Result<Json, AllocError>
    ensures { IfOk result (λ json. view json ≡ one (codes "exists") (boolean is)) }
{
    json!(in alloc; {"exists": is})
}

fn update_time_json(alloc: Global, time: &str) -> Result<Json, AllocError>
    ensures { IfOk result (λ json. view json ≡ one (codes "updateTime") (string time.now)) }
{
    json!(in alloc; {"updateTime": time})
}

/// What `currentDocument` holds; it is left out where nothing is asked.
pub(crate) fn print_condition(
    alloc: Global,
    condition: Precondition,
) -> Result<Option<Json>, NoMemory>
    ensures { IfOk result (λ found. option_map view found ≡ printed_condition condition) }
{
    match condition {
        Precondition::Free => Ok(None),
        Precondition::Exists(is) => Ok(Some(exists_json(alloc, is)?)),
        Precondition::UpdateTime(time) => {
            let text = time.print(alloc)?;
            Ok(Some(update_time_json(alloc, text.as_str())?))
        }
    }
}
