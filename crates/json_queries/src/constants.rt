//! Texts that stand as constants.

ghost use Rattle.std.specs.Prelude.{◌≡◌, IfSome, option_map};
ghost use Rattle.serde_json.specs.Data.{string};
ghost use Rattle.serde_json.specs.View.{view};
ghost use Rattle.json_model.specs.Clean.{IsClean};
ghost use Rattle.json_model.specs.declared.place.Constants.TheVariants as constants;
ghost use Rattle.json_model.specs.declared.place.Leaf.TheVariants as leaves;
ghost use Rattle.json_model.specs.declared.place.Place.TheVariants as places;
ghost use Rattle.json_queries.specs.Constants.{direction_text as direction_text_of, junction_text as junction_text_of, operator_text as operator_text_of, test_text as test_text_of};
ghost use Rattle.json_queries.specs.Grammar.{SpellsDirection, SpellsFlag};

use json_model::{Constants, Setting, clean_boolean, clean_constant};
use queries::{Junction, Operator, UnaryOp};
use serde_json::Value as Json;

/// How filters are joined.
#[tactic(auto, unfolding(json_model::specs::Constants::is_junction))]
pub(crate) fn clean_junction(setting: &Setting<'_>, json: &Json) -> Junction
    requires { IsClean setting.now (places.Leaf (leaves.Constant constants.Junction)) (view json.now) }
    ensures { view json.now ≡ string (junction_text_of result) }
{
    match clean_constant(setting, Constants::Junction, json) {
        "AND" => Junction::And,
        "OR" => Junction::Or,
        _ => unreachable!(),
    }
}

/// How a field stands to its operand.
#[tactic(auto, unfolding(json_model::specs::Constants::is_operator))]
pub(crate) fn clean_operator(setting: &Setting<'_>, json: &Json) -> Operator
    requires { IsClean setting.now (places.Leaf (leaves.Constant constants.Operator)) (view json.now) }
    ensures { view json.now ≡ string (operator_text_of result) }
{
    match clean_constant(setting, Constants::Operator, json) {
        "ARRAY_CONTAINS" => Operator::ArrayContains,
        "ARRAY_CONTAINS_ANY" => Operator::ArrayContainsAny,
        "EQUAL" => Operator::Equal,
        "GREATER_THAN" => Operator::GreaterThan,
        "GREATER_THAN_OR_EQUAL" => Operator::GreaterThanOrEqual,
        "IN" => Operator::IsIn,
        "LESS_THAN" => Operator::LessThan,
        "LESS_THAN_OR_EQUAL" => Operator::LessThanOrEqual,
        "NOT_EQUAL" => Operator::NotEqual,
        "NOT_IN" => Operator::IsNotIn,
        _ => unreachable!(),
    }
}

/// A test of a field.
#[tactic(auto, unfolding(json_model::specs::Constants::is_test))]
pub(crate) fn clean_test(setting: &Setting<'_>, json: &Json) -> UnaryOp
    requires { IsClean setting.now (places.Leaf (leaves.Constant constants.Test)) (view json.now) }
    ensures { view json.now ≡ string (test_text_of result) }
{
    match clean_constant(setting, Constants::Test, json) {
        "IS_NOT_NULL" => UnaryOp::IsNotNull,
        "IS_NULL" => UnaryOp::IsNull,
        _ => unreachable!(),
    }
}

/// Whether an order descends; where its direction is left out it ascends.
#[tactic(auto, unfolding(json_model::specs::Constants::is_direction))]
pub(crate) fn clean_direction(setting: &Setting<'_>, found: Option<&Json>) -> bool
    requires { IfSome found (λ json. IsClean setting.now
        (places.Leaf (leaves.Constant constants.Direction)) (view json.now)) }
    ensures { SpellsDirection (option_map (λ json. view json.now) found.entry) result }
{
    let Some(json) = found else {
        return false;
    };
    match clean_constant(setting, Constants::Direction, json) {
        "ASCENDING" => false,
        "DESCENDING" => true,
        "DIRECTION_UNSPECIFIED" => false,
        _ => unreachable!(),
    }
}

/// A boolean, which is false where it is left out.
pub(crate) fn clean_flag(setting: &Setting<'_>, found: Option<&Json>) -> bool
    requires { IfSome found (λ json. IsClean setting.now (places.Leaf leaves.Boolean) (view json.now)) }
    ensures { SpellsFlag (option_map (λ json. view json.now) found.entry) result }
{
    match found {
        Some(json) => clean_boolean(setting, json),
        None => false,
    }
}

/// How a junction is printed.
pub(crate) fn junction_text(op: Junction) -> &'static str
    ensures { result.now ≡ junction_text_of op }
{
    match op {
        Junction::And => "AND",
        Junction::Or => "OR",
    }
}

/// How an operator is printed.
pub(crate) fn operator_text(op: Operator) -> &'static str
    ensures { result.now ≡ operator_text_of op }
{
    match op {
        Operator::Equal => "EQUAL",
        Operator::LessThan => "LESS_THAN",
        Operator::LessThanOrEqual => "LESS_THAN_OR_EQUAL",
        Operator::GreaterThan => "GREATER_THAN",
        Operator::GreaterThanOrEqual => "GREATER_THAN_OR_EQUAL",
        Operator::NotEqual => "NOT_EQUAL",
        Operator::IsIn => "IN",
        Operator::IsNotIn => "NOT_IN",
        Operator::ArrayContains => "ARRAY_CONTAINS",
        Operator::ArrayContainsAny => "ARRAY_CONTAINS_ANY",
    }
}

/// How a test is printed.
pub(crate) fn test_text(op: UnaryOp) -> &'static str
    ensures { result.now ≡ test_text_of op }
{
    match op {
        UnaryOp::IsNull => "IS_NULL",
        UnaryOp::IsNotNull => "IS_NOT_NULL",
    }
}

/// How the direction of an order is printed.
pub(crate) fn direction_text(descending: bool) -> &'static str
    ensures { result.now ≡ direction_text_of descending }
{
    if descending {
        "DESCENDING"
    } else {
        "ASCENDING"
    }
}
