//! Texts that stand as constants.

ghost use Rattle.std.specs.Prelude.{◌≡◌};
ghost use Rattle.json_model.specs.Constants as constants;

use crate::place::Constants;

/// Whether filters are joined by it.
#[tactic(auto, unfolding(crate::specs::Constants::is_junction))]
fn is_junction(text: &str) -> bool
    ensures { result ≡ constants.is_junction text.now }
{
    match text {
        "AND" => true,
        "OR" => true,
        _ => false,
    }
}

/// Whether a field may stand so to an operand.
#[tactic(auto, unfolding(crate::specs::Constants::is_operator))]
fn is_operator(text: &str) -> bool
    ensures { result ≡ constants.is_operator text.now }
{
    match text {
        "ARRAY_CONTAINS" => true,
        "ARRAY_CONTAINS_ANY" => true,
        "EQUAL" => true,
        "GREATER_THAN" => true,
        "GREATER_THAN_OR_EQUAL" => true,
        "IN" => true,
        "LESS_THAN" => true,
        "LESS_THAN_OR_EQUAL" => true,
        "NOT_EQUAL" => true,
        "NOT_IN" => true,
        _ => false,
    }
}

/// Whether it is a test of a field.
#[tactic(auto, unfolding(crate::specs::Constants::is_test))]
fn is_test(text: &str) -> bool
    ensures { result ≡ constants.is_test text.now }
{
    match text {
        "IS_NOT_NULL" => true,
        "IS_NULL" => true,
        _ => false,
    }
}

/// Whether it is the direction of an order.
#[tactic(auto, unfolding(crate::specs::Constants::is_direction))]
fn is_direction(text: &str) -> bool
    ensures { result ≡ constants.is_direction text.now }
{
    match text {
        "ASCENDING" => true,
        "DESCENDING" => true,
        "DIRECTION_UNSPECIFIED" => true,
        _ => false,
    }
}

/// Whether it says what became of targets.
#[tactic(auto, unfolding(crate::specs::Constants::is_change_type))]
fn is_change_type(text: &str) -> bool
    ensures { result ≡ constants.is_change_type text.now }
{
    match text {
        "ADD" => true,
        "CURRENT" => true,
        "NO_CHANGE" => true,
        "REMOVE" => true,
        "RESET" => true,
        _ => false,
    }
}

/// Whether it is the name of a stream of the backend.
#[tactic(auto, unfolding(crate::specs::Constants::is_stream_name))]
fn is_stream_name(text: &str) -> bool
    ensures { result ≡ constants.is_stream_name text.now }
{
    match text {
        "watch" => true,
        "write" => true,
        _ => false,
    }
}

/// Whether it is the name of a timer.
#[tactic(auto, unfolding(crate::specs::Constants::is_timer_name))]
fn is_timer_name(text: &str) -> bool
    ensures { result ≡ constants.is_timer_name text.now }
{
    text == "online"
}

/// Whether it is a test of a field that isn't supported.
#[tactic(auto, unfolding(crate::specs::Constants::is_untaken_test))]
fn is_untaken_test(text: &str) -> bool
    ensures { result ≡ constants.is_untaken_test text.now }
{
    match text {
        "IS_NAN" => true,
        "IS_NOT_NAN" => true,
        _ => false,
    }
}

/// Whether the operand is a list of operands.
#[tactic(auto, unfolding(crate::specs::Constants::is_list_operator))]
pub(crate) fn is_list_operator(text: &str) -> bool
    ensures { result ≡ constants.is_list_operator text.now }
{
    match text {
        "ARRAY_CONTAINS_ANY" => true,
        "IN" => true,
        "NOT_IN" => true,
        _ => false,
    }
}

/// Whether the text may stand as such a constant.
pub(crate) fn is_constant(which: Constants, text: &str) -> bool
    ensures { result ≡ constants.is_constant which text.now }
{
    match which {
        Constants::Junction => is_junction(text),
        Constants::Operator => is_operator(text),
        Constants::Test => is_test(text),
        Constants::Direction => is_direction(text),
        Constants::ChangeType => is_change_type(text),
        Constants::StreamName => is_stream_name(text),
        Constants::TimerName => is_timer_name(text),
    }
}

/// Whether the text is such a constant, and one that isn't supported.
pub(crate) fn is_untaken(which: Constants, text: &str) -> bool
    ensures { result ≡ constants.is_untaken which text.now }
{
    match which {
        Constants::Test => is_untaken_test(text),
        _ => false,
    }
}
