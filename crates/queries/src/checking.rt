//! Whether a query breaks a rule of queries.

ghost use Rattle.std.specs.Prelude.{◌↔◌, IsTrue, MatchOption};
ghost use Rattle.queries.specs.Orders.{AreWhole};
ghost use Rattle.queries.specs.Rules.{HasBadNegations, BadCursor, BadLimit, BreaksFirst, IsSound};

use crate::filter::Filter;
use crate::order::{Cursor, Order};
use crate::raw::{QueryRule, RawCollection};
use crate::rules::{Mark, tally_in};

/// Whether there is more than one filter by NOT_EQUAL or NOT_IN, or a NOT_IN beside an OR, IN or ARRAY_CONTAINS_ANY.
fn has_bad_negations(filter: &Option<Filter>) -> bool
    ensures { IsTrue result ↔ HasBadNegations filter.now }
{
    tally_in(filter, Mark::Negation) > 1
        || tally_in(filter, Mark::NotIn) > 0 && tally_in(filter, Mark::Disjunction) > 0
}

/// Whether a cursor has no value, or more values than there are orders.
fn is_bad_cursor(orders: &[Order], cursor: &Option<Cursor>) -> bool
    ensures { IsTrue result ↔ BadCursor orders.now cursor.now }
{
    match cursor {
        None => false,
        Some(cursor) => {
            let values = cursor.values.as_slice();
            values.is_empty() || orders.len() < values.len()
        }
    }
}

/// Whether a limit is below 1.
fn is_bad_limit(limit: Option<i32>) -> bool
    ensures { IsTrue result ↔ BadLimit limit }
{
    match limit {
        None => false,
        Some(limit) => limit < 1,
    }
}

/// The rule of the least number that the query breaks, where `orders` is its whole list of orders.
pub(crate) fn broken_rule(raw: &RawCollection, orders: &[Order]) -> Option<QueryRule>
    requires { AreWhole raw.now.orders raw.now.filter orders.now }
    ensures { MatchOption result (IsSound raw.now) (λ broken. BreaksFirst raw.now broken) }
{
    if raw.from.as_slice().len() != 1 {
        return Some(QueryRule::OneCollection);
    }
    if has_bad_negations(&raw.filter) {
        return Some(QueryRule::Negations);
    }
    if tally_in(&raw.filter, Mark::BadList) > 0 {
        return Some(QueryRule::Lists);
    }
    if is_bad_cursor(orders, &raw.start_at) || is_bad_cursor(orders, &raw.end_at) {
        return Some(QueryRule::Cursors);
    }
    if is_bad_limit(raw.limit) {
        return Some(QueryRule::Limit);
    }
    if tally_in(&raw.filter, Mark::RepeatedArrayFilter) > 0 {
        return Some(QueryRule::ArrayFilters);
    }
    None
}
