//! What the rules of queries look for in a filter.

ghost use Rattle.std.specs.Prelude.{◌≡◌, ℕ, List, min};
ghost use Rattle.std.specs.List.{count_by};
ghost use Rattle.queries.specs.Filters as Filters;
ghost use Rattle.queries.specs.Filters.{nodes, nodes_in, filters_of};
ghost use Rattle.queries.specs.Rules.{is_marked, is_array_filter, has_bad_length, marked_count};

use crate::filter::{Filter, FilterKind, Junction, Operator};
use value_model::Value;

/// What is looked for: a filter by NOT_EQUAL or NOT_IN; one by NOT_IN; an OR, IN or ARRAY_CONTAINS_ANY; a list that is
/// empty or too long; an AND of two filters that ask what an array has.
#[derive(Clone, Copy, Debug)]
pub(crate) enum Mark {
    Negation,
    NotIn,
    Disjunction,
    BadList,
    RepeatedArrayFilter,
}

/// Whether the operand's items are none, or more than these.
fn has_bad_length(most: usize, operand: &Value) -> bool
    ensures { result ≡ has_bad_length most operand.now }
{
    let items = operand.items();
    items.is_empty() || items.len() > most
}

impl Filter {
    /// Whether the filter asks what an array has.
    fn is_array_filter(&self) -> bool
        ensures { result ≡ is_array_filter self.now }
    {
        match &self.kind {
            FilterKind::Field { op, .. } => {
                matches!(op, Operator::ArrayContains | Operator::ArrayContainsAny)
            }
            _ => false,
        }
    }

    /// Whether the filter itself is what is looked for.
    fn is_marked(&self, mark: Mark) -> bool
        ensures { result ≡ is_marked mark self.now }
    {
        match &self.kind {
            FilterKind::Composite { op, filters } => match mark {
                Mark::Disjunction => matches!(op, Junction::Or),
                Mark::BadList => filters.as_slice().is_empty(),
                Mark::RepeatedArrayFilter => match op {
                    Junction::And => count_array_filters(filters) > 1,
                    Junction::Or => false,
                },
                _ => false,
            },
            FilterKind::Field { op, value, .. } => is_marked_field(mark, *op, value),
            FilterKind::Unary { .. } => false,
        }
    }

    /// How many of the filter and those inside it are what is looked for, where 2 stands for more.
    #[cycle(tally)]
    pub(crate) fn tally(&self, mark: Mark) -> u8
        ensures { result ≡ min 2 (count_by (is_marked mark) (nodes self.now)) }
    {
        let inside = match &self.kind {
            FilterKind::Composite { filters, .. } => tally_all(filters, mark),
            _ => 0,
        };
        (inside + self.is_marked(mark) as u8).min(2)
    }
}

/// How many of the filters and those inside them are what is looked for, where 2 stands for more.
#[cycle(tally)]
fn tally_all(filters: &Vec<Filter>, mark: Mark) -> u8
    ensures { result ≡ min 2 (count_by (is_marked mark) (nodes_in (filters_of filters.now.items))) }
{
    let mut count = 0u8;
    for filter in filters {
        count = (count + filter.tally(mark)).min(2);
    }
    count
}

/// How many of the filters ask what an array has.
fn count_array_filters(filters: &Vec<Filter>) -> usize
    ensures { result ≡ count_by is_array_filter filters.now.items }
{
    filters
        .iter()
        .filter(|filter| filter.is_array_filter())
        .count()
}

/// Whether a comparison by this operator and operand is what is looked for.
fn is_marked_field(mark: Mark, op: Operator, value: &Value) -> bool
    ensures { (path : List (List ℕ)) → result ≡ is_marked mark (Filters.field path op value.now) }
{
    match mark {
        Mark::Negation => matches!(op, Operator::NotEqual | Operator::IsNotIn),
        Mark::NotIn => matches!(op, Operator::IsNotIn),
        Mark::Disjunction => matches!(op, Operator::IsIn | Operator::ArrayContainsAny),
        Mark::BadList => match op {
            Operator::IsIn | Operator::ArrayContainsAny => has_bad_length(30, value),
            Operator::IsNotIn => has_bad_length(10, value),
            _ => false,
        },
        Mark::RepeatedArrayFilter => false,
    }
}

/// How often it stands in a query's filter, where 2 stands for more.
pub(crate) fn tally_in(filter: &Option<Filter>, mark: Mark) -> u8
    ensures { result ≡ min 2 (marked_count mark filter.now) }
{
    match filter {
        Some(filter) => filter.tally(mark),
        None => 0,
    }
}
