ghost use Rattle.std.specs.Prelude.{◌≡◌, ◌≢◌, ◌↔◌, ◌∷◌, [], length, IsTrue, IfOk, IfErr, MatchOption, IsPermutation};
ghost use Rattle.queries.specs.Found.{standing_at, IsMatch};
ghost use Rattle.queries.specs.Checked.{IsChecked, IsCheckedCollection, IsLimit};
ghost use Rattle.queries.specs.Orders.{AreWhole};
ghost use Rattle.queries.specs.Queried.{IsSameLimit, IsTargetOf, IsQueryOf, HasQueryFault};
ghost use Rattle.queries.specs.Rules.{BadLimit, IsSound};
ghost use Rattle.queries.specs.Matching.{MeetsAny, Matches, TellsBefore, RanksInOrder, SortsRows};

use crate::candidate::Candidate;
use crate::checking::broken_rule;
use crate::order::Order;
use crate::raw::{QueryFault, RawCollection, RawQuery};
use crate::rows::{compare_rows, end_keeps, has_values, start_keeps};
use crate::target::{CollectionTarget, Target};
use crate::whole_orders::whole_orders;
use document_keys::{CollectionPath, Database, DocumentKey, NoMemory, Segment, Sequence};
use std::alloc::Global;
use std::cmp::Ordering;
use std::marker::Model;
use value_model::{DocRef, Fields};

/// A query that was checked: it breaks no rule of queries, and has its whole list of orders. Contracts see it as what is
/// sent and stored of it.
#[derive(Debug, Drop)]
pub struct Query {
    target: Target,
}

impl Model for Query {
    ghost use Rattle.queries.specs.declared.target.Target.{Target};
    ghost use Rattle.queries.specs.Checked.{IsChecked};

    ghost Value = { Target };

    ghost use Rattle.queries.specs.contracts.target.Target as sent;

    ghost coded = { sent.the_row.coded };

    ghost view = { λ query. query.target };

    ghost invariant = { λ query. IsChecked query.target };
}

/// Whether the document meets the filter, where there is one.
fn meets_filter(candidate: &Candidate<'_>, target: &CollectionTarget) -> bool
    ensures { IsTrue result ↔ MeetsAny (standing_at candidate.now) target.now.filter }
{
    match &target.filter {
        Some(filter) => filter.is_met_by(candidate),
        None => true,
    }
}

/// Whether the document matches the query of a collection, whose cursors fit its orders.
fn matches_collection(candidate: &Candidate<'_>, target: &CollectionTarget) -> bool
    requires { IsCheckedCollection target.now }
    ensures { IsTrue result ↔ IsMatch target.now candidate.now }
{
    let orders = target.orders.as_slice();
    candidate.key.is_in(&target.collection)
        && meets_filter(candidate, target)
        && has_values(candidate, orders)
        && start_keeps(candidate, orders, &target.start_at)
        && end_keeps(candidate, orders, &target.end_at)
}

/// The one id, where there is exactly one.
fn only_id(from: Sequence<Segment>) -> Option<Segment>
    ensures { MatchOption result (length from ≢ 1) (λ id. from ≡ id ∷ []) }
{
    let mut ids = from.into_vec();
    let id = ids.pop()?;
    if ids.is_empty() { Some(id) } else { None }
}

/// A limit that is at least 1, without its sign.
fn unsigned(limit: Option<i32>) -> Option<u32>
    requires { BadLimit limit → ⊥ }
    ensures same { IsSameLimit limit result }
    ensures limit { IsLimit result }
{
    match limit {
        Some(limit) => Some(limit as u32),
        None => None,
    }
}

/// The query of a collection that breaks no rule, with its whole list of orders.
fn target_of(
    alloc: Global,
    raw: RawCollection,
    orders: Sequence<Order>,
) -> Result<CollectionTarget, NoMemory>
    requires sound { IsSound raw }
    requires whole { AreWhole raw.orders raw.filter orders }
    ensures target { IfOk result (λ target. IsTargetOf raw target) }
    ensures checked { IfOk result (λ target. IsCheckedCollection target) }
{
    let Some(id) = only_id(raw.from) else {
        unreachable!();
    };
    let collection = CollectionPath::inside(alloc, raw.parent, id)?;
    Ok(CollectionTarget {
        collection,
        filter: raw.filter,
        orders,
        start_at: raw.start_at,
        end_at: raw.end_at,
        limit: unsigned(raw.limit),
    })
}

/// The query of a collection, checked.
fn check_collection(alloc: Global, raw: RawCollection) -> Result<CollectionTarget, QueryFault>
    ensures target { IfOk result (λ target. IsTargetOf raw target) }
    ensures checked { IfOk result (λ target. IsCheckedCollection target) }
    ensures fault { IfErr result (λ fault. HasQueryFault (RawQuery.Collection raw) fault) }
{
    let explicit = raw.orders.copy(alloc)?;
    let orders = whole_orders(alloc, explicit, &raw.filter)?;
    if let Some(rule) = broken_rule(&raw, orders.as_slice()) {
        return Err(QueryFault::BadQuery(rule));
    }
    Ok(target_of(alloc, raw, orders)?)
}

impl Query {
    /// The query, if it breaks no rule of queries, with its whole list of orders.
    ///
    /// # Errors
    /// `BadQuery` with the rule of the least number that it breaks; or `NoMemory`.
    pub fn check(alloc: Global, raw: RawQuery) -> Result<Query, QueryFault>
        ensures query { IfOk result (λ query. IsQueryOf raw query) }
        ensures fault { IfErr result (λ fault. HasQueryFault raw fault) }
    {
        match raw {
            RawQuery::Document(key) => Ok(Query {
                target: Target::Document(key),
            }),
            RawQuery::Collection(raw) => {
                let target = check_collection(alloc, raw)?;
                Ok(Query {
                    target: Target::Collection(target),
                })
            }
        }
    }

    /// What is sent and stored of the query, lent.
    pub fn as_target(&self) -> &Target
        ensures same { result.now ≡ self.now }
        ensures checked { IsChecked self.now }
    {
        &self.target
    }

    /// What is sent and stored of the query: a copy.
    ///
    /// # Errors
    /// `NoMemory`
    pub fn target(&self, alloc: Global) -> Result<Target, NoMemory>
        ensures { IfOk result (λ target. target ≡ self.now) }
    {
        self.target.copy(alloc)
    }

    /// Whether the document of this key and these fields, under the root of its name, matches the query. It takes no
    /// memory.
    pub fn matches(&self, root: &Database, key: &DocumentKey, fields: &Fields) -> bool
        ensures { IsTrue result ↔ Matches self.now root.now key.now fields.now }
    {
        match &self.target {
            Target::Document(wanted) => key == wanted,
            Target::Collection(target) => matches_collection(
                &Candidate { root, key, fields },
                target,
            ),
        }
    }

    /// The order of two documents in the order of the query, where null stands for a value that is missing.
    fn compare(&self, a: DocRef<'_>, b: DocRef<'_>) -> Ordering
        ensures { RanksInOrder self.now a.entry.key.now a.entry.fields.now b.entry.key.now
            b.entry.fields.now result }
    {
        match &self.target {
            Target::Document(_) => Ordering::Equal,
            Target::Collection(target) => compare_rows(target.orders.as_slice(), a, b),
        }
    }

    /// Whether one of two documents that match the query comes before the other. It takes no memory.
    pub fn before(&self, a: DocRef<'_>, b: DocRef<'_>) -> bool
        ensures { TellsBefore self.now a.entry.key.now a.entry.fields.now b.entry.key.now
            b.entry.fields.now result }
    {
        self.compare(a, b).is_lt()
    }

    /// Puts documents that match the query, and have different keys, in its order. It takes no memory.
    pub fn sort(&self, rows: &mut [DocRef<'_>])
        ensures permutation { IsPermutation rows.old rows.new }
        ensures sorted { SortsRows self.now rows.old rows.new }
    {
        let _target = &self.target;
        rows.sort_unstable_by(|a, b| self.compare(*a, *b));
    }
}
