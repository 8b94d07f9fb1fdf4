ghost use Rattle.std.specs.Prelude.{◌≡◌, ◌≢◌, ◌↔◌, IsTrue, IfSome, IsSome, is_some, false, Some, None, [], OnOk, OnErr, IfOk};
ghost use Rattle.std.specs.FinMap as map;
ghost use Rattle.std.specs.List.{All, AllPairs};
ghost use Rattle.queries.specs.Answer.{IsAnswer};
ghost use Rattle.views.specs.Changes.{HasChanges};
ghost use Rattle.views.specs.Refresh.{IsOver, Raises, Refreshes, Shows, last_rows};

use crate::raised::{Raised, are_rows_of};
use crate::rows::Rows;
use crate::snapshot::Snapshot;
use crate::standing::Standing;
use document_keys::{Database, DocumentKey, NoMemory};
use queries::Query;
use query_engine::rows;
use std::alloc::Global;
use std::marker::Model;
use value_model::Documents;

/// What a refresh did: whether it raised a snapshot, and which of the shown keys are in limbo, in the order of the answer.
#[derive(Debug, Drop)]
pub struct Refresh {
    pub raised: bool,
    pub limbo: Vec<DocumentKey>,
}

/// What a listener shows: the answer of its query, as it was last raised. Contracts see the query and the last snapshot.
#[derive(Debug, Drop)]
pub struct View {
    query: Query,
    raised: Option<Raised>,
}

impl Model for View {
    ghost use Rattle.views.specs.Viewed.{Viewed, viewed_code};

    ghost Value = { Viewed };

    ghost coded = { viewed_code };

    ghost view = { λ view. record { target = view.query; raised = view.raised } };
}

/// The keys of the query's answer. Each has a document, and no two are the same.
fn answer_of<D: Documents>(
    alloc: Global,
    root: &Database,
    docs: &D,
    query: &Query,
) -> Result<Vec<DocumentKey>, NoMemory>
    ensures answer { IfOk result (λ keys. IsAnswer query.now root.now (D.documents docs.now) keys.items) }
    ensures there { IfOk result (λ keys. All
        (λ key. IsSome (map.get (D.documents docs.now) key)) keys.items) }
    ensures distinct { IfOk result (λ keys. AllPairs ◌≢◌ keys.items) }
{
    rows(alloc, root, docs, query)
}

/// Whether a snapshot is to be raised, after the last one.
fn is_raised<D: Documents>(
    docs: &D,
    last: &Option<Raised>,
    answer: &[DocumentKey],
    from_cache: bool,
    may_start: bool,
) -> bool
    ensures raises { IsTrue result ↔ Raises (D.documents docs.now) answer.now from_cache may_start last.now }
    ensures shows { result ≡ false → IfSome last.now (Shows (D.documents docs.now) answer.now from_cache) }
{
    match last {
        None => !from_cache || !answer.is_empty() || may_start,
        Some(last) => {
            from_cache != last.from_cache || !are_rows_of(docs, answer, last.rows.as_slice())
        }
    }
}

/// The rows of the last snapshot, or these where there was none.
fn rows_or<'a>(last: &'a Option<Raised>, none: &'a Rows) -> &'a Rows
    requires { none.now ≡ [] }
    ensures { result.now ≡ last_rows last.entry.now }
{
    match last {
        Some(last) => &last.rows,
        None => none,
    }
}

/// The snapshot that is raised after the last one.
fn raised_after<D: Documents>(
    alloc: Global,
    docs: &D,
    last: &Option<Raised>,
    answer: &[DocumentKey],
    from_cache: bool,
) -> Result<Raised, NoMemory>
    requires there { All (λ key. IsSome (map.get (D.documents docs.now) key)) answer.now }
    requires distinct { AllPairs ◌≢◌ answer.now }
    ensures shows { IfOk result (λ raised. Shows (D.documents docs.now) answer.now from_cache raised) }
    ensures changes { IfOk result (λ raised. HasChanges (last_rows last.now) raised.rows raised.changes) }
{
    let none = Rows::new(alloc);
    Raised::over(alloc, docs, rows_or(last, &none), answer, from_cache)
}

/// Puts the snapshot in place of the last one.
fn put(last: &mut Option<Raised>, raised: Raised)
    ensures { last.new ≡ Some raised }
{
    *last = Some(raised);
}

impl View {
    /// A view of the query that has raised no snapshot.
    pub fn new(_alloc: Global, query: Query) -> View
        ensures query { result.target ≡ query }
        ensures none { result.raised ≡ None }
    {
        View {
            query,
            raised: None,
        }
    }

    /// Works out the answer over the documents, with what is known of the target, and raises a snapshot where what is shown
    /// differs from what was last raised. Where none was raised yet, it raises one where it isn't from the cache, it shows a
    /// document, or `may_start`.
    ///
    /// # Errors
    /// `NoMemory`: the view is then as before.
    pub fn refresh<D: Documents>(
        &mut self,
        alloc: Global,
        root: &Database,
        docs: &D,
        standing: &Standing,
        may_start: bool,
    ) -> Result<Refresh, NoMemory>
        ensures done { IfOk result (λ refresh. Refreshes root.now
            (D.documents docs.now) (D.touched_keys docs.now) standing.now may_start
            self.old self.new refresh) }
        ensures over { OnOk result (IsOver self.new (D.documents docs.now)) }
        ensures undone { OnErr result (self.new ≡ self.old) }
    {
        let answer = answer_of(alloc, root, docs, &self.query)?;
        let keys = answer.as_slice();
        let limbo = standing.limbo(alloc, docs, keys)?;
        let from_cache = standing.is_from_cache(limbo.as_slice());
        let raised = is_raised(docs, &self.raised, keys, from_cache, may_start);
        if raised {
            let next = raised_after(alloc, docs, &self.raised, keys, from_cache)?;
            put(&mut self.raised, next);
        }
        Ok(Refresh { raised, limbo })
    }

    /// The last snapshot, where one was raised, lent with the documents that it was raised over, or that are printed the same.
    pub fn snapshot<'a, D: Documents>(&'a self, docs: &'a D) -> Snapshot<'a, D>
        requires raised { IsSome self.now.raised }
        requires over { IsOver self.now (D.documents docs.now) }
        ensures raised { Some result.raised ≡ self.entry.now.raised }
        ensures documents { result.documents ≡ D.documents docs.entry.now }
    {
        let Some(raised) = &self.raised else {
            unreachable!();
        };
        Snapshot::of(raised, docs)
    }

    /// Whether a snapshot was raised.
    pub fn has_raised(&self) -> bool
        ensures { result ≡ is_some self.now.raised }
    {
        self.raised.is_some()
    }

    /// The query.
    pub fn query(&self) -> &Query
        ensures { result.now ≡ self.now.target }
    {
        &self.query
    }
}
