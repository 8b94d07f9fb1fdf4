//! The first rows of a query, among the keys that were looked at so far.

ghost use Rattle.std.specs.Prelude.{◌≢◌, ◌↔◌, ◌*◌, AllPairs, IsTrue, IfOk, OnOk};
ghost use Rattle.queries.specs.Checked.{IsChecked};
ghost use Rattle.query_engine.specs.Kept.{TellsRow, IsFull, CutsRows, PutsRow, KeepsFirst};

use document_keys::{Database, DocumentKey, NoMemory};
use queries::Query;
use std::alloc::Global;
use value_model::{DocRef, Documents};

/// The document of the key, where there is one and it matches the query.
fn row_of<'a, D: Documents>(
    root: &Database,
    docs: &'a D,
    query: &Query,
    key: &'a DocumentKey,
) -> Option<DocRef<'a>>
    ensures { TellsRow query.now root.now (D.documents docs.entry.now) key.entry.now result }
{
    let row = docs.document(key)?;
    if query.matches(root, row.key, row.fields) {
        Some(row)
    } else {
        None
    }
}

/// Whether there are twice as many rows as the limit.
fn is_full(rows: usize, limit: Option<u32>) -> bool
    ensures { IsTrue result ↔ IsFull rows limit }
{
    match limit {
        Some(limit) => limit as usize * 2 <= rows,
        None => false,
    }
}

/// Puts the rows in the order of the query, and leaves no more than the limit of them, the first ones.
fn cut(query: &Query, rows: &mut Vec<DocRef<'_>>, limit: Option<u32>)
    ensures { CutsRows query.now limit rows.old.items rows.new.items }
{
    query.sort(rows.as_mut_slice());
    if let Some(limit) = limit {
        rows.truncate(limit as usize);
    }
}

/// Puts a row to the others, and leaves the first ones where they are twice as many as the limit.
///
/// # Errors
/// `NoMemory`
fn put<'a>(
    query: &Query,
    rows: &mut Vec<DocRef<'a>>,
    limit: Option<u32>,
    row: DocRef<'a>,
) -> Result<(), NoMemory>
    ensures { OnOk result (PutsRow query.now limit rows.old.items row.entry rows.new.items) }
{
    rows.push(row)?;
    if is_full(rows.len(), limit) {
        cut(query, rows, limit);
    }
    Ok(())
}

/// The first rows of the query among the documents of the keys, in its order: no more than the limit, where there is one.
///
/// # Errors
/// `NoMemory`
pub(crate) fn first_rows<'a, D: Documents>(
    alloc: Global,
    root: &Database,
    docs: &'a D,
    query: &Query,
    keys: &'a [DocumentKey],
    limit: Option<u32>,
) -> Result<Vec<DocRef<'a>>, NoMemory>
    requires checked { IsChecked query.now }
    requires distinct { AllPairs ◌≢◌ keys.now }
    ensures { IfOk result (λ rows. KeepsFirst query.now root.now
        (D.documents docs.entry.now) limit keys.entry.now rows.items) }
{
    let mut rows = Vec::new(alloc);
    for key in keys {
        if let Some(row) = row_of(root, docs, query, key) {
            put(query, &mut rows, limit, row)?;
        }
    }
    cut(query, &mut rows, limit);
    Ok(rows)
}
