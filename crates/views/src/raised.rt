ghost use Rattle.std.specs.Prelude.{◌≡◌, ◌≢◌, ◌↔◌, IsTrue, IsSome, IfOk};
ghost use Rattle.std.specs.FinMap as map;
ghost use Rattle.std.specs.List.{All, AllPairs};
ghost use Rattle.views.specs.Changes.{HasChanges};
ghost use Rattle.views.specs.Row.{IsPrinted, Prints, PrintsAt};

use crate::change::{Change, changes_between};
use crate::rows::{Row, Rows};
use crate::shown::Shown;
use document_keys::{DocumentKey, NoMemory, Sequence};
use std::alloc::Global;
use std::cmp::Ordering;
use std::rc::Rc;
use value_model::Documents;

/// A snapshot that was raised: what it shows, whether that is from the cache alone, and its changes.
#[derive(Debug, Drop)]
pub(crate) struct Raised {
    pub rows: Rows,
    pub from_cache: bool,
    pub changes: Sequence<Change>,
}

/// Whether the row is that of the key.
fn is_at(row: &Row, key: &DocumentKey) -> bool
    ensures { IsTrue result ↔ (row.now.key ≡ key.now) }
{
    row.key.compare(key) == Ordering::Equal
}

/// Whether the row has what is printed of its key's document.
fn is_printed<D: Documents>(docs: &D, row: &Row) -> bool
    ensures { IsTrue result ↔ IsPrinted (D.documents docs.now) row.now }
{
    match docs.document(&row.key) {
        Some(document) => row.document.is_printed_as(document),
        None => false,
    }
}

/// Whether the row is that of the key, with what is printed of its document.
fn is_row_of<D: Documents>(docs: &D, key: &DocumentKey, row: &Row) -> bool
    ensures { IsTrue result ↔ PrintsAt (D.documents docs.now) key.now row.now }
{
    is_at(row, key) && is_printed(docs, row)
}

/// Whether the rows are those of the keys, with what is printed of their documents.
pub(crate) fn are_rows_of<D: Documents>(docs: &D, keys: &[DocumentKey], rows: &[Row]) -> bool
    ensures { IsTrue result ↔ Prints (D.documents docs.now) keys.now rows.now }
{
    if keys.len() != rows.len() {
        return false;
    }
    for i in 0..keys.len() {
        if !is_row_of(docs, &keys[i], &rows[i]) {
            return false;
        }
    }
    true
}

/// What is kept of the key's document: the copy of the last snapshot, if that is printed the same, else a new one.
fn shown<D: Documents>(
    alloc: Global,
    docs: &D,
    last: &Rows,
    key: &DocumentKey,
) -> Result<Rc<Shown>, NoMemory>
    requires { IsSome (map.get (D.documents docs.now) key.now) }
    ensures { IfOk result (λ document. PrintsAt (D.documents docs.now) key.now
        (record { key = key.now; document = document.value })) }
{
    let Some(document) = docs.document(key) else {
        unreachable!();
    };
    if let Some(kept) = last.get(key) {
        if kept.is_printed_as(document) {
            return Ok(kept.clone()?);
        }
    }
    Ok(Rc::new(alloc, Shown::copy_of(alloc, document)?)?)
}

/// The rows of the keys, with what is printed of their documents.
fn rows_of<D: Documents>(
    alloc: Global,
    docs: &D,
    last: &Rows,
    keys: &[DocumentKey],
) -> Result<Rows, NoMemory>
    requires there { All (λ key. IsSome (map.get (D.documents docs.now) key)) keys.now }
    requires distinct { AllPairs ◌≢◌ keys.now }
    ensures { IfOk result (λ rows. Prints (D.documents docs.now) keys.now rows) }
{
    let mut rows = Rows::new(alloc);
    for key in keys {
        let document = shown(alloc, docs, last, key)?;
        rows.push(alloc, key.copy(alloc)?, document)?;
    }
    Ok(rows)
}

impl Raised {
    /// A snapshot that shows the documents of the keys, with its changes against the rows of the last one.
    ///
    /// # Errors
    /// `NoMemory`
    pub(crate) fn over<D: Documents>(
        alloc: Global,
        docs: &D,
        last: &Rows,
        keys: &[DocumentKey],
        from_cache: bool,
    ) -> Result<Raised, NoMemory>
        requires there { All (λ key. IsSome (map.get (D.documents docs.now) key)) keys.now }
        requires distinct { AllPairs ◌≢◌ keys.now }
        ensures rows { IfOk result (λ raised. Prints (D.documents docs.now) keys.now raised.rows) }
        ensures flag { IfOk result (λ raised. raised.from_cache ≡ from_cache) }
        ensures changes { IfOk result (λ raised. HasChanges last.now raised.rows raised.changes) }
    {
        let rows = rows_of(alloc, docs, last, keys)?;
        let changes = changes_between(alloc, last, &rows)?;
        Ok(Raised {
            rows,
            from_cache,
            changes: Sequence::from_vec(changes),
        })
    }
}
