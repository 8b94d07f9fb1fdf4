//! The answer of a query.

ghost use Rattle.std.specs.Prelude.{◌≡◌, IfOk, is_some};
ghost use Rattle.std.specs.FinMap as map;
ghost use Rattle.document_keys.specs.Names.{Root};
ghost use Rattle.queries.specs.Answer.{IsAnswer};
ghost use Rattle.queries.specs.Checked.{IsChecked};
ghost use Rattle.queries.specs.declared.target.Target.TheVariants.{Document, Collection};
ghost use Rattle.query_engine.specs.Kept.{keys_of};

use crate::kept::first_rows;
use document_keys::{Database, DocumentKey, NoMemory};
use queries::{CollectionTarget, Query, Target};
use std::alloc::Global;
use value_model::{DocRef, Documents};

/// Copies of the keys of the rows.
fn copy_keys(alloc: Global, rows: &[DocRef<'_>]) -> Result<Vec<DocumentKey>, NoMemory>
    ensures { IfOk result (λ keys. keys.items ≡ keys_of rows.now) }
{
    let mut keys = Vec::new(alloc);
    for row in rows {
        keys.push(row.key.copy(alloc)?)?;
    }
    Ok(keys)
}

/// Whether there is a document of the key.
fn has_document<D: Documents>(docs: &D, key: &DocumentKey) -> bool
    ensures { result ≡ is_some (map.get (D.documents docs.now) key.now) }
{
    docs.document(key).is_some()
}

/// The answer of a query of one document: its key, where there is such a document.
fn document_rows<D: Documents>(
    alloc: Global,
    docs: &D,
    key: &DocumentKey,
) -> Result<Vec<DocumentKey>, NoMemory>
    ensures { (root : Root) → IfOk result
        (λ keys. IsAnswer (Document key.now) root (D.documents docs.now) keys.items) }
{
    let mut keys = Vec::new(alloc);
    if has_document(docs, key) {
        keys.push(key.copy(alloc)?)?;
    }
    Ok(keys)
}

/// The answer of a query of a collection: the first rows among the documents of the collection.
fn collection_rows<D: Documents>(
    alloc: Global,
    root: &Database,
    docs: &D,
    query: &Query,
    target: &CollectionTarget,
) -> Result<Vec<DocumentKey>, NoMemory>
    requires same { query.now ≡ Collection target.now }
    requires checked { IsChecked query.now }
    ensures { IfOk result (λ keys. IsAnswer query.now root.now (D.documents docs.now) keys.items) }
{
    let keys = docs.collection_keys(alloc, &target.collection)?;
    let rows = first_rows(alloc, root, docs, query, keys.as_slice(), target.limit)?;
    copy_keys(alloc, rows.as_slice())
}

/// The keys of the answer of the query over the documents, in the order of the query.
///
/// # Errors
/// `NoMemory`
pub fn rows<D: Documents>(
    alloc: Global,
    root: &Database,
    docs: &D,
    query: &Query,
) -> Result<Vec<DocumentKey>, NoMemory>
    ensures { IfOk result (λ keys. IsAnswer query.now root.now (D.documents docs.now) keys.items) }
{
    match query.as_target() {
        Target::Document(key) => document_rows(alloc, docs, key),
        Target::Collection(target) => collection_rows(alloc, root, docs, query, target),
    }
}
