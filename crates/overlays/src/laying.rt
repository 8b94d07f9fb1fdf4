//! Writes laid on a document.

ghost use Rattle.std.specs.Prelude.{◌≡◌, ◌↔◌, IsTrue, IfOk, map};
ghost use Rattle.std.specs.List.{All};
ghost use Rattle.mutations.specs.Effect.{IsOfFieldsOnly};
ghost use Rattle.overlays.specs.Lent.{known};
ghost use Rattle.overlays.specs.LocalDocument.{after_batch, after_writes, local_document};
ghost use Rattle.overlays.specs.Table.{IsBatchOfFields};

use document_keys::{DocumentKey, NoMemory};
use keyed_writes::KeyedWrites;
use mutations::{Batch, Write, apply_local};
use std::alloc::Global;
use value_model::{Document, Entry, SharedFields, Timestamp};

/// Whether no path of the writes is `__name__`.
fn writes_are_of_fields(writes: &[Write]) -> bool
    ensures { IsTrue result ↔ All IsOfFieldsOnly writes.now }
{
    for write in writes {
        if !write.is_of_fields_only() {
            return false;
        }
    }
    true
}

/// Whether no path of the batch's writes is `__name__`.
pub fn is_of_fields(batch: &Batch) -> bool
    ensures { IsTrue result ↔ IsBatchOfFields batch.now }
{
    writes_are_of_fields(batch.writes.as_slice())
}

/// Whether no path of the batches' writes is `__name__`.
pub fn are_of_fields(batches: &[Batch]) -> bool
    ensures { IsTrue result ↔ All IsBatchOfFields batches.now }
{
    for batch in batches {
        if !is_of_fields(batch) {
            return false;
        }
    }
    true
}

/// The document that an entry knows of.
pub(crate) fn base(alloc: Global, entry: Option<&Entry>) -> Result<Option<Document>, NoMemory>
    ensures { IfOk result (λ document. document ≡ known entry.entry) }
{
    let Some(Entry::Found(fields, version)) = entry else {
        return Ok(None);
    };
    let fields = SharedFields::new(alloc, fields.copy(alloc)?)?;
    Ok(Some(Document {
        fields,
        update_time: Some(*version),
    }))
}

/// The key's document after the batch.
pub(crate) fn laid_on(
    alloc: Global,
    key: &DocumentKey,
    document: Option<Document>,
    batch: &Batch,
) -> Result<Option<Document>, NoMemory>
    requires { IsBatchOfFields batch.now }
    ensures { IfOk result (λ new. new ≡ after_batch key.now document batch.now) }
{
    let mut document = document;
    for write in batch.writes.as_slice() {
        if write.key() == key {
            apply_local(alloc, &mut document, write, batch.at)?;
        }
    }
    Ok(document)
}

/// The key's document after the writes that are made at the time. It looks at those of the key alone.
pub(crate) fn keyed_laid_on(
    alloc: Global,
    key: &DocumentKey,
    document: Option<Document>,
    writes: &KeyedWrites,
    at: Timestamp,
) -> Result<Option<Document>, NoMemory>
    requires { All IsOfFieldsOnly writes.now }
    ensures { IfOk result (λ new. new ≡ after_writes key.now at document writes.now) }
{
    let all = writes.as_slice();
    let mut document = document;
    let mut place = writes.first(key);
    while place < all.len() {
        apply_local(alloc, &mut document, &all[place], at)?;
        place = writes.after(place);
    }
    Ok(document)
}

/// The key's document after the batches.
pub(crate) fn all_laid_on(
    alloc: Global,
    key: &DocumentKey,
    document: Option<Document>,
    batches: &[Batch],
) -> Result<Option<Document>, NoMemory>
    requires { All IsBatchOfFields batches.now }
    ensures { IfOk result (λ new. new ≡ local_document key.now document batches.now) }
{
    let mut document = document;
    for batch in batches {
        document = laid_on(alloc, key, document, batch)?;
    }
    Ok(document)
}

/// The key's document after the batches that are lent.
pub(crate) fn lent_laid_on(
    alloc: Global,
    key: &DocumentKey,
    document: Option<Document>,
    batches: &[&Batch],
) -> Result<Option<Document>, NoMemory>
    requires { All IsBatchOfFields (map (λ b. b.now) batches.now) }
    ensures { IfOk result (λ new. new
        ≡ local_document key.now document (map (λ b. b.now) batches.now)) }
{
    let mut document = document;
    for batch in batches {
        document = laid_on(alloc, key, document, batch)?;
    }
    Ok(document)
}
