ghost use Rattle.std.specs.Prelude.{◌≡◌, IfOk};

use crate::filter::Filter;
use crate::order::{Cursor, Order};
use document_keys::{CollectionPath, DocumentKey, NoMemory, Sequence};
use std::alloc::Global;

/// What a listener asks for: one document, or a query of a collection with its whole list of orders.
#[derive(Debug, Drop)]
pub enum Target {
    Document(DocumentKey),
    Collection(CollectionTarget),
}

/// A query of a collection.
#[derive(Debug, Drop)]
pub struct CollectionTarget {
    pub collection: CollectionPath,
    pub filter: Option<Filter>,
    pub orders: Sequence<Order>,
    pub start_at: Option<Cursor>,
    pub end_at: Option<Cursor>,
    /// The most documents of an answer, at least 1.
    pub limit: Option<u32>,
}

/// A copy of the filter, where there is one.
fn copy_filter(alloc: Global, filter: &Option<Filter>) -> Result<Option<Filter>, NoMemory>
    ensures { IfOk result (λ copy. copy ≡ filter.now) }
{
    match filter {
        None => Ok(None),
        Some(filter) => Ok(Some(filter.copy(alloc)?)),
    }
}

/// A copy of the cursor, where there is one.
fn copy_cursor(alloc: Global, cursor: &Option<Cursor>) -> Result<Option<Cursor>, NoMemory>
    ensures { IfOk result (λ copy. copy ≡ cursor.now) }
{
    match cursor {
        None => Ok(None),
        Some(cursor) => Ok(Some(cursor.copy(alloc)?)),
    }
}

impl CollectionTarget {
    /// A copy.
    ///
    /// # Errors
    /// `NoMemory`
    pub fn copy(&self, alloc: Global) -> Result<CollectionTarget, NoMemory>
        ensures { IfOk result (λ target. target ≡ self.now) }
    {
        Ok(CollectionTarget {
            collection: self.collection.copy(alloc)?,
            filter: copy_filter(alloc, &self.filter)?,
            orders: self.orders.copy(alloc)?,
            start_at: copy_cursor(alloc, &self.start_at)?,
            end_at: copy_cursor(alloc, &self.end_at)?,
            limit: self.limit,
        })
    }
}

impl Target {
    /// A copy.
    ///
    /// # Errors
    /// `NoMemory`
    pub fn copy(&self, alloc: Global) -> Result<Target, NoMemory>
        ensures { IfOk result (λ target. target ≡ self.now) }
    {
        match self {
            Target::Document(key) => Ok(Target::Document(key.copy(alloc)?)),
            Target::Collection(target) => Ok(Target::Collection(target.copy(alloc)?)),
        }
    }
}
