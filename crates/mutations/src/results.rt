//! What the backend answers to writes, and what it is asked on the stream of writes.

ghost use Rattle.std.specs.Prelude.{◌≡◌, ◌↔◌, IsTrue, IfOk};
ghost use Rattle.mutations.specs.Results.{FitsTransforms, FitsWrite, FitsWrites, IsResultOf};

use crate::batch::Writes;
use crate::lists::Values;
use crate::transform::{Change, Transform};
use crate::write::Write;
use document_keys::NoMemory;
use std::alloc::Global;
use std::marker::Model;
use value_model::{Bytes, Kind, Timestamp, Value};

/// What the backend made of one write.
#[derive(Debug, Drop)]
pub struct WriteResult {
    /// Since when the document is as the write left it; none where the write is a delete or the backend tells none.
    pub update_time: Option<Timestamp>,
    /// What each transform of the write made of its field, in their order.
    pub transforms: Values,
}

impl WriteResult {
    /// A copy.
    ///
    /// # Errors
    /// `NoMemory`
    pub fn copy(&self, alloc: Global) -> Result<WriteResult, NoMemory>
        ensures { IfOk result (λ copy. copy ≡ self.now) }
    {
        let transforms = self.transforms.copy(alloc)?;
        Ok(WriteResult {
            update_time: self.update_time,
            transforms,
        })
    }

    /// Whether it can be the result of the write: it has one result for each transform, and that of a transform that isn't
    /// one of an array is no array and no map.
    pub fn fits(&self, write: &Write) -> bool
        ensures { IsTrue result ↔ FitsWrite write.now self.now }
    {
        match write {
            Write::Update {
                key: _,
                fields: _,
                mask: _,
                transforms,
                condition: _,
            } => fit_transforms(transforms.as_slice(), self.transforms.as_slice()),
            Write::Delete {
                key: _,
                condition: _,
            } => self.transforms.as_slice().is_empty(),
        }
    }
}

/// Whether the value can be the result of the change.
fn is_result_of(change: &Change, value: &Value) -> bool
    ensures { IsTrue result ↔ IsResultOf change.now value.now }
{
    match change {
        Change::Append(_) | Change::RemoveAll(_) => true,
        _ => match &value.kind {
            Kind::Array(_) | Kind::Map(_) => false,
            _ => true,
        },
    }
}

/// Whether the values can be the results of the transforms, each of its own.
fn fit_transforms(transforms: &[Transform], values: &[Value]) -> bool
    ensures { IsTrue result ↔ FitsTransforms transforms.now values.now }
{
    if transforms.len() != values.len() {
        return false;
    }
    for place in 0..transforms.len() {
        let transform = &transforms[place];
        if !is_result_of(&transform.change, &values[place]) {
            return false;
        }
    }
    true
}

/// Whether the results can be those of the writes, each of its own.
pub fn fit_writes(writes: &[Write], results: &[WriteResult]) -> bool
    ensures { IsTrue result ↔ FitsWrites writes.now results.now }
{
    if writes.len() != results.len() {
        return false;
    }
    for place in 0..writes.len() {
        if !results[place].fits(&writes[place]) {
            return false;
        }
    }
    true
}

/// The results of a batch's writes, in their order. Contracts see them as their list.
#[derive(Debug, Drop)]
pub struct WriteResults {
    items: Vec<WriteResult>,
}

impl Model for WriteResults {
    ghost use Rattle.std.specs.Prelude.{List};
    ghost use Rattle.std.specs.Coded.{coded_list};
    ghost use Rattle.mutations.specs.contracts.results.WriteResult as item;
    ghost use Rattle.mutations.specs.declared.results.WriteResult.{WriteResult};

    ghost Value = { List WriteResult };

    ghost coded = { coded_list item.the_row.coded };

    ghost view = { λ results. results.items.items };
}

impl WriteResults {
    /// The results of the `Vec`, which it takes over.
    pub fn from_vec(items: Vec<WriteResult>) -> WriteResults
        ensures { result ≡ items.items }
    {
        WriteResults { items }
    }

    /// The results, lent.
    pub fn as_slice(&self) -> &[WriteResult]
        ensures { result.now ≡ self.now }
    {
        self.items.as_slice()
    }

    /// A copy.
    ///
    /// # Errors
    /// `NoMemory`
    pub fn copy(&self, alloc: Global) -> Result<WriteResults, NoMemory>
        ensures { IfOk result (λ results. results ≡ self.now) }
    {
        let mut items = Vec::with_capacity(alloc, self.items.len())?;
        for item in &self.items {
            items.push(item.copy(alloc)?)?;
        }
        Ok(WriteResults { items })
    }
}

/// An answer on the stream of writes: the handshake, or what became of a batch.
#[derive(Debug, Drop)]
pub struct WriteResponse {
    /// What the next request is to carry; empty where the message has none.
    pub token: Bytes,
    pub results: WriteResults,
    pub commit_time: Option<Timestamp>,
}

/// A request on the stream of writes.
#[derive(Debug, Drop)]
pub enum WriteRequest {
    /// The first: it names the database and has no writes.
    Handshake,
    /// The writes of a batch, with the latest token of the stream, or an empty one.
    Batch { token: Bytes, writes: Writes },
}
