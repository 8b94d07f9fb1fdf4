//! What the backend sends on a watch stream.

ghost use Rattle.std.specs.Prelude.{◌≡◌, IfOk};

use crate::bytes::Bytes;
use crate::document::RpcStatus;
use crate::fields::Fields;
use crate::target_ids::TargetIds;
use crate::timestamp::Timestamp;
use document_keys::{DocumentKey, NoMemory};
use std::alloc::Global;

/// A stream of messages between the client and the backend.
#[derive(Clone, Copy, Debug, PartialEq, Eq)]
pub enum StreamName {
    /// The calls of Listen: which targets the client watches, and what the backend tells of them.
    Watch,
    /// The calls of Write: the batches that are sent, and their results.
    Write,
}

/// A message of a watch stream.
#[derive(Debug, Drop)]
pub enum ListenResponse {
    Target(TargetChange),
    Change(DocumentChange),
    Delete(DocumentDelete),
    Remove(DocumentRemove),
    Filter(ExistenceFilter),
}

/// A change of targets; without ids it is of all.
#[derive(Debug, Drop)]
pub struct TargetChange {
    pub kind: ChangeKind,
    pub target_ids: TargetIds,
    /// Why targets were removed.
    pub cause: Option<RpcStatus>,
    /// From where the targets can be resumed; empty where the message has none.
    pub resume_token: Bytes,
    pub read_time: Option<Timestamp>,
}

/// What became of the targets.
#[derive(Clone, Copy, Debug, PartialEq, Eq)]
pub enum ChangeKind {
    NoChange,
    Add,
    Remove,
    Current,
    Reset,
}

/// A document as it is at an update time, which is in some targets and no more in others.
#[derive(Debug, Drop)]
pub struct DocumentChange {
    pub key: DocumentKey,
    pub fields: Fields,
    pub update_time: Timestamp,
    pub target_ids: TargetIds,
    pub removed_target_ids: TargetIds,
}

/// A document was deleted.
#[derive(Debug, Drop)]
pub struct DocumentDelete {
    pub key: DocumentKey,
    pub removed_target_ids: TargetIds,
    pub read_time: Option<Timestamp>,
}

/// A document is no more in some targets.
#[derive(Debug, Drop)]
pub struct DocumentRemove {
    pub key: DocumentKey,
    pub removed_target_ids: TargetIds,
    pub read_time: Option<Timestamp>,
}

/// How many documents a target has at the backend.
#[derive(Clone, Copy, Debug, PartialEq, Eq)]
pub struct ExistenceFilter {
    pub target_id: i32,
    pub count: u32,
}

impl TargetChange {
    /// A copy.
    ///
    /// # Errors
    /// `NoMemory`
    pub fn copy(&self, alloc: Global) -> Result<TargetChange, NoMemory>
        ensures { IfOk result (λ change. change ≡ self.now) }
    {
        let target_ids = self.target_ids.copy(alloc)?;
        let cause = copy_cause(alloc, &self.cause)?;
        let resume_token = self.resume_token.copy(alloc)?;
        Ok(TargetChange {
            kind: self.kind,
            target_ids,
            cause,
            resume_token,
            read_time: self.read_time,
        })
    }
}

/// A copy of the status, if there is one.
fn copy_cause(alloc: Global, cause: &Option<RpcStatus>) -> Result<Option<RpcStatus>, NoMemory>
    ensures { IfOk result (λ copy. copy ≡ cause.now) }
{
    match cause {
        Some(status) => {
            let status = status.copy(alloc)?;
            Ok(Some(status))
        }
        None => Ok(None),
    }
}

impl DocumentChange {
    /// A copy.
    ///
    /// # Errors
    /// `NoMemory`
    pub fn copy(&self, alloc: Global) -> Result<DocumentChange, NoMemory>
        ensures { IfOk result (λ change. change ≡ self.now) }
    {
        let key = self.key.copy(alloc)?;
        let fields = self.fields.copy(alloc)?;
        let target_ids = self.target_ids.copy(alloc)?;
        let removed_target_ids = self.removed_target_ids.copy(alloc)?;
        Ok(DocumentChange {
            key,
            fields,
            update_time: self.update_time,
            target_ids,
            removed_target_ids,
        })
    }
}

impl DocumentDelete {
    /// A copy.
    ///
    /// # Errors
    /// `NoMemory`
    pub fn copy(&self, alloc: Global) -> Result<DocumentDelete, NoMemory>
        ensures { IfOk result (λ delete. delete ≡ self.now) }
    {
        let key = self.key.copy(alloc)?;
        let removed_target_ids = self.removed_target_ids.copy(alloc)?;
        Ok(DocumentDelete {
            key,
            removed_target_ids,
            read_time: self.read_time,
        })
    }
}

impl DocumentRemove {
    /// A copy.
    ///
    /// # Errors
    /// `NoMemory`
    pub fn copy(&self, alloc: Global) -> Result<DocumentRemove, NoMemory>
        ensures { IfOk result (λ remove. remove ≡ self.now) }
    {
        let key = self.key.copy(alloc)?;
        let removed_target_ids = self.removed_target_ids.copy(alloc)?;
        Ok(DocumentRemove {
            key,
            removed_target_ids,
            read_time: self.read_time,
        })
    }
}

impl ListenResponse {
    /// A copy.
    ///
    /// # Errors
    /// `NoMemory`
    pub fn copy(&self, alloc: Global) -> Result<ListenResponse, NoMemory>
        ensures { IfOk result (λ response. response ≡ self.now) }
    {
        match self {
            ListenResponse::Target(change) => {
                let change = change.copy(alloc)?;
                Ok(ListenResponse::Target(change))
            }
            ListenResponse::Change(change) => {
                let change = change.copy(alloc)?;
                Ok(ListenResponse::Change(change))
            }
            ListenResponse::Delete(delete) => {
                let delete = delete.copy(alloc)?;
                Ok(ListenResponse::Delete(delete))
            }
            ListenResponse::Remove(remove) => {
                let remove = remove.copy(alloc)?;
                Ok(ListenResponse::Remove(remove))
            }
            ListenResponse::Filter(filter) => Ok(ListenResponse::Filter(*filter)),
        }
    }
}
