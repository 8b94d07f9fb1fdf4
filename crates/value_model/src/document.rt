ghost use Rattle.std.specs.Prelude.{◌≡◌, IfOk};
ghost use Rattle.value_model.specs.Versions.{version_of};

use crate::fields::Fields;
use crate::shared_fields::SharedFields;
use crate::timestamp::Timestamp;
use document_keys::{NoMemory, Text};
use std::alloc::Global;

/// A document: its fields, and the time of its last update at the backend, where that is known.
#[derive(Debug, Drop)]
pub struct Document {
    pub fields: SharedFields,
    pub update_time: Option<Timestamp>,
}

/// What is known of a key: the fields of its document with their version, that there is no document as of a version, or
/// that a version was committed whose fields aren't known.
#[derive(Debug, Drop)]
pub enum Entry {
    Found(Fields, Timestamp),
    Missing(Timestamp),
    Unknown(Timestamp),
}

/// Where an entry comes from: it was seen in a message of the backend, or it is what the acknowledgement of a batch left,
/// with the time of that commit.
#[derive(Clone, Copy, Debug, PartialEq, Eq)]
pub enum Seal {
    Seen,
    Committed(Timestamp),
}

/// How a document stands to the backend: as it was seen there, with writes that are pending, as an acknowledged batch left
/// it, or with a version whose fields aren't known.
#[derive(Clone, Copy, Debug, PartialEq, Eq)]
pub enum DocState {
    Synced,
    Pending,
    Committed,
    Unknown,
}

/// The status that the backend gives with a refusal: its code and its message.
#[derive(Debug, Drop)]
pub struct RpcStatus {
    pub code: u8,
    pub message: Text,
}

impl Document {
    /// A copy, which shares the fields.
    ///
    /// # Errors
    /// `NoMemory`
    pub fn copy(&self) -> Result<Document, NoMemory>
        ensures { IfOk result (λ document. document ≡ self.now) }
    {
        let fields = self.fields.share()?;
        Ok(Document {
            fields,
            update_time: self.update_time,
        })
    }
}

impl Entry {
    /// The version as of which the entry is known.
    pub fn version(&self) -> Timestamp
        ensures { result ≡ version_of self.now }
    {
        match self {
            Entry::Found(_, version) => *version,
            Entry::Missing(version) => *version,
            Entry::Unknown(version) => *version,
        }
    }

    /// A copy.
    ///
    /// # Errors
    /// `NoMemory`
    pub fn copy(&self, alloc: Global) -> Result<Entry, NoMemory>
        ensures { IfOk result (λ entry. entry ≡ self.now) }
    {
        match self {
            Entry::Found(fields, version) => {
                let fields = fields.copy(alloc)?;
                Ok(Entry::Found(fields, *version))
            }
            Entry::Missing(version) => Ok(Entry::Missing(*version)),
            Entry::Unknown(version) => Ok(Entry::Unknown(*version)),
        }
    }
}

impl RpcStatus {
    /// A copy.
    ///
    /// # Errors
    /// `NoMemory`
    pub fn copy(&self, alloc: Global) -> Result<RpcStatus, NoMemory>
        ensures { IfOk result (λ status. status ≡ self.now) }
    {
        let message = self.message.copy(alloc)?;
        Ok(RpcStatus {
            code: self.code,
            message,
        })
    }
}
