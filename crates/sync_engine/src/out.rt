use client_turns::Refusal;
use document_keys::DocumentKey;
use value_model::{RpcStatus, Timestamp};

/// A line that answers an event.
#[derive(Debug, Drop)]
pub enum Out {
    /// A write, with the ids of its batch and of its commit.
    Wrote {
        batch: u64,
        commit: u64,
    },
    /// A listener began, on the target of this id; and the number of commits then.
    Listening {
        id: u32,
        target: i32,
        commit: u64,
    },
    /// A listener ended; and the number of commits then.
    Unlistened {
        id: u32,
        commit: u64,
    },
    /// The document of this key, as it stands after the event.
    Document(DocumentKey),
    /// The backend committed the batch at this time, and it left by this commit.
    Result {
        batch: u64,
        commit: u64,
        time: Timestamp,
    },
    /// The backend rejected the batch with this status, and it left by this commit.
    Rejected {
        batch: u64,
        commit: u64,
        status: RpcStatus,
    },
    /// The listener of this id ended, since the backend refused its target with this status.
    Error {
        id: u32,
        status: RpcStatus,
    },
    /// The listener of this id raised a snapshot, which [`crate::Client::snapshot`] lends.
    Raised(u32),
    /// A request on the stream of listeners that adds the target of this id, as its row stands.
    AddTarget(i32),
    /// A request on the stream of listeners that adds the listen of a document in limbo, under this id;
    /// [`crate::Client::limbo_document`] lends the document's key.
    AddLimboTarget(i32),
    /// A request on the stream of listeners that removes the target of this id.
    RemoveTarget(i32),
    /// The first request on the stream of writes, which names the database.
    SendHandshake,
    /// A request with the writes of the pending batch at this place, from 0, and [`crate::Client::token`].
    SendBatch(u64),
}

/// What an event came to.
#[derive(Debug, Drop)]
pub enum Outcome {
    /// These lines answer it.
    Done(Vec<Out>),
    /// It was refused, and changed nothing, but that a bad message closes its stream; these lines come behind the refusal.
    Refused(Refusal, Vec<Out>),
}
