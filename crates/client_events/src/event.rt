ghost use Rattle.std.specs.Prelude.{◌≡◌};
ghost use Rattle.client_events.specs.Spelled.{is_batch as is_batch_of};

use document_keys::{DocumentKey, Text};
use mutations::{WriteResponse, Writes};
use queries::Query;
use value_model::{ListenResponse, RpcStatus, StreamName, Timestamp};

/// How many writes may be made at once.
const MAX_WRITES: u64 = 500;

/// Whether so many writes may be made at once: 1 to 500.
pub fn is_batch(count: u64) -> bool
    ensures { result ≡ is_batch_of count }
{
    0 < count && count <= MAX_WRITES
}

/// What a client is told: what an app asks of it, and what comes on the streams of the backend.
#[derive(Debug, Drop)]
pub enum Event {
    /// Local writes that are made at once, with their local write time.
    Write { at: Timestamp, writes: Writes },
    /// The document of a key.
    Get(DocumentKey),
    /// A listener of this id begins to listen to the query.
    Listen { id: u32, query: Query },
    /// The listener of this id ends.
    Unlisten(u32),
    /// The stream was opened.
    Opened(StreamName),
    /// The stream was closed, with this status.
    Closed(StreamName, RpcStatus),
    /// A message came on the stream of listeners.
    Watch(ListenResponse),
    /// A message came on the stream of writes.
    Written(WriteResponse),
    /// A message came on the stream that has a fault, in the member of this name.
    BadMessage(StreamName, Text),
    /// The timer went off until which an app waits for the backend.
    Timer,
}
