use document_keys::Text;
use value_model::StreamName;

/// Why an event is refused. A refused event changes nothing, but that a bad message closes its stream.
#[derive(Debug, Drop)]
pub enum Refusal {
    /// Number 7: there is a listener of this id.
    ListenerTaken(u32),
    /// Number 8: there is no listener of this id.
    NoListener(u32),
    /// Number 9: the stream that opens is open, or the one that closes or brings a message isn't.
    StreamState { stream: StreamName, is_open: bool },
    /// Number 10: the message has a fault in the member of this name. Its stream is closed, as with the code 13.
    BadMessage { stream: StreamName, member: Text },
    /// Number 12: no number is left for the commit, or no id for the target.
    IdsSpent,
}
