use document_keys::KeySet;
use queries::Target;
use value_model::{Bytes, Timestamp};

/// What the backend said of a target at a point: the token to go on from, the time of the point, and the keys of the
/// documents that match.
#[derive(Debug, Drop)]
pub struct Held {
    pub token: Bytes,
    pub version: Timestamp,
    pub keys: KeySet,
}

/// A target, and what is held of it, where there was a point.
#[derive(Debug, Drop)]
pub struct Row {
    pub target: Target,
    pub held: Option<Held>,
}
