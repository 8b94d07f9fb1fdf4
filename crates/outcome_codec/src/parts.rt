use document_keys::{DocumentKey, KeySet};
use value_model::{Bytes, Entry};

/// What was seen of a key at a point.
#[derive(Debug, Drop)]
pub struct KeyedEntry {
    pub key: DocumentKey,
    pub entry: Entry,
}

/// What a target has at a point: its id, the token from which it can be resumed, and the keys of its documents.
#[derive(Debug, Drop)]
pub struct PointRow {
    pub id: u32,
    pub token: Bytes,
    pub keys: KeySet,
}
