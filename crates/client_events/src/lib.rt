//! What a client is told.
//!
//! An `Event` is one thing that the app asks: writes that are made at once, the document of a key, a listener that begins or
//! ends; or one that comes from the backend: a stream that opens or closes, or a message. `specs/Spelled.antt` says which events
//! a client takes: what they commit can be held by the journal.
#![tactic(auto)]

mod event;

pub use event::{Event, is_batch};
