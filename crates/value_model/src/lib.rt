//! Values of documents: ten kinds in the order of Firestore, what holds them, and what stores and streams say of them.
//!
//! A `Value` is a struct round the enum `Kind`; contracts see it as plain data (`specs/Data.antt`). `Fields` are a finite map
//! from names to values, and `Fields::at` looks along a path. Copies of a value share what its arrays and maps hold, by
//! `SharedValues` and `SharedFields`; a change at a path copies the maps on its way, and those only where others hold them
//! too. `Timestamp` is a moment, `RefName` the name of a document. `Value::compare` is the one order of values. A `Document`
//! is fields with an update time, an `Entry` what is known of a key; `Documents` is the trait of stores that lend documents.
//! The messages of a watch stream stand here as types.
#![tactic(auto)]

mod at;
mod bytes;
mod changes;
mod document;
mod documents;
mod entries;
mod fields;
mod laws;
mod message;
mod names;
mod nesting;
mod order;
mod printing;
mod reference;
mod shared_fields;
mod shared_values;
mod target_ids;
mod timestamp;
mod value;

pub use bytes::Bytes;
pub use document::{DocState, Document, Entry, RpcStatus, Seal};
pub use documents::{DocRef, Documents};
pub use fields::{Field, Fields};
pub use laws::{
    fields_are_a_map, paths_hold, pending_times_stand, same_values_are_equal, ties_are_equal,
    times_are_ordered, times_have_their_form, values_are_ordered,
};
pub use message::{
    ChangeKind, DocumentChange, DocumentDelete, DocumentRemove, ExistenceFilter, ListenResponse,
    StreamName, TargetChange,
};
pub use printing::times_read_back;
pub use reference::{NameRef, RefName};
pub use shared_fields::SharedFields;
pub use shared_values::SharedValues;
pub use target_ids::TargetIds;
pub use timestamp::Timestamp;
pub use value::{Kind, Value};
