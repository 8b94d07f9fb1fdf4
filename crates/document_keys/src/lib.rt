//! Names: what documents are called, and how those names are written (`projects/{p}/databases/{d}/documents/{path}`).
//!
//! A `Database` is the root of names. A `DocumentKey` and a `CollectionPath` are lists of `Segment`s, read under a root and
//! printed under it; a `KeyBuilder` puts a key together segment by segment. A `FieldPath` is a list of field names. A `KeySet`
//! and a `PathSet` hold keys and field paths in their order. `Text` and `Sequence` are a text and a list of its own, which
//! contracts see as plain lists. Readers name the first fault of a text
//! (`NameFault`, `FieldFault`). The order of all of them is by the first part that differs, a front first.
#![tactic(auto)]

mod collection;
mod database;
mod faults;
mod field;
mod held_text;
mod key;
mod key_builder;
mod key_set;
mod laws;
mod path;
mod path_set;
mod relative;
mod segment;
mod sequence;
mod short;
mod spelling;
mod text;

pub use collection::CollectionPath;
pub use database::Database;
pub use faults::{FieldFault, NameFault, NoMemory};
pub use field::{FieldPath, check_field_name};
pub use key::DocumentKey;
pub use key_builder::KeyBuilder;
pub use key_set::KeySet;
pub use laws::{
    faults_exclude, field_paths_read_back, key_faults_exclude, names_one_path, paths_are_ordered,
    same_members_are_one_set,
};
pub use path_set::PathSet;
pub use segment::Segment;
pub use sequence::{Replicate, Sequence};
pub use text::Text;
