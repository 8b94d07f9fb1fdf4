//! Values and documents as JSON text, straight from the model: no tree is built.
//!
//! What is put into a `json::Writer` are the tokens of the tree that `json_model` says is printed
//! (`specs/Puts.antt`), so that the text is that tree's. `put_value` puts a value and `put_fields` the
//! fields of a document; `put_document` puts a document, and `put_members` what stands in its braces,
//! for a line that has a member more. Where memory is wanting nothing is said of the writer.
#![tactic(auto)]

mod document;
mod leaves;
mod values;

pub use document::{put_document, put_members, put_text_member};
pub use values::{put_fields, put_value};
