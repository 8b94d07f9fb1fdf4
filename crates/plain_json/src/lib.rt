//! Writes of the plain form, built of a tree that borrows from its text.
//!
//! Most lines of a caller hold batches of one form: updates of documents with just a name and fields, in which each value has its
//! kind for its only member, each array its list and each map its fields, and beside them a mask, transforms or a precondition;
//! and deletes, which a precondition may stand beside. `parse` reads the tree of such a text without a copy of what stands in it,
//! `only_under` and `both_under` look into it, and `plain_writes` builds what it spells, in one pass. What is built has no fault.
//! Of a tree of another form, and of one with faults, nothing is said: that is for `json_model` and `json_rpc`, over trees of
//! their own, by whose words (`Fits`, `SpellsWrite`) everything here is told. `specs/Trees.antt` says which of these a tree over
//! borrowed text stands for.
#![tactic(auto)]

mod changes;
mod conditions;
mod deletes;
mod documents;
mod masks;
mod parts;
mod room;
mod scalars;
mod transforms;
mod tree;
mod values;
mod writes;

pub use conditions::plain_time;
pub use room::{Room, Tree};
pub use tree::{both_under, only_under, parse};
pub use values::plain_fields;
pub use writes::plain_writes;
