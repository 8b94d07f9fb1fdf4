//! Messages of `google.firestore.v1` as JSON trees: what one without faults spells, and the one printed form of each.
//!
//! A message is a table of `json_model`, a total builder over a tree without faults (`clean_write`) and a printer
//! (`print_write`). `clean_writes` builds the writes of a caller's line, and `read_write` a write, or finds its fault. What is
//! read can be stored, and what is printed of it reads back. `condition`, `mask` and `transform` are the parts of a write.
#![tactic(auto)]

mod condition;
mod laws;
mod lists;
mod mask;
mod transform;
mod write;

pub use laws::{a_tree_spells_one_write, printed_writes_read_back};
pub use write::{clean_write, clean_writes, print_write, read_write};
