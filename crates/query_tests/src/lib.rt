//! The tests of queries and of their answers, and the store that they ask.
//!
//! They stand apart since a crate with tests is proved twice, so `queries` and `query_engine` have none, and are tried through
//! what they export: `matching` asks which documents an operator finds, in what order texts stand, and which rules a query
//! may break; `answers` asks a `Shelf`, a store of documents in memory, what the backend would answer; `listening` asks which
//! listeners a change of a document concerns. What they need stands in `fixtures`. A test function owns one value, and hands
//! it on by reference.
#![tactic(auto)]

#[cfg(test)]
mod answers;
#[cfg(test)]
mod fixtures;
#[cfg(test)]
mod listening;
#[cfg(test)]
mod matching;
mod shelf;

pub use shelf::{Held, Shelf};
