//! Commits as bytes: each commit has one spelling.
//!
//! A `Commit` is one step of the durable state. `encode` gives its spelling and `decode` reads exactly the spellings; both
//! are one relation, `specs/Spelling.antt`, over the parts that `record_parts` spells. Two commits have two spellings, and
//! none is the front of another (`laws.rt`).
#![tactic(auto)]

mod commit;
mod commits;
mod laws;

pub use commit::{Commit, decode, encode};
pub use laws::{no_front, one_commit};
