//! Targets of queries as bytes: one document, or a collection with filter, orders, cursors and limit.
//!
//! Each part has one spelling (`specs/Spelling.antt`), over those of `record_parts`. `target_of` reads exactly the targets of
//! queries that were checked: a query is spelled with its whole list of orders and breaks no rule, so after its parts are
//! read it is checked again (`checked`). `put_target` writes a target.
#![tactic(auto)]

mod bytes;
mod checked;
mod cursors;
mod filters;
mod laws;
mod limits;
mod orders;
mod paths;
mod targets;

pub use laws::no_front;
pub use targets::{put_target, target_of};
