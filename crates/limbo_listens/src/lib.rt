//! Which of the documents that the listeners of a client show are in limbo, and the listens of their
//! own that these documents have.
//!
//! `LimboListens` is told the keys in limbo of each listener (`put`, `remove`), as often as the
//! listener is refreshed. Once an event it is settled: then just the keys in limbo have or await a
//! listen (`limbo_resolver` says which), and it answers the ids of the listens that ended and started.
//! Where nothing has changed since, settling looks at nothing. Contracts see the keys by listener
//! (`limbo_at`) and the listens (`specs/Listens.antt`).
#![tactic(auto)]

mod ids;
mod listens;
mod union;

pub use listens::LimboListens;
