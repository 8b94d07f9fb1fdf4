//! The durable state of a client in memory: the tables that hold it, and what each commit makes of them.
//!
//! A `DurableState` has the pending batches, the entries of the cache, the rows of targets and the last read time, with the
//! local document of each key that a pending write names. Contracts see the tables, and the state that they hold
//! (`specs/State.antt`). A commit goes two steps: `DurableState::ready` takes all memory that it needs and hands out a
//! `Ready`, and leaves the state as it is; `DurableState::apply` then changes the state and can't be refused. It lends the
//! local documents (`specs/Documents.antt`), as the trait `Documents` asks.
#![tactic(auto)]

mod applying;
mod commits;
mod durable_state;
mod fitting;
mod laws;
mod lending;
mod merging;
mod news;
mod ready;
mod readying;
mod relaying;

pub use durable_state::{DurableState, MOST_COMMITS};
pub use laws::{documents_are_local, entries_rise};
pub use ready::{Ready, Step};
