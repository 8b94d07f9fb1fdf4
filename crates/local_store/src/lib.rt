//! The durable state of a client, over the journal that keeps it.
//!
//! A `LocalStore` is opened once: the payloads of the journal are decoded one by one, and each must fit the state before it
//! (`specs/State.antt`). `LocalStore::commit` takes all memory first, brings the commit to the disk, and changes the state
//! last; after a disk fault it is spent. What the state is, and what each commit does to it, `durable_state` says. A store
//! lends the local documents, as the trait `Documents` asks.
#![tactic(auto)]

mod fault;
mod laws;
mod lending;
mod local_store;
mod replay;

pub use durable_state::{MOST_COMMITS, documents_are_local};
pub use fault::StoreFault;
pub use laws::{refused_files_are_no_store, two_files_find_once};
pub use local_store::LocalStore;
