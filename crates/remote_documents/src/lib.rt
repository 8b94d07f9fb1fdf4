//! What is known of the backend's documents: the newest entry of each key that was seen or written, and its seal.
//!
//! `RemoteDocuments` holds an `Entry` and a `Seal` by key. Contracts see a finite map from keys to these pairs
//! (`specs/Table.antt`), and beside it the room for more: `reserve` makes a place for a key, and a `put` of a key that has a
//! place cannot be refused. A look-up lends. The places stand in a `KeyTable`, which lists the keys of a collection in order;
//! `arrange` keeps them so.
#![tactic(auto)]

mod slot;
mod table;

pub use slot::Slot;
pub use table::RemoteDocuments;
