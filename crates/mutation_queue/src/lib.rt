//! The batches of writes that wait for the backend, in the order in which they were taken.
//!
//! A `MutationQueue` is a list of batches, which contracts see as such (`specs/Queue.antt`). Beside it stands the room: what
//! `reserve` made of it is taken by a `push` that cannot be refused. Each batch has a place, its number among all that were
//! ever pushed. Batches leave at the front, and a table (`KeyPlaces`) lists for each key the places of the batches that name
//! it, so that none of `push`, `remove_first`, `names`, `names_behind` and `naming` walks over the batches, but for a
//! `remove_first` after which more have left than wait: it throws out those that left.
#![tactic(auto)]

mod line;
mod place_list;
mod places;
mod queue;

pub use queue::MutationQueue;
