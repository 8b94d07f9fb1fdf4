//! The targets that listeners ask for, each under an id of its own.
//!
//! A `TargetCache` gives the ids 2, 4, 6 and so on to targets, one to each, and keeps a `Row` for each: the target, and what
//! the backend said of it at its last point (`Held`). Contracts see the rows in the order of their ids, and beside them the
//! room for more (`specs/Cache.antt`): what `reserve` made is taken by an `allocate` that no want of memory refuses. A row is
//! found by its id as an index, and by its target in an order of the rows that goes by the targets' paths, so that `find`
//! compares only targets of one path.
#![tactic(auto)]

mod cache;
mod order;
mod row;
mod same;

pub use cache::{AllocateFault, TargetCache};
pub use row::{Held, Row};
