//! Tables by document key.
//!
//! A `KeyTable` holds a value for each of its keys. Contracts see the list of its pairs, in an order that is left open, and
//! read it by `value_at` and `has_key` (`specs/Table.antt`). A value is found by the hash of its key, so a look-up costs the
//! same whatever the size. `keys_in` lists the keys of a collection, `keys` all of them (`lists.rt`, `below.rt`). From `arrange`
//! on the keys stand in order beside the table (`order.rt`), and `keys_in` reads off those of the collection; before, it looks
//! at all of them. `insert` changes all or nothing; `set` puts a value where there is one, and takes no memory.
#![tactic(auto)]

mod below;
mod lists;
mod order;
mod table;

pub use table::KeyTable;
