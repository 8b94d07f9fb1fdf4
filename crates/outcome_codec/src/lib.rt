//! What came of writes and listens, as bytes: the results of a batch's writes, the entries and rows of a point, ids of targets
//! and sets of keys.
//!
//! Each part has one spelling (`specs/Spelling.antt`), over those of `record_parts`. Lists of entries, keys, ids and rows are
//! spelled in their order, strictly ascending, and are read in no other. A reader gives what the bytes begin with and what
//! follows it, or says that they begin with no such part; a writer appends the spelling.
#![tactic(auto)]

mod ascending;
mod entries;
mod ids;
mod keys;
mod laws;
mod parts;
mod results;
mod rows;

pub use entries::{entries_of, put_entries};
pub use ids::{ids_of, put_id, put_ids};
pub use keys::{keys_of, put_keys};
pub use laws::no_front;
pub use parts::{KeyedEntry, PointRow};
pub use results::{put_results, results_of};
pub use rows::{put_rows, rows_of};
