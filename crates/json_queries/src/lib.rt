//! Queries as JSON trees, as a line of the caller names the target of a listener.
//!
//! The form of such a tree is a table of `json_model`, by whose walk its faults are found. `read_query` reads the query that a
//! tree without faults spells, as it stands there: `Query::check` of `queries` then refuses what breaks a rule of queries, and
//! what it makes of the others is printed by `print_target`. The readers of the parts are total over trees without faults, and
//! beside each stands its printer: `field` has paths, `constants` the texts of operators and directions, `filter`, `order` and
//! `cursor` the parts, `query` what is read, `target` what is printed.
#![tactic(auto)]

mod constants;
mod cursor;
mod field;
mod filter;
mod laws;
mod order;
mod query;
mod target;

pub use laws::{a_tree_spells_one_query, printed_targets_read_back};
pub use query::{clean_query, read_query};
pub use target::print_target;
