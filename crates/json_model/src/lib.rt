//! JSON trees of messages and lines: what is to stand where, the faults of a tree, what one without faults spells, and how
//! values are printed. `specs/Printed.antt` has the tree of a document too.
//!
//! A `Place` says what is to stand at a place of a tree: an `Object` or a `Series` that is looked into, or a `Leaf`. The tables
//! say which members an object has (`table.rt`). `check` walks a tree by them and answers its first fault of the least kind
//! (`walk.rt`). What has no fault is taken apart by `clean_object`, `clean_list`, `clean_member`, `clean_choice` and the readers
//! of leaves, which are total. A new message is some rows of tables and a builder over these.
#![tactic(auto)]

mod bytes;
mod clean;
mod clean_leaves;
mod constants;
mod document;
mod fault;
mod laws;
mod leaves;
mod members;
mod names;
mod numbers;
mod objects;
mod place;
mod printing;
mod reading;
mod required;
mod scalars;
mod setting;
mod side;
mod table;
mod texts;
mod walk;

pub use bytes::{print_bytes, read_bytes};
pub use clean::{check, clean_choice, clean_list, clean_member, clean_object};
pub use clean_leaves::{
    clean_boolean, clean_bytes, clean_code, clean_constant, clean_count, clean_id, clean_integer,
    clean_limit, clean_listener_id, clean_name, clean_parent, clean_path, clean_query_path,
    clean_target_id, clean_text, clean_time,
};
pub use document::state_text;
pub use fault::{BadName, JsonFault, NamingFault};
pub use laws::{
    a_tree_spells_once, faults_are_one, fits_without_faults, no_fault_spells,
    printed_fields_read_back, read_ascends,
};
pub use members::{given, refined};
pub use names::{read_names, read_reference};
pub use numbers::{read_integer, read_whole};
pub use objects::{put_given, put_member, text_tree, unless_empty};
pub use place::{Constants, Leaf, Object, Place, Series};
pub use printing::{print_fields, print_value, reference_text};
pub use reading::{MAX_NESTING, clean_fields, clean_value, clean_values, read_fields, read_name};
pub use setting::Setting;
pub use side::Side;
pub use table::value_member;
pub use texts::{show_key, show_path, show_text};
