//! The messages of the streams Listen and Write as JSON trees: what one of the backend's without faults spells, and the one
//! printed form of each request.
//!
//! The form of such a tree is a table of `json_model`, by whose walk its faults are found. `read_listen_response` and
//! `read_write_response` read what the backend sends, `read_status` the status of a call that ended, and each has a total reader
//! over trees without faults (`clean_listen_response`). `print_listen_request` and `print_write_request` print what the client
//! asks, `print_add_request` and `print_batch_request` the same from parts that are lent, `print_status` what its lines tell.
//! `parts` has members that may be left out, `target_change` and `document` the kinds of a watch stream's message.
#![tactic(auto)]

mod document;
mod laws;
mod listen_request;
mod listen_response;
mod parts;
mod status;
mod target_change;
mod write_request;
mod write_response;

pub use laws::{a_tree_spells_one_answer, a_tree_spells_one_response, a_tree_spells_one_status};
pub use listen_request::{print_add_request, print_listen_request};
pub use listen_response::{clean_listen_response, read_listen_response};
pub use status::{clean_status, print_status, read_status};
pub use write_request::{print_batch_request, print_write_request};
pub use write_response::{clean_write_response, read_write_response};
