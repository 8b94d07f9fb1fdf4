//! The lines that a run writes: compact JSON with its newline.
//!
//! One function prints each line, from its parts: the answers of a write, of a listen and of an unlisten (`answer`), a document
//! (`document`), a snapshot of a listener (`snapshot`), the requests and results of the stream of writes (`writing`), the requests and
//! errors of the stream of listeners (`watching`) and the refusals (`refusal`). Answers, documents and snapshots are put piece by
//! piece, the others by way of a tree (`line`). `specs/Lines.antt` has the tree of each line, and `line_of` its bytes.
//! `specs/Reported.antt` says which numbers of commits an output reports.
#![tactic(auto)]

mod answer;
mod document;
mod laws;
mod line;
mod pieces;
mod refusal;
mod snapshot;
mod watching;
mod writing;

pub use answer::{print_listening, print_unlistened, print_wrote};
pub use document::{print_found, print_missing};
pub use laws::a_line_reports_once;
pub use refusal::{
    print_bad_line, print_bad_message, print_bad_name, print_bad_query, print_bad_writes,
    print_ids_spent, print_listener_taken, print_no_listener, print_stream_state, print_too_deep,
    print_too_long, print_unsupported,
};
pub use snapshot::print_snapshot;
pub use watching::{print_add_target, print_error, print_remove_target};
pub use writing::{print_batch, print_handshake, print_rejected, print_result};
