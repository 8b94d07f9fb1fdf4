//! The run of a client: lines in, answers out, a journal between.
//!
//! `run_client` takes the words of a call, and `run_within` is the run itself: it opens the `Client`, and then each line is read
//! as a `Reading` (an event, or why it is none), the client takes its turn, in which its commit is made, and the lines that answer
//! it are printed and go out together (`handled.rt`). A `Status` says how a run ends. What one line does, `specs/Turn.antt` says;
//! what is promised of all of them, `Output`, `Crash`, `Causes` and `Agreement`, one file for each clause.
#![tactic(auto)]

mod client;
mod handled;
mod laws;
mod printing;
mod run;
mod status;
mod taken;
mod turn_fault;
mod words;

pub use client::run_client;
pub use laws::{a_history_is_one, a_turn_reports_within, runs_chain, runs_write_in_order};
pub use run::run_within;
pub use status::Status;
pub use words::folder_of;
