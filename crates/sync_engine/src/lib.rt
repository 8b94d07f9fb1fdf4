//! What one event does to a client.
//!
//! A `Client` is opened over the files of a host. `Client::event` takes an `Event`: its commit is made before the answer, an
//! `Outcome` of lines (`Out`) or a refusal. Then the client is settled (`settling.rt`): each listener that the event concerns
//! is refreshed, and raises a snapshot where what it shows differs from what it last raised; `Client::snapshot` lends it. Last,
//! the requests go out that are due on the stream of listeners (`asking.rt`), and the pending batches that may be sent
//! (`sending.rt`). `watching.rt` has what comes on the stream of listeners, and `writing.rt` what comes on that of writes. After a
//! `ClientFault` the client is spent. What an event's turn is, `client_turns` says, from the state before it and the past, the
//! list of events that the client has heard; what the client keeps of these, `specs/Standing.antt` says part by part.
#![tactic(auto)]

mod asking;
mod client;
mod current;
mod dropping;
mod fault;
mod hearing;
mod listening;
mod out;
mod points;
mod resetting;
mod sending;
mod settling;
mod turns;
mod watch_stream;
mod watching;
mod write_stream;
mod writing;

pub use client::Client;
pub use fault::ClientFault;
pub use out::{Out, Outcome};
