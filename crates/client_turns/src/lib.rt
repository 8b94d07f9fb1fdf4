//! What an event comes to: turns, as definitions with their laws.
//!
//! A turn is what an event comes to, from the durable state before it and the past, the list of events that were heard: why it is
//! refused (`Refusal`), at most one commit, the lines that answer it and which documents are in limbo then. `specs/Past.antt` and
//! `specs/Watching.antt` read off the past what a client knows, as its listeners and the state of its connection (`OnlineState`);
//! `specs/Answers.antt` says what an event is answered with, `specs/Hearing.antt` and `specs/Writing.antt` what comes on the two
//! streams, `specs/Settling.antt` which snapshots are raised behind it, `specs/Asking.antt` which requests go out, and
//! `specs/Turn.antt` joins these. Nothing here is kept or done: `sync_engine` has the client whose events have these turns, and
//! `client_agreement` what follows from them. The laws are the contracts of functions with nothing to do.
#![tactic(auto)]

mod laws;
mod online;
mod refusal;

pub use laws::{a_turn_is_one, writes_go_in_order};
pub use online::OnlineState;
pub use refusal::Refusal;
