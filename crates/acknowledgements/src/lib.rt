//! What the backend's answer to a batch leaves of one key's entry.
//!
//! Each write of a batch has a version: the update time of its result, or without one the time of the commit. The greatest
//! version of a key's writes says whether the answer tells news of the key: an entry that is below it, or none at all, is
//! replaced by what the key's writes leave of it, in order, each at that version; any other one stays. `acknowledged_entry`
//! is the way in: it gives the entry anew, or none where it stays, and copies nothing then. It looks at the writes of the key
//! alone. `specs/Acked.antt` says the same as a function and as a relation, and `laws.rt` that the two agree.
#![tactic(auto)]

mod acked;
mod laws;

pub use acked::acknowledged_entry;
pub use laws::{acks_hold, greatest_holds};
