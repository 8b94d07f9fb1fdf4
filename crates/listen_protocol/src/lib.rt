//! What the messages of one watch stream say, as definitions: nothing here runs.
//!
//! A list of `Call`s (`specs/Calls.antt`) has what was done on one stream, the newest first: requests, messages, and points that
//! were applied or skipped. `specs/Transcript.antt` reads off it, by the words of the Listen calls, which incarnation of a
//! target id is live and counts, which keys it was told, whether it is CURRENT, and its token; `specs/Incarnations.antt` has the
//! incarnations one by one, `specs/ToldKeys.antt` the told keys as a set, `specs/Buffer.antt` the entries that wait for a
//! point. The laws between them are exported as functions. `watch_aggregator` stands for such a list.
#![tactic(auto)]

mod laws;

pub use laws::{counting_is_live, live_is_counted, told_keys_are_told};
