//! What the lines of a source ask of a client.
//!
//! `read_item` takes an item of a source to its `Reading`: the `Event` that it is, or the `Refusal` of one that is none. The
//! line is read as JSON (`line.rt`): that of a plain batch into a tree that borrows from it (`batch.rt`), any other into one of its
//! own. This is taken apart by the tables of `json_model` into a `RawEvent`, or answered by its first fault (`tree.rt`). A message
//! of either stream that has faults is no bad line: it is an event that tells the member of the first one. What then breaks the
//! rules of batches or of queries is refused last (`raw_event.rt`). Which reading an item has stands in `specs/Reading.antt`, and
//! `one_reading` says that it has just one.
#![tactic(auto)]

mod batch;
mod laws;
mod line;
mod raw_event;
mod reading;
mod refusal;
mod tree;

pub use laws::one_reading;
pub use line::read_item;
pub use raw_event::RawEvent;
pub use reading::Reading;
pub use refusal::Refusal;
