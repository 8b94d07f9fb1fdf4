//! What the messages of one watch stream add up to, for each target id.
//!
//! An `Aggregator` is told each request that goes out and each `ListenResponse` that comes in, and stands for the list of these
//! calls (`specs/Standing.antt`): what it answers is what `listen_protocol` says of that list. `message` answers an `Effect`,
//! what the client has to do, or a `WatchFault`, after which it stands for the same lists. `apply_point` hands out a
//! `WatchPoint`: the entries that waited, and each counting id as a `WatchTarget`. `told`, `is_current` and `is_asked` speak of one id.
#![tactic(auto)]

mod aggregator;
mod buffer;
mod effect;
mod point;
mod told;
mod watched;

pub use aggregator::Aggregator;
pub use effect::{Effect, WatchFault, WatchMember};
pub use point::{WatchPoint, WatchTarget};
