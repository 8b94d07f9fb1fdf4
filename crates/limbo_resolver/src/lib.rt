//! Which documents in limbo are listened to by themselves, and under which ids.
//!
//! A `LimboResolver` is told which keys are in limbo (`update`), and answers which listens end and which start, as a
//! `LimboChange`. Contracts see it as three values (`specs/Limbo.antt`): the running listens, the keys that wait and the next
//! id. It holds all keys in one ordered set, of which the first run: a key that starts is not moved, and none is copied but
//! the new ones and those that start.
#![tactic(auto)]

mod ids;
mod keys;
mod laws;
mod resolver;

pub use laws::listens_stay_sound;
pub use resolver::{LimboChange, LimboResolver};
