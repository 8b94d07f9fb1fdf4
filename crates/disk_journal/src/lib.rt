//! The two gated files of a store: a journal that stands after a crash at any moment.
//!
//! A file has a header and records, each behind a gate of one byte that is open where it is 1 (`specs/File.antt`). A
//! `Journal` is opened once: both files are synced and read, the one of the higher generation counts, and where both are
//! blank one is formatted. It hands out the `Payloads` of the counting file, lent from the one buffer that was read.
//! `Journal::append` writes a `Frame` behind a closed gate, syncs, opens the gate and syncs again, so that a crash leaves
//! the payloads from before or with the new one; after a failure there is no journal any more. `OpenFault` says why files
//! are no store.
#![tactic(auto)]

mod choice;
mod entry;
mod fault;
mod format;
mod frame;
mod journal;
mod landing;
mod laws;
mod look;
mod payloads;
mod reading;

pub use fault::OpenFault;
pub use frame::Frame;
pub use journal::Journal;
pub use laws::{a_file_is_read_once, two_files_give_once};
pub use payloads::Payloads;
