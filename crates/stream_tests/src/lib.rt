//! The tests of the crates of the streams, which stand on no disk and no input.
//!
//! It has tests and nothing else. They stand apart since a crate with tests is proved twice, so `watch_aggregator`,
//! `existence_filter`, `write_pipeline`, `limbo_resolver` and `limbo_listens` have none, and are tried through what they
//! export: `watching` tries lists of calls of a watch stream, contradictory ones among them, `writing` the codes at the
//! close of a stream of writes, and `limbo` and `shown` the listens of documents in limbo, by their keys and by the
//! listeners that show them. A test function owns one value, and hands it on by reference.
#![tactic(auto)]

#[cfg(test)]
mod limbo;
#[cfg(test)]
mod shown;
#[cfg(test)]
mod watching;
#[cfg(test)]
mod writing;
