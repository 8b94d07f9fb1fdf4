//! The tests of the run of a client, over a host and a source in memory: `client_run` has none of its own, since a crate
//! with tests is proved twice.
//!
//! They go through `run_client` and `run_within`: `runs` tries whole runs and their statuses, `listening` and `syncing` the
//! listeners before and after the stream of listeners is opened, `stops` the faults and the crashes after each call. What a run
//! prints on a line stands in the repository's worked examples. `spent` asks a client behind a fault, which no run does.
//! A test function owns one value, and hands it on by reference. `fixtures` has the lines and what makes hosts.
#![tactic(auto)]

#[cfg(test)]
mod fixtures;
#[cfg(test)]
mod listening;
#[cfg(test)]
mod runs;
#[cfg(test)]
mod spent;
#[cfg(test)]
mod stops;
#[cfg(test)]
mod syncing;
