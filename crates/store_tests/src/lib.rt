//! The tests of the crates that stand on the world outside: sources of lines, hosts with their files, and journals.
//!
//! It has tests and nothing else. They stand apart since a crate with tests is proved twice, so `host_api` and
//! `disk_journal` have none, and are tried through what they export: `sources` and `folder` try the readers and
//! the folder of the operating system, `memory` the host in memory with its crashes, and `journal` and `stops` the journal,
//! opened, appended to, and stopped at each call; `stores` tries the store over it, and `settling` what the backend's side commits to it. A test function owns one value, and hands it on by reference.
#![tactic(auto)]

#[cfg(test)]
mod folder;
#[cfg(test)]
mod journal;
#[cfg(test)]
mod memory;
#[cfg(test)]
mod settling;
#[cfg(test)]
mod sources;
#[cfg(test)]
mod stops;
#[cfg(test)]
mod stores;
