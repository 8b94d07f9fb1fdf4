//! The tests of the crates that stand on no disk and no input: names, values, writes, their JSON and their bytes.
//!
//! It has tests and nothing else. They stand apart since a crate with tests is proved twice, so `document_keys`,
//! `value_model`, `mutations`, `json_model`, `json_rpc` and `record_codec` have none, and are tried through what they export.
//! What writes make of documents, and the faults of values and writes in JSON, are tried by the worked examples. A module for
//! each subject: `names`, `times`, `order`, `fields`, `messages`, `writes`, `tables`, `paths`, `records`, `commits`, `requests`, `trees`.
//! What several need to make a value stands in `fixtures`. A test function owns one value, and hands it on by reference.
#![tactic(auto)]

#[cfg(test)]
mod commits;
#[cfg(test)]
mod fields;
#[cfg(test)]
mod fixtures;
#[cfg(test)]
mod messages;
#[cfg(test)]
mod names;
#[cfg(test)]
mod order;
#[cfg(test)]
mod paths;
#[cfg(test)]
mod records;
#[cfg(test)]
mod requests;
#[cfg(test)]
mod tables;
#[cfg(test)]
mod times;
#[cfg(test)]
mod trees;
#[cfg(test)]
mod writes;
