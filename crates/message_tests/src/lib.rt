//! The tests of the streams' messages in JSON: what trees spell, which fault a tree has, and how requests are printed.
//!
//! It has tests and nothing else, since a crate with tests is proved twice. `faults` has a table of trees with a fault, `read`
//! what trees without one spell, `plain` which writes are built in one pass, `printed` requests and statuses. What a tree of a
//! whole line spells is tried by the worked examples, which the built program plays.
#![tactic(auto)]

#[cfg(test)]
mod faults;
#[cfg(test)]
mod plain;
#[cfg(test)]
mod printed;
#[cfg(test)]
mod read;
