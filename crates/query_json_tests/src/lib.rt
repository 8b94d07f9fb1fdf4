//! The tests of queries in JSON: what trees spell, which fault a tree has, and how deep filters nest.
//!
//! It has tests and nothing else, since a crate with tests is proved twice. `faults` has tables of trees with a fault, `spelled`
//! what trees without one spell, `targets` how what is checked of them is printed. What queries answer is tried in
//! `query_tests`, over documents and not over trees.
#![tactic(auto)]

#[cfg(test)]
mod faults;
#[cfg(test)]
mod spelled;
#[cfg(test)]
mod targets;
