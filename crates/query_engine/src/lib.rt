//! The answer of a query over the documents of a store.
//!
//! `rows` gives the keys of the answer in the order of the query (`IsAnswer`, of the crate `queries`, says what it is). It
//! takes the keys of the collection once, borrows their documents from the store, and copies no document: a row is a
//! `DocRef`. Without a limit it sorts the matching rows once. With a limit it holds at most twice as many rows: when there
//! are so many it sorts them and keeps the front.
#![tactic(auto)]

mod answer;
mod kept;

pub use answer::rows;
