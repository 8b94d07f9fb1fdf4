//! The places of a batch's writes by the key that they name.
//!
//! `KeyedWrites` lends the writes of a batch, and tells the places of those that have one key (`specs/Keyed.antt`): `first`, and
//! `after` each of them the next. Neither walks over the batch, so that to go over the writes of each of its keys costs what the
//! batch has, and not its square. Of few writes no table is made: they are looked at one by one.
#![tactic(auto)]

mod keyed;
mod links;

pub use keyed::KeyedWrites;
