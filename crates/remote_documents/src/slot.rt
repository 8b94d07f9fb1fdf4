use value_model::{Entry, Seal};

/// A place of the table of entries.
#[derive(Debug, Drop)]
pub enum Slot {
    /// Made for an entry that isn't there yet.
    Reserved,
    /// The key's entry, with its seal.
    Held(Entry, Seal),
}
