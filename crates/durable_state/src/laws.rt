//! Laws of what a state lends, and of how entries rise. These functions do nothing: their contracts are the laws.

ghost use Rattle.durable_state.specs.Documents.{DocumentsAreLocal};
ghost use Rattle.durable_state.specs.Rising.{EntriesRise};

/// A state lends each local document that there is, and no other.
pub fn documents_are_local()
    ensures { DocumentsAreLocal }
{}

/// Entries only rise in version, or become seen at the same one, but at a drop; of a point this asks that each of its entries
/// replaces what is known.
pub fn entries_rise()
    ensures { EntriesRise }
{}
