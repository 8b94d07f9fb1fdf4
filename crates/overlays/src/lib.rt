//! The local documents of the keys that pending writes name.
//!
//! `Overlays` keeps, for each such key, the document that the pending writes make of what is known of it
//! (`specs/LocalDocument.antt`), so that a look-up lends it without laying on a write. Contracts see a finite map from keys
//! to optional documents (`specs/Table.antt`). `prepare` and `extend` work out an `Overlay` and take memory; `reserve` makes a
//! place; `set` cannot fail then. `arrange` keeps the places in order for listings. `is_of_fields` and `are_of_fields` test
//! what is asked of the batches.
#![tactic(auto)]

mod laying;
mod overlays;
mod slot;

pub use laying::{are_of_fields, is_of_fields};
pub use overlays::{Overlay, Overlays};
pub use slot::Slot;
