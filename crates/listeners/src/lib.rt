//! The listeners of a client: what each of them shows, and which of them a change of a document
//! concerns.
//!
//! `Listeners` keeps a `views::View` for the id of each listener, and the id of its target. Contracts
//! see both by id (`specs/Table.antt`). Beside them it keeps two indexes of the ids. One has them by
//! places (`places.rt`): a query of a document stands at its key, and one of a collection at the
//! least key that a document of the collection can have (`specs/Places.antt`). So those that a change
//! of a document concerns (`specs/Concerns.antt`) are found at two places, its key and the least key
//! of its collection, in logarithmic time. The other has them by the ids of their targets
//! (`targets.rt`), so that those of a target are found as fast. `Listeners::refresh` refreshes one
//! view in place; the laws say when a refresh has nothing to tell (`specs/Laws.antt`).
#![tactic(auto)]

mod id_set;
mod indexes;
mod laws;
mod listener;
mod listeners;
mod place;
mod places;
mod targets;

pub use laws::{
    raised_stays_settled, refresh_is_one, refresh_settles, settled_stays, settled_stays_touched,
};
pub use listeners::Listeners;
