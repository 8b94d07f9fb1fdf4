//! Writes as a caller gives them, and batches of writes.
//!
//! A `Write` updates or deletes one document. An update may have a mask, the paths that it speaks of, and transforms, which
//! change a field by what stands there. Both have a precondition. `Mask`, `Transforms`, `Values` and `Writes` are lists that
//! contracts see as such. A `Batch` is what was taken at once. `apply_local` says what a write makes of a document until the
//! backend has answered: of each path (`specs/Effect.antt`, `specs/Masks.antt`), and as a function (`specs/Local.antt`).
//! A masked update copies no more than the fields at the first names of its paths (`touched.rt`).
#![tactic(auto)]

mod acknowledged;
mod batch;
mod change;
mod effect;
mod laws;
mod lists;
mod mask;
mod results;
mod touched;
mod transform;
mod write;

pub use acknowledged::apply_result;
pub use batch::{Batch, Writes};
pub use effect::apply_local;
pub use laws::{appends_hold, changes_hold, effects_are_one, masks_hold, removes_hold};
pub use lists::{Mask, Values};
pub use results::{WriteRequest, WriteResponse, WriteResult, WriteResults, fit_writes};
pub use transform::{Change, Transform, Transforms};
pub use write::{Precondition, Write};
