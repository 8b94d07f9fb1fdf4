//! Where a query stands in the index of listeners.

ghost use Rattle.std.specs.Prelude.{◌≡◌, IfOk};
ghost use Rattle.listeners.specs.Places.{place_of};

use document_keys::{DocumentKey, NoMemory};
use queries::Target;
use std::alloc::Global;

/// Where the query stands.
///
/// # Errors
/// `NoMemory`
pub(crate) fn place_of(alloc: Global, target: &Target) -> Result<DocumentKey, NoMemory>
    ensures { IfOk result (λ key. key ≡ place_of target.now) }
{
    match target {
        Target::Document(key) => key.copy(alloc),
        Target::Collection(target) => DocumentKey::least_in(alloc, &target.collection),
    }
}
