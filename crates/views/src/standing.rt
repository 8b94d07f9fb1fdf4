//! What is known of a target, and what follows of the shown documents.

ghost use Rattle.std.specs.Prelude.{◌↔◌, IsTrue, IfOk};
ghost use Rattle.views.specs.Limbo.{IsFromCache, IsInLimbo};
ghost use Rattle.views.specs.Picks.{Picks};

use document_keys::{DocumentKey, KeySet, NoMemory};
use std::alloc::Global;
use value_model::Documents;

/// What is known of a listener's target: whether it is current, and the keys that the backend told of.
#[derive(Debug, Drop)]
pub struct Standing {
    pub current: bool,
    pub keys: KeySet,
}

impl Standing {
    /// Whether a shown key is in limbo.
    fn has_in_limbo<D: Documents>(&self, docs: &D, key: &DocumentKey) -> bool
        ensures { IsTrue result ↔ IsInLimbo self.now (D.touched_keys docs.now) key.now }
    {
        self.current && !self.keys.has(key) && !docs.touched(key)
    }

    /// The shown keys that are in limbo, in their order.
    ///
    /// # Errors
    /// `NoMemory`
    pub(crate) fn limbo<D: Documents>(
        &self,
        alloc: Global,
        docs: &D,
        shown: &[DocumentKey],
    ) -> Result<Vec<DocumentKey>, NoMemory>
        ensures { IfOk result (λ limbo. Picks
            (IsInLimbo self.now (D.touched_keys docs.now)) shown.now limbo.items) }
    {
        let mut limbo = Vec::new(alloc);
        for key in shown {
            if self.has_in_limbo(docs, key) {
                limbo.push(key.copy(alloc)?)?;
            }
        }
        Ok(limbo)
    }

    /// Whether what is shown is from the cache alone, where these keys are in limbo.
    pub(crate) fn is_from_cache(&self, limbo: &[DocumentKey]) -> bool
        ensures { IsFromCache self.now limbo.now result }
    {
        !(self.current && limbo.is_empty())
    }
}
