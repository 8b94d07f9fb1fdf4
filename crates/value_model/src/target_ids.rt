ghost use Rattle.std.specs.Prelude.{◌≡◌, IfOk};

use document_keys::NoMemory;
use std::alloc::Global;
use std::marker::Model;

/// Ids of targets, in the order of a message. Contracts see them as the list of the ids.
#[derive(Debug, Drop)]
pub struct TargetIds {
    ids: Vec<i32>,
}

impl Model for TargetIds {
    ghost use Rattle.std.specs.Prelude.{List, ℤ};

    ghost Value = { List ℤ };

    ghost view = { λ targets. targets.ids.items };
}

impl TargetIds {
    /// The ids of the `Vec`, which it takes over.
    pub fn from_vec(ids: Vec<i32>) -> TargetIds
        ensures { result ≡ ids.items }
    {
        TargetIds { ids }
    }

    /// The ids, lent.
    pub fn as_slice(&self) -> &[i32]
        ensures { result.now ≡ self.now }
    {
        self.ids.as_slice()
    }

    /// A copy.
    ///
    /// # Errors
    /// `NoMemory`
    pub fn copy(&self, alloc: Global) -> Result<TargetIds, NoMemory>
        ensures { IfOk result (λ targets. targets ≡ self.now) }
    {
        let ids = self.ids.as_slice().to_vec(alloc)?;
        Ok(TargetIds { ids })
    }
}
