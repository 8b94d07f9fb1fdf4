ghost use Rattle.std.specs.Prelude.{◌≡◌};

use document_keys::NoMemory;
use host_api::Failed;
use thiserror::Error;

/// Why a commit wasn't made.
#[derive(Clone, Copy, Debug, PartialEq, Eq, Error)]
pub enum StoreFault {
    /// The disk failed, and the host counted it. The commit may have been made.
    #[error("the journal can't be written")]
    DiskFault,
    /// No memory was found. Nothing was written.
    #[error("out of memory")]
    NoMemory,
    /// An earlier commit met a disk fault. Nothing was done.
    #[error("an earlier commit met a disk fault")]
    Spent,
}

impl From<Failed> for StoreFault {
    ghost use Rattle.local_store.specs.declared.fault.StoreFault.TheVariants.{DiskFault};

    ghost from_gives = { λ _ e. e ≡ DiskFault };

    fn from(_failed: Failed) -> StoreFault {
        StoreFault::DiskFault
    }
}

impl From<NoMemory> for StoreFault {
    ghost use Rattle.local_store.specs.declared.fault.StoreFault.TheVariants as fault;

    ghost from_gives = { λ _ e. e ≡ fault.NoMemory };

    fn from(_error: NoMemory) -> StoreFault {
        StoreFault::NoMemory
    }
}
