ghost use Rattle.std.specs.Prelude.{◌≡◌};

use host_api::{Failed, FileId};
use std::alloc::{AllocError, AllocFailed};
use thiserror::Error;

/// Why two files could not be opened.
#[derive(Debug, Drop, Error)]
pub enum OpenFault {
    /// A call on a file failed.
    #[error("a journal file can't be read or written")]
    DiskFault,
    /// The file is neither blank nor a store's, and no file before it is so.
    #[error("this journal file isn't one of a store: {0:?}")]
    NotAStore(FileId),
    /// No memory was found.
    #[error("out of memory")]
    NoMemory,
}

impl From<Failed> for OpenFault {
    ghost use Rattle.disk_journal.specs.declared.fault.OpenFault.TheVariants.{DiskFault};

    ghost from_gives = { λ _ e. e ≡ DiskFault };

    fn from(_fault: Failed) -> OpenFault {
        OpenFault::DiskFault
    }
}

impl From<AllocError> for OpenFault {
    ghost use Rattle.disk_journal.specs.declared.fault.OpenFault.TheVariants.{NoMemory};

    ghost from_gives = { λ _ e. e ≡ NoMemory };

    fn from(_error: AllocError) -> OpenFault {
        OpenFault::NoMemory
    }
}

impl<T: Drop> From<AllocFailed<T>> for OpenFault {
    ghost use Rattle.disk_journal.specs.declared.fault.OpenFault.TheVariants.{NoMemory};

    ghost from_gives = { λ _ e. e ≡ NoMemory };

    fn from(_error: AllocFailed<T>) -> OpenFault {
        OpenFault::NoMemory
    }
}
