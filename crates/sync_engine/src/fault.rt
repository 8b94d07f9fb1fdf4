ghost use Rattle.std.specs.Prelude.{◌≡◌};

use document_keys::NoMemory;
use std::alloc::AllocFailed;
use thiserror::Error;

/// Why an event wasn't handled to its end. The client is spent then.
#[derive(Clone, Copy, Debug, PartialEq, Eq, Error)]
pub enum ClientFault {
    /// The disk failed, and the host counted it. The event's commit may have been made.
    #[error("the journal can't be written")]
    DiskFault,
    /// No memory was found. The event's commit may have been made.
    #[error("out of memory")]
    NoMemory,
    /// An earlier event met a fault. Nothing was done.
    #[error("an earlier event met a fault")]
    Spent,
}

impl From<NoMemory> for ClientFault {
    ghost use Rattle.sync_engine.specs.declared.fault.ClientFault.TheVariants as fault;

    ghost from_gives = { λ _ e. e ≡ fault.NoMemory };

    fn from(_error: NoMemory) -> ClientFault {
        ClientFault::NoMemory
    }
}

impl<T: Drop> From<AllocFailed<T>> for ClientFault {
    ghost use Rattle.sync_engine.specs.declared.fault.ClientFault.TheVariants as fault;

    ghost from_gives = { λ _ e. e ≡ fault.NoMemory };

    fn from(_error: AllocFailed<T>) -> ClientFault {
        ClientFault::NoMemory
    }
}
