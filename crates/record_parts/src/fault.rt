ghost use Rattle.std.specs.Prelude.{◌≡◌, ◌≢◌};
ghost use Rattle.record_parts.specs.declared.fault.ReadError.TheVariants.{Memory};

use document_keys::{NameFault, NoMemory};
use std::alloc::{AllocError, AllocFailed};

/// Why nothing was read.
#[derive(Clone, Copy, Debug, PartialEq, Eq)]
pub enum ReadError {
    /// No memory was found.
    Memory,
    /// The bytes don't begin with what was to be read.
    NotSpelled,
}

impl From<NoMemory> for ReadError {
    ghost from_gives = { λ _ e. e ≡ Memory };

    fn from(_none: NoMemory) -> ReadError {
        ReadError::Memory
    }
}

impl From<NameFault> for ReadError {
    ghost use Rattle.record_parts.specs.Reading.{Fails};
    ghost use Rattle.document_keys.specs.declared.faults.NameFault.TheVariants as name;

    ghost from_gives = { λ fault e. Fails e (fault ≢ name.NoMemory) };

    fn from(fault: NameFault) -> ReadError {
        match fault {
            NameFault::NoMemory => ReadError::Memory,
            _ => ReadError::NotSpelled,
        }
    }
}

impl From<AllocError> for ReadError {
    ghost from_gives = { λ _ e. e ≡ Memory };

    fn from(_error: AllocError) -> ReadError {
        ReadError::Memory
    }
}

impl<T: Drop> From<AllocFailed<T>> for ReadError {
    ghost from_gives = { λ _ e. e ≡ Memory };

    fn from(_failed: AllocFailed<T>) -> ReadError {
        ReadError::Memory
    }
}
