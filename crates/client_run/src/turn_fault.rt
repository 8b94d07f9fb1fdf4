ghost use Rattle.std.specs.Prelude.{◌≡◌};
ghost use Rattle.client_run.specs.Turned.{status_of};

use crate::status::Status;
use document_keys::NoMemory;
use host_api::Failed;

/// Why a line wasn't handled to its end.
#[derive(Clone, Copy, Debug, PartialEq, Eq)]
pub enum TurnFault {
    /// The disk failed, and the host counted it. The line's commit may have been made.
    DiskFault,
    /// The output failed, and the host counted it. The line's commit was made.
    SinkFault,
    /// No memory was found.
    NoMemory,
}

impl From<NoMemory> for TurnFault {
    ghost use Rattle.client_run.specs.declared.turn_fault.TurnFault.TheVariants as fault;

    ghost from_gives = { λ _ e. e ≡ fault.NoMemory };

    fn from(_error: NoMemory) -> TurnFault {
        TurnFault::NoMemory
    }
}

// the output is the one device that a turn calls by itself
impl From<Failed> for TurnFault {
    ghost use Rattle.client_run.specs.declared.turn_fault.TurnFault.TheVariants.{SinkFault};

    ghost from_gives = { λ _ e. e ≡ SinkFault };

    fn from(_failed: Failed) -> TurnFault {
        TurnFault::SinkFault
    }
}

impl TurnFault {
    /// How a run ends that meets it.
    pub fn status(self) -> Status
        ensures { result ≡ status_of self }
    {
        match self {
            TurnFault::DiskFault => Status::DiskFault,
            TurnFault::SinkFault => Status::SinkFault,
            TurnFault::NoMemory => Status::NoMemory,
        }
    }
}
