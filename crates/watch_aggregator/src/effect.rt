//! What a message asks of the client, and why it is refused.

use document_keys::NoMemory;
use value_model::{RpcStatus, TargetIds, Timestamp};

/// What a message asks of the client besides what the aggregator keeps.
#[derive(Debug, Drop)]
pub enum Effect {
    Nothing,
    /// A point: what waits may be applied as of its read time.
    Point(Timestamp),
    /// A filter's count isn't the number of told keys.
    Mismatch { id: i32, told: u64, count: u64 },
    /// The live incarnations of these ids were ended, with the cause.
    Ended { ids: TargetIds, status: RpcStatus },
}

/// The member of a message for which it was refused.
#[derive(Clone, Copy, Debug, PartialEq, Eq)]
pub enum WatchMember {
    /// A REMOVE has no ids.
    TargetIds,
    /// A REMOVE of a live incarnation has no cause.
    Cause,
}

/// Why a message was refused: it breaks the rules of Listen, or memory was missing.
#[derive(Debug, Drop)]
pub enum WatchFault {
    BadMessage(WatchMember),
    NoMemory,
}

impl From<NoMemory> for WatchFault {
    ghost use Rattle.watch_aggregator.specs.declared.effect.WatchFault.TheVariants as fault;
    ghost use Rattle.std.specs.Prelude.{◌≡◌};

    ghost from_gives = { λ _ e. e ≡ fault.NoMemory };

    fn from(_error: NoMemory) -> WatchFault {
        WatchFault::NoMemory
    }
}
