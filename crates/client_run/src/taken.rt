//! The turn of a line, but for its printing.

ghost use Rattle.std.specs.Prelude.{◌≡◌, IsTrue, IfOk, IsErrOf, OnOk};
ghost use Rattle.host_api.specs.Counts.{RisesAt};
ghost use Rattle.host_api.specs.Host.{KeepsOut};
ghost use Rattle.line_reader.specs.Spelled.{IsSpelledReading};
ghost use Rattle.local_store.specs.State.{State};
ghost use Rattle.local_store.specs.Store.{IsStored};
ghost use Rattle.client_turns.specs.Past.{Past};
ghost use Rattle.sync_engine.specs.Standing.{IsLive, IsStanding, StandsFor};
ghost use Rattle.client_run.specs.Taken.{IsTaken, MovesLine};
ghost use Rattle.client_run.specs.Turn.{CommitsOne};

use crate::turn_fault::TurnFault;
use host_api::Host;
use line_reader::{Reading, Refusal};
use std::alloc::Global;
use sync_engine::{Client, ClientFault, Outcome};

/// What a line came to.
#[derive(Drop)]
pub enum Taken {
    /// It is no event.
    Unread(Refusal),
    /// What its event came to.
    Heard(Outcome),
}

/// Takes the turn of a line: its commit is made, and its lines are handed out. Nothing is written to the output.
pub fn take<H: Host>(
    alloc: Global,
    host: &mut H,
    client: &mut Client,
    reading: Reading,
) -> Result<Taken, TurnFault>
    requires stored { IsTrue H.tells_files → IsStored client.old.store (H.view host.old) }
    requires live { IsLive client.old }
    requires standing { IsStanding client.old }
    requires spelled { IsSpelledReading reading }
    ensures turn { IfOk result (λ taken. (s : State) (past : Past) → StandsFor client.old s past
        → IsTaken s past reading taken client.new) }
    ensures live { OnOk result (IsLive client.new) }
    ensures root { client.new.root ≡ client.old.root }
    ensures stored { IsTrue H.tells_files → IsStored client.new.store (H.view host.new) }
    ensures files { IsTrue H.tells_files → (s : State) (past : Past) → StandsFor client.old s past
        → MovesLine s past reading (H.view host.old) (H.view host.new) }
    ensures meets { IsErrOf result TurnFault.DiskFault → (s : State) (past : Past)
        → StandsFor client.old s past → CommitsOne s past reading }
    ensures out { KeepsOut (H.view host.old) (H.view host.new) }
    ensures counts { RisesAt (IsErrOf result TurnFault.DiskFault)
        (H.view host.old).disk_faults (H.view host.new).disk_faults }
    ensures no_sink { IsErrOf result TurnFault.SinkFault → ⊥ }
{
    match reading {
        Reading::Refused(refusal) => Ok(Taken::Unread(refusal)),
        Reading::Line(event) => match client.event(alloc, host, event) {
            Ok(outcome) => Ok(Taken::Heard(outcome)),
            Err(ClientFault::DiskFault) => Err(TurnFault::DiskFault),
            Err(ClientFault::NoMemory) => Err(TurnFault::NoMemory),
            Err(ClientFault::Spent) => unreachable!(),
        },
    }
}
