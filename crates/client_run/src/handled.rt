//! One line, from its reading to its answer.

ghost use Rattle.std.specs.Prelude.{◌≡◌, ◌<◌, ◌^◌, IsTrue, IfErr, IsErrOf, IfSome, OnOk};
ghost use Rattle.line_reader.specs.Spelled.{IsSpelledReading};
ghost use Rattle.local_store.specs.State.{State};
ghost use Rattle.local_store.specs.Store.{IsStored};
ghost use Rattle.client_turns.specs.Past.{Past};
ghost use Rattle.sync_engine.specs.Standing.{IsLive, IsStanding, StandsFor};
ghost use Rattle.client_turns.specs.Writing.{first_batch};
ghost use Rattle.client_run.specs.Laws.{IsCounted};
ghost use Rattle.client_run.specs.Turn.{CommitsOne};
ghost use Rattle.client_run.specs.Turned.{IsHandled, Stopped, Turned, TurnCounts, coming};

use crate::printing::print_taken;
use crate::taken::take;
use crate::turn_fault::TurnFault;
use host_api::Host;
use line_reader::Reading;
use local_store::LocalStore;
use mutations::Batch;
use std::alloc::Global;
use sync_engine::Client;

/// The id of the batch.
fn id_of(batch: &Batch) -> u64
    ensures id { result ≡ batch.now.id }
    ensures within { batch.now.id < 2 ^ 64 }
{
    batch.id
}

/// Shows that eight bytes have the id of the first pending batch.
fn show_first(store: &LocalStore)
    ensures { IfSome (first_batch store.now.state) (λ batch. batch.id < 2 ^ 64) }
{
    if let Some(first) = store.pending().first() {
        let _id = id_of(first);
    }
}

/// Handles one line: what it commits is on the disk before its lines go out, in one call of `emit`, or in none where there
/// are no lines. `number` is that of the
/// line in the run, from 1.
pub fn handle<H: Host>(
    alloc: Global,
    host: &mut H,
    client: &mut Client,
    number: u64,
    reading: Reading,
) -> Result<(), TurnFault>
    requires stored { IsTrue H.tells_files → IsStored client.old.store (H.view host.old) }
    requires live { IsLive client.old }
    requires standing { IsStanding client.old }
    requires spelled { IsSpelledReading reading }
    ensures done { OnOk result ((s : State) (past : Past) → StandsFor client.old s past
        → IsHandled (coming client.old.root s past reading number) client.new
        H.tells_out (H.view host.old).out (H.view host.new).out) }
    ensures stopped { IfErr result (λ fault. IsTrue H.tells_out
        → (s : State) (past : Past) → StandsFor client.old s past
        → Stopped (coming client.old.root s past reading number) fault
        (H.view host.old).out (H.view host.new).out) }
    ensures live { OnOk result (IsLive client.new) }
    ensures standing { OnOk result (IsStanding client.new) }
    ensures counted { IsCounted client.old.store.state }
    ensures root { client.new.root ≡ client.old.root }
    ensures stored { IsTrue H.tells_files → IsStored client.new.store (H.view host.new) }
    ensures files { IsTrue H.tells_files → (s : State) (past : Past) → StandsFor client.old s past
        → Turned (coming client.old.root s past reading number)
        (H.view host.old) (H.view host.new) }
    ensures meets { IsErrOf result TurnFault.DiskFault → (s : State) (past : Past)
        → StandsFor client.old s past → CommitsOne s past reading }
    ensures counts { TurnCounts result (H.view host.old) (H.view host.new) }
{
    let _number = client.store().number();
    let _next = client.store().targets().next_id();
    show_first(client.store());
    let taken = take(alloc, host, client, reading)?;
    let text = print_taken(alloc, client, number, &taken)?;
    if text.as_str().is_empty() {
        return Ok(());
    }
    host.emit(text.as_str().as_bytes())?;
    Ok(())
}
