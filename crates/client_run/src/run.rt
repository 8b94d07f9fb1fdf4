ghost use Rattle.std.specs.Prelude.{◌≡◌, ◌≢◌, ◌≤◌, [], IsTrue};
ghost use Rattle.host_api.specs.Items.{split};
ghost use Rattle.client_run.specs.Agreement.{AgreesWithAll};
ghost use Rattle.client_run.specs.Causes.{Causes, Completes, IsForeign, LeavesForeign, IsServed};
ghost use Rattle.client_run.specs.Crash.{Keeps};
ghost use Rattle.client_run.specs.Output.{called};
ghost use Rattle.client_run.specs.Run.{Ran, Kept};
ghost use Rattle.local_store.specs.Files.{FindsState, IsNoStore};
ghost use Rattle.local_store.specs.State.{State};
ghost use Rattle.local_store.specs.Store.{IsStored};
ghost use Rattle.sync_engine.specs.Standing.{IsLive, IsStanding, StandsFor};

use crate::handled::handle;
use crate::status::Status;
use disk_journal::OpenFault;
use document_keys::Database;
use host_api::{Host, Line, Source, SourceFault};
use line_reader::read_item;
use plain_json::Room;
use std::alloc::Global;
use std::mem;
use sync_engine::Client;

/// Reads and handles the lines of the source, one after another, at most as many as the budget.
fn serve<S: Source, H: Host>(
    alloc: Global,
    source: &mut S,
    host: &mut H,
    client: &mut Client,
    budget: u64,
) -> Status
    requires stored { IsTrue H.tells_files → IsStored client.old.store (H.view host.old) }
    requires live { IsLive client.old }
    requires standing { IsStanding client.old }
    ensures run { IsTrue S.tells → IsTrue H.tells_files → (s : State) → StandsFor client.old s []
        → Ran (called client.old.root (S.left source.old) s budget H.tells_out (H.view host.old).out)
        result (S.left source.new) (S.answered source.old) (S.answered source.new)
        (H.view host.old) (H.view host.new) }
    ensures kept { IsTrue S.tells → IsTrue H.tells_files → (s : State) → StandsFor client.old s []
        → Kept result (called client.old.root (S.left source.old) s budget H.tells_out (H.view host.old).out)
        (H.view host.new).bytes }
    ensures keeps { IsTrue H.tells_files → Keeps (H.view host.new) }
    ensures serving { IsServed result }
    ensures cause { Causes result (S.faults source.old) (S.faults source.new)
        (H.view host.old) (H.view host.new) }
{
    let mut text = Vec::new(alloc);
    let mut room = Room::new(alloc);
    for handled in 0..budget {
        let line = match source.line(alloc, &mut text) {
            Ok(line) => line,
            Err(SourceFault::Failed) => return Status::SourceFault,
            Err(SourceFault::NoMemory) => return Status::NoMemory,
        };
        if let Line::End = line {
            return Status::Done;
        }
        let Ok(reading) = read_item(alloc, client.root(), line, text.as_slice(), &mut room) else {
            return Status::NoMemory;
        };
        match handle(alloc, host, client, handled + 1, reading) {
            Ok(()) => {}
            Err(fault) => return fault.status(),
        }
    }
    Status::Budget
}

/// A run of at most `budget` lines over the database `root`: the client is opened, and then each line is read, and what it
/// commits is on the disk before its answer goes out. So wherever a crash comes, the files find the state after the first
/// commits of the run, among which is every one that a whole `ok` line names; and files of a store stay such.
///
/// # Errors
/// `NotAStore` exactly where the files, being read, aren't those of a store. Over such files nothing is changed, written or
/// taken, whatever the answer. `SourceFault`, `DiskFault` and `SinkFault` only where that count of faults rose by one, and no
/// other one rose then; `Budget` exactly where as many lines were handled as the budget allows; `Done` exactly at the end of
/// the source before that; or `NoMemory`.
pub fn run_within<S: Source, H: Host>(
    alloc: Global,
    root: Database,
    source: &mut S,
    host: &mut H,
    budget: u64,
) -> Status
    requires budget { 1 ≤ budget }
    ensures run { IsTrue S.tells → IsTrue H.tells_files → (s : State) → FindsState (H.view host.old).bytes s
        → Ran (called root (S.left source.old) s budget H.tells_out (H.view host.old).out)
        result (S.left source.new) (S.answered source.old) (S.answered source.new)
        (H.view host.old) (H.view host.new) }
    ensures kept { IsTrue S.tells → IsTrue H.tells_files → (s : State)
        → FindsState (H.view host.old).bytes s
        → Kept result (called root (S.left source.old) s budget H.tells_out (H.view host.old).out)
        (H.view host.new).bytes }
    ensures agreement { IsTrue S.tells → IsTrue H.tells_files → (s : State)
        → FindsState (H.view host.old).bytes s
        → AgreesWithAll (called root (S.left source.old) s budget H.tells_out (H.view host.old).out)
        (H.view host.old) (H.view host.new) }
    ensures not_a_store { result ≡ Status.NotAStore
        → IsForeign H.tells_files (H.view host.old) (H.view host.new) }
    ensures no_store { IsTrue H.tells_files → IsNoStore (H.view host.old).bytes
        → LeavesForeign result (H.view host.old) (H.view host.new) }
    ensures untaken { IsTrue H.tells_files → IsNoStore (H.view host.old).bytes → source.new ≡ source.old }
    ensures never_kept { IsTrue H.tells_files → Keeps (H.view host.old) → result ≢ Status.NotAStore }
    ensures keeps { IsTrue H.tells_files → Keeps (H.view host.old) → Keeps (H.view host.new) }
    ensures completes { IsTrue S.tells → IsTrue H.tells_files
        → Completes (split (S.left source.old)) budget result (S.faults source.old) (S.faults source.new)
        (H.view host.old) (H.view host.new) }
    ensures words { result ≢ Status.Usage }
    ensures cause { Causes result (S.faults source.old) (S.faults source.new)
        (H.view host.old) (H.view host.new) }
{
    let mut client = match Client::open(alloc, host, root) {
        Ok(client) => client,
        Err(OpenFault::DiskFault) => return Status::DiskFault,
        Err(OpenFault::NotAStore(_)) => return Status::NotAStore,
        Err(OpenFault::NoMemory) => return Status::NoMemory,
    };
    let status = serve(alloc, source, host, &mut client, budget);
    // the process ends next: what the client holds isn't given back piece by piece
    mem::forget(client);
    status
}
