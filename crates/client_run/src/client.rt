ghost use Rattle.std.specs.Prelude.{◌≡◌, ◌≢◌, ◌⊎◌, map, IsTrue};
ghost use Rattle.std.specs.String.{string_bytes};
ghost use Rattle.document_keys.specs.Names.{Root};
ghost use Rattle.host_api.specs.Items.{split};
ghost use Rattle.client_run.specs.Agreement.{AgreesWithAll};
ghost use Rattle.client_run.specs.Words.{AsksNothing, AsksRun};
ghost use Rattle.client_run.specs.Crash.{Keeps};
ghost use Rattle.local_store.specs.Files.{FindsState};
ghost use Rattle.local_store.specs.State.{State};
ghost use Rattle.local_store.specs.Files.{IsNoStore};
ghost use Rattle.client_run.specs.Causes.{Causes, Completes, IsForeign, LeavesForeign};
ghost use Rattle.client_run.specs.Output.{called};
ghost use Rattle.client_run.specs.Run.{Ran, Kept};

use crate::run::run_within;
use crate::status::Status;
use crate::words::asked_database;
use host_api::{Host, Source};
use std::alloc::Global;

/// What the program does for its words, which leave out its name: `run DIR` and `run DIR DATABASE` run the lines of the source
/// over the store that the host keeps, for the database of that name or `projects/demo/databases/(default)`, at most
/// 4,294,967,296 of them. The host stands for the folder; its path isn't read here. What a crash leaves is said at
/// [`run_within`].
///
/// # Errors
/// `Usage` exactly where the words aren't such, or else `NoMemory`: DIR isn't empty and doesn't begin with `-`, and DATABASE is
/// `projects/{project}/databases/{database}` with two segments; nothing is read or written then. `NotAStore` exactly where the
/// files, being read, aren't those of a store: nothing is changed then. `SourceFault`, `DiskFault` and `SinkFault` only where
/// that count of faults rose by one, and no other one rose then; `Budget` exactly where 4,294,967,296 lines were handled; or `NoMemory`.
pub fn run_client<S: Source, H: Host>(
    alloc: Global,
    words: &[String],
    source: &mut S,
    host: &mut H,
) -> Status
    ensures usage { result ≡ Status.Usage → AsksNothing (map string_bytes words.now) }
    ensures no_run { AsksNothing (map string_bytes words.now)
        → (result ≡ Status.Usage) ⊎ (result ≡ Status.NoMemory) }
    ensures untouched { AsksNothing (map string_bytes words.now)
        → (source.new ≡ source.old) × (host.new ≡ host.old) }
    ensures run { IsTrue S.tells → IsTrue H.tells_files → (root : Root)
        → AsksRun (map string_bytes words.now) root
        → (s : State) → FindsState (H.view host.old).bytes s
        → Ran (called root (S.left source.old) s 4294967296 H.tells_out (H.view host.old).out)
        result (S.left source.new) (S.answered source.old) (S.answered source.new)
        (H.view host.old) (H.view host.new) }
    ensures kept { IsTrue S.tells → IsTrue H.tells_files → (root : Root)
        → AsksRun (map string_bytes words.now) root
        → (s : State) → FindsState (H.view host.old).bytes s
        → Kept result (called root (S.left source.old) s 4294967296 H.tells_out (H.view host.old).out)
        (H.view host.new).bytes }
    ensures agreement { IsTrue S.tells → IsTrue H.tells_files → (root : Root)
        → AsksRun (map string_bytes words.now) root
        → (s : State) → FindsState (H.view host.old).bytes s
        → AgreesWithAll
        (called root (S.left source.old) s 4294967296 H.tells_out (H.view host.old).out)
        (H.view host.old) (H.view host.new) }
    ensures not_a_store { result ≡ Status.NotAStore
        → IsForeign H.tells_files (H.view host.old) (H.view host.new) }
    ensures no_store { IsTrue H.tells_files → (root : Root) → AsksRun (map string_bytes words.now) root
        → IsNoStore (H.view host.old).bytes → LeavesForeign result (H.view host.old) (H.view host.new) }
    ensures untaken { IsTrue H.tells_files → IsNoStore (H.view host.old).bytes → source.new ≡ source.old }
    ensures never_kept { IsTrue H.tells_files → Keeps (H.view host.old) → result ≢ Status.NotAStore }
    ensures keeps { IsTrue H.tells_files → Keeps (H.view host.old) → Keeps (H.view host.new) }
    ensures completes { IsTrue S.tells → IsTrue H.tells_files → (root : Root)
        → AsksRun (map string_bytes words.now) root
        → Completes (split (S.left source.old)) 4294967296 result (S.faults source.old) (S.faults source.new)
        (H.view host.old) (H.view host.new) }
    ensures cause { Causes result (S.faults source.old) (S.faults source.new)
        (H.view host.old) (H.view host.new) }
{
    let Ok(asked) = asked_database(alloc, words) else {
        return Status::NoMemory;
    };
    let Some(root) = asked else {
        return Status::Usage;
    };
    run_within(alloc, root, source, host, 4_294_967_296)
}
