//! Laws of clients and backends. Nothing is done when they run.

ghost use Rattle.client_agreement.specs.FirstSync.{SyncedRun};
ghost use Rattle.client_agreement.specs.LimboListens.{LimboListensStaySound};
ghost use Rattle.client_agreement.specs.Laws.{CommitsStaySound, EventsAreTurns, FoundStatesAreWellMade, SnapshotsAgree, SoundnessIsKept, StartIsSound, StatesStaySound, TokensStayKnown};

/// Each event that a client hears is a short list of turns that the theorem of agreement allows.
pub fn events_are_turns()
    ensures { EventsAreTurns }
{}

/// With an honest backend each event keeps what stands on the disk sound, and what is kept beside it right.
pub fn soundness_is_kept()
    ensures { SoundnessIsKept }
{}

/// With an honest backend each snapshot that isn't from the cache agrees with the backend's documents at the read time of its line.
pub fn snapshots_agree()
    ensures { SnapshotsAgree }
{}

/// And what is kept on the disk at any moment is sound for the next run: behind each event, and behind the commit of an event from
/// which nothing has gone out yet.
pub fn states_stay_sound()
    ensures behind { StatesStaySound }
    ensures between { CommitsStaySound }
{}

/// What the tokens stand for that a client got stays known, so that what is sound behind a first part of a run is behind all of it.
pub fn tokens_stay_known()
    ensures { TokensStayKnown }
{}

/// The state that files find is well made, as the laws ask of the first one.
pub fn found_states_are_well_made()
    ensures { FoundStatesAreWellMade }
{}

/// Whatever is heard, the listens of documents in limbo stay sound: at most 100 run, and none of their ids is given twice.
pub fn limbo_listens_stay_sound()
    ensures { LimboListensStaySound }
{}

/// An empty store is sound for each backend.
pub fn start_is_sound()
    ensures { StartIsSound }
{}

/// The premises of these laws can be met: a first sync is honest, and raises a snapshot of a document that isn't from the cache.
pub fn first_sync_is_honest()
    ensures { SyncedRun }
{}
