//! Laws of agreement. Nothing is done when they run.

ghost use Rattle.agreement.specs.Laws.{SoundnessIsKept, SyncedSnapshotsAgree, EmptyIsSound, SoundCarriesOver, MomentsAreSound, StartsAreLive};
ghost use Rattle.agreement.specs.Laws.{HistoriesStand, FiltersTell, MessagesAreAllowed, IdsWait, WordsSuffice, TicksAreOrdered, SyncedRun, FlagsTell};
ghost use Rattle.agreement.specs.Streams.{StreamsAgree};
ghost use Rattle.agreement.specs.Answers.{AnswersAreDistinct, AnswersAreThere, DocumentsAreAnswered, AnswersAreKept};

/// What the client keeps stays sound over any allowed turns whose messages follow the backend's documents.
pub fn soundness_is_kept()
    ensures { SoundnessIsKept }
{}

/// And then each snapshot that isn't from the cache agrees with the backend's documents at the read time.
pub fn synced_snapshots_agree()
    ensures { SyncedSnapshotsAgree }
{}

/// A view's flag says that it isn't from the cache exactly where it is such a snapshot: its id is current, and nothing
/// is in limbo.
pub fn flags_tell()
    ensures { FlagsTell }
{}

/// An empty store is sound for each backend, and what stands on the disk at any moment of a run is sound for the next run.
pub fn runs_chain()
    ensures empty { EmptyIsSound }
    ensures next { SoundCarriesOver }
    ensures moments { MomentsAreSound }
    ensures live { StartsAreLive }
{}

/// What is asked of the answers of queries follows from what an answer is.
pub fn answers_suffice()
    ensures distinct { AnswersAreDistinct }
    ensures there { AnswersAreThere }
    ensures one { DocumentsAreAnswered }
    ensures kept { AnswersAreKept }
{}

/// A document of a history stands from its last write on.
pub fn histories_stand()
    ensures { HistoriesStand }
{}

/// Told keys that contain an answer, and are as many, are that answer.
pub fn filters_tell()
    ensures { FiltersTell }
{}

/// The turn that a message makes is one of those that are allowed.
pub fn messages_are_allowed()
    ensures { MessagesAreAllowed }
{}

/// An id that nothing uses stays so until it is asked for, so it may be given to another query.
pub fn ids_wait()
    ensures { IdsWait }
{}

/// A backend that keeps to more, as that its read times never fall, keeps to what is asked.
pub fn words_suffice()
    ensures { WordsSuffice }
{}

/// What the events of a run say of an id on a stream is what `listen_protocol` says of the stream's calls.
pub fn streams_agree()
    ensures { StreamsAgree }
{}

/// Times as numbers stand in the order of the moments, and none is 0.
pub fn ticks_are_ordered()
    ensures { TicksAreOrdered }
{}

/// A first sync of a query of a collection meets all premises.
pub fn first_sync_is_honest()
    ensures { SyncedRun }
{}
