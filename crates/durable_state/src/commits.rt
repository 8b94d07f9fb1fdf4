//! Each kind of commit made ready. The state stays; places are made for what it will put.

ghost use Rattle.std.specs.Prelude.{◌≡◌, ◌<◌, ◌≤◌, ℕ, IfOk, OnOk};
ghost use Rattle.durable_state.specs.Cached.{first_writes};
ghost use Rattle.record_codec.specs.declared.commit.Commit.TheVariants as commits;
ghost use Rattle.record_codec.specs.Spelling.{HasSpelling};
ghost use Rattle.durable_state.specs.Ready.{AreOf, HavePlaces, IsReady, first_keys, moved, put_changes, state_by};
ghost use Rattle.durable_state.specs.State.{Fits, committed, most_commits};
ghost use Rattle.durable_state.specs.Tables.{state_in};
ghost use Rattle.durable_state.specs.declared.ready.Step.TheVariants.{Settle};

use crate::durable_state::DurableState;
use crate::ready::{Ready, Step};
use crate::readying::{Answer, answered, make_places};
use crate::relaying::{lay_batch, lay_behind, lay_changed, lay_dropped};
use document_keys::{KeySet, NoMemory, Sequence};
use mutations::{Batch, WriteResults};
use outcome_codec::{KeyedEntry, PointRow};
use overlays::Overlays;
use queries::Target;
use record_codec::Commit;
use remote_documents::RemoteDocuments;
use std::alloc::Global;
use target_cache::TargetCache;
use value_model::{Seal, Timestamp};

/// Makes room for one target more. Only what has a target lists collections, so the documents are kept in order from then
/// on. Nothing else changes.
///
/// # Errors
/// `NoMemory`
fn make_room(
    entries: &mut RemoteDocuments,
    overlays: &mut Overlays,
    targets: &mut TargetCache,
) -> Result<(), NoMemory>
    ensures same_entries { entries.new ≡ entries.old }
    ensures same_overlays { overlays.new ≡ overlays.old }
    ensures same_rows { targets.new.rows ≡ targets.old.rows }
    ensures room { OnOk result (1 ≤ targets.new.spare) }
{
    entries.arrange()?;
    overlays.arrange()?;
    targets.reserve(1)
}

impl DurableState {
    /// Makes ready that the batch joins the pending ones.
    fn ready_batch(&mut self, alloc: Global, batch: Batch) -> Result<Ready, NoMemory>
        requires fits { Fits (state_in self.old) (commits.Enqueue batch) }
        requires has_spelling { HasSpelling (commits.Enqueue batch) }
        ensures same { state_in self.new ≡ state_in self.old }
        ensures ready { IfOk result (IsReady self.new) }
        ensures moves { IfOk result (λ ready. state_by (state_in self.old) ready
            ≡ committed (state_in self.old) (commits.Enqueue batch)) }
    {
        self.pending.reserve(&batch)?;
        let overlays = lay_batch(alloc, &mut self.overlays, &self.entries, &batch)?;
        let mut ready = Ready::alone(alloc, Step::Enqueue(batch));
        ready.overlays = overlays;
        Ok(ready)
    }

    /// Makes ready that the first pending batch leaves, and the entries change so, each with the seal.
    fn ready_settling(
        &mut self,
        alloc: Global,
        changes: Vec<KeyedEntry>,
        seal: Seal,
    ) -> Result<Ready, NoMemory>
        requires number { self.old.number < most_commits }
        requires places { HavePlaces self.old.entries changes.items }
        requires keys { AreOf (first_keys (first_writes self.old.pending.batches)) changes.items }
        ensures same { state_in self.new ≡ state_in self.old }
        ensures ready { IfOk result (IsReady self.new) }
        ensures moves { IfOk result (λ ready. state_by (state_in self.old) ready
            ≡ moved (state_in self.old) Settle (put_changes seal changes.items)) }
    {
        let relaid = lay_behind(
            alloc,
            &mut self.overlays,
            &self.pending,
            &self.entries,
            changes.as_slice(),
        )?;
        let mut ready = Ready::alone(alloc, Step::Settle);
        ready.changes = changes;
        ready.seal = seal;
        ready.overlays = relaid.laid;
        ready.lifted = relaid.lifted;
        Ok(ready)
    }

    /// Makes ready that the backend took the first pending batch.
    fn ready_answer(
        &mut self,
        alloc: Global,
        at: Timestamp,
        results: &WriteResults,
    ) -> Result<Ready, NoMemory>
        requires fits { (id : ℕ) × Fits (state_in self.old) (commits.Acknowledge id at results.now) }
        ensures same { state_in self.new ≡ state_in self.old }
        ensures ready { IfOk result (IsReady self.new) }
        ensures moves { IfOk result (λ ready. (id : ℕ) → state_by (state_in self.old) ready
            ≡ committed (state_in self.old) (commits.Acknowledge id at results.now)) }
    {
        let Some(first) = self.pending.first() else {
            unreachable!();
        };
        let answer = Answer {
            writes: first.writes.as_slice(),
            results: results.as_slice(),
            at,
        };
        let changes = answered(alloc, &mut self.entries, &answer)?;
        self.ready_settling(alloc, changes, Seal::Committed(at))
    }

    /// Makes ready that the target gets the next id.
    fn ready_target(&mut self, alloc: Global, target: Target) -> Result<Ready, NoMemory>
        requires { (id : ℕ) × Fits (state_in self.old) (commits.Allocate id target) }
        ensures same { state_in self.new ≡ state_in self.old }
        ensures ready { IfOk result (IsReady self.new) }
        ensures moves { IfOk result (λ ready. (id : ℕ) → state_by (state_in self.old) ready
            ≡ committed (state_in self.old) (commits.Allocate id target)) }
    {
        make_room(&mut self.entries, &mut self.overlays, &mut self.targets)?;
        Ok(Ready::alone(alloc, Step::Allocate(target)))
    }

    /// Makes ready what a point tells.
    fn ready_point(
        &mut self,
        alloc: Global,
        at: Timestamp,
        entries: Sequence<KeyedEntry>,
        rows: Sequence<PointRow>,
    ) -> Result<Ready, NoMemory>
        requires fits { Fits (state_in self.old) (commits.Point at entries rows) }
        requires has_spelling { HasSpelling (commits.Point at entries rows) }
        ensures same { state_in self.new ≡ state_in self.old }
        ensures ready { IfOk result (IsReady self.new) }
        ensures moves { IfOk result (λ ready. state_by (state_in self.old) ready
            ≡ committed (state_in self.old) (commits.Point at entries rows)) }
    {
        let changes = entries.into_vec();
        make_places(&mut self.entries, changes.as_slice())?;
        let overlays = lay_changed(alloc, &mut self.overlays, &self.pending, changes.as_slice())?;
        let mut ready = Ready::alone(alloc, Step::Tell(at, rows.into_vec()));
        ready.changes = changes;
        ready.seal = Seal::Seen;
        ready.overlays = overlays;
        Ok(ready)
    }

    /// Makes ready that entries go, and rows are made to hold nothing.
    fn ready_drop(
        &mut self,
        alloc: Global,
        keys: KeySet,
        ids: Sequence<u32>,
    ) -> Result<Ready, NoMemory>
        requires { Fits (state_in self.old) (commits.Drop keys ids) }
        ensures same { state_in self.new ≡ state_in self.old }
        ensures ready { IfOk result (IsReady self.new) }
        ensures moves { IfOk result (λ ready. state_by (state_in self.old) ready
            ≡ committed (state_in self.old) (commits.Drop keys ids)) }
    {
        let overlays = lay_dropped(alloc, &mut self.overlays, &self.pending, &keys)?;
        let mut ready = Ready::alone(alloc, Step::Blank(ids.into_vec()));
        ready.dropped = keys;
        ready.overlays = overlays;
        Ok(ready)
    }

    /// Makes the commit, which fits, ready: takes all memory that it needs. The state stays.
    ///
    /// # Errors
    /// `NoMemory`
    pub fn ready(&mut self, alloc: Global, commit: Commit) -> Result<Ready, NoMemory>
        requires fits { Fits (state_in self.old) commit }
        requires has_spelling { HasSpelling commit }
        ensures same { state_in self.new ≡ state_in self.old }
        ensures ready { IfOk result (IsReady self.new) }
        ensures moves { IfOk result (λ ready. state_by (state_in self.old) ready
            ≡ committed (state_in self.old) commit) }
    {
        match commit {
            Commit::Enqueue(batch) => self.ready_batch(alloc, batch),
            Commit::Acknowledge {
                batch: _,
                at,
                results,
            } => self.ready_answer(alloc, at, &results),
            Commit::Reject { batch: _ } => self.ready_settling(alloc, Vec::new(alloc), Seal::Seen),
            Commit::Allocate { id: _, target } => self.ready_target(alloc, target),
            Commit::Point { at, entries, rows } => self.ready_point(alloc, at, entries, rows),
            Commit::Reset { ids } => Ok(Ready::alone(alloc, Step::Blank(ids.into_vec()))),
            Commit::Drop { keys, ids } => self.ready_drop(alloc, keys, ids),
        }
    }
}
