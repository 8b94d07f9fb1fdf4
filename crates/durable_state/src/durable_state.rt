ghost use Rattle.std.specs.Prelude.{◌≡◌, ◌↔◌, ◌≤◌, ◌+◌, IsTrue, option_map};
ghost use Rattle.durable_state.specs.Documents.{sealed_entry_of};
ghost use Rattle.durable_state.specs.Ready.{IsReady, state_by};
ghost use Rattle.durable_state.specs.State.{Fits, Suits, most_commits, start};
ghost use Rattle.durable_state.specs.Tables.{state_in};

use crate::applying::{forget, lay, lift, put, take_step};
use crate::fitting::{is_allocation, is_answered, is_drop, is_first, is_point, is_reset};
use crate::ready::Ready;
use document_keys::DocumentKey;
use mutation_queue::MutationQueue;
use overlays::Overlays;
use record_codec::Commit;
use remote_documents::RemoteDocuments;
use std::alloc::Global;
use std::marker::Model;
use target_cache::TargetCache;
use value_model::{Entry, Seal, Timestamp};

/// The greatest number that a commit may have.
pub const MOST_COMMITS: u64 = 9_223_372_036_854_775_807;

/// The most writes that a batch may have.
const MOST_WRITES: usize = 500;

/// The durable state in memory. Contracts see the tables that hold it, with the room in them, and by `state_in` the state.
#[derive(Drop)]
pub struct DurableState {
    number: u64,
    next_batch: u64,
    last_read: Option<Timestamp>,
    pub(crate) pending: MutationQueue,
    pub(crate) entries: RemoteDocuments,
    pub(crate) targets: TargetCache,
    pub(crate) overlays: Overlays,
    alloc: Global,
}

impl Model for DurableState {
    ghost use Rattle.durable_state.specs.Tables.{IsKept, Tables, tables_code};

    ghost Value = { Tables };

    ghost coded = { tables_code };

    ghost view = { λ s. record { number = s.number; next_batch = s.next_batch; last_read = s.last_read; pending = s.pending; entries = s.entries; targets = s.targets; overlays = s.overlays } };

    ghost invariant = { λ s. IsKept (record { number = s.number; next_batch = s.next_batch; last_read = s.last_read; pending = s.pending; entries = s.entries; targets = s.targets; overlays = s.overlays }) };
}

impl DurableState {
    /// The state before any commit. It takes no memory yet.
    pub fn new(alloc: Global) -> DurableState
        ensures { state_in result ≡ start }
    {
        let entries = RemoteDocuments::new(alloc);
        entries.is_map();
        DurableState {
            number: 0,
            next_batch: 1,
            last_read: None,
            pending: MutationQueue::new(alloc),
            entries,
            targets: TargetCache::new(alloc),
            overlays: Overlays::new(alloc),
            alloc,
        }
    }

    /// The number of commits.
    pub fn number(&self) -> u64
        ensures number { result ≡ (state_in self.now).number }
        ensures within { (state_in self.now).number ≤ most_commits }
        ensures next { (state_in self.now).next_batch ≤ (state_in self.now).number + 1 }
    {
        self.number
    }

    /// The id of the next batch.
    pub fn next_batch(&self) -> u64
        ensures { result ≡ (state_in self.now).next_batch }
    {
        self.next_batch
    }

    /// The last read time, if there was a point.
    pub fn last_read(&self) -> Option<Timestamp>
        ensures { result ≡ (state_in self.now).last_read }
    {
        self.last_read
    }

    /// The pending batches, lent.
    pub fn pending(&self) -> &MutationQueue
        ensures { result.now.batches ≡ (state_in self.now).batches }
    {
        &self.pending
    }

    /// The targets, lent.
    pub fn targets(&self) -> &TargetCache
        ensures { result.now.rows ≡ (state_in self.now).rows }
    {
        &self.targets
    }

    /// The entry of the key and its seal, lent; `None` exactly where there is no entry.
    pub fn entry(&self, key: &DocumentKey) -> Option<(&Entry, &Seal)>
        ensures { option_map (λ pair. (pair.0.now, pair.1.now)) result
            ≡ sealed_entry_of (state_in self.now) key.now }
    {
        self.entries.entry(key)
    }

    /// Whether the commit suits the state.
    fn suits(&self, commit: &Commit) -> bool
        ensures { IsTrue result ↔ Suits (state_in self.now) commit.now }
    {
        match commit {
            Commit::Enqueue(batch) => {
                let writes = batch.writes.as_slice().len();
                batch.id == self.next_batch && writes >= 1 && writes <= MOST_WRITES
            }
            Commit::Acknowledge {
                batch,
                at: _,
                results,
            } => is_answered(&self.pending, *batch, results.as_slice()),
            Commit::Reject { batch } => is_first(&self.pending, *batch),
            Commit::Allocate { id, target } => is_allocation(&self.targets, *id, target),
            Commit::Point {
                at,
                entries: _,
                rows,
            } => is_point(self.last_read, *at, &self.targets, rows.as_slice()),
            Commit::Reset { ids } => is_reset(&self.targets, ids.as_slice()),
            Commit::Drop { keys, ids } => is_drop(&self.targets, keys, ids.as_slice()),
        }
    }

    /// Whether the commit fits the state.
    pub fn fits(&self, commit: &Commit) -> bool
        ensures { IsTrue result ↔ Fits (state_in self.now) commit.now }
    {
        self.number < MOST_COMMITS && self.suits(commit)
    }

    /// Makes the change that is ready. It takes no memory.
    pub fn apply(&mut self, ready: Ready)
        requires { IsReady self.old ready }
        ensures { state_in self.new ≡ state_by (state_in self.old) ready }
    {
        let Ready {
            step,
            changes,
            seal,
            dropped,
            overlays,
            lifted,
        } = ready;
        self.number += 1;
        self.next_batch = step.next_batch(self.next_batch);
        self.last_read = step.last_read(self.last_read);
        take_step(self.alloc, &mut self.pending, &mut self.targets, step);
        put(&mut self.entries, changes, seal);
        forget(&mut self.entries, &dropped);
        lay(&mut self.overlays, overlays);
        lift(&mut self.overlays, lifted);
    }
}
