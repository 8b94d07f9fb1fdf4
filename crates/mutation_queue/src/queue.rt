ghost use Rattle.std.specs.Prelude.{◌≡◌, ◌↔◌, ◌≤◌, [], ◌∷◌, ◌++◌, drop, take, length, map, IsTrue, IsOk, OnOk, OnErr, IfOk, option_and_then, option_map};
ghost use Rattle.std.specs.List.{Contains, slice_get};
ghost use Rattle.mutation_queue.specs.Line.{TakesFirst};
ghost use Rattle.mutation_queue.specs.Places.{FreesKeys, KeepsOtherRoom};
ghost use Rattle.mutation_queue.specs.Queue.{HasRoom, KeepsRoom, batch_past, first_place, keys_of, named_keys, naming};

use crate::line::Line;
use crate::places::KeyPlaces;
use document_keys::{DocumentKey, NoMemory};
use mutations::Batch;
use std::alloc::Global;
use std::marker::Model;

/// The batches that wait for the backend, the oldest first. Contracts see their list, and beside it the room for more, of
/// which `HasRoom` speaks.
#[derive(Debug, Drop)]
pub struct MutationQueue {
    line: Line,
    places: KeyPlaces,
    // so many batches were ever pushed: the next one's place
    pushed: u64,
    alloc: Global,
}

impl Model for MutationQueue {
    ghost use Rattle.mutation_queue.specs.Queue.{AreListed, Queue, queue_code};

    ghost Value = { Queue };

    ghost coded = { queue_code };

    ghost view = { λ queue. record { batches = queue.line.batches; spare = queue.line.spare; places = queue.places; pushed = queue.pushed } };

    ghost invariant = { λ queue. AreListed queue.line.batches queue.places queue.pushed };
}

impl MutationQueue {
    /// The empty queue, into which none was ever pushed. It takes no memory yet.
    pub fn new(alloc: Global) -> MutationQueue
        ensures batches { result.batches ≡ [] }
        ensures pushed { result.pushed ≡ 0 }
    {
        MutationQueue {
            line: Line::new(alloc),
            places: KeyPlaces::new(alloc),
            pushed: 0,
            alloc,
        }
    }

    /// Makes room for the batch, or for any that names no other keys. Nothing else changes.
    ///
    /// # Errors
    /// `NoMemory`, never where there is room.
    pub fn reserve(&mut self, batch: &Batch) -> Result<(), NoMemory>
        ensures same { self.new.batches ≡ self.old.batches }
        ensures held { KeepsRoom 0 [] self.old self.new }
        ensures room { OnOk result (HasRoom self.new batch.now.writes) }
        ensures kept { HasRoom self.old batch.now.writes → IsOk result }
    {
        if self.pushed == u64::MAX {
            return Err(NoMemory);
        }
        self.line.reserve()?;
        self.places.reserve_all(self.alloc, batch.writes.as_slice())
    }

    /// Puts the batch at the end, where there is room for it. It takes no memory.
    pub fn push_reserved(&mut self, batch: Batch)
        requires { HasRoom self.old batch.writes }
        ensures pushed { self.new.batches ≡ self.old.batches ++ batch ∷ [] }
        ensures held { KeepsRoom 1 (keys_of batch.writes) self.old self.new }
    {
        self.places.push_all(batch.writes.as_slice(), self.pushed);
        self.pushed += 1;
        self.line.push_reserved(batch);
    }

    /// Puts the batch at the end.
    ///
    /// # Errors
    /// `NoMemory`, never where there is room: the batches are then as before, and no room is used.
    pub fn push(&mut self, _alloc: Global, batch: Batch) -> Result<(), NoMemory>
        ensures done { OnOk result (self.new.batches ≡ self.old.batches ++ batch ∷ []) }
        ensures undone { OnErr result (self.new.batches ≡ self.old.batches) }
        ensures held { OnOk result (KeepsRoom 1 (keys_of batch.writes) self.old self.new) }
        ensures unused { OnErr result (KeepsRoom 0 [] self.old self.new) }
        ensures kept { HasRoom self.old batch.writes → IsOk result }
    {
        self.reserve(&batch)?;
        self.push_reserved(batch);
        Ok(())
    }

    /// The first batch, or `None` exactly where there is none.
    pub fn first(&self) -> Option<&Batch>
        ensures { option_map (λ batch. batch.now) result ≡ slice_get self.now.batches 0 }
    {
        self.line.as_slice().first()
    }

    /// The batch at the index, from 0, or `None` past the last.
    pub fn get(&self, index: u64) -> Option<&Batch>
        ensures { option_map (λ batch. batch.now) result ≡ slice_get self.now.batches index }
    {
        self.line.as_slice().get(index as usize)
    }

    /// Takes the first batch out; `None` exactly where there is none. Room that was made stays, but for that of its keys.
    pub fn remove_first(&mut self) -> Option<Batch>
        ensures taken { TakesFirst self.old.batches result self.new.batches }
        ensures spare { self.old.spare ≤ self.new.spare }
        ensures places { KeepsOtherRoom (named_keys (take 1 self.old.batches))
            self.old.places self.new.places }
        ensures gone { FreesKeys (named_keys (take 1 self.old.batches)) self.new.places }
        ensures pushed { self.new.pushed ≡ self.old.pushed }
    {
        let place = self.first_place();
        let first = self.line.take_first(self.alloc)?;
        self.places.remove_all(first.writes.as_slice(), place);
        Some(first)
    }

    /// Whether a write of a pending batch has the key.
    pub fn names(&self, key: &DocumentKey) -> bool
        ensures { IsTrue result ↔ Contains (named_keys self.now.batches) key.now }
    {
        self.places.last(key).is_some()
    }

    /// Whether a write of a pending batch behind the first one has the key. It looks at the key's last place alone.
    pub fn names_behind(&self, key: &DocumentKey) -> bool
        ensures { IsTrue result ↔ Contains (named_keys (drop 1 self.now.batches)) key.now }
    {
        match self.places.last(key) {
            Some(place) => place > self.first_place(),
            None => false,
        }
    }

    /// The pending batches that have a write of the key, in order, lent, but for those among the first `past`. It walks over
    /// the places of the key alone.
    ///
    /// # Errors
    /// `NoMemory`
    pub fn naming<'a>(
        &'a self,
        alloc: Global,
        key: &DocumentKey,
        past: u64,
    ) -> Result<Vec<&'a Batch>, NoMemory>
        ensures { IfOk result (λ found. map (λ b. b.now) found.items
            ≡ naming key.now (drop past self.now.batches)) }
    {
        let mut found = Vec::new(alloc);
        let Some(places) = self.places.of(key) else {
            return Ok(found);
        };
        for index in 0..places.len() {
            if let Some(batch) = self.at_place(places.get(index), past) {
                found.push(batch)?;
            }
        }
        Ok(found)
    }

    /// The batch of the place, unless it is one of the first `past`.
    fn at_place(&self, place: Option<u64>, past: u64) -> Option<&Batch>
        ensures { option_map (λ batch. batch.now) result
            ≡ option_and_then (batch_past past self.now) place }
    {
        let index = place?.saturating_sub(self.first_place());
        if index < past {
            return None;
        }
        self.get(index)
    }

    /// The place of the first batch.
    fn first_place(&self) -> u64
        ensures { result ≡ first_place self.now }
    {
        self.pushed - self.len()
    }

    /// The number of batches.
    pub fn len(&self) -> u64
        ensures { result ≡ length self.now.batches }
    {
        self.line.as_slice().len() as u64
    }

    /// The batches in order, lent.
    pub fn as_slice(&self) -> &[Batch]
        ensures { result.now ≡ self.now.batches }
    {
        self.line.as_slice()
    }
}
