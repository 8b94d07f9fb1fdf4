ghost use Rattle.std.specs.Prelude.{◌≡◌, ◌+◌, ◌<◌, ◌≤◌, [], ◌∷◌, ◌++◌, IsOk, OnOk};
ghost use Rattle.mutation_queue.specs.Line.{TakesFirst};

use document_keys::NoMemory;
use mutations::{Batch, Writes};
use std::alloc::Global;
use std::marker::Model;
use std::mem;
use value_model::Timestamp;

/// Batches that wait in a line. Contracts see their list, and how many more find a place. The first so many of the `Vec` have
/// left and are empty; they are thrown out together, once they are more than those that wait.
#[derive(Debug, Drop)]
pub(crate) struct Line {
    batches: Vec<Batch>,
    left: usize,
}

impl Model for Line {
    ghost use Rattle.std.specs.Prelude.{◌-◌, ◌≤◌, vec_len, drop};
    ghost use Rattle.std.specs.Vec.{vec_capacity};
    ghost use Rattle.mutation_queue.specs.Line.{Waiting, waiting_code};

    ghost Value = { Waiting };

    ghost coded = { waiting_code };

    ghost view = { λ line. record { batches = drop line.left line.batches.items; spare = vec_capacity line.batches - vec_len line.batches } };

    ghost invariant = { λ line. line.left ≤ vec_len line.batches };
}

/// What stands in the place of a batch that has left. It takes no memory.
fn no_batch(alloc: Global) -> Batch {
    Batch {
        id: 0,
        at: Timestamp {
            seconds: 0,
            nanos: 0,
        },
        writes: Writes::from_vec(Vec::new(alloc)),
    }
}

impl Line {
    /// The empty line. It takes no memory yet.
    pub(crate) fn new(alloc: Global) -> Line
        ensures { result.batches ≡ [] }
    {
        Line {
            batches: Vec::new(alloc),
            left: 0,
        }
    }

    /// The batches that wait, lent.
    pub(crate) fn as_slice(&self) -> &[Batch]
        ensures { result.now ≡ self.now.batches }
    {
        &self.batches.as_slice()[self.left..]
    }

    /// Makes a place for one more.
    ///
    /// # Errors
    /// `NoMemory`
    pub(crate) fn reserve(&mut self) -> Result<(), NoMemory>
        ensures same { self.new.batches ≡ self.old.batches }
        ensures room { OnOk result (0 < self.new.spare) }
        ensures kept { 0 < self.old.spare → IsOk result }
        ensures spare { self.old.spare ≤ self.new.spare }
    {
        self.batches.reserve(1)?;
        Ok(())
    }

    /// Puts the batch at the end, where there is a place.
    pub(crate) fn push_reserved(&mut self, batch: Batch)
        requires { 0 < self.old.spare }
        ensures pushed { self.new.batches ≡ self.old.batches ++ batch ∷ [] }
        ensures spare { self.old.spare ≤ self.new.spare + 1 }
    {
        self.batches.push_reserved(batch);
    }

    /// Throws out those that have left, if they are more than those that wait.
    fn close_up(&mut self)
        ensures same { self.new.batches ≡ self.old.batches }
        ensures spare { self.old.spare ≤ self.new.spare }
    {
        let waiting = self.batches.len() - self.left;
        if self.left > waiting {
            self.batches.rotate_left(self.left);
            self.batches.truncate(waiting);
            self.left = 0;
        }
    }

    /// Takes the first batch out, or nothing where none waits.
    pub(crate) fn take_first(&mut self, alloc: Global) -> Option<Batch>
        ensures taken { TakesFirst self.old.batches result self.new.batches }
        ensures spare { self.old.spare ≤ self.new.spare }
    {
        if self.left == self.batches.len() {
            return None;
        }
        let first = mem::replace(&mut self.batches[self.left], no_batch(alloc));
        self.left += 1;
        self.close_up();
        Some(first)
    }
}
