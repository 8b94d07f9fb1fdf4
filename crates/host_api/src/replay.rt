ghost use Rattle.std.specs.Prelude.{◌≡◌, ◌↔◌, ◌⊎◌, ◌+◌, ◌<◌, ◌≤◌, ◌^◌, length, slice_index, unwrap_or, IsTrue, IfOk, OnOk};
ghost use Rattle.host_api.specs.Disk.{fresh, written, shortened, IsLoose, IsPicked};
ghost use Rattle.host_api.specs.Entries.{step_of, EndsWithin};
ghost use Rattle.host_api.specs.Past.{after};
ghost use Rattle.host_api.specs.Replayed.{disk_of};

use crate::contents::put;
use crate::host::FileId;
use crate::log::{Step, copied};
use std::alloc::{AllocError, Global};

// A file after some calls, and what a crash may leave of it.
#[derive(Drop)]
pub(crate) struct Replay {
    // what a read gives
    pub(crate) bytes: Vec<u8>,
    // the least and the greatest length since the last sync
    pub(crate) least: usize,
    pub(crate) greatest: usize,
    // where each range begins that was written since, and how long it is
    pub(crate) loose: Vec<(usize, usize)>,
}

impl Replay {
    // a file of these bytes, all of which are stable
    pub(crate) fn new(alloc: Global, bytes: &[u8]) -> Result<Replay, AllocError>
        ensures { IfOk result (λ replay. disk_of replay ≡ fresh bytes.now) }
    {
        let bytes = copied(alloc, bytes)?;
        let len = bytes.len();
        Ok(Replay {
            bytes,
            least: len,
            greatest: len,
            loose: Vec::new(alloc),
        })
    }

    fn write(&mut self, at: usize, piece: &[u8], done: bool) -> Result<(), AllocError>
        requires { at + length piece.now < 2 ^ 64 }
        ensures { OnOk result (disk_of self.new ≡ written at piece.now done (disk_of self.old)) }
    {
        self.loose.push((at, piece.len()))?;
        self.greatest = self.greatest.max(at + piece.len());
        if !done {
            return Ok(());
        }
        put(&mut self.bytes, at, piece)
    }

    fn cut(&mut self, len: usize, done: bool)
        ensures { disk_of self.new ≡ shortened len done (disk_of self.old) }
    {
        self.least = self.least.min(len);
        if done {
            self.bytes.truncate(len);
        }
    }

    fn sync(&mut self)
        ensures { disk_of self.new ≡ fresh (disk_of self.old).bytes }
    {
        self.least = self.bytes.len();
        self.greatest = self.bytes.len();
        self.loose.clear();
    }

    // goes on by one step
    pub(crate) fn apply(&mut self, file: FileId, step: &Step) -> Result<(), AllocError>
        requires { EndsWithin (step_of step.now) }
        ensures { OnOk result (disk_of self.new ≡ after file (step_of step.now) (disk_of self.old)) }
    {
        match step {
            Step::Write {
                file: on,
                at,
                piece,
                done,
            } if *on == file => self.write(*at, piece, *done)?,
            Step::Cut {
                file: on,
                len,
                done,
            } if *on == file => self.cut(*len, *done),
            Step::Sync(on) if *on == file => self.sync(),
            _ => {}
        }
        Ok(())
    }

    fn is_loose(&self, i: usize) -> bool
        ensures { IsTrue result ↔ IsLoose i self.now.loose.items }
    {
        self.loose
            .iter()
            .any(|range| range.0 <= i && i - range.0 < range.1)
    }

    // the byte that a crash leaves here
    fn picked(&self, i: usize, fill: Option<u8>) -> u8
        ensures stable { i < self.now.least → (IsLoose i self.now.loose.items → ⊥)
            → result ≡ slice_index self.now.bytes.items i }
        ensures loose { IsLoose i self.now.loose.items ⊎ self.now.least ≤ i
            → result ≡ unwrap_or fill (slice_index self.now.bytes.items i) }
    {
        let read = self.bytes.get(i).copied().unwrap_or(0);
        if i < self.least && !self.is_loose(i) {
            return read;
        }
        fill.unwrap_or(read)
    }

    // The bytes that a crash leaves: of this length, brought into what is allowed, and with this byte wherever any may be.
    pub(crate) fn left(
        &self,
        alloc: Global,
        len: u64,
        fill: Option<u8>,
    ) -> Result<Vec<u8>, AllocError>
        ensures { IfOk result (λ left. IsPicked (disk_of self.now) len fill left.items) }
    {
        let len = (len as usize).min(self.greatest).max(self.least);
        let mut left = Vec::with_capacity(alloc, len)?;
        for i in 0..len {
            left.push(self.picked(i, fill))?;
        }
        Ok(left)
    }
}
