ghost use Rattle.std.specs.Prelude.{◌≡◌, ◌+◌, ◌-◌, ◌^◌, ◌<◌, [], ◌∷◌, length, IfOk, OnOk, OnErr};
ghost use Rattle.host_api.specs.Past as past;

use crate::contents::Contents;
use crate::host::FileId;
use crate::replay::Replay;
use std::alloc::{AllocError, Global};
use std::marker::Model;

// what a call did or tried
#[derive(Drop)]
pub(crate) enum Step {
    Emit(Vec<u8>),
    Write {
        file: FileId,
        at: usize,
        piece: Vec<u8>,
        done: bool,
    },
    Cut {
        file: FileId,
        len: usize,
        done: bool,
    },
    Sync(FileId),
}

#[derive(Drop)]
pub(crate) struct Entry {
    // the number of the call, from 1
    pub(crate) number: u64,
    pub(crate) step: Step,
}

// a copy of these bytes
pub(crate) fn copied(alloc: Global, bytes: &[u8]) -> Result<Vec<u8>, AllocError>
    ensures { IfOk result (λ copy. copy.items ≡ bytes.now) }
{
    bytes.to_vec(alloc)
}

// The calls of a host in memory, with the output and the files as they read now.
#[derive(Drop)]
pub(crate) struct Log {
    alloc: Global,
    first: Contents,
    present: Contents,
    output: Vec<u8>,
    entries: Vec<Entry>,
    calls: u64,
}

impl Model for Log {
    ghost use Rattle.host_api.specs.Past.{Past};

    ghost Value = { Past };

    ghost use Rattle.host_api.specs.Contents.{held};
    ghost use Rattle.host_api.specs.Entries.{notes_of, IsKept};

    ghost view = { λ l. record { zero = l.first.zero.items; one = l.first.one.items; notes = notes_of l.entries.items; calls = l.calls } };

    ghost invariant = { λ l. IsKept (record { zero = l.first.zero.items; one = l.first.one.items; notes = notes_of l.entries.items; calls = l.calls }) (held l.present) l.output.items };
}

impl Log {
    ghost use Rattle.host_api.specs.Past.{Past, Grows, disk_at, output_at};
    ghost use Rattle.host_api.specs.Replayed.{disk_of};

    // No call yet, over files of these bytes, which come twice.
    pub(crate) fn new(alloc: Global, first: Contents, present: Contents) -> Log
        requires zero { present.zero.items ≡ first.zero.items }
        requires one { present.one.items ≡ first.one.items }
        ensures { result ≡ record { zero = first.zero.items; one = first.one.items; notes = []; calls = 0 } }
    {
        Log {
            alloc,
            first,
            present,
            output: Vec::new(alloc),
            entries: Vec::new(alloc),
            calls: 0,
        }
    }

    pub(crate) fn calls(&self) -> u64
        ensures { result ≡ self.now.calls }
    {
        self.calls
    }

    pub(crate) fn output(&self) -> &[u8]
        ensures { result.now ≡ output_at self.now.calls self.now }
    {
        &self.output
    }

    pub(crate) fn file(&self, file: FileId) -> &[u8]
        ensures { result.now ≡ (disk_at file self.now.calls self.now).bytes }
    {
        self.present.of(file)
    }

    // a file after the first calls
    pub(crate) fn replay(
        &self,
        alloc: Global,
        file: FileId,
        calls: u64,
    ) -> Result<Replay, AllocError>
        ensures { IfOk result (λ replay. disk_of replay ≡ disk_at file calls self.now) }
    {
        let mut replay = Replay::new(alloc, self.first.of(file))?;
        for entry in &self.entries {
            if entry.number <= calls {
                replay.apply(file, &entry.step)?;
            }
        }
        Ok(replay)
    }

    // a call that did nothing
    pub(crate) fn pass(&mut self)
        requires { self.old.calls < 2 ^ 64 - 1 }
        ensures past { Grows [] self.old self.new }
        ensures calls { self.new.calls ≡ self.old.calls + 1 }
    {
        self.calls += 1;
    }

    pub(crate) fn emit(&mut self, piece: &[u8]) -> Result<(), AllocError>
        requires { self.old.calls < 2 ^ 64 - 1 }
        ensures ok { OnOk result (Grows (past.emit piece.now ∷ []) self.old self.new) }
        ensures calls { OnOk result (self.new.calls ≡ self.old.calls + 1) }
        ensures err { OnErr result (self.new ≡ self.old) }
    {
        let copy = copied(self.alloc, piece)?;
        self.entries.reserve(1)?;
        self.output.extend_from_slice(piece)?;
        self.calls += 1;
        self.entries.push_reserved(Entry {
            number: self.calls,
            step: Step::Emit(copy),
        });
        Ok(())
    }

    // a write, which is done or fails
    pub(crate) fn write(
        &mut self,
        file: FileId,
        at: usize,
        piece: &[u8],
        done: bool,
    ) -> Result<(), AllocError>
        requires small { self.old.calls < 2 ^ 64 - 1 }
        requires within { at + length piece.now < 2 ^ 64 }
        ensures ok { OnOk result (Grows (past.write file at piece.now done ∷ []) self.old self.new) }
        ensures calls { OnOk result (self.new.calls ≡ self.old.calls + 1) }
        ensures err { OnErr result (self.new ≡ self.old) }
    {
        let copy = copied(self.alloc, piece)?;
        self.entries.reserve(1)?;
        self.present.put(file, at, piece, done)?;
        self.calls += 1;
        self.entries.push_reserved(Entry {
            number: self.calls,
            step: Step::Write {
                file,
                at,
                piece: copy,
                done,
            },
        });
        Ok(())
    }

    // a cut, which is done or fails
    pub(crate) fn cut(&mut self, file: FileId, len: usize, done: bool) -> Result<(), AllocError>
        requires { self.old.calls < 2 ^ 64 - 1 }
        ensures ok { OnOk result (Grows (past.cut file len done ∷ []) self.old self.new) }
        ensures calls { OnOk result (self.new.calls ≡ self.old.calls + 1) }
        ensures err { OnErr result (self.new ≡ self.old) }
    {
        self.entries.reserve(1)?;
        self.present.truncate(file, len, done);
        self.calls += 1;
        self.entries.push_reserved(Entry {
            number: self.calls,
            step: Step::Cut { file, len, done },
        });
        Ok(())
    }

    pub(crate) fn sync(&mut self, file: FileId) -> Result<(), AllocError>
        requires { self.old.calls < 2 ^ 64 - 1 }
        ensures ok { OnOk result (Grows (past.sync file ∷ []) self.old self.new) }
        ensures calls { OnOk result (self.new.calls ≡ self.old.calls + 1) }
        ensures err { OnErr result (self.new ≡ self.old) }
    {
        self.entries.reserve(1)?;
        self.calls += 1;
        self.entries.push_reserved(Entry {
            number: self.calls,
            step: Step::Sync(file),
        });
        Ok(())
    }
}
