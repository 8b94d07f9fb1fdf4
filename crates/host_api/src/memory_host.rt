ghost use Rattle.std.specs.Prelude.{◌≡◌, ℕ, ◌+◌, ◌-◌, ◌^◌, ◌≤◌, ◌<◌, [], ◌∷◌, ◌++◌, length, slice_range, IsTrue, MatchBool, IfOk, OnOk, if◌then◌else◌};
ghost use Rattle.host_api.specs.Counts.{Counts};
ghost use Rattle.host_api.specs.Past as past;
ghost use Rattle.host_api.specs.Crash.{taken_calls};
ghost use Rattle.host_api.specs.Disk.{IsPicked};
ghost use Rattle.host_api.specs.Past.{Grows, disk_at, output_at};
ghost use Rattle.host_api.specs.Host.{IsPart, Emits, Stays, KeepsOut, Writes, Cuts, Syncs};
ghost use Rattle.host_api.specs.Memory.{host_view, Explains, IsFresh, IsFull, IsListed};
ghost use Rattle.host_api.specs.Outcome.{Tried, Counted, Settled};

use crate::contents::Contents;
use crate::host::{FILE_LIMIT, Failed, FileId, Host, NoMemory};
use crate::log::{Log, copied};
use std::alloc::Global;
use std::marker::Model;

/// How a crash of a [`MemHost`] goes.
#[derive(Clone, Copy, Debug, PartialEq, Eq)]
pub struct CrashPick {
    /// After how many calls it comes. All are taken where there were fewer.
    pub calls: u64,
    /// How long `journal.0` is then, brought between the least and the greatest length that a crash may leave.
    pub len0: u64,
    /// The same of `journal.1`.
    pub len1: u64,
    /// What stands at each place where any byte may; where none is given, what was written there, or 0 past the end.
    pub fill: Option<u8>,
}

/// A host in memory, of which chosen calls fail, and which can crash. It keeps a list of all that its calls did.
///
/// A call fails exactly where its number, from 1, is listed, where a file is or would be longer than 2^62 bytes, or
/// where there is no memory for it. Each failure raises the count of its device; one for want of memory, and no other,
/// also raises [`MemHost::starved`]. A failed write or cut leaves the file as it reads, but a crash may tear it. After
/// 18,446,744,073,709,551,615 calls each further one fails, and isn't counted among the calls.
#[derive(Drop)]
pub struct MemHost {
    log: Log,
    failing: Vec<u64>,
    starved: u64,
    sink_faults: u64,
    disk_faults: u64,
}

impl Model for MemHost {
    ghost use Rattle.host_api.specs.Memory.{Memory};

    ghost Value = { Memory };

    ghost view = { λ h. record { past = h.log; failing = h.failing.items; starved = h.starved; sink_faults = h.sink_faults; disk_faults = h.disk_faults } };
}

// how a call went
#[derive(Clone, Copy, PartialEq, Eq)]
enum Outcome {
    Done,
    Failing,
    Starved,
}

impl MemHost {
    /// A host over files of these bytes. The calls with these numbers, from 1, answer `Failed`.
    ///
    /// # Errors
    /// There was no memory for a copy of the files.
    pub fn new(
        alloc: Global,
        file0: Vec<u8>,
        file1: Vec<u8>,
        failing: Vec<u64>,
    ) -> Result<MemHost, NoMemory>
        ensures { IfOk result (λ host. IsFresh file0.items file1.items failing.items host) }
    {
        let first = Contents {
            zero: copied(alloc, &file0)?,
            one: copied(alloc, &file1)?,
        };
        let present = Contents {
            zero: file0,
            one: file1,
        };
        Ok(MemHost {
            log: Log::new(alloc, first, present),
            failing,
            starved: 0,
            sink_faults: 0,
            disk_faults: 0,
        })
    }

    /// What was written to the output.
    pub fn output(&self) -> &[u8]
        ensures { result.now ≡ (host_view self.now).out }
    {
        self.log.output()
    }

    /// What a read of the file gives.
    pub fn file(&self, file: FileId) -> &[u8]
        ensures { result.now ≡ (host_view self.now).bytes file }
    {
        self.log.file(file)
    }

    /// How many calls there were.
    pub fn calls(&self) -> u64
        ensures { result ≡ (host_view self.now).moment }
    {
        self.log.calls()
    }

    /// How many of the failed calls found no memory.
    pub fn starved(&self) -> u64
        ensures { result ≡ self.now.starved }
    {
        self.starved
    }

    /// A host over what a crash left of the files, whose calls don't fail.
    ///
    /// # Errors
    /// There was no memory for the files.
    pub fn crash(&self, alloc: Global, pick: &CrashPick) -> Result<MemHost, NoMemory>
        ensures left { IfOk result (λ crashed. (t : ℕ) → t ≤ taken_calls pick.now self.now
            → (host_view self.now).left_since t
            (output_at (taken_calls pick.now self.now) self.now.past) (host_view crashed).bytes) }
        ensures zero { IfOk result (λ crashed. IsPicked
            (disk_at FileId.Zero (taken_calls pick.now self.now) self.now.past) pick.now.len0
            pick.now.fill ((host_view crashed).bytes FileId.Zero)) }
        ensures one { IfOk result (λ crashed. IsPicked
            (disk_at FileId.One (taken_calls pick.now self.now) self.now.past) pick.now.len1
            pick.now.fill ((host_view crashed).bytes FileId.One)) }
        ensures fresh { IfOk result (λ crashed. IsFresh ((host_view crashed).bytes FileId.Zero)
            ((host_view crashed).bytes FileId.One) [] crashed) }
    {
        let calls = pick.calls.min(self.log.calls());
        let zero = self.log.replay(alloc, FileId::Zero, calls)?;
        let one = self.log.replay(alloc, FileId::One, calls)?;
        let file0 = zero.left(alloc, pick.len0, pick.fill)?;
        let file1 = one.left(alloc, pick.len1, pick.fill)?;
        MemHost::new(alloc, file0, file1, Vec::new(alloc))
    }

    fn is_full(&self) -> bool
        ensures { MatchBool result (IsFull self.now) (self.now.past.calls < 2 ^ 64 - 1) }
    {
        self.log.calls() == u64::MAX
    }

    // whether the next call is one of those that fail
    fn is_listed(&self) -> bool
        requires { self.now.past.calls < 2 ^ 64 - 1 }
        ensures { MatchBool result (IsListed self.now) (IsListed self.now → ⊥) }
    {
        let number = self.log.calls() + 1;
        self.failing.contains(&number)
    }

    // counts a call that did nothing
    fn pass(&mut self)
        ensures past { Grows [] self.old.past self.new.past }
        ensures counted { Counted self.old self.new }
    {
        if !self.is_full() {
            self.log.pass();
        }
    }

    // A call that changes nothing, and may be refused.
    fn look(&mut self, refused: bool) -> Outcome
        ensures tried { Tried (λ _. []) (IsTrue refused) result self.old self.new }
        ensures counted { Counted self.old self.new }
    {
        let failing = refused || self.is_full() || self.is_listed();
        self.pass();
        if failing {
            Outcome::Failing
        } else {
            Outcome::Done
        }
    }

    fn try_emit(&mut self, piece: &[u8]) -> Outcome
        ensures tried { Tried (λ done. if done then past.emit piece.now ∷ [] else []) ⊥ result
            self.old self.new }
        ensures counted { Counted self.old self.new }
    {
        if self.is_full() || self.is_listed() {
            self.pass();
            return Outcome::Failing;
        }
        match self.log.emit(piece) {
            Ok(()) => Outcome::Done,
            Err(_) => {
                self.pass();
                Outcome::Starved
            }
        }
    }

    fn try_write(&mut self, file: FileId, at: u64, piece: &[u8]) -> Outcome
        requires { at ≤ length ((host_view self.old).bytes file) }
        ensures tried { Tried (λ done. past.write file at piece.now done ∷ [])
            (2 ^ 62 < at + length piece.now) result self.old self.new }
        ensures counted { Counted self.old self.new }
    {
        let fits = at <= FILE_LIMIT && piece.len() as u64 <= FILE_LIMIT - at;
        if !fits || self.is_full() {
            self.pass();
            return Outcome::Failing;
        }
        let listed = self.is_listed();
        match self.log.write(file, at as usize, piece, !listed) {
            Ok(()) if listed => Outcome::Failing,
            Ok(()) => Outcome::Done,
            Err(_) => {
                self.pass();
                Outcome::Starved
            }
        }
    }

    fn try_cut(&mut self, file: FileId, len: u64) -> Outcome
        ensures tried { Tried (λ done. past.cut file len done ∷ []) ⊥ result self.old self.new }
        ensures counted { Counted self.old self.new }
    {
        if self.is_full() {
            return Outcome::Failing;
        }
        let listed = self.is_listed();
        match self.log.cut(file, len as usize, !listed) {
            Ok(()) if listed => Outcome::Failing,
            Ok(()) => Outcome::Done,
            Err(_) => {
                self.pass();
                Outcome::Starved
            }
        }
    }

    fn try_sync(&mut self, file: FileId) -> Outcome
        ensures tried { Tried (λ done. if done then past.sync file ∷ [] else []) ⊥ result self.old self.new }
        ensures counted { Counted self.old self.new }
    {
        if self.is_full() || self.is_listed() {
            self.pass();
            return Outcome::Failing;
        }
        match self.log.sync(file) {
            Ok(()) => Outcome::Done,
            Err(_) => {
                self.pass();
                Outcome::Starved
            }
        }
    }

    // the answer of a call on the output, whose failure is counted
    fn settle_sink(&mut self, outcome: Outcome) -> Result<(), Failed>
        ensures settled { Settled outcome result self.old self.new }
        ensures disk_faults { self.new.disk_faults ≡ self.old.disk_faults }
        ensures cause { Counts result self.old.sink_faults self.new.sink_faults }
    {
        if outcome == Outcome::Done {
            return Ok(());
        }
        if outcome == Outcome::Starved {
            self.starved = self.starved.saturating_add(1);
        }
        self.sink_faults = self.sink_faults.saturating_add(1);
        Err(Failed)
    }

    // the answer of a call on a file, whose failure is counted
    fn settle_disk(&mut self, outcome: Outcome) -> Result<(), Failed>
        ensures settled { Settled outcome result self.old self.new }
        ensures sink_faults { self.new.sink_faults ≡ self.old.sink_faults }
        ensures cause { Counts result self.old.disk_faults self.new.disk_faults }
    {
        if outcome == Outcome::Done {
            return Ok(());
        }
        if outcome == Outcome::Starved {
            self.starved = self.starved.saturating_add(1);
        }
        self.disk_faults = self.disk_faults.saturating_add(1);
        Err(Failed)
    }
}

impl Host for MemHost {
    ghost use Rattle.std.specs.Prelude.{true};
    ghost use Rattle.host_api.specs.Memory.{host_view};
    ghost use Rattle.host_api.specs.PastLaws.{past_counts_now, past_only_now, past_may_stay};

    ghost tells_out = { true };

    ghost tells_files = { true };

    ghost view = { host_view };

    fn emit(&mut self, piece: &[u8]) -> Result<(), Failed>
        ensures done { OnOk result ((host_view self.new).out ≡ (host_view self.old).out ++ piece.now) }
        ensures out { IsPart piece.now (host_view self.old).out (host_view self.new).out }
        ensures files { Emits piece.now (host_view self.old) (host_view self.new) }
        ensures disk_faults { (host_view self.new).disk_faults ≡ (host_view self.old).disk_faults }
        ensures cause { Counts result (host_view self.old).sink_faults (host_view self.new).sink_faults }
        ensures explains { Explains (λ done.
            if done then past.emit piece.now ∷ [] else []) ⊥ result self.old self.new }
    {
        let outcome = self.try_emit(piece);
        self.settle_sink(outcome)
    }

    fn file_len(&mut self, file: FileId) -> Result<u64, Failed>
        ensures len { IfOk result (λ n. n ≡ length ((host_view self.old).bytes file)) }
        ensures small { IfOk result (λ n. n ≤ 2 ^ 62) }
        ensures files { Stays (host_view self.old) (host_view self.new) }
        ensures out { KeepsOut (host_view self.old) (host_view self.new) }
        ensures cause { Counts result (host_view self.old).disk_faults (host_view self.new).disk_faults }
        ensures explains { Explains (λ _. [])
            (2 ^ 62 < length ((host_view self.old).bytes file)) result self.old self.new }
    {
        let len = self.file(file).len() as u64;
        let outcome = self.look(len > FILE_LIMIT);
        self.settle_disk(outcome)?;
        Ok(len)
    }

    fn read(&mut self, file: FileId, at: u64, into: &mut [u8]) -> Result<(), Failed>
        requires { at + length into.old ≤ length ((host_view self.old).bytes file) }
        ensures done { OnOk result (into.new
            ≡ slice_range ((host_view self.old).bytes file) at (at + length into.old)) }
        ensures files { Stays (host_view self.old) (host_view self.new) }
        ensures out { KeepsOut (host_view self.old) (host_view self.new) }
        ensures cause { Counts result (host_view self.old).disk_faults (host_view self.new).disk_faults }
        ensures explains { Explains (λ _. []) ⊥ result self.old self.new }
    {
        let start = at as usize;
        into.copy_from_slice(&self.file(file)[start..start + into.len()]);
        let outcome = self.look(false);
        self.settle_disk(outcome)
    }

    fn write(&mut self, file: FileId, at: u64, piece: &[u8]) -> Result<(), Failed>
        requires { at ≤ length ((host_view self.old).bytes file) }
        ensures files { Writes file at piece.now result (host_view self.old) (host_view self.new) }
        ensures small { OnOk result (at + length piece.now ≤ 2 ^ 62) }
        ensures out { KeepsOut (host_view self.old) (host_view self.new) }
        ensures cause { Counts result (host_view self.old).disk_faults (host_view self.new).disk_faults }
        ensures explains { Explains (λ done. past.write file at piece.now done ∷ [])
            (2 ^ 62 < at + length piece.now) result self.old self.new }
    {
        let outcome = self.try_write(file, at, piece);
        self.settle_disk(outcome)
    }

    fn cut(&mut self, file: FileId, len: u64) -> Result<(), Failed>
        requires { len ≤ length ((host_view self.old).bytes file) }
        ensures files { Cuts file len result (host_view self.old) (host_view self.new) }
        ensures out { KeepsOut (host_view self.old) (host_view self.new) }
        ensures cause { Counts result (host_view self.old).disk_faults (host_view self.new).disk_faults }
        ensures explains { Explains (λ done. past.cut file len done ∷ []) ⊥ result self.old self.new }
    {
        let outcome = self.try_cut(file, len);
        self.settle_disk(outcome)
    }

    fn sync(&mut self, file: FileId) -> Result<(), Failed>
        ensures files { Syncs file result (host_view self.old) (host_view self.new) }
        ensures out { KeepsOut (host_view self.old) (host_view self.new) }
        ensures cause { Counts result (host_view self.old).disk_faults (host_view self.new).disk_faults }
        ensures explains { Explains (λ done.
            if done then past.sync file ∷ [] else []) ⊥ result self.old self.new }
    {
        let outcome = self.try_sync(file);
        self.settle_disk(outcome)
    }

    ghost counts_now = { λ h t c told le may. past_counts_now h.past t c le may };

    ghost only_now = { λ h o c told left. past_only_now h.past o c left };

    ghost may_stay = { λ h told. past_may_stay h.past };
}
