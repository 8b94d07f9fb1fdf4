ghost use Rattle.std.specs.Prelude.{◌≡◌, ℕ, ◌+◌, ◌^◌, ◌≤◌, Bool, List, ◌++◌, length, slice_range, IsTrue, IfOk, OnOk};
ghost use Rattle.host_api.specs.Counts.{Counts};

use std::alloc::{AllocError, AllocFailed};

// the most bytes that a file may have
pub(crate) const FILE_LIMIT: u64 = 1 << 62;

/// A call on the output or on a file failed, and the host counted it.
#[derive(Clone, Copy, Debug, PartialEq, Eq)]
pub struct Failed;

/// No memory was found.
#[derive(Clone, Copy, Debug, PartialEq, Eq)]
pub struct NoMemory;

impl From<AllocError> for NoMemory {
    fn from(_error: AllocError) -> NoMemory {
        NoMemory
    }
}

impl<T: Drop> From<AllocFailed<T>> for NoMemory {
    fn from(_error: AllocFailed<T>) -> NoMemory {
        NoMemory
    }
}

/// One of the two journal files.
#[derive(Clone, Copy, Debug, PartialEq, Eq)]
pub enum FileId {
    /// `journal.0`
    Zero,
    /// `journal.1`
    One,
}

/// An output and two files, which are on one clock.
///
/// Where a host tells its files, it also says which pair of files a crash may leave: between two successful syncs of
/// a file any bytes in each range written since, and past the least length since, at any length between the least and
/// the greatest one since; all other bytes stay. After a successful sync a crash leaves what a read gives. A write
/// or cut that failed counts among the ranges and lengths, and a failed sync settles nothing. A host that doesn't tell
/// its files says nothing of them, and over it the conditions of `read`, `write` and `cut` ask nothing.
pub trait Host {
    ghost use Rattle.host_api.specs.Host.{Files, View, IsPart, Emits, Stays, KeepsOut, Writes, Cuts, Syncs};

    // whether the host tells what was written to its output
    ghost tells_out: { Bool };
    // whether the host tells its files
    ghost tells_files: { Bool };
    // the output, the files, what a crash may leave, and the counts of faults
    ghost view: { Self → View };

    /// Appends the piece to the output.
    ///
    /// # Errors
    /// `Failed` only where the count of sink faults rose. A front of the piece may then stand in the output.
    fn emit(&mut self, piece: &[u8]) -> Result<(), Failed>
        ensures done { IsTrue tells_out → OnOk result
            ((view self.new).out ≡ (view self.old).out ++ piece.now) }
        ensures out { IsTrue tells_out → IsPart piece.now (view self.old).out (view self.new).out }
        ensures files { IsTrue tells_files → Emits piece.now (view self.old) (view self.new) }
        ensures disk_faults { (view self.new).disk_faults ≡ (view self.old).disk_faults }
        ensures cause { Counts result (view self.old).sink_faults (view self.new).sink_faults };

    /// The file's length in bytes, at most 2^62.
    ///
    /// # Errors
    /// `Failed` only where the count of disk faults rose.
    fn file_len(&mut self, file: FileId) -> Result<u64, Failed>
        ensures len { IfOk result (λ n. IsTrue tells_files → n ≡ length ((view self.old).bytes file)) }
        ensures small { IfOk result (λ n. n ≤ 2 ^ 62) }
        ensures files { IsTrue tells_files → Stays (view self.old) (view self.new) }
        ensures out { KeepsOut (view self.old) (view self.new) }
        ensures cause { Counts result (view self.old).disk_faults (view self.new).disk_faults };

    /// Fills the buffer with the file's bytes from `at` on.
    ///
    /// # Errors
    /// `Failed` only where the count of disk faults rose. Nothing is then said of the buffer.
    fn read(&mut self, file: FileId, at: u64, into: &mut [u8]) -> Result<(), Failed>
        requires { IsTrue tells_files → at + length into.old ≤ length ((view self.old).bytes file) }
        ensures done { OnOk result (IsTrue tells_files
            → into.new ≡ slice_range ((view self.old).bytes file) at (at + length into.old)) }
        ensures files { IsTrue tells_files → Stays (view self.old) (view self.new) }
        ensures out { KeepsOut (view self.old) (view self.new) }
        ensures cause { Counts result (view self.old).disk_faults (view self.new).disk_faults };

    /// Writes the piece at `at`, over what stands there and past the end.
    ///
    /// # Errors
    /// `Failed` only where the count of disk faults rose, and always where the piece would end past 2^62. Any bytes may
    /// then stand in its range.
    fn write(&mut self, file: FileId, at: u64, piece: &[u8]) -> Result<(), Failed>
        requires { IsTrue tells_files → at ≤ length ((view self.old).bytes file) }
        ensures files { IsTrue tells_files → Writes file at piece.now result (view self.old) (view self.new) }
        ensures small { OnOk result (at + length piece.now ≤ 2 ^ 62) }
        ensures out { KeepsOut (view self.old) (view self.new) }
        ensures cause { Counts result (view self.old).disk_faults (view self.new).disk_faults };

    /// Cuts the file to its first `len` bytes.
    ///
    /// # Errors
    /// `Failed` only where the count of disk faults rose. The file may then have any length between.
    fn cut(&mut self, file: FileId, len: u64) -> Result<(), Failed>
        requires { IsTrue tells_files → len ≤ length ((view self.old).bytes file) }
        ensures files { IsTrue tells_files → Cuts file len result (view self.old) (view self.new) }
        ensures out { KeepsOut (view self.old) (view self.new) }
        ensures cause { Counts result (view self.old).disk_faults (view self.new).disk_faults };

    /// Brings the file to the disk: from then on a crash leaves what a read gives, until the next write or cut.
    ///
    /// # Errors
    /// `Failed` only where the count of disk faults rose. Nothing is then settled.
    fn sync(&mut self, file: FileId) -> Result<(), Failed>
        ensures files { IsTrue tells_files → Syncs file result (view self.old) (view self.new) }
        ensures out { KeepsOut (view self.old) (view self.new) }
        ensures cause { Counts result (view self.old).disk_faults (view self.new).disk_faults };

    // a crash that may come now counts among those since any earlier moment, at the output of now
    ghost counts_now: { (h : Self) (t : ℕ) (c : Files) → IsTrue tells_files → t ≤ (view h).moment → (view h).may_leave c → (view h).left_since t (view h).out c };
    // since now, only what may come now has come
    ghost only_now: { (h : Self) (o : List ℕ) (c : Files) → IsTrue tells_files → (view h).left_since (view h).moment o c → (o ≡ (view h).out) × (view h).may_leave c };
    // the files as they read are one of the pairs that a crash may leave
    ghost may_stay: { (h : Self) → IsTrue tells_files → (view h).may_leave (view h).bytes };
}
