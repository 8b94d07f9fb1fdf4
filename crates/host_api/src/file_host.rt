ghost use Rattle.std.specs.Prelude.{◌≡◌, ◌+◌, ◌^◌, ◌≤◌, length, IfOk, OnOk};
ghost use Rattle.host_api.specs.Counts.{Counts};

use crate::host::{FILE_LIMIT, Failed, FileId, Host};
use std::fs::{OpenFile, OpenOptions};
use std::io::{ErrorKind, Write};
use std::os::unix::fs::FileExt;
use std::rt::Files;
use std::{fs, io};

/// The journal files in a folder of the file system, and the standard output. It tells nothing of either.
///
/// The folder and its files `journal.0` and `journal.1` are opened at their first use, and made where they aren't there.
#[derive(Drop)]
pub struct FileHost<R: Files<File: FileExt> + Print + Drop> {
    files: Folder<R>,
    sink_faults: u64,
    disk_faults: u64,
}

#[derive(Drop)]
struct Folder<R: Files<File: FileExt> + Print + Drop> {
    rt: R,
    path: String,
    zero: Option<R::File>,
    one: Option<R::File>,
}

impl<R: Files<File: FileExt> + Print + Drop> Folder<R> {
    // Opens a file, and brings its entry in the folder to the disk.
    fn open(&self, file: FileId) -> io::Result<R::File> {
        let folder = self.path.as_str();
        fs::create_dir_all(&self.rt, folder)?;
        let number = match file {
            FileId::Zero => 0u8,
            FileId::One => 1u8,
        };
        let path = format!(in *self.path.allocator(); "{folder}/journal.{number}")?;
        let opened = OpenOptions::new()
            .read(true)
            .write(true)
            .create(true)
            .open(&self.rt, path.as_str())?;
        fs::open(&self.rt, folder)?.sync_all()?;
        Ok(opened)
    }

    // the file, opened where it wasn't yet
    fn file(&mut self, file: FileId) -> io::Result<&mut R::File> {
        let is_open = match file {
            FileId::Zero => self.zero.is_some(),
            FileId::One => self.one.is_some(),
        };
        if !is_open {
            let opened = self.open(file)?;
            match file {
                FileId::Zero => self.zero = Some(opened),
                FileId::One => self.one = Some(opened),
            }
        }
        let slot = match file {
            FileId::Zero => &mut self.zero,
            FileId::One => &mut self.one,
        };
        slot.as_mut().ok_or(io::Error::from(ErrorKind::NotFound))
    }

    fn length(&mut self, file: FileId) -> io::Result<u64>
        ensures { IfOk result (λ n. n ≤ 2 ^ 62) }
    {
        let length = self.file(file)?.metadata()?.len();
        if length > FILE_LIMIT {
            return Err(io::Error::from(ErrorKind::FileTooLarge));
        }
        Ok(length)
    }

    fn read(&mut self, file: FileId, at: u64, into: &mut [u8]) -> io::Result<()> {
        self.file(file)?.read_exact_at(into, at)
    }

    fn write(&mut self, file: FileId, at: u64, piece: &[u8]) -> io::Result<()>
        ensures { OnOk result (at + length piece.now ≤ 2 ^ 62) }
    {
        if at > FILE_LIMIT || piece.len() as u64 > FILE_LIMIT - at {
            return Err(io::Error::from(ErrorKind::FileTooLarge));
        }
        self.file(file)?.write_all_at(piece, at)
    }

    fn cut(&mut self, file: FileId, len: u64) -> io::Result<()> {
        if len > FILE_LIMIT {
            return Err(io::Error::from(ErrorKind::FileTooLarge));
        }
        self.file(file)?.set_len(len)
    }

    fn sync(&mut self, file: FileId) -> io::Result<()> {
        self.file(file)?.sync_data()
    }
}

// The result, of which a failure is counted.
fn counted<T>(outcome: io::Result<T>, faults: &mut u64) -> Result<T, Failed>
    ensures value { IfOk result (λ value. outcome ≡ Ok value) }
    ensures cause { Counts result faults.old faults.new }
{
    match outcome {
        Ok(value) => Ok(value),
        Err(_) => {
            *faults = faults.saturating_add(1);
            Err(Failed)
        }
    }
}

impl<R: Files<File: FileExt> + Print + Drop> FileHost<R> {
    ghost use Rattle.host_api.specs.Edge.{untold};

    /// A host over this folder, of which nothing is opened yet.
    pub fn new(rt: R, folder: String) -> FileHost<R>
        ensures sink_faults { (untold result).sink_faults ≡ 0 }
        ensures disk_faults { (untold result).disk_faults ≡ 0 }
    {
        FileHost {
            files: Folder {
                rt,
                path: folder,
                zero: None,
                one: None,
            },
            sink_faults: 0,
            disk_faults: 0,
        }
    }
}

impl<R: Files<File: FileExt> + Print + Drop> Host for FileHost<R> {
    ghost use Rattle.std.specs.Prelude.{false};
    ghost use Rattle.host_api.specs.Edge.{untold};
    ghost use Rattle.std.proofs.Common.{rules};

    ghost tells_out = { false };

    ghost tells_files = { false };

    ghost view = { untold };

    fn emit(&mut self, piece: &[u8]) -> Result<(), Failed> {
        counted(self.files.rt.write_all(piece), &mut self.sink_faults)
    }

    fn file_len(&mut self, file: FileId) -> Result<u64, Failed> {
        counted(self.files.length(file), &mut self.disk_faults)
    }

    fn read(&mut self, file: FileId, at: u64, into: &mut [u8]) -> Result<(), Failed> {
        counted(self.files.read(file, at, into), &mut self.disk_faults)
    }

    fn write(&mut self, file: FileId, at: u64, piece: &[u8]) -> Result<(), Failed> {
        counted(self.files.write(file, at, piece), &mut self.disk_faults)
    }

    fn cut(&mut self, file: FileId, len: u64) -> Result<(), Failed> {
        counted(self.files.cut(file, len), &mut self.disk_faults)
    }

    fn sync(&mut self, file: FileId) -> Result<(), Failed> {
        counted(self.files.sync(file), &mut self.disk_faults)
    }

    ghost counts_now = { Prim.search rules };

    ghost only_now = { Prim.search rules };

    ghost may_stay = { Prim.search rules };
}
