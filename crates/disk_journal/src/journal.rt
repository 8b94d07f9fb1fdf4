ghost use Rattle.std.specs.Prelude.{◌≡◌, ℕ, ◌+◌, ◌^◌, ◌≤◌, ◌<◌, List, length, IsTrue, IfOk, IfErr, IsErrOf};
ghost use Rattle.host_api.specs.Counts.{Counts, RisesAt};
ghost use Rattle.host_api.specs.Host.{KeepsOut, other};
ghost use Rattle.disk_journal.specs.Place.{Place, IsOpen};
ghost use Rattle.disk_journal.specs.File.{AreBlank, Gives, GoesOn};
ghost use Rattle.host_api.specs.declared.host.FileId.TheVariants.{Zero};
ghost use Rattle.disk_journal.specs.Opening.{IsCause};
ghost use Rattle.disk_journal.specs.Steps.{Appends, Opens, SettlesFirst};

use crate::choice::{Choice, choose};
use crate::fault::OpenFault;
use crate::format::format;
use crate::frame::Frame;
use crate::landing::put_down;
use crate::look::look;
use crate::payloads::Payloads;
use host_api::{Failed, FileId, Host};
use std::alloc::Global;
use std::marker::Model;

/// Two journal files, of which one counts: where its first closed gate stands.
#[derive(Drop, Debug)]
pub struct Journal {
    file: FileId,
    generation: u64,
    end: u64,
}

impl Model for Journal {
    ghost Value = { Place };

    ghost view = { λ j. record { file = j.file; generation = j.generation; end = j.end } };

    ghost invariant = { λ j. j.end ≤ 2 ^ 62 };
}

impl Journal {
    /// The journal that stands here.
    pub(crate) fn at(file: FileId, generation: u64, end: u64) -> Journal
        requires { end ≤ 2 ^ 62 }
        ensures { result ≡ record { file = file; generation = generation; end = end } }
    {
        Journal {
            file,
            generation,
            end,
        }
    }

    /// Brings both files to the disk and reads them, and formats file 0 where both are blank. Hands out the journal, the
    /// file that it goes on with, and the payloads in the order of their appends.
    ///
    /// # Errors
    /// `DiskFault` only where the count of disk faults rose; `NotAStore` where a file is neither blank nor in the grammar,
    /// with the first such one; `NoMemory` where there is no memory for what the files hold. After any of them the files
    /// give what they gave.
    pub fn open<H: Host>(
        alloc: Global,
        host: &mut H,
    ) -> Result<(Journal, FileId, Payloads), OpenFault>
        ensures found { IfOk result (λ o. IsTrue H.tells_files
            → Gives (H.view host.old).bytes o.0.generation o.2) }
        ensures goes_on { IfOk result (λ o. IsTrue H.tells_files → GoesOn (H.view host.old).bytes o.1) }
        ensures first { IfOk result (λ o. IsTrue H.tells_files → AreBlank (H.view host.old).bytes
            → o.0 ≡ record { file = Zero; generation = 1; end = 16 }) }
        ensures open { IfOk result (λ o. IsTrue H.tells_files → IsOpen o.0 o.2 (H.view host.new)) }
        ensures small { IfOk result (λ o. (length o.2 ≤ o.0.end) × (o.0.end ≤ 2 ^ 62)) }
        ensures place { IfOk result (λ o. o.1 ≡ o.0.file) }
        ensures files { IsTrue H.tells_files → Opens (H.view host.old) (H.view host.new) }
        ensures settled { IsTrue H.tells_files
            → SettlesFirst H.view result (H.view host.old) (H.view host.new) }
        ensures out { KeepsOut (H.view host.old) (H.view host.new) }
        ensures counts { RisesAt (IsErrOf result OpenFault.DiskFault) (H.view host.old).disk_faults
            (H.view host.new).disk_faults }
        ensures cause { IfErr result (λ fault. IsCause H.tells_files fault (H.view host.old)
            (H.view host.new)) }
    {
        let (zero, one) = look(alloc, host)?;
        match choose(zero, one) {
            Choice::Foreign(file) => Err(OpenFault::NotAStore(file)),
            Choice::Fresh(blank) => {
                let journal = format(host, blank)?;
                Ok((journal, FileId::Zero, Payloads::new(alloc)))
            }
            Choice::Counting(file, records) => {
                let journal = Journal::at(file, records.generation, records.end);
                Ok((journal, file, records.payloads))
            }
        }
    }

    /// The generation of the counting file, at least 1.
    pub fn generation(&self) -> u64
        ensures { result ≡ self.now.generation }
    {
        self.generation
    }

    /// Adds the framed payload as a record, and brings it to the disk. It takes no memory. It asks that the files have the
    /// journal's payloads, and that both files are on the disk, as an opening and each append leave them; that is more than
    /// that a crash finds the payloads.
    ///
    /// # Errors
    /// `Failed` only where the count of disk faults rose. There is no journal then, so that nothing is written behind
    /// what may have been torn: open the files again, which finds the payloads with the new one or without it.
    pub fn append<H: Host>(self, host: &mut H, frame: &Frame) -> Result<Journal, Failed>
        requires { IsTrue H.tells_files → (payloads : List (List ℕ))
            × IsOpen self payloads (H.view host.old) }
        ensures files { IsTrue H.tells_files → (payloads : List (List ℕ)) →
            IsOpen self payloads (H.view host.old)
            → Appends self.generation payloads frame.now result (H.view host.old) (H.view host.new) }
        ensures other_file { IsTrue H.tells_files
            → (H.view host.new).bytes (other self.file) ≡ (H.view host.old).bytes (other self.file) }
        ensures grows { IfOk result (λ next. (self.end < next.end) × (next.end ≤ 2 ^ 62)
            × (next.file ≡ self.file) × (next.generation ≡ self.generation)) }
        ensures out { KeepsOut (H.view host.old) (H.view host.new) }
        ensures cause { Counts result (H.view host.old).disk_faults (H.view host.new).disk_faults }
    {
        let bytes = frame.as_bytes();
        put_down(host, self.file, self.end + 1, bytes)?;
        put_down(host, self.file, self.end, &[1])?;
        Ok(Journal {
            file: self.file,
            generation: self.generation,
            end: self.end + bytes.len() as u64,
        })
    }
}
