ghost use Rattle.std.specs.Prelude.{◌≡◌, ◌^◌, ◌≤◌, length, IsTrue, IfOk, IfErr, IsErrOf};
ghost use Rattle.host_api.specs.Counts.{Counts, RisesAt};
ghost use Rattle.host_api.specs.Host.{KeepsOut, Stays, IsOnDisk};
ghost use Rattle.host_api.specs.declared.host.FileId.{FileId};
ghost use Rattle.disk_journal.specs.Reading.{IsReading, IsWithin};
ghost use Rattle.disk_journal.specs.Opening.{IsReadCause, Settles, Seen};
ghost use Rattle.disk_journal.specs.Steps.{SettlesFirst};

use crate::fault::OpenFault;
use crate::reading::{Reading, reading_of};
use host_api::{Failed, FileId, Host};
use std::alloc::Global;

// Brings both files to the disk as they read, so that what is decided on them stands after a crash.
fn settle<H: Host>(host: &mut H) -> Result<(), Failed>
    ensures files { IsTrue H.tells_files → Settles result (H.view host.old) (H.view host.new) }
    ensures out { KeepsOut (H.view host.old) (H.view host.new) }
    ensures cause { Counts result (H.view host.old).disk_faults (H.view host.new).disk_faults }
{
    host.sync(FileId::Zero)?;
    host.sync(FileId::One)
}

fn read_whole<H: Host>(alloc: Global, host: &mut H, file: FileId) -> Result<Vec<u8>, OpenFault>
    ensures bytes { IfOk result (λ bytes. IsTrue H.tells_files → bytes.items ≡ (H.view host.old).bytes file) }
    ensures small { IfOk result (λ bytes. length bytes.items ≤ 2 ^ 62) }
    ensures files { IsTrue H.tells_files → Stays (H.view host.old) (H.view host.new) }
    ensures out { KeepsOut (H.view host.old) (H.view host.new) }
    ensures counts { RisesAt (IsErrOf result OpenFault.DiskFault) (H.view host.old).disk_faults
        (H.view host.new).disk_faults }
    ensures cause { IfErr result (λ fault. IsReadCause fault (H.view host.old) (H.view host.new)) }
{
    let len = host.file_len(file)?;
    let mut bytes = vec![in alloc; 0; len as usize]?;
    host.read(file, 0, &mut bytes)?;
    Ok(bytes)
}

fn look_at<H: Host>(alloc: Global, host: &mut H, file: FileId) -> Result<Reading, OpenFault>
    ensures reading { IfOk result (λ reading. IsTrue H.tells_files
        → IsReading reading ((H.view host.old).bytes file)) }
    ensures within { IfOk result IsWithin }
    ensures files { IsTrue H.tells_files → Stays (H.view host.old) (H.view host.new) }
    ensures out { KeepsOut (H.view host.old) (H.view host.new) }
    ensures counts { RisesAt (IsErrOf result OpenFault.DiskFault) (H.view host.old).disk_faults
        (H.view host.new).disk_faults }
    ensures cause { IfErr result (λ fault. IsReadCause fault (H.view host.old) (H.view host.new)) }
{
    let bytes = read_whole(alloc, host, file)?;
    Ok(reading_of(alloc, bytes)?)
}

fn look_at_each<H: Host>(alloc: Global, host: &mut H) -> Result<(Reading, Reading), OpenFault>
    ensures readings { IfOk result (λ r. IsTrue H.tells_files
        → ((file : FileId) → IsOnDisk file (H.view host.old)) → Seen r.0 r.1 (H.view host.new)) }
    ensures within { IfOk result (λ r. IsWithin r.0 × IsWithin r.1) }
    ensures files { IsTrue H.tells_files → Stays (H.view host.old) (H.view host.new) }
    ensures out { KeepsOut (H.view host.old) (H.view host.new) }
    ensures counts { RisesAt (IsErrOf result OpenFault.DiskFault) (H.view host.old).disk_faults
        (H.view host.new).disk_faults }
    ensures cause { IfErr result (λ fault. IsReadCause fault (H.view host.old) (H.view host.new)) }
{
    let zero = look_at(alloc, host, FileId::Zero)?;
    let one = look_at(alloc, host, FileId::One)?;
    Ok((zero, one))
}

/// What both files hold, once they are on the disk.
pub(crate) fn look<H: Host>(alloc: Global, host: &mut H) -> Result<(Reading, Reading), OpenFault>
    ensures readings { IfOk result (λ r. IsTrue H.tells_files → Seen r.0 r.1 (H.view host.new)) }
    ensures within { IfOk result (λ r. IsWithin r.0 × IsWithin r.1) }
    ensures files { IsTrue H.tells_files → Stays (H.view host.old) (H.view host.new) }
    ensures settled { IsTrue H.tells_files → SettlesFirst H.view result (H.view host.old) (H.view host.new) }
    ensures out { KeepsOut (H.view host.old) (H.view host.new) }
    ensures counts { RisesAt (IsErrOf result OpenFault.DiskFault) (H.view host.old).disk_faults
        (H.view host.new).disk_faults }
    ensures cause { IfErr result (λ fault. IsReadCause fault (H.view host.old) (H.view host.new)) }
{
    settle(host)?;
    look_at_each(alloc, host)
}
