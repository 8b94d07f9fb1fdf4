ghost use Rattle.std.specs.Prelude.{◌≡◌, IsTrue, IfOk};
ghost use Rattle.host_api.specs.Counts.{Counts};
ghost use Rattle.host_api.specs.Host.{KeepsOut, IsOnDisk};
ghost use Rattle.host_api.specs.declared.host.FileId.TheVariants.{Zero};
ghost use Rattle.disk_journal.specs.Reading.{IsBlankAs};
ghost use Rattle.disk_journal.specs.Opening.{Closes, IsFresh, Formats};

use crate::journal::Journal;
use crate::landing::put_down;
use crate::reading::Blank;
use host_api::{Failed, FileId, Host};

// the magic, the generation 1 and a closed gate
const FRESH_REST: [u8; 16] = [
    b'F', b'S', b'J', b'R', b'N', b'L', b'1', 0, 0, 0, 0, 0, 0, 0, 1, 0,
];

/// Puts a closed gate at the start of a blank file 0, so that nothing behind it counts.
///
/// # Errors
/// `Failed` only where the count of disk faults rose.
fn close_gate<H: Host>(host: &mut H, blank: Blank) -> Result<(), Failed>
    requires { IsTrue H.tells_files → IsBlankAs blank ((H.view host.old).bytes Zero)
        × IsOnDisk Zero (H.view host.old) }
    ensures files { IsTrue H.tells_files → Closes result (H.view host.old) (H.view host.new) }
    ensures out { KeepsOut (H.view host.old) (H.view host.new) }
    ensures cause { Counts result (H.view host.old).disk_faults (H.view host.new).disk_faults }
{
    match blank {
        Blank::Bare => put_down(host, FileId::Zero, 0, &[0]),
        Blank::Closed => Ok(()),
    }
}

/// Makes file 0 a file of generation 1 with no record, where both files are blank and on the disk. At a crash file 0 is
/// blank or formatted, since its gate is opened last.
///
/// # Errors
/// `Failed` only where the count of disk faults rose.
pub(crate) fn format<H: Host>(host: &mut H, blank: Blank) -> Result<Journal, Failed>
    requires { IsTrue H.tells_files → IsFresh blank (H.view host.old) }
    ensures files { IsTrue H.tells_files → Formats result (H.view host.old) (H.view host.new) }
    ensures place { IfOk result (λ journal. journal ≡ record { file = Zero; generation = 1; end = 16 }) }
    ensures out { KeepsOut (H.view host.old) (H.view host.new) }
    ensures cause { Counts result (H.view host.old).disk_faults (H.view host.new).disk_faults }
{
    close_gate(host, blank)?;
    put_down(host, FileId::Zero, 1, &FRESH_REST)?;
    put_down(host, FileId::Zero, 0, &[1])?;
    Ok(Journal::at(FileId::Zero, 1, 16))
}
