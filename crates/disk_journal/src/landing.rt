ghost use Rattle.std.specs.Prelude.{◌+◌, ◌^◌, ◌≤◌, length, IsTrue, OnOk};
ghost use Rattle.host_api.specs.Counts.{Counts};
ghost use Rattle.host_api.specs.Host.{KeepsOut};
ghost use Rattle.disk_journal.specs.Steps.{Lands};

use host_api::{Failed, FileId, Host};

/// Writes a piece and brings it to the disk.
///
/// # Errors
/// `Failed` only where the count of disk faults rose.
pub(crate) fn put_down<H: Host>(
    host: &mut H,
    file: FileId,
    at: u64,
    piece: &[u8],
) -> Result<(), Failed>
    requires { IsTrue H.tells_files → at ≤ length ((H.view host.old).bytes file) }
    ensures files { IsTrue H.tells_files
        → Lands file at piece.now result (H.view host.old) (H.view host.new) }
    ensures small { OnOk result (at + length piece.now ≤ 2 ^ 62) }
    ensures out { KeepsOut (H.view host.old) (H.view host.new) }
    ensures cause { Counts result (H.view host.old).disk_faults (H.view host.new).disk_faults }
{
    host.write(file, at, piece)?;
    host.sync(file)
}
