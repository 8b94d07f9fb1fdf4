ghost use Rattle.std.specs.Prelude.{◌≡◌, take, OnOk, OnErr, if◌then◌else◌};
ghost use Rattle.host_api.specs.Host.{OnFile, over};
ghost use Rattle.host_api.specs.Contents.{held, SameContents};

use crate::host::FileId;
use std::alloc::AllocError;

// the bytes of both files
#[derive(Drop)]
pub(crate) struct Contents {
    pub(crate) zero: Vec<u8>,
    pub(crate) one: Vec<u8>,
}

// Puts the piece at an offset, or at the end where that is less, over what stands there and past the end. On failure the
// bytes stay.
pub(crate) fn put(bytes: &mut Vec<u8>, at: usize, piece: &[u8]) -> Result<(), AllocError>
    ensures ok { OnOk result (bytes.new.items ≡ over bytes.old.items at piece.now) }
    ensures err { OnErr result (bytes.new.items ≡ bytes.old.items) }
{
    let at = at.min(bytes.len());
    let overlap = piece.len().min(bytes.len() - at);
    bytes.extend_from_slice(&piece[overlap..])?;
    bytes[at..at + overlap].copy_from_slice(&piece[..overlap]);
    Ok(())
}

impl Contents {
    pub(crate) fn of(&self, file: FileId) -> &[u8]
        ensures { result.now ≡ held self.now file }
    {
        match file {
            FileId::Zero => &self.zero,
            FileId::One => &self.one,
        }
    }

    // puts the piece where it is to be done
    pub(crate) fn put(
        &mut self,
        file: FileId,
        at: usize,
        piece: &[u8],
        done: bool,
    ) -> Result<(), AllocError>
        ensures ok { OnOk result (OnFile file
            (λ old new. new ≡ (if done then over old at piece.now else old)) (held self.old)
            (held self.new)) }
        ensures err { OnErr result (SameContents self.old self.new) }
    {
        if !done {
            return Ok(());
        }
        match file {
            FileId::Zero => put(&mut self.zero, at, piece),
            FileId::One => put(&mut self.one, at, piece),
        }
    }

    // cuts a file where it is to be done
    pub(crate) fn truncate(&mut self, file: FileId, len: usize, done: bool)
        ensures { OnFile file (λ old new. new ≡ (if done then take len old else old))
            (held self.old) (held self.new) }
    {
        if !done {
            return;
        }
        match file {
            FileId::Zero => self.zero.truncate(len),
            FileId::One => self.one.truncate(len),
        }
    }
}
