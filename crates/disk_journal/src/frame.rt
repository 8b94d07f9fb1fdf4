ghost use Rattle.std.specs.Prelude.{◌≡◌, ℕ, ◌<◌, ◌^◌, List, length, IfOk};
ghost use Rattle.disk_journal.specs.Frame.{framed, payload_in, IsFrame};

use host_api::NoMemory;
use std::alloc::{AllocError, Global};
use std::marker::Model;

/// A record's length, its payload and the closed gate behind it, as an append writes them: all the memory that an
/// append needs.
#[derive(Drop, Debug)]
pub struct Frame {
    bytes: Vec<u8>,
}

impl Model for Frame {
    ghost Value = { List ℕ };

    ghost view = { λ f. payload_in f.bytes.items };

    ghost invariant = { λ f. IsFrame f.bytes.items };
}

impl Frame {
    /// The frame of a payload.
    ///
    /// # Errors
    /// `NoMemory` where there is no memory for it.
    pub fn make(alloc: Global, payload: &[u8]) -> Result<Frame, NoMemory>
        ensures { IfOk result (λ frame. frame ≡ payload.now) }
    {
        match spell(alloc, payload) {
            Ok(bytes) => Ok(Frame { bytes }),
            Err(_) => Err(NoMemory),
        }
    }

    /// What an append writes.
    pub(crate) fn as_bytes(&self) -> &[u8]
        ensures bytes { result.now ≡ framed self.now }
        ensures short { length self.now < 2 ^ 64 }
    {
        &self.bytes
    }
}

fn spell(alloc: Global, payload: &[u8]) -> Result<Vec<u8>, AllocError>
    ensures { IfOk result (λ bytes. bytes.items ≡ framed payload.now) }
{
    let mut bytes = Vec::with_capacity(alloc, payload.len() + 9)?;
    bytes.extend_from_slice(&(payload.len() as u64).to_be_bytes())?;
    bytes.extend_from_slice(payload)?;
    bytes.push(0)?;
    Ok(bytes)
}
