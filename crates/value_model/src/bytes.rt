ghost use Rattle.std.specs.Prelude.{◌≡◌, IfOk};

use document_keys::NoMemory;
use std::alloc::Global;
use std::marker::Model;

/// Bytes of their own. Contracts see them as the list of the bytes.
#[derive(Debug, Drop)]
pub struct Bytes {
    content: Vec<u8>,
}

impl Model for Bytes {
    ghost use Rattle.std.specs.Prelude.{List, ℕ};

    ghost Value = { List ℕ };

    ghost view = { λ bytes. bytes.content.items };
}

impl Bytes {
    /// The bytes of the `Vec`, which it takes over.
    pub fn from_vec(content: Vec<u8>) -> Bytes
        ensures { result ≡ content.items }
    {
        Bytes { content }
    }

    /// The bytes, lent.
    pub fn as_slice(&self) -> &[u8]
        ensures { result.now ≡ self.now }
    {
        self.content.as_slice()
    }

    /// The bytes as the `Vec` that holds them.
    pub fn into_vec(self) -> Vec<u8>
        ensures { result.items ≡ self }
    {
        let Bytes { content } = self;
        content
    }

    /// A copy.
    ///
    /// # Errors
    /// `NoMemory`
    pub fn copy(&self, alloc: Global) -> Result<Bytes, NoMemory>
        ensures { IfOk result (λ bytes. bytes ≡ self.now) }
    {
        let content = self.content.as_slice().to_vec(alloc)?;
        Ok(Bytes { content })
    }
}
