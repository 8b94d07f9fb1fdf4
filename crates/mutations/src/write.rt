ghost use Rattle.std.specs.Prelude.{◌≡◌, IfOk};
ghost use Rattle.mutations.specs.Written.{written_key};

use crate::lists::Mask;
use crate::transform::Transforms;
use document_keys::{DocumentKey, NoMemory};
use std::alloc::Global;
use value_model::{SharedFields, Timestamp};

/// What is to hold of the document for its write to be made.
#[derive(Clone, Copy, Debug)]
pub enum Precondition {
    /// Nothing.
    Free,
    /// That there is such a document, or that there is none.
    Exists(bool),
    /// That the document was last changed at that time.
    UpdateTime(Timestamp),
}

/// A write of one document.
#[derive(Debug, Drop)]
pub enum Write {
    /// Sets fields: those that the mask names, or all where there is no mask. Then come the transforms.
    Update {
        key: DocumentKey,
        fields: SharedFields,
        mask: Option<Mask>,
        transforms: Transforms,
        condition: Precondition,
    },
    /// Takes the document away.
    Delete {
        key: DocumentKey,
        condition: Precondition,
    },
}

/// A copy of the mask, where there is one.
fn copy_mask(alloc: Global, mask: &Option<Mask>) -> Result<Option<Mask>, NoMemory>
    ensures { IfOk result (λ copy. copy ≡ mask.now) }
{
    match mask {
        None => Ok(None),
        Some(mask) => Ok(Some(mask.copy(alloc)?)),
    }
}

impl Write {
    /// The key of the document that the write speaks of.
    pub fn key(&self) -> &DocumentKey
        ensures { result.now ≡ written_key self.now }
    {
        match self {
            Write::Update {
                key,
                fields: _,
                mask: _,
                transforms: _,
                condition: _,
            } => key,
            Write::Delete { key, condition: _ } => key,
        }
    }

    /// A copy, which shares the fields.
    ///
    /// # Errors
    /// `NoMemory`
    pub fn copy(&self, alloc: Global) -> Result<Write, NoMemory>
        ensures { IfOk result (λ write. write ≡ self.now) }
    {
        match self {
            Write::Update {
                key,
                fields,
                mask,
                transforms,
                condition,
            } => Ok(Write::Update {
                key: key.copy(alloc)?,
                fields: fields.share()?,
                mask: copy_mask(alloc, mask)?,
                transforms: transforms.copy(alloc)?,
                condition: *condition,
            }),
            Write::Delete { key, condition } => Ok(Write::Delete {
                key: key.copy(alloc)?,
                condition: *condition,
            }),
        }
    }
}
