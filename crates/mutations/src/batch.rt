ghost use Rattle.std.specs.Prelude.{◌≡◌, IfOk};

use crate::write::Write;
use document_keys::NoMemory;
use std::alloc::Global;
use std::marker::Model;
use value_model::Timestamp;

/// Writes in their order. Contracts see them as their list.
#[derive(Debug, Drop)]
pub struct Writes {
    items: Vec<Write>,
}

impl Model for Writes {
    ghost use Rattle.std.specs.Prelude.{List};
    ghost use Rattle.std.specs.Coded.{coded_list};
    ghost use Rattle.mutations.specs.contracts.write.Write as item;
    ghost use Rattle.mutations.specs.declared.write.Write.{Write};

    ghost Value = { List Write };

    ghost coded = { coded_list item.the_row.coded };

    ghost view = { λ writes. writes.items.items };
}

impl Writes {
    /// The writes of the `Vec`, which it takes over.
    pub fn from_vec(items: Vec<Write>) -> Writes
        ensures { result ≡ items.items }
    {
        Writes { items }
    }

    /// The writes, lent.
    pub fn as_slice(&self) -> &[Write]
        ensures { result.now ≡ self.now }
    {
        self.items.as_slice()
    }

    /// A copy.
    ///
    /// # Errors
    /// `NoMemory`
    pub fn copy(&self, alloc: Global) -> Result<Writes, NoMemory>
        ensures { IfOk result (λ writes. writes ≡ self.now) }
    {
        let mut items = Vec::with_capacity(alloc, self.items.len())?;
        for write in &self.items {
            items.push(write.copy(alloc)?)?;
        }
        Ok(Writes { items })
    }
}

/// Writes that were taken at once, under their number and with their local write time.
#[derive(Debug, Drop)]
pub struct Batch {
    pub id: u64,
    pub at: Timestamp,
    pub writes: Writes,
}

impl Batch {
    /// A copy.
    ///
    /// # Errors
    /// `NoMemory`
    pub fn copy(&self, alloc: Global) -> Result<Batch, NoMemory>
        ensures { IfOk result (λ batch. batch ≡ self.now) }
    {
        let writes = self.writes.copy(alloc)?;
        Ok(Batch {
            id: self.id,
            at: self.at,
            writes,
        })
    }
}
