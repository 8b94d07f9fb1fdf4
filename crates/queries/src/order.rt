ghost use Rattle.std.specs.Prelude.{◌≡◌, IfOk};

use document_keys::{FieldPath, NoMemory, Replicate, Sequence};
use std::alloc::Global;
use value_model::Value;

/// An order of a query: the field by which documents are ordered, and whether from the greatest down.
#[derive(Debug, Drop)]
pub struct Order {
    pub path: FieldPath,
    pub descending: bool,
}

/// A place in a query's order: values for the first of its orders, and whether the place is before the documents that have
/// them, or behind.
#[derive(Debug, Drop)]
pub struct Cursor {
    pub values: Sequence<Value>,
    pub before: bool,
}

impl Order {
    /// A copy.
    ///
    /// # Errors
    /// `NoMemory`
    pub fn copy(&self, alloc: Global) -> Result<Order, NoMemory>
        ensures { IfOk result (λ order. order ≡ self.now) }
    {
        let path = self.path.copy(alloc)?;
        Ok(Order {
            path,
            descending: self.descending,
        })
    }
}

impl Replicate for Order {
    fn replicate(&self, alloc: Global) -> Result<Order, NoMemory> {
        self.copy(alloc)
    }
}

impl Cursor {
    /// A copy.
    ///
    /// # Errors
    /// `NoMemory`
    pub fn copy(&self, alloc: Global) -> Result<Cursor, NoMemory>
        ensures { IfOk result (λ cursor. cursor ≡ self.now) }
    {
        let values = self.values.copy(alloc)?;
        Ok(Cursor {
            values,
            before: self.before,
        })
    }
}
