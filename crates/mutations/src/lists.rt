ghost use Rattle.std.specs.Prelude.{◌≡◌, IfOk};

use document_keys::{FieldPath, NoMemory};
use std::alloc::Global;
use std::marker::Model;
use value_model::Value;

/// The paths that a masked update speaks of. Contracts see them as their list.
#[derive(Debug, Drop)]
pub struct Mask {
    paths: Vec<FieldPath>,
}

impl Model for Mask {
    ghost use Rattle.std.specs.Prelude.{List, ℕ};

    ghost Value = { List (List (List ℕ)) };

    ghost view = { λ mask. mask.paths.items };
}

impl Mask {
    /// The paths of the `Vec`, which it takes over.
    pub fn from_vec(paths: Vec<FieldPath>) -> Mask
        ensures { result ≡ paths.items }
    {
        Mask { paths }
    }

    /// The paths, lent.
    pub fn as_slice(&self) -> &[FieldPath]
        ensures { result.now ≡ self.now }
    {
        self.paths.as_slice()
    }

    /// A copy.
    ///
    /// # Errors
    /// `NoMemory`
    pub fn copy(&self, alloc: Global) -> Result<Mask, NoMemory>
        ensures { IfOk result (λ mask. mask ≡ self.now) }
    {
        let mut paths = Vec::with_capacity(alloc, self.paths.len())?;
        for path in &self.paths {
            paths.push(path.copy(alloc)?)?;
        }
        Ok(Mask { paths })
    }
}

/// Values in a row. Contracts see them as their list.
#[derive(Debug, Drop)]
pub struct Values {
    items: Vec<Value>,
}

impl Model for Values {
    ghost use Rattle.std.specs.Prelude.{List};
    ghost use Rattle.std.specs.Coded.{coded_list};
    ghost use Rattle.value_model.specs.Codes.{data_code};
    ghost use Rattle.value_model.specs.Data.{Data};

    ghost Value = { List Data };

    ghost coded = { coded_list data_code };

    ghost view = { λ values. values.items.items };
}

impl Values {
    /// The values of the `Vec`, which it takes over.
    pub fn from_vec(items: Vec<Value>) -> Values
        ensures { result ≡ items.items }
    {
        Values { items }
    }

    /// The values, lent.
    pub fn as_slice(&self) -> &[Value]
        ensures { result.now ≡ self.now }
    {
        self.items.as_slice()
    }

    /// A copy.
    ///
    /// # Errors
    /// `NoMemory`
    pub fn copy(&self, alloc: Global) -> Result<Values, NoMemory>
        ensures { IfOk result (λ values. values ≡ self.now) }
    {
        let mut items = Vec::with_capacity(alloc, self.items.len())?;
        for value in &self.items {
            items.push(value.copy(alloc)?)?;
        }
        Ok(Values { items })
    }
}
