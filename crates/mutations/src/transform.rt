ghost use Rattle.std.specs.Prelude.{◌≡◌, IfOk};

use crate::lists::Values;
use document_keys::{FieldPath, NoMemory};
use std::alloc::Global;
use std::marker::Model;

/// What a transform does with the field at its path.
#[derive(Debug, Drop)]
pub enum Change {
    /// Sets it to the time at which the backend commits.
    ServerTime,
    /// Adds the number to it.
    Increment(i64),
    /// Sets it to the number, unless it is greater.
    Maximum(i64),
    /// Sets it to the number, unless it is smaller.
    Minimum(i64),
    /// Adds those of the values that the array there doesn't hold.
    Append(Values),
    /// Takes the values out of the array there.
    RemoveAll(Values),
}

impl Change {
    /// A copy.
    ///
    /// # Errors
    /// `NoMemory`
    pub fn copy(&self, alloc: Global) -> Result<Change, NoMemory>
        ensures { IfOk result (λ change. change ≡ self.now) }
    {
        match self {
            Change::ServerTime => Ok(Change::ServerTime),
            Change::Increment(by) => Ok(Change::Increment(*by)),
            Change::Maximum(with) => Ok(Change::Maximum(*with)),
            Change::Minimum(with) => Ok(Change::Minimum(*with)),
            Change::Append(values) => Ok(Change::Append(values.copy(alloc)?)),
            Change::RemoveAll(values) => Ok(Change::RemoveAll(values.copy(alloc)?)),
        }
    }
}

/// A change of the field at the path, made from what stands there.
#[derive(Debug, Drop)]
pub struct Transform {
    pub path: FieldPath,
    pub change: Change,
}

impl Transform {
    /// A copy.
    ///
    /// # Errors
    /// `NoMemory`
    pub fn copy(&self, alloc: Global) -> Result<Transform, NoMemory>
        ensures { IfOk result (λ transform. transform ≡ self.now) }
    {
        let path = self.path.copy(alloc)?;
        let change = self.change.copy(alloc)?;
        Ok(Transform { path, change })
    }
}

/// The transforms of an update, in their order. Contracts see them as their list.
#[derive(Debug, Drop)]
pub struct Transforms {
    items: Vec<Transform>,
}

impl Model for Transforms {
    ghost use Rattle.std.specs.Prelude.{List};
    ghost use Rattle.std.specs.Coded.{coded_list};
    ghost use Rattle.mutations.specs.contracts.transform.Transform as item;
    ghost use Rattle.mutations.specs.declared.transform.Transform.{Transform};

    ghost Value = { List Transform };

    ghost coded = { coded_list item.the_row.coded };

    ghost view = { λ transforms. transforms.items.items };
}

impl Transforms {
    /// The transforms of the `Vec`, which it takes over.
    pub fn from_vec(items: Vec<Transform>) -> Transforms
        ensures { result ≡ items.items }
    {
        Transforms { items }
    }

    /// The transforms, lent.
    pub fn as_slice(&self) -> &[Transform]
        ensures { result.now ≡ self.now }
    {
        self.items.as_slice()
    }

    /// A copy.
    ///
    /// # Errors
    /// `NoMemory`
    pub fn copy(&self, alloc: Global) -> Result<Transforms, NoMemory>
        ensures { IfOk result (λ transforms. transforms ≡ self.now) }
    {
        let mut items = Vec::with_capacity(alloc, self.items.len())?;
        for transform in &self.items {
            items.push(transform.copy(alloc)?)?;
        }
        Ok(Transforms { items })
    }
}
