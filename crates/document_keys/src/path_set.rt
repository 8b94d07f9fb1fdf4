ghost use Rattle.std.specs.Prelude.{◌≡◌, [], OnOk, OnErr};
ghost use Rattle.document_keys.specs.KeySet.{IsAscending, Inserts};

use crate::faults::NoMemory;
use crate::field::FieldPath;
use std::alloc::Global;
use std::marker::Model;

/// A set of field paths. Contracts see it as the list of its members, in strictly ascending order.
#[derive(Debug, Drop)]
pub struct PathSet {
    paths: Vec<FieldPath>,
}

impl Model for PathSet {
    ghost use Rattle.std.specs.Prelude.{List, ℕ};
    ghost use Rattle.document_keys.specs.KeySet.{IsAscending};

    ghost Value = { List (List (List ℕ)) };

    ghost view = { λ set. set.paths.items };

    ghost invariant = { λ set. IsAscending set.paths.items };
}

impl PathSet {
    /// The empty set. It takes no memory yet.
    pub fn new(alloc: Global) -> PathSet
        ensures { result ≡ [] }
    {
        PathSet {
            paths: Vec::new(alloc),
        }
    }

    /// Puts the path into the set, if it isn't there.
    ///
    /// # Errors
    /// `NoMemory`: the set is then as before.
    pub fn insert(&mut self, path: FieldPath) -> Result<(), NoMemory>
        ensures done { OnOk result (Inserts path self.old self.new) }
        ensures undone { OnErr result (self.new ≡ self.old) }
        ensures ascending { IsAscending self.new }
    {
        match self.paths.as_slice().binary_search(&path) {
            Ok(_) => Ok(()),
            Err(place) => {
                self.paths.insert(place, path)?;
                Ok(())
            }
        }
    }

    /// The paths in ascending order, lent.
    pub fn as_slice(&self) -> &[FieldPath]
        ensures paths { result.now ≡ self.now }
        ensures ascending { IsAscending self.now }
    {
        self.paths.as_slice()
    }

    /// The paths in ascending order.
    pub fn into_vec(self) -> Vec<FieldPath>
        ensures paths { result.items ≡ self }
        ensures ascending { IsAscending self }
    {
        let PathSet { paths } = self;
        paths
    }
}
