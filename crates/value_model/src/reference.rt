ghost use Rattle.std.specs.Prelude.{◌≡◌, IfOk};
ghost use Rattle.document_keys.specs.Order.{Ranks};

use document_keys::{DocumentKey, NoMemory, Segment};
use std::alloc::Global;
use std::cmp::Ordering;

/// The name of a document as a value: the project and the database that have it, and its key.
#[derive(Debug, Drop)]
pub struct RefName {
    pub project: Segment,
    pub database: Segment,
    pub key: DocumentKey,
}

impl RefName {
    ghost use Rattle.value_model.specs.Order.{whole_path};

    /// A copy.
    ///
    /// # Errors
    /// `NoMemory`
    pub fn copy(&self, alloc: Global) -> Result<RefName, NoMemory>
        ensures { IfOk result (λ name. name ≡ self.now) }
    {
        let project = self.project.copy(alloc)?;
        let database = self.database.copy(alloc)?;
        let key = self.key.copy(alloc)?;
        Ok(RefName {
            project,
            database,
            key,
        })
    }

    /// The order of names: the first of the project, the database and the key's segments that differs decides by its
    /// bytes, and a front comes first.
    pub fn compare(&self, other: &RefName) -> Ordering
        ensures { Ranks result (whole_path self.now) (whole_path other.now) }
    {
        let name = NameRef {
            project: &self.project,
            database: &self.database,
            key: &self.key,
        };
        name.compare(other)
    }
}

/// The name of a document whose parts are lent.
#[derive(Clone, Copy)]
pub struct NameRef<'a> {
    pub project: &'a Segment,
    pub database: &'a Segment,
    pub key: &'a DocumentKey,
}

impl NameRef<'_> {
    ghost use Rattle.value_model.specs.Order.{whole_path};
    ghost use Rattle.value_model.specs.Lent.{lent_name};

    /// The order of names, as of [`RefName::compare`].
    pub fn compare(&self, other: &RefName) -> Ordering
        ensures { Ranks result (whole_path (lent_name self.now)) (whole_path other.now) }
    {
        let project = self.project.cmp(&other.project);
        if project.is_ne() {
            return project;
        }
        let database = self.database.cmp(&other.database);
        if database.is_ne() {
            return database;
        }
        self.key.cmp(&other.key)
    }
}
