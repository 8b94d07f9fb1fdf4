ghost use Rattle.std.specs.Prelude.{◌≡◌, ◌↔◌, [], ◌∷◌, ◌++◌, IsTrue, IfOk, OnOk};
ghost use Rattle.views.specs.Changes.{HasChanges, IsModified, IsNotIn, Tells};

use crate::rows::{Row, Rows};
use document_keys::{DocumentKey, NoMemory};
use std::alloc::Global;

/// How a document of a snapshot changed.
#[derive(Clone, Copy, Debug, PartialEq, Eq)]
pub enum Kind {
    Added,
    Removed,
    Modified,
}

/// A change of a snapshot against the one before: a document's key, and how it changed.
#[derive(Debug, Drop)]
pub struct Change {
    pub kind: Kind,
    pub key: DocumentKey,
}

/// Whether the old rows have the row's key with a document that is printed otherwise.
fn is_modified(old: &Rows, row: &Row) -> bool
    ensures { IsTrue result ↔ IsModified old.now row.now }
{
    match old.get(&row.key) {
        Some(last) => !last.is_same(&row.document),
        None => false,
    }
}

/// Puts a change of this kind for the row's key to the others.
fn tell(alloc: Global, kind: Kind, row: &Row, changes: &mut Vec<Change>) -> Result<(), NoMemory>
    ensures { OnOk result (changes.new.items
        ≡ changes.old.items ++ record { kind = kind; key = row.now.key } ∷ []) }
{
    let key = row.key.copy(alloc)?;
    changes.push(Change { kind, key })?;
    Ok(())
}

/// Tells of each row whose key the other rows don't have.
fn tell_missing(
    alloc: Global,
    kind: Kind,
    rows: &[Row],
    others: &Rows,
    changes: &mut Vec<Change>,
) -> Result<(), NoMemory>
    ensures { OnOk result (Tells kind (IsNotIn others.now) rows.now changes.old.items changes.new.items) }
{
    for row in rows {
        if !others.has(&row.key) {
            tell(alloc, kind, row, changes)?;
        }
    }
    Ok(())
}

/// Tells of each row whose key the old ones have with a document that is printed otherwise.
fn tell_modified(
    alloc: Global,
    rows: &[Row],
    old: &Rows,
    changes: &mut Vec<Change>,
) -> Result<(), NoMemory>
    ensures { OnOk result (Tells Kind.Modified
        (IsModified old.now) rows.now changes.old.items changes.new.items) }
{
    for row in rows {
        if is_modified(old, row) {
            tell(alloc, Kind::Modified, row, changes)?;
        }
    }
    Ok(())
}

/// The changes of the new rows against the old ones.
///
/// # Errors
/// `NoMemory`
pub(crate) fn changes_between(
    alloc: Global,
    old: &Rows,
    new: &Rows,
) -> Result<Vec<Change>, NoMemory>
    ensures { IfOk result (λ changes. HasChanges old.now new.now changes.items) }
{
    let mut changes = Vec::new(alloc);
    tell_missing(alloc, Kind::Removed, old.as_slice(), new, &mut changes)?;
    tell_missing(alloc, Kind::Added, new.as_slice(), old, &mut changes)?;
    tell_modified(alloc, new.as_slice(), old, &mut changes)?;
    Ok(changes)
}
