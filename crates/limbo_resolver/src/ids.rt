//! The ids of the running listens, ascending.

ghost use Rattle.std.specs.Prelude.{◌≡◌, ◌≤◌, ◌++◌, ◌<ℤ◌, IfOk, OnOk, length, zip};
ghost use Rattle.std.specs.List.{AllPairs};
ghost use Rattle.std.specs.List.Sorted.{IsSearchInRange};
ghost use Rattle.limbo_resolver.specs.Held.{IsPlace};
ghost use Rattle.limbo_resolver.specs.Limbo.{ended, ids_of, kept};

use crate::keys::is_wanted;
use document_keys::{DocumentKey, KeySet, NoMemory};
use std::alloc::Global;

/// Where the id stands.
pub(crate) fn place(ids: &[i32], id: &i32) -> Result<usize, usize>
    ensures bound { IsSearchInRange result (length ids.now) }
    ensures place { AllPairs (λ a b. a <ℤ b) ids.now → IsPlace ids.now id.now result }
{
    ids.binary_search_by(|one| one.cmp(id))
}

/// The ids of the listens whose key is no longer in limbo.
pub(crate) fn ended_ids(
    alloc: Global,
    ids: &[i32],
    keys: &[DocumentKey],
    wanted: &KeySet,
) -> Result<Vec<i32>, NoMemory>
    requires { length ids.now ≤ length keys.now }
    ensures { IfOk result (λ gone. gone.items ≡ ended wanted.now (zip ids.now keys.now)) }
{
    let mut gone = Vec::new(alloc);
    for i in 0..ids.len() {
        if !is_wanted(wanted, &keys[i]) {
            gone.push(ids[i])?;
        }
    }
    Ok(gone)
}

/// The other ids.
pub(crate) fn kept_ids(
    alloc: Global,
    ids: &[i32],
    keys: &[DocumentKey],
    wanted: &KeySet,
) -> Result<Vec<i32>, NoMemory>
    requires { length ids.now ≤ length keys.now }
    ensures { IfOk result (λ rest. rest.items ≡ ids_of (kept wanted.now (zip ids.now keys.now))) }
{
    let mut rest = Vec::new(alloc);
    for i in 0..ids.len() {
        if is_wanted(wanted, &keys[i]) {
            rest.push(ids[i])?;
        }
    }
    Ok(rest)
}

/// Puts the ids of the listens behind the others.
pub(crate) fn push_ids(ids: &mut Vec<i32>, listens: &[(i32, DocumentKey)]) -> Result<(), NoMemory>
    ensures { OnOk result (ids.new.items ≡ ids.old.items ++ ids_of listens.now) }
{
    for (id, _) in listens {
        ids.push(*id)?;
    }
    Ok(())
}
