//! The keys of all listeners as one set.

ghost use Rattle.std.specs.Prelude.{◌≡◌, ◌↔◌, ◌++◌, IfOk, OnOk};
ghost use Rattle.std.specs.BTreeMap.{IsOrdered};
ghost use Rattle.std.specs.List.{Contains, flat_map};
ghost use Rattle.std.specs.Ordering.{nat_cmp};
ghost use Rattle.document_keys.specs.KeySet.{IsAscending};
ghost use Rattle.limbo_resolver.specs.Limbo.{Key};

use document_keys::{DocumentKey, KeySet, NoMemory, Sequence};
use std::alloc::Global;
use std::collections::BTreeMap;

/// Puts copies of the keys behind the others.
fn push_copies(
    alloc: Global,
    all: &mut Vec<DocumentKey>,
    keys: &[DocumentKey],
) -> Result<(), NoMemory>
    ensures { OnOk result (all.new.items ≡ all.old.items ++ keys.now) }
{
    for key in keys {
        all.push(key.copy(alloc)?)?;
    }
    Ok(())
}

/// Copies of the keys of all listeners, one listener after the other.
fn all_keys(
    alloc: Global,
    shown: &BTreeMap<u32, Sequence<DocumentKey>>,
) -> Result<Vec<DocumentKey>, NoMemory>
    ensures items { IfOk result (λ all. all.items ≡ flat_map (λ p. p.1) shown.now.entries) }
    ensures ordered { OnOk result (IsOrdered nat_cmp shown.now) }
{
    let mut all = Vec::new(alloc);
    let _count = shown.len();
    for (_, keys) in shown.iter() {
        push_copies(alloc, &mut all, keys.as_slice())?;
    }
    Ok(all)
}

/// The keys as a set. It is fast where they ascend: each then goes behind the others.
fn set_of(alloc: Global, keys: Vec<DocumentKey>) -> Result<KeySet, NoMemory>
    ensures ascending { IfOk result IsAscending }
    ensures members { IfOk result (λ set. (key : Key) → Contains set key ↔ Contains keys.items key) }
{
    let mut set = KeySet::new(alloc);
    for key in keys {
        set.insert(alloc, key)?;
    }
    Ok(set)
}

/// The keys that some listener has.
///
/// # Errors
/// `NoMemory`
pub(crate) fn union(
    alloc: Global,
    shown: &BTreeMap<u32, Sequence<DocumentKey>>,
) -> Result<KeySet, NoMemory>
    ensures ascending { IfOk result IsAscending }
    ensures members { IfOk result (λ set. (key : Key) → Contains set key
        ↔ Contains (flat_map (λ p. p.1) shown.now.entries) key) }
    ensures ordered { OnOk result (IsOrdered nat_cmp shown.now) }
{
    let mut all = all_keys(alloc, shown)?;
    all.sort()?;
    set_of(alloc, all)
}
