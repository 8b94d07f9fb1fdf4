//! Sets of the ids of listeners.

ghost use Rattle.std.specs.Prelude.{◌≡◌, ◌↔◌, ℕ, [], false, true, IfOk, IsTrue, OnErr, OnOk};
ghost use Rattle.std.specs.BTreeSet.{IsOrdered};
ghost use Rattle.std.specs.Ordering.{nat_cmp};
ghost use Rattle.listeners.specs.Ids.{KeepsMembers, SetsMember, has_id};
ghost use Rattle.listeners.specs.Table.{is_id};

use document_keys::NoMemory;
use std::alloc::Global;
use std::collections::BTreeSet;

/// Puts the id to the others.
///
/// # Errors
/// `NoMemory`: the set is then as before.
pub(crate) fn put(ids: &mut BTreeSet<u32>, id: u32) -> Result<(), NoMemory>
    ensures done { OnOk result (SetsMember id true ids.old ids.new) }
    ensures undone { OnErr result (ids.new.keys ≡ ids.old.keys) }
    ensures has { OnOk result (IsTrue (has_id ids.new id)) }
    ensures kept { KeepsMembers ids.old ids.new }
{
    ids.insert(id)?;
    Ok(())
}

/// The set of the one id.
///
/// # Errors
/// `NoMemory`
pub(crate) fn only(alloc: Global, id: u32) -> Result<BTreeSet<u32>, NoMemory>
    ensures members { IfOk result (λ ids. (q : ℕ) → has_id ids q ≡ is_id id q) }
    ensures has { IfOk result (λ ids. IsTrue (has_id ids id)) }
{
    let mut ids = BTreeSet::new(alloc);
    put(&mut ids, id)?;
    Ok(ids)
}

/// Takes the id from the others, and tells whether none is left.
pub(crate) fn take(ids: &mut BTreeSet<u32>, id: u32) -> bool
    ensures done { SetsMember id false ids.old ids.new }
    ensures none { IsTrue result ↔ (ids.new.keys ≡ []) }
{
    ids.remove(&id);
    ids.is_empty()
}

/// The ids, ascending.
///
/// # Errors
/// `NoMemory`
pub(crate) fn to_vec(alloc: Global, ids: &BTreeSet<u32>) -> Result<Vec<u32>, NoMemory>
    ensures items { IfOk result (λ items. items.items ≡ ids.now.keys) }
    ensures ordered { OnOk result (IsOrdered nat_cmp ids.now) }
{
    let items: Vec<u32> = ids.iter().copied().collect(alloc)?;
    Ok(items)
}
