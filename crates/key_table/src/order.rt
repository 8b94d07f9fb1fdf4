//! The keys of a table in their order, for those that list them.

ghost use Rattle.std.specs.Prelude.{◌≡◌, true, false, OnOk, OnErr, IfOk};
ghost use Rattle.key_table.specs.Table.{HasKeysOf, Orders};

use document_keys::{DocumentKey, NoMemory};
use std::alloc::Global;
use std::collections::{BTreeSet, HashMap};

/// All keys of the places, in order.
pub(crate) fn in_order<V>(
    alloc: Global,
    places: &HashMap<DocumentKey, V>,
) -> Result<BTreeSet<DocumentKey>, NoMemory>
    ensures { IfOk result (λ order. HasKeysOf places.now.entries order.keys) }
{
    let mut order = BTreeSet::new(alloc);
    for key in places.keys() {
        order.insert(key.copy(alloc)?)?;
    }
    Ok(order)
}

/// Puts the key into the order, where there is one.
pub(crate) fn put(
    order: &mut Option<BTreeSet<DocumentKey>>,
    alloc: Global,
    key: &DocumentKey,
) -> Result<(), NoMemory>
    ensures done { OnOk result (Orders key.now true order.old order.new) }
    ensures undone { OnErr result (order.new ≡ order.old) }
{
    if let Some(order) = order {
        order.insert(key.copy(alloc)?)?;
    }
    Ok(())
}

/// Takes the key out of the order, where there is one.
pub(crate) fn take(order: &mut Option<BTreeSet<DocumentKey>>, key: &DocumentKey)
    ensures { Orders key.now false order.old order.new }
{
    if let Some(order) = order {
        order.remove(key);
    }
}
