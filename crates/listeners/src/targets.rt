ghost use Rattle.std.specs.Prelude.{◌≡◌, [], false, true, IfOk, OnErr, OnOk, option_map};
ghost use Rattle.std.specs.BTreeMap.{IsOrdered, keys};
ghost use Rattle.std.specs.Map.{lookup};
ghost use Rattle.std.specs.Ordering.{int_cmp};
ghost use Rattle.listeners.specs.Targets.{AreFilled, SameServed, SetsServed, is_target};

use crate::id_set::{only, put, take};
use document_keys::NoMemory;
use std::alloc::Global;
use std::collections::{BTreeMap, BTreeSet};

/// The ids of listeners by those of their targets. Where the last of a target is taken, the target
/// goes.
#[derive(Debug, Drop)]
pub(crate) struct Targets {
    ids: BTreeMap<i32, BTreeSet<u32>>,
}

impl Targets {
    /// No target. It takes no memory yet.
    pub(crate) fn new(alloc: Global) -> Targets
        ensures { result.ids.entries ≡ [] }
    {
        Targets {
            ids: BTreeMap::new(alloc),
        }
    }

    /// The ids at the target, lent, where there are any.
    pub(crate) fn at(&self, target: &i32) -> Option<&BTreeSet<u32>>
        ensures { option_map (λ ids. ids.now) result
            ≡ lookup (is_target target.now) self.now.ids.entries }
    {
        self.ids.get(target)
    }

    /// Puts the id to the target.
    ///
    /// # Errors
    /// `NoMemory`: all is then as before.
    pub(crate) fn put(&mut self, alloc: Global, target: &i32, id: u32) -> Result<(), NoMemory>
        ensures done { OnOk result (SetsServed target.now id true
            self.old.ids.entries self.new.ids.entries) }
        ensures undone { OnErr result (SameServed self.old.ids.entries self.new.ids.entries) }
        ensures filled { AreFilled self.old.ids.entries → AreFilled self.new.ids.entries }
    {
        match self.ids.get_mut(target) {
            Some(ids) => put(ids, id),
            None => {
                let ids = only(alloc, id)?;
                self.ids.insert(*target, ids)?;
                Ok(())
            }
        }
    }

    /// Takes the id from the target, and the target away where no other stands there.
    pub(crate) fn take(&mut self, target: &i32, id: u32)
        ensures done { SetsServed target.now id false self.old.ids.entries self.new.ids.entries }
        ensures filled { AreFilled self.old.ids.entries → AreFilled self.new.ids.entries }
    {
        let Some(ids) = self.ids.get_mut(target) else {
            return;
        };
        if take(ids, id) {
            self.ids.remove(target);
        }
    }

    /// The targets, ascending.
    ///
    /// # Errors
    /// `NoMemory`
    pub(crate) fn to_vec(&self, alloc: Global) -> Result<Vec<i32>, NoMemory>
        ensures items { IfOk result (λ items. items.items ≡ keys self.now.ids) }
        ensures ordered { OnOk result (IsOrdered int_cmp self.now.ids) }
    {
        let items: Vec<i32> = self.ids.keys().copied().collect(alloc)?;
        Ok(items)
    }
}
