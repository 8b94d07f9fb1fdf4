ghost use Rattle.std.specs.Prelude.{◌≡◌, IsTrue, OnOk, option_map};
ghost use Rattle.std.specs.Map.{lookup};
ghost use Rattle.document_keys.specs.KeySet.{is_key};
ghost use Rattle.listeners.specs.Places.{KeepsIds, KeepsOtherIds, stands_at};

use crate::id_set::{only, put, take};
use document_keys::{DocumentKey, NoMemory};
use std::alloc::Global;
use std::collections::{BTreeMap, BTreeSet};

/// The ids of listeners by the places of their queries.
#[derive(Debug, Drop)]
pub(crate) struct Places {
    ids: BTreeMap<DocumentKey, BTreeSet<u32>>,
}

impl Places {
    /// No place. It takes no memory yet.
    pub(crate) fn new(alloc: Global) -> Places {
        Places {
            ids: BTreeMap::new(alloc),
        }
    }

    /// The ids at the place, lent, where there are any.
    pub(crate) fn at(&self, place: &DocumentKey) -> Option<&BTreeSet<u32>>
        ensures { option_map (λ ids. ids.now) result ≡ lookup (is_key place.now) self.now.ids.entries }
    {
        self.ids.get(place)
    }

    /// Puts the id at the place.
    ///
    /// # Errors
    /// `NoMemory`
    pub(crate) fn put(
        &mut self,
        alloc: Global,
        place: &DocumentKey,
        id: u32,
    ) -> Result<(), NoMemory>
        ensures done { OnOk result (IsTrue (stands_at self.new.ids.entries place.now id)) }
        ensures kept { KeepsIds self.old.ids.entries self.new.ids.entries }
    {
        match self.ids.get_mut(place) {
            Some(ids) => put(ids, id),
            None => {
                let ids = only(alloc, id)?;
                self.ids.insert(place.copy(alloc)?, ids)?;
                Ok(())
            }
        }
    }

    /// Takes the id from the place, and the place away where no other stands there.
    pub(crate) fn take(&mut self, place: &DocumentKey, id: u32)
        ensures { KeepsOtherIds id self.old.ids.entries self.new.ids.entries }
    {
        let Some(ids) = self.ids.get_mut(place) else {
            return;
        };
        if take(ids, id) {
            self.ids.remove(place);
        }
    }
}
