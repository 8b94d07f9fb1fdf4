ghost use Rattle.std.specs.Prelude.{◌≡◌, [], false, true, IsTrue, OnErr, OnOk};
ghost use Rattle.listeners.specs.Places.{KeepsOtherIds, place_of, stands_at};
ghost use Rattle.listeners.specs.Targets.{AreFilled, SameServed, SetsServed};

use crate::listener::Listener;
use crate::places::Places;
use crate::targets::Targets;
use document_keys::NoMemory;
use std::alloc::Global;

/// The ids of listeners, by the places of their queries and by the ids of their targets.
#[derive(Debug, Drop)]
pub(crate) struct Indexes {
    pub(crate) places: Places,
    pub(crate) targets: Targets,
}

impl Indexes {
    /// No ids. They take no memory yet.
    pub(crate) fn new(alloc: Global) -> Indexes
        ensures { result.targets.ids.entries ≡ [] }
    {
        Indexes {
            places: Places::new(alloc),
            targets: Targets::new(alloc),
        }
    }

    /// Puts the id of the listener to its place and to its target.
    ///
    /// # Errors
    /// `NoMemory`: it stands at no other target then.
    pub(crate) fn put(
        &mut self,
        alloc: Global,
        listener: &Listener,
        id: u32,
    ) -> Result<(), NoMemory>
        ensures place { OnOk result (IsTrue (stands_at self.new.places.ids.entries
            (place_of listener.now.view.target) id)) }
        ensures kept { KeepsOtherIds id self.old.places.ids.entries self.new.places.ids.entries }
        ensures target { OnOk result (SetsServed listener.now.target_id id true
            self.old.targets.ids.entries self.new.targets.ids.entries) }
        ensures undone { OnErr result (SameServed self.old.targets.ids.entries
            self.new.targets.ids.entries) }
        ensures filled { AreFilled self.old.targets.ids.entries
            → AreFilled self.new.targets.ids.entries }
    {
        self.places.put(alloc, listener.place(), id)?;
        match self.targets.put(alloc, listener.target_id(), id) {
            Ok(()) => Ok(()),
            Err(NoMemory) => {
                self.places.take(listener.place(), id);
                Err(NoMemory)
            }
        }
    }

    /// Takes the id of the listener from its place and from its target.
    pub(crate) fn take(&mut self, listener: &Listener, id: u32)
        ensures kept { KeepsOtherIds id self.old.places.ids.entries self.new.places.ids.entries }
        ensures target { SetsServed listener.now.target_id id false
            self.old.targets.ids.entries self.new.targets.ids.entries }
        ensures filled { AreFilled self.old.targets.ids.entries
            → AreFilled self.new.targets.ids.entries }
    {
        self.places.take(listener.place(), id);
        self.targets.take(listener.target_id(), id);
    }
}
