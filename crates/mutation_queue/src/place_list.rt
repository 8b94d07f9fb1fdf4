ghost use Rattle.std.specs.Prelude.{◌≡◌, ◌++◌, [], ◌∷◌, drop, length, false, ◌<◌, IsTrue, IsOk, OnOk, IfOk};
ghost use Rattle.std.specs.List.{slice_get};
ghost use Rattle.std.specs.VecDeque.{deque_len, deque_capacity};
ghost use Rattle.mutation_queue.specs.Places.{ends_in, last_of, with_place, without_place};

use document_keys::NoMemory;
use std::alloc::Global;
use std::collections::VecDeque;
use std::marker::Model;

/// How the places are held: one alone, as most keys have it, takes no memory of its own.
#[derive(Debug, Drop)]
enum Held {
    /// Made for a place that isn't there yet.
    Reserved,
    One(u64),
    Many(Box<VecDeque<u64>>),
}

/// The places of the batches that name one key, ascending. Contracts see their list, and whether one more finds room.
#[derive(Debug, Drop)]
pub(crate) struct PlaceList {
    held: Held,
}

impl Model for PlaceList {
    ghost use Rattle.mutation_queue.specs.Places.{Places, places_code};
    ghost use Rattle.mutation_queue.specs.PlaceList.{seen};

    ghost Value = { Places };

    ghost coded = { places_code };

    ghost view = { λ list. seen list.held };
}

/// The place, and room for one more behind it.
fn with_room(alloc: Global, place: u64) -> Result<Box<VecDeque<u64>>, NoMemory>
    ensures places { IfOk result (λ places. places.value.items ≡ place ∷ []) }
    ensures room { IfOk result (λ places. deque_len places.value < deque_capacity places.value) }
{
    let mut places = VecDeque::with_capacity(alloc, 2)?;
    places.push_back_reserved(place);
    Ok(Box::new(alloc, places)?)
}

impl PlaceList {
    /// No place, and room for one.
    pub(crate) fn new() -> PlaceList
        ensures at { result.at ≡ [] }
        ensures room { IsTrue result.room }
    {
        PlaceList {
            held: Held::Reserved,
        }
    }

    /// The number of places.
    pub(crate) fn len(&self) -> u64
        ensures { result ≡ length self.now.at }
    {
        match &self.held {
            Held::Reserved => 0,
            Held::One(_) => 1,
            Held::Many(places) => places.len() as u64,
        }
    }

    /// The place at the index, from 0, or `None` past the last.
    pub(crate) fn get(&self, index: u64) -> Option<u64>
        ensures { result ≡ slice_get self.now.at index }
    {
        match &self.held {
            Held::Reserved => None,
            Held::One(place) => {
                if index > 0 {
                    return None;
                }
                Some(*place)
            }
            Held::Many(places) => places.get(index as usize).copied(),
        }
    }

    /// The last place.
    pub(crate) fn last(&self) -> Option<u64>
        ensures { result ≡ last_of self.now.at }
    {
        let count = self.len();
        if count == 0 {
            return None;
        }
        self.get(count - 1)
    }

    /// Makes room for one more.
    ///
    /// # Errors
    /// `NoMemory`, never where there is room.
    pub(crate) fn reserve(&mut self, alloc: Global) -> Result<(), NoMemory>
        ensures same { self.new.at ≡ self.old.at }
        ensures room { OnOk result (IsTrue self.new.room) }
        ensures held { IsTrue self.old.room → IsTrue self.new.room }
        ensures kept { IsTrue self.old.room → IsOk result }
    {
        match &mut self.held {
            Held::Reserved => {}
            Held::One(place) => {
                self.held = Held::Many(with_room(alloc, *place)?);
            }
            Held::Many(places) => places.reserve(1)?,
        }
        Ok(())
    }

    /// Puts the place behind the others, where there is room, unless it is the last one already.
    pub(crate) fn push(&mut self, place: u64)
        requires { ends_in place self.old.at ≡ false → IsTrue self.old.room }
        ensures { self.new.at ≡ with_place place self.old.at }
    {
        if self.last() == Some(place) {
            return;
        }
        self.push_reserved(place);
    }

    /// Puts the place behind the others, where there is room.
    fn push_reserved(&mut self, place: u64)
        requires { IsTrue self.old.room }
        ensures { self.new.at ≡ self.old.at ++ place ∷ [] }
    {
        match &mut self.held {
            Held::Many(places) => places.push_back_reserved(place),
            _ => self.held = Held::One(place),
        }
    }

    /// Takes the place out, if it is the first.
    pub(crate) fn remove(&mut self, place: u64)
        ensures { self.new.at ≡ without_place place self.old.at }
    {
        if self.get(0) == Some(place) {
            self.remove_first();
        }
    }

    /// Takes the first place out.
    fn remove_first(&mut self)
        ensures { self.new.at ≡ drop 1 self.old.at }
    {
        match &mut self.held {
            Held::Many(places) => {
                places.pop_front();
            }
            _ => self.held = Held::Reserved,
        }
    }
}
