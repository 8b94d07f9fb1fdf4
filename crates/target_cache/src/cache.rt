ghost use Rattle.std.specs.List.{insert};
ghost use Rattle.std.specs.Vec.{vec_capacity};
ghost use Rattle.std.specs.Prelude.{◌≡◌, ◌↔◌, ℕ, vec_len, slice_index_or, slice_set, ◌+◌, ◌<◌, ◌≤◌, pos, [], ◌∷◌, ◌++◌, length, Some, None, IsOk, IfOk, OnOk, OnErr, IfErr, MatchOption, option_map};
ghost use Rattle.target_cache.specs.declared.cache.AllocateFault.TheVariants.{TargetsSpent};
ghost use Rattle.target_cache.specs.declared.row.Row.{Row};
ghost use Rattle.target_cache.specs.Cache.{IsRow, TellsId, blank, id_at};
ghost use Rattle.target_cache.specs.Kept.{AreIds, Holds, IsNew, TellsRow};

use crate::order::{lower, place_of};
use crate::row::{Held, Row};
use document_keys::{KeySet, NoMemory};
use queries::Target;
use std::alloc::Global;
use std::marker::Model;
use value_model::{Bytes, Timestamp};

/// The last id that is given out.
const LAST_ID: u64 = 2_147_483_646;

/// Why no row was made.
#[derive(Clone, Copy, Debug, PartialEq, Eq)]
pub enum AllocateFault {
    /// The next id is above the last one.
    TargetsSpent,
    /// No memory was found.
    NoMemory,
}

impl From<NoMemory> for AllocateFault {
    ghost use Rattle.std.specs.Prelude.{◌≡◌};
    ghost use Rattle.target_cache.specs.declared.cache.AllocateFault.TheVariants as fault;

    ghost from_gives = { λ _ e. e ≡ fault.NoMemory };

    fn from(_none: NoMemory) -> Self {
        AllocateFault::NoMemory
    }
}

/// The targets of listeners, each with its row, under the ids 2, 4, 6 and so on. Contracts see the rows in the order of their
/// ids, and beside them the room for more.
#[derive(Debug, Drop)]
pub struct TargetCache {
    rows: Vec<Row>,
    order: Vec<u64>,
}

impl Model for TargetCache {
    ghost use Rattle.std.specs.Prelude.{◌-◌, min, vec_len};
    ghost use Rattle.std.specs.Vec.{vec_capacity};
    ghost use Rattle.target_cache.specs.Cache.{Cache, cache_code};

    ghost Value = { Cache };

    ghost coded = { cache_code };

    ghost use Rattle.target_cache.specs.Kept.{IsSound};

    ghost view = { λ c. record { rows = c.rows.items; spare = min (vec_capacity c.rows - vec_len c.rows) (vec_capacity c.order - vec_len c.order) } };

    ghost invariant = { λ c. IsSound c.rows.items c.order.items };
}

/// The place of the row of the id, if it is an id.
fn place_at(id: i32) -> Option<usize>
    ensures { MatchOption result ((place : ℕ) → id ≡ pos (id_at place) → ⊥)
        (λ place. id ≡ pos (id_at place)) }
{
    if id < 2 || id % 2 != 0 {
        return None;
    }
    Some(id as usize / 2 - 1)
}

/// The id of the row at the place.
fn id_of(place: u64) -> i32
    requires { place < 1073741823 }
    ensures { result ≡ pos (id_at place) }
{
    (2 * place + 2) as i32
}

/// Puts what is held into the row at the place.
fn hold(rows: &mut Vec<Row>, place: usize, held: Option<Held>)
    requires { place < length rows.old.items }
    ensures row { (d : Row) → rows.new.items
        ≡ slice_set rows.old.items place
        (record { target = (slice_index_or rows.old.items place d).target; held = held }) }
    ensures len { vec_len rows.new ≡ vec_len rows.old }
    ensures room { vec_capacity rows.old ≤ vec_capacity rows.new }
{
    let row = &mut rows[place];
    row.held = held;
}

/// Puts the place at the index, where there is room.
fn insert_reserved(order: &mut Vec<u64>, at: usize, place: u64)
    requires inside { at ≤ length order.old.items }
    requires room { length order.old.items < vec_capacity order.old }
    ensures items { order.new.items ≡ insert order.old.items at place }
    ensures room { vec_capacity order.old ≤ vec_capacity order.new }
{
    let Ok(()) = order.insert(at, place) else {
        unreachable!();
    };
}

impl TargetCache {
    /// No rows. It takes no memory yet.
    pub fn new(alloc: Global) -> TargetCache
        ensures { result.rows ≡ [] }
    {
        TargetCache {
            rows: Vec::new(alloc),
            order: Vec::new(alloc),
        }
    }

    /// The id of the target's row, or `None` exactly where no row has an equal target.
    pub fn find(&self, target: &Target) -> Option<i32>
        ensures { TellsId self.now.rows target.now result }
    {
        match place_of(self.rows.as_slice(), self.order.as_slice(), target) {
            Some(place) => Some(id_of(place)),
            None => None,
        }
    }

    /// The row of the id, or `None` exactly where no row has it.
    pub fn row(&self, id: i32) -> Option<&Row>
        ensures { TellsRow self.now.rows id (option_map (λ row. row.now) result) }
    {
        let place = place_at(id)?;
        self.rows.get(place)
    }

    /// The id that the next row gets, at most 2,147,483,648.
    pub fn next_id(&self) -> u32
        ensures id { result ≡ id_at (length self.now.rows) }
        ensures most { id_at (length self.now.rows) ≤ 2147483648 }
    {
        (2 * self.rows.len() + 2) as u32
    }

    /// Makes room for so many rows more. Nothing else changes.
    ///
    /// # Errors
    /// `NoMemory`, never where there is room.
    pub fn reserve(&mut self, more: u64) -> Result<(), NoMemory>
        ensures same { self.new.rows ≡ self.old.rows }
        ensures held { self.old.spare ≤ self.new.spare }
        ensures room { OnOk result (more ≤ self.new.spare) }
        ensures kept { more ≤ self.old.spare → IsOk result }
    {
        self.rows.reserve(more as usize)?;
        self.order.reserve(more as usize)?;
        Ok(())
    }

    /// Puts what is held into the row of the id, where there is one.
    fn set_held(&mut self, id: i32, held: Option<Held>)
        ensures done { (row : Row) → IsRow self.old.rows id row → Holds id held self.old.rows self.new.rows }
        ensures none { ((row : Row) → IsRow self.old.rows id row → ⊥) → self.new.rows ≡ self.old.rows }
        ensures room { self.old.spare ≤ self.new.spare }
    {
        let Some(place) = place_at(id) else {
            return;
        };
        if place < self.rows.len() {
            hold(&mut self.rows, place, held);
        }
    }

    /// Puts a token, a version and keys into the row of the id, which is there.
    pub fn set_row(&mut self, id: i32, token: Bytes, version: Timestamp, keys: KeySet)
        requires { (row : Row) × IsRow self.old.rows id row }
        ensures done { Holds id (Some (record { token = token; version = version; keys = keys }))
            self.old.rows self.new.rows }
        ensures room { self.old.spare ≤ self.new.spare }
    {
        self.set_held(
            id,
            Some(Held {
                token,
                version,
                keys,
            }),
        );
    }

    /// Makes the row of the id hold nothing, where there is one.
    pub fn reset(&mut self, id: i32)
        ensures done { (row : Row) → IsRow self.old.rows id row → Holds id None self.old.rows self.new.rows }
        ensures none { ((row : Row) → IsRow self.old.rows id row → ⊥) → self.new.rows ≡ self.old.rows }
        ensures room { self.old.spare ≤ self.new.spare }
    {
        self.set_held(id, None);
    }

    /// Makes a blank row for the target, which no row has, under the next id.
    ///
    /// # Errors
    /// `TargetsSpent` exactly where the next id is above 2,147,483,646; else `NoMemory`, never where there is room. The rows
    /// are then as before.
    pub fn allocate(&mut self, _alloc: Global, target: Target) -> Result<i32, AllocateFault>
        requires { IsNew self.old.rows target }
        ensures id { IfOk result (λ id. id ≡ pos (id_at (length self.old.rows))) }
        ensures done { OnOk result (self.new.rows ≡ self.old.rows ++ blank target ∷ []) }
        ensures undone { OnErr result (self.new.rows ≡ self.old.rows) }
        ensures few { OnOk result (id_at (length self.old.rows) ≤ 2147483646) }
        ensures spent { IfErr result (λ fault. (fault ≡ TargetsSpent)
            ↔ (2147483646 < id_at (length self.old.rows))) }
        ensures held { self.old.spare ≤ self.new.spare + 1 }
        ensures kept { 0 < self.old.spare → id_at (length self.old.rows) ≤ 2147483646 → IsOk result }
    {
        if self.next_id() as u64 > LAST_ID {
            return Err(AllocateFault::TargetsSpent);
        }
        self.reserve(1)?;
        let place = self.rows.len() as u64;
        let at = lower(self.rows.as_slice(), self.order.as_slice(), &target);
        insert_reserved(&mut self.order, at, place);
        self.rows.push_reserved(Row { target, held: None });
        Ok(id_of(place))
    }

    /// The ids of all rows, ascending.
    ///
    /// # Errors
    /// `NoMemory`
    pub fn ids(&self, alloc: Global) -> Result<Vec<i32>, NoMemory>
        ensures { IfOk result (λ ids. AreIds self.now.rows ids.items) }
    {
        let mut ids = Vec::new(alloc);
        for place in 0..self.rows.len() as u64 {
            ids.push(id_of(place))?;
        }
        Ok(ids)
    }
}
