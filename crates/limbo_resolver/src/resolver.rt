ghost use Rattle.std.specs.Prelude.{◌≡◌, ◌≤◌, ◌<◌, ◌+◌, ◌-◌, ◌*◌, ◌++◌, ◌<ℤ◌, pos, [], false, length, zip, drop, take};
ghost use Rattle.std.specs.Prelude.{IsTrue, IfOk, OnOk, OnErr, option_map};
ghost use Rattle.std.specs.List.{AllPairs, filter};
ghost use Rattle.limbo_resolver.specs.Held.{firsts, joined};
ghost use Rattle.limbo_resolver.specs.Limbo.{is_odd, Key, ended, has, has_place, held, ids_of, kept};
ghost use Rattle.limbo_resolver.specs.Limbo.{key_in, started, updated, without};

use crate::ids::{ended_ids, kept_ids, place, push_ids};
use crate::keys::{first_listens, keep_wanted, push_new};
use document_keys::{DocumentKey, KeySet, NoMemory};
use indexmap::IndexSet;
use std::alloc::Global;
use std::marker::Model;

/// How many limbo listens run at a time.
const RUNNING_LIMIT: usize = 100;

/// The limbo listens of a client. Contracts see those that run, the keys that wait, and the id that the next listen gets.
#[derive(Drop)]
pub struct LimboResolver {
    /// Those that run, by their ids, and behind them those that wait.
    keys: IndexSet<DocumentKey>,
    ids: Vec<i32>,
    next: u32,
}

impl Model for LimboResolver {
    ghost use Rattle.limbo_resolver.specs.Held.{IsInOrder, seen};
    ghost use Rattle.limbo_resolver.specs.Limbo.{Limbo};

    ghost Value = { Limbo };

    ghost view = { λ a. seen a.ids.items a.keys.keys a.next };

    ghost invariant = { λ a. IsInOrder a.ids.items a.keys.keys a.next };
}

/// What an update changed: the ids of the listens that end, and the listens that start, both ascending by id.
#[derive(Debug, Drop)]
pub struct LimboChange {
    pub ended: Vec<i32>,
    pub started: Vec<(i32, DocumentKey)>,
}

/// What an update will leave.
#[derive(Drop)]
struct Outcome {
    ids: Vec<i32>,
    next: u32,
    change: LimboChange,
}

/// Puts the new keys behind the others, and tells which listens will run.
fn prepare(
    alloc: Global,
    keys: &mut IndexSet<DocumentKey>,
    ids: &[i32],
    next: u32,
    wanted: &KeySet,
) -> Result<Outcome, NoMemory>
    requires { length ids.now ≤ length keys.old.keys }
    ensures keys { OnOk result (keys.new.keys ≡ joined keys.old.keys wanted.now) }
    ensures front { take (length keys.old.keys) keys.new.keys ≡ keys.old.keys }
    ensures ended { IfOk result (λ outcome. outcome.change.ended.items
        ≡ ended wanted.now (zip ids.now keys.new.keys)) }
    ensures started { IfOk result (λ outcome. outcome.change.started.items
        ≡ firsts (100 - length (kept wanted.now (zip ids.now keys.new.keys))) next
        (filter (has wanted.now) (drop (length ids.now) keys.new.keys))) }
    ensures next { IfOk result (λ outcome. outcome.next ≡ next + 2 * length outcome.change.started.items) }
    ensures ids { IfOk result (λ outcome. outcome.ids.items
        ≡ ids_of (kept wanted.now (zip ids.now keys.new.keys)) ++ ids_of outcome.change.started.items) }
{
    push_new(alloc, keys, wanted.as_slice())?;
    let ended = ended_ids(alloc, ids, keys.as_slice(), wanted)?;
    let mut running = kept_ids(alloc, ids, keys.as_slice(), wanted)?;
    let places = RUNNING_LIMIT.saturating_sub(running.len());
    let waiting = &keys.as_slice()[ids.len()..];
    let started = first_listens(alloc, waiting, wanted, places, next)?;
    push_ids(&mut running, started.listens.as_slice())?;
    Ok(Outcome {
        ids: running,
        next: started.next,
        change: LimboChange {
            ended,
            started: started.listens,
        },
    })
}

impl LimboResolver {
    /// Without listens. The first gets this id, which is odd and positive, and the next ones go on by twos.
    pub fn new(alloc: Global, first: i32) -> LimboResolver
        requires { IsTrue (is_odd first) }
        ensures running { result.running ≡ [] }
        ensures waiting { result.waiting ≡ [] }
        ensures next { pos result.next ≡ first }
    {
        LimboResolver {
            keys: IndexSet::new(alloc),
            ids: Vec::new(alloc),
            next: first as u32,
        }
    }

    /// Exactly these keys are in limbo now: the listens of others end, and new ones start while there is a place.
    ///
    /// # Errors
    /// `NoMemory`: nothing has changed.
    pub fn update(&mut self, alloc: Global, wanted: &KeySet) -> Result<LimboChange, NoMemory>
        ensures done { OnOk result (self.new ≡ updated wanted.now self.old) }
        ensures ended { IfOk result (λ change. change.ended.items ≡ ended wanted.now self.old.running) }
        ensures started { IfOk result (λ change. change.started.items ≡ started wanted.now self.old) }
        ensures held { OnOk result ((key : Key) → has (held self.new) key ≡ has wanted.now key) }
        ensures full { OnOk result (0 < length self.new.waiting
            → has_place (length self.new.running) self.new.next ≡ false) }
        ensures undone { OnErr result (self.new ≡ self.old) }
    {
        // the set's order, which a proof learns from a call of the set
        let _count = wanted.len();
        let before = self.keys.len();
        match prepare(
            alloc,
            &mut self.keys,
            self.ids.as_slice(),
            self.next,
            wanted,
        ) {
            Ok(outcome) => {
                keep_wanted(&mut self.keys, wanted);
                self.ids = outcome.ids;
                self.next = outcome.next;
                Ok(outcome.change)
            }
            Err(NoMemory) => {
                self.keys.truncate(before);
                Err(NoMemory)
            }
        }
    }

    /// The key of a running id, or `None` exactly where the id isn't running.
    pub fn key_of(&self, id: i32) -> Option<&DocumentKey>
        ensures { option_map (λ key. key.now) result ≡ key_in self.now.running id }
    {
        match place(self.ids.as_slice(), &id) {
            Ok(at) => self.keys.get_index(at),
            Err(_) => None,
        }
    }

    /// The running ids, ascending.
    ///
    /// # Errors
    /// `NoMemory`
    pub fn ids(&self, alloc: Global) -> Result<Vec<i32>, NoMemory>
        ensures ids { IfOk result (λ ids. ids.items ≡ ids_of self.now.running) }
        ensures ascending { IfOk result (λ ids. AllPairs (λ a b. a <ℤ b) ids.items) }
    {
        let mut ids = Vec::new(alloc);
        for id in self.ids.as_slice() {
            ids.push(*id)?;
        }
        Ok(ids)
    }

    /// The listen of the id was refused, and runs no longer. `None` exactly where the id isn't running.
    pub fn refused(&mut self, id: i32) -> Option<DocumentKey>
        ensures key { result ≡ key_in self.old.running id }
        ensures rest { self.new ≡ record self.old { running = without self.old.running id } }
    {
        match place(self.ids.as_slice(), &id) {
            Ok(at) => {
                self.ids.remove(at);
                self.keys.shift_remove_index(at)
            }
            Err(_) => None,
        }
    }

    /// How many keys wait.
    pub fn waiting(&self) -> u64
        ensures { result ≡ length self.now.waiting }
    {
        (self.keys.len() - self.ids.len()) as u64
    }
}
