//! The aggregator: its calls, each said of the list that it then stands for.

ghost use Rattle.std.specs.Prelude.{◌≡◌, [], ◌∷◌, OnOk, OnErr, IfOk, IfErr, if◌then◌else◌, ◌&&◌, option_map, Some, None};
ghost use Rattle.listen_protocol.specs.Calls.{Calls};
ghost use Rattle.listen_protocol.specs.Calls as call;
ghost use Rattle.value_model.specs.declared.message.ListenResponse.TheVariants as sent;
ghost use Rattle.watch_aggregator.specs.Effects.{Gives, Refuses, filter_effect};
ghost use Rattle.watch_aggregator.specs.Points.{IsPointOf};
ghost use Rattle.listen_protocol.specs.ToldKeys.{told_keys};
ghost use Rattle.listen_protocol.specs.Transcript.{counts, is_asked_in, is_current_in};
ghost use Rattle.watch_aggregator.specs.Standing.{HasNoTokens, StandsFor, Stays, Takes};

use crate::buffer::{keep_left, left_by_change, left_by_delete};
use crate::effect::{Effect, WatchFault};
use crate::point::{WatchPoint, drop_tokens, moved, targets_of};
use crate::told::{put_all, settle, take_back, take_out};
use crate::watched::{Watched, change_all, effect_of, keep_token, place, sweep};
use document_keys::{DocumentKey, KeySet, NoMemory};
use existence_filter::{Verdict, judge};
use std::alloc::Global;
use std::collections::BTreeMap;
use std::mem;
use value_model::{
    Bytes, DocumentChange, DocumentDelete, DocumentRemove, Entry, ExistenceFilter, ListenResponse,
    TargetChange,
};

/// The requests and messages of one watch stream, added up. Contracts speak of each list of calls that it stands for.
#[derive(Drop)]
pub struct Aggregator {
    watched: Vec<Watched>,
    tokens: Vec<Bytes>,
    buffer: BTreeMap<DocumentKey, Entry>,
}

impl Aggregator {
    /// The aggregator of a stream that was just opened.
    pub fn new(alloc: Global) -> Aggregator
        ensures { StandsFor result [] }
    {
        Aggregator {
            watched: Vec::new(alloc),
            tokens: Vec::new(alloc),
            buffer: BTreeMap::new(alloc),
        }
    }

    /// An add request of the id went out, with these starting keys, and of a document target its document.
    ///
    /// # Errors
    /// `NoMemory`: it stands for the same lists as before. It comes too where the id has 2 ^ 64 - 1 open incarnations.
    pub fn request_add(
        &mut self,
        _alloc: Global,
        id: i32,
        start: KeySet,
        document: Option<DocumentKey>,
    ) -> Result<(), NoMemory>
        ensures done { OnOk result (Takes self.old self.new (call.asked id start document)) }
        ensures undone { OnErr result (Stays self.old self.new) }
    {
        // the set's order, which a proof learns from a call of the set
        let _count = start.len();
        match place(self.watched.as_slice(), &id) {
            Ok(at) => {
                let watched = &mut self.watched[at];
                let Some(opened) = watched.opened.checked_add(1) else {
                    return Err(NoMemory);
                };
                watched.opened = opened;
                watched.wanted = true;
                watched.counts = false;
                watched.document = document;
                watched.told = start;
                Ok(())
            }
            Err(at) => {
                let watched = Watched {
                    id,
                    opened: 1,
                    wanted: true,
                    counts: false,
                    document,
                    told: start,
                    current: false,
                    token: None,
                    fresh: false,
                };
                self.watched.insert(at, watched)?;
                Ok(())
            }
        }
    }

    /// A remove request of the id went out.
    pub fn request_remove(&mut self, id: i32)
        ensures { Takes self.old self.new (call.unasked id) }
    {
        match place(self.watched.as_slice(), &id) {
            Ok(at) => {
                let watched = &mut self.watched[at];
                watched.wanted = false;
                watched.counts = false;
            }
            Err(_at) => {}
        }
    }

    /// A change of targets came.
    fn change_targets(&mut self, alloc: Global, change: &TargetChange) -> Result<(), NoMemory>
        ensures done { OnOk result (Takes self.old self.new (call.came (sent.Target change.now))) }
        ensures undone { OnErr result (Stays self.old self.new) }
    {
        let token = match keep_token(alloc, &mut self.tokens, &change.resume_token) {
            Ok(token) => token,
            Err(NoMemory) => return Err(NoMemory),
        };
        change_all(alloc, &mut self.watched, change, token);
        sweep(&mut self.watched, change.kind);
        Ok(())
    }

    /// A change of a document came.
    fn change_document(&mut self, alloc: Global, change: &DocumentChange) -> Result<(), NoMemory>
        ensures done { OnOk result (Takes self.old self.new (call.came (sent.Change change.now))) }
        ensures undone { OnErr result (Stays self.old self.new) }
    {
        let left = match left_by_change(alloc, self.watched.as_slice(), change) {
            Ok(left) => left,
            Err(NoMemory) => return Err(NoMemory),
        };
        match put_all(alloc, &mut self.watched, change) {
            Ok(()) => {}
            Err(NoMemory) => {
                take_back(&mut self.watched, change.target_ids.as_slice(), &change.key);
                return Err(NoMemory);
            }
        }
        match keep_left(&mut self.buffer, left) {
            Ok(()) => {}
            Err(NoMemory) => {
                take_back(&mut self.watched, change.target_ids.as_slice(), &change.key);
                return Err(NoMemory);
            }
        }
        settle(&mut self.watched, change.target_ids.as_slice());
        take_out(
            &mut self.watched,
            change.removed_target_ids.as_slice(),
            &change.key,
        );
        Ok(())
    }

    /// A delete of a document came.
    fn delete_document(&mut self, alloc: Global, delete: &DocumentDelete) -> Result<(), NoMemory>
        ensures done { OnOk result (Takes self.old self.new (call.came (sent.Delete delete.now))) }
        ensures undone { OnErr result (Stays self.old self.new) }
    {
        let left = match left_by_delete(alloc, self.watched.as_slice(), delete) {
            Ok(left) => left,
            Err(NoMemory) => return Err(NoMemory),
        };
        match keep_left(&mut self.buffer, left) {
            Ok(()) => {}
            Err(NoMemory) => return Err(NoMemory),
        }
        take_out(
            &mut self.watched,
            delete.removed_target_ids.as_slice(),
            &delete.key,
        );
        Ok(())
    }

    /// A document left some targets.
    fn remove_document(&mut self, remove: &DocumentRemove)
        ensures { Takes self.old self.new (call.came (sent.Remove remove.now)) }
    {
        take_out(
            &mut self.watched,
            remove.removed_target_ids.as_slice(),
            &remove.key,
        );
    }

    /// Whether a filter's count is the number of told keys.
    fn filter(&self, filter: &ExistenceFilter) -> Effect
        ensures { (h : Calls) → StandsFor self.now h → result ≡ filter_effect h filter.now }
    {
        match self.told(filter.target_id) {
            Some(told) => {
                let told = told.len();
                let count = filter.count as u64;
                match judge(told, count) {
                    Verdict::Agrees => Effect::Nothing,
                    Verdict::Differs => Effect::Mismatch {
                        id: filter.target_id,
                        told,
                        count,
                    },
                }
            }
            None => Effect::Nothing,
        }
    }

    /// What a message of the stream would answer: nothing changes.
    ///
    /// # Errors
    /// `BadMessage(TargetIds)` at a REMOVE without ids, `BadMessage(Cause)` at one without cause for a live incarnation,
    /// `NoMemory`.
    pub fn effect(&self, alloc: Global, message: &ListenResponse) -> Result<Effect, WatchFault>
        ensures gives { IfOk result (λ effect. (h : Calls) → StandsFor self.now h
            → Gives h message.now effect) }
        ensures refuses { IfErr result (λ fault. (h : Calls) → StandsFor self.now h
            → Refuses h message.now fault) }
    {
        match message {
            ListenResponse::Target(change) => effect_of(alloc, self.watched.as_slice(), change),
            ListenResponse::Filter(filter) => Ok(self.filter(filter)),
            ListenResponse::Change(_) => Ok(Effect::Nothing),
            ListenResponse::Delete(_) => Ok(Effect::Nothing),
            ListenResponse::Remove(_) => Ok(Effect::Nothing),
        }
    }

    /// A message of the stream came, which `effect` doesn't refuse.
    ///
    /// # Errors
    /// `NoMemory`: it stands for the same lists as before.
    pub fn take(&mut self, alloc: Global, message: &ListenResponse) -> Result<(), NoMemory>
        ensures done { OnOk result (Takes self.old self.new (call.came message.now)) }
        ensures undone { OnErr result (Stays self.old self.new) }
    {
        match message {
            ListenResponse::Target(change) => self.change_targets(alloc, change),
            ListenResponse::Change(change) => self.change_document(alloc, change),
            ListenResponse::Delete(delete) => self.delete_document(alloc, delete),
            ListenResponse::Remove(remove) => {
                self.remove_document(remove);
                Ok(())
            }
            ListenResponse::Filter(_) => Ok(()),
        }
    }

    /// A message of the stream came.
    ///
    /// # Errors
    /// `BadMessage(TargetIds)` at a REMOVE without ids, `BadMessage(Cause)` at one without cause for a live incarnation,
    /// `NoMemory`. Then it stands for the same lists as before.
    pub fn message(&mut self, alloc: Global, message: &ListenResponse) -> Result<Effect, WatchFault>
        ensures done { IfOk result (λ effect. (h : Calls) → StandsFor self.old h
            → Gives h message.now effect × StandsFor self.new (call.came message.now ∷ h)) }
        ensures undone { IfErr result (λ fault. (h : Calls) → StandsFor self.old h
            → Refuses h message.now fault × StandsFor self.new h) }
    {
        let effect = match self.effect(alloc, message) {
            Ok(effect) => effect,
            Err(fault) => return Err(fault),
        };
        match self.take(alloc, message) {
            Ok(()) => Ok(effect),
            Err(NoMemory) => Err(WatchFault::NoMemory),
        }
    }

    /// Hands out what waited for the point, which is applied: the buffer and the tokens are empty then.
    ///
    /// # Errors
    /// `NoMemory`: it stands for the same lists as before.
    pub fn apply_point(&mut self, alloc: Global) -> Result<WatchPoint, NoMemory>
        ensures done { IfOk result (λ point. (h : Calls) → StandsFor self.old h → IsPointOf h point
            × StandsFor self.new (call.applied ∷ h)) }
        ensures emptied { OnOk result (HasNoTokens self.new) }
        ensures undone { OnErr result (Stays self.old self.new) }
    {
        let room = Vec::with_capacity(alloc, self.buffer.len())?;
        let targets = targets_of(alloc, self.tokens.as_slice(), self.watched.as_slice())?;
        drop_tokens(&mut self.watched);
        self.tokens.clear();
        let buffer = mem::replace(&mut self.buffer, BTreeMap::new(alloc));
        let entries = moved(buffer, room);
        Ok(WatchPoint { entries, targets })
    }

    /// The point is skipped: the tokens that came are dropped.
    pub fn skip_point(&mut self)
        ensures done { Takes self.old self.new call.skipped }
        ensures emptied { HasNoTokens self.new }
    {
        drop_tokens(&mut self.watched);
        self.tokens.clear();
    }

    /// The told keys of the id, or `None` exactly where it has no counting incarnation.
    pub fn told(&self, id: i32) -> Option<&KeySet>
        ensures { (h : Calls) → StandsFor self.now h
            → option_map (λ keys. keys.now) result
            ≡ (if counts id h then Some (told_keys id h) else None) }
    {
        match place(self.watched.as_slice(), &id) {
            Ok(at) => {
                let watched = &self.watched[at];
                if watched.counts {
                    Some(&watched.told)
                } else {
                    None
                }
            }
            Err(_at) => None,
        }
    }

    /// Whether the id's counting incarnation is CURRENT.
    pub fn is_current(&self, id: i32) -> bool
        ensures { (h : Calls) → StandsFor self.now h → result ≡ (counts id h && is_current_in id h) }
    {
        match place(self.watched.as_slice(), &id) {
            Ok(at) => self.watched[at].counts && self.watched[at].current,
            Err(_at) => false,
        }
    }

    /// Whether the id's newest incarnation has no remove request and hasn't ended.
    pub fn is_asked(&self, id: i32) -> bool
        ensures { (h : Calls) → StandsFor self.now h → result ≡ is_asked_in id h }
    {
        match place(self.watched.as_slice(), &id) {
            Ok(at) => self.watched[at].wanted && self.watched[at].opened != 0,
            Err(_at) => false,
        }
    }
}
