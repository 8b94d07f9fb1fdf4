//! What is kept of one target id, and of all under a change of targets.

ghost use Rattle.std.specs.Prelude.{◌≡◌, ◌&&◌, ◌==◌, not, if◌then◌else◌, IfOk, IfErr, length, map, List, ℕ, true, false, None};
ghost use Rattle.listen_protocol.specs.Calls.{Calls, is_of, is_remove, lists};
ghost use Rattle.std.specs.List.{filter};
ghost use Rattle.std.specs.List.Sorted.{IsSearchInRange};
ghost use Rattle.watch_aggregator.specs.Effects.{GivesPoint, GivesTarget, RefusesTarget};
ghost use Rattle.watch_aggregator.specs.Standing.{AreWatched};
ghost use Rattle.watch_aggregator.specs.Steps.{AreAscending, HasToken, IsEach, IsPlace, KeepsTokens, changed, ends};

use crate::effect::{Effect, WatchFault, WatchMember};
use document_keys::{DocumentKey, KeySet, NoMemory};
use std::alloc::Global;
use value_model::{Bytes, ChangeKind, TargetChange, TargetIds};

/// What is kept of a target id that was asked for.
#[derive(Debug, Drop)]
pub(crate) struct Watched {
    pub(crate) id: i32,
    /// How many incarnations are open.
    pub(crate) opened: u64,
    /// Whether the newest has no remove request.
    pub(crate) wanted: bool,
    /// Whether it counts.
    pub(crate) counts: bool,
    pub(crate) document: Option<DocumentKey>,
    /// The starting keys before it counts, then the told ones.
    pub(crate) told: KeySet,
    pub(crate) current: bool,
    /// The place of its token among those that came since the last point.
    pub(crate) token: Option<usize>,
    /// Whether the message at hand put its key into `told`; false between messages.
    pub(crate) fresh: bool,
}

/// Whether the ids have this one.
pub(crate) fn lists(ids: &[i32], id: i32) -> bool
    ensures { result ≡ lists ids.now id }
{
    ids.contains(&id)
}

/// Whether a change of targets with these ids is of the id; without ids it is of all.
pub(crate) fn is_of(ids: &[i32], id: i32) -> bool
    ensures { result ≡ is_of ids.now id }
{
    ids.is_empty() || lists(ids, id)
}

/// A start, by an ADD or a RESET: neither CURRENT nor a token is known since.
fn begin(watched: &mut Watched)
    ensures { watched.new ≡ record watched.old { current = false; token = None } }
{
    watched.current = false;
    watched.token = None;
}

/// A change of targets came, with the place of its token if it brings one.
pub(crate) fn change(
    alloc: Global,
    watched: &mut Watched,
    change: &TargetChange,
    token: Option<usize>,
)
    ensures { watched.new ≡ changed change.now token watched.old }
{
    if !is_of(change.target_ids.as_slice(), watched.id) {
        return;
    }
    match change.kind {
        ChangeKind::NoChange => {}
        ChangeKind::Add => {
            if watched.wanted && watched.opened == 1 && !watched.counts {
                watched.counts = true;
                begin(watched);
            }
        }
        ChangeKind::Remove => {
            watched.opened = watched.opened.saturating_sub(1);
            watched.counts = false;
        }
        ChangeKind::Current => watched.current = true,
        ChangeKind::Reset => {
            if watched.counts {
                watched.told = KeySet::new(alloc);
                begin(watched);
            }
        }
    }
    if token.is_some() {
        watched.token = token;
    }
}

/// A change of targets came.
pub(crate) fn change_all(
    alloc: Global,
    watched: &mut Vec<Watched>,
    change: &TargetChange,
    token: Option<usize>,
)
    ensures { IsEach (λ v w. w ≡ changed change.now token v) watched.old.items watched.new.items }
{
    for i in 0..watched.len() {
        let one = &mut watched[i];
        self::change(alloc, one, change, token);
    }
}

/// The place of the id, or else the place at which it would stand.
pub(crate) fn place(watched: &[Watched], id: &i32) -> Result<usize, usize>
    ensures bound { IsSearchInRange result (length watched.now) }
    ensures place { AreAscending watched.now → IsPlace watched.now id.now result }
{
    watched.binary_search_by(|one| one.id.cmp(id))
}

/// The ids among these whose newest incarnation is live.
pub(crate) fn ended_ids(
    alloc: Global,
    watched: &[Watched],
    ids: &[i32],
) -> Result<Vec<i32>, NoMemory>
    ensures { IfOk result (λ ended. ended.items ≡ map (λ w. w.id) (filter (ends ids.now) watched.now)) }
{
    let mut ended = Vec::new(alloc);
    for one in watched {
        if lists(ids, one.id) && one.wanted && one.opened == 1 {
            ended.push(one.id)?;
        }
    }
    Ok(ended)
}

/// Keeps a token that isn't empty, and tells its place.
pub(crate) fn keep_token(
    alloc: Global,
    tokens: &mut Vec<Bytes>,
    token: &Bytes,
) -> Result<Option<usize>, NoMemory>
    ensures brings { IfOk result (λ place. HasToken tokens.new.items place token.now) }
    ensures keeps { KeepsTokens tokens.old.items tokens.new.items }
{
    if token.as_slice().is_empty() {
        return Ok(None);
    }
    let copy = token.copy(alloc)?;
    let place = tokens.len();
    tokens.push(copy)?;
    Ok(Some(place))
}

/// Whether the change is a point.
pub(crate) fn point_of(change: &TargetChange) -> Effect
    ensures { GivesPoint change.now result }
{
    match change.read_time {
        Some(at) => {
            if change.target_ids.as_slice().is_empty() {
                return Effect::Point(at);
            }
            Effect::Nothing
        }
        None => Effect::Nothing,
    }
}

/// What a REMOVE answers.
pub(crate) fn end_of(
    alloc: Global,
    watched: &[Watched],
    change: &TargetChange,
) -> Result<Effect, WatchFault>
    requires { is_remove change.now.kind ≡ true }
    ensures gives { IfOk result (λ effect. (tokens : List (List ℕ)) (h : Calls) →
        AreWatched tokens watched.now h → GivesTarget h change.now effect) }
    ensures refuses { IfErr result (λ fault. (tokens : List (List ℕ)) (h : Calls) →
        AreWatched tokens watched.now h → RefusesTarget h change.now fault) }
{
    if change.target_ids.as_slice().is_empty() {
        return Err(WatchFault::BadMessage(WatchMember::TargetIds));
    }
    let ended = ended_ids(alloc, watched, change.target_ids.as_slice())?;
    if ended.is_empty() {
        return Ok(Effect::Nothing);
    }
    match &change.cause {
        Some(status) => {
            let status = status.copy(alloc)?;
            Ok(Effect::Ended {
                ids: TargetIds::from_vec(ended),
                status,
            })
        }
        None => Err(WatchFault::BadMessage(WatchMember::Cause)),
    }
}

/// What a change of targets answers.
pub(crate) fn effect_of(
    alloc: Global,
    watched: &[Watched],
    change: &TargetChange,
) -> Result<Effect, WatchFault>
    ensures gives { IfOk result (λ effect. (tokens : List (List ℕ)) (h : Calls) →
        AreWatched tokens watched.now h → GivesTarget h change.now effect) }
    ensures refuses { IfErr result (λ fault. (tokens : List (List ℕ)) (h : Calls) →
        AreWatched tokens watched.now h → RefusesTarget h change.now fault) }
{
    match change.kind {
        ChangeKind::Remove => end_of(alloc, watched, change),
        _ => Ok(point_of(change)),
    }
}

/// Forgets the ids without open incarnations, which only a REMOVE leaves.
pub(crate) fn sweep(watched: &mut Vec<Watched>, kind: ChangeKind)
    ensures { watched.new.items ≡ (if is_remove kind then filter
        (λ w. not (w.opened == 0)) watched.old.items else watched.old.items) }
{
    match kind {
        ChangeKind::Remove => watched.retain(|one| one.opened != 0),
        _ => {}
    }
}
