//! What the messages of a watch stream add up to for one target, contradictory ones among them.

use document_keys::{DocumentKey, KeyBuilder, KeySet, Text};
use existence_filter::{Verdict, judge};
use std::alloc::Global;
use std::process::Abort;
use std::test::Fail;
use value_model::{
    Bytes, ChangeKind, DocumentChange, DocumentDelete, DocumentRemove, Entry, ExistenceFilter,
    Fields, ListenResponse, RpcStatus, TargetChange, TargetIds, Timestamp,
};
use watch_aggregator::{Aggregator, Effect, WatchFault, WatchMember, WatchPoint};

/// The key `rooms/a`.
fn room(alloc: Global) -> Result<DocumentKey, Fail> {
    let builder = KeyBuilder::new(alloc).with("rooms")?;
    Ok(builder.with("a")?.finish()?)
}

fn time(seconds: i64) -> Timestamp {
    Timestamp { seconds, nanos: 0 }
}

/// A request or a message of the target 2, whose document is `rooms/a`.
#[derive(Clone, Copy, Debug, PartialEq, Eq)]
enum Step {
    Ask,
    /// An add request whose starting keys have the document.
    Resume,
    Unask,
    Change(ChangeKind),
    /// The same without ids.
    ChangeAll(ChangeKind),
    /// A REMOVE with a cause.
    End,
    Token(u8),
    Point(i64),
    /// The document, at its update time, is in the target.
    Put(i64),
    /// The document is in the target and no more in it.
    PutAndOut(i64),
    Delete(i64),
    DeleteAtNoTime,
    Out,
    Filter(u32),
}

/// What a step was answered.
#[derive(Clone, Copy, Debug, PartialEq, Eq)]
enum Answer {
    Nothing,
    Point(i64),
    Mismatch(u64, u64),
    Ended(u8),
    NoIds,
    NoCause,
}

fn ids(alloc: Global, ids: &[i32]) -> Result<TargetIds, Fail> {
    Ok(TargetIds::from_vec(ids.to_vec(alloc)?))
}

/// A change of targets without cause, token and time.
fn plain(alloc: Global, kind: ChangeKind, target_ids: TargetIds) -> TargetChange {
    TargetChange {
        kind,
        target_ids,
        cause: None,
        resume_token: Bytes::from_vec(Vec::new(alloc)),
        read_time: None,
    }
}

fn ended(alloc: Global) -> Result<ListenResponse, Fail> {
    let mut change = plain(alloc, ChangeKind::Remove, ids(alloc, &[2])?);
    let message = Text::from_str(alloc, "gone")?;
    change.cause = Some(RpcStatus { code: 5, message });
    Ok(ListenResponse::Target(change))
}

fn with_token(alloc: Global, byte: u8) -> Result<ListenResponse, Fail> {
    let mut change = plain(alloc, ChangeKind::NoChange, ids(alloc, &[2])?);
    let mut token = Vec::new(alloc);
    token.push(byte)?;
    change.resume_token = Bytes::from_vec(token);
    Ok(ListenResponse::Target(change))
}

fn point(alloc: Global, at: i64) -> Result<ListenResponse, Fail> {
    let mut change = plain(alloc, ChangeKind::NoChange, ids(alloc, &[])?);
    change.read_time = Some(time(at));
    Ok(ListenResponse::Target(change))
}

fn sent(alloc: Global, at: i64, removed: &[i32]) -> Result<ListenResponse, Fail> {
    Ok(ListenResponse::Change(DocumentChange {
        key: room(alloc)?,
        fields: Fields::new(alloc),
        update_time: time(at),
        target_ids: ids(alloc, &[2])?,
        removed_target_ids: ids(alloc, removed)?,
    }))
}

fn deleted(alloc: Global, at: Option<i64>) -> Result<ListenResponse, Fail> {
    let read_time = match at {
        Some(at) => Some(time(at)),
        None => None,
    };
    Ok(ListenResponse::Delete(DocumentDelete {
        key: room(alloc)?,
        removed_target_ids: ids(alloc, &[2])?,
        read_time,
    }))
}

fn removed(alloc: Global) -> Result<ListenResponse, Fail> {
    Ok(ListenResponse::Remove(DocumentRemove {
        key: room(alloc)?,
        removed_target_ids: ids(alloc, &[2])?,
        read_time: None,
    }))
}

/// The message of a step that is no request.
fn message(alloc: Global, step: Step) -> Result<ListenResponse, Fail> {
    match step {
        Step::Change(kind) => {
            let change = plain(alloc, kind, ids(alloc, &[2])?);
            Ok(ListenResponse::Target(change))
        }
        Step::ChangeAll(kind) => {
            let change = plain(alloc, kind, ids(alloc, &[])?);
            Ok(ListenResponse::Target(change))
        }
        Step::End => ended(alloc),
        Step::Token(byte) => with_token(alloc, byte),
        Step::Point(at) => point(alloc, at),
        Step::Put(at) => sent(alloc, at, &[]),
        Step::PutAndOut(at) => sent(alloc, at, &[2]),
        Step::Delete(at) => deleted(alloc, Some(at)),
        Step::DeleteAtNoTime => deleted(alloc, None),
        Step::Out => removed(alloc),
        Step::Filter(count) => Ok(ListenResponse::Filter(ExistenceFilter {
            target_id: 2,
            count,
        })),
        Step::Ask | Step::Resume | Step::Unask => Err("a request is no message".into()),
    }
}

fn answer_of(effect: Effect) -> Answer {
    match effect {
        Effect::Nothing => Answer::Nothing,
        Effect::Point(at) => Answer::Point(at.seconds),
        Effect::Mismatch { id: _, told, count } => Answer::Mismatch(told, count),
        Effect::Ended { ids: _, status } => Answer::Ended(status.code),
    }
}

fn hear(alloc: Global, aggregator: &mut Aggregator, step: Step) -> Result<Answer, Fail> {
    let message = message(alloc, step)?;
    match aggregator.message(alloc, &message) {
        Ok(effect) => Ok(answer_of(effect)),
        Err(WatchFault::BadMessage(WatchMember::TargetIds)) => Ok(Answer::NoIds),
        Err(WatchFault::BadMessage(WatchMember::Cause)) => Ok(Answer::NoCause),
        Err(WatchFault::NoMemory) => Err("no memory".into()),
    }
}

fn ask(alloc: Global, aggregator: &mut Aggregator, with_key: bool) -> Result<Answer, Fail> {
    let mut start = KeySet::new(alloc);
    if with_key {
        start.insert(alloc, room(alloc)?)?;
    }
    aggregator.request_add(alloc, 2, start, None)?;
    Ok(Answer::Nothing)
}

fn take(alloc: Global, aggregator: &mut Aggregator, step: Step) -> Result<Answer, Fail> {
    match step {
        Step::Ask => ask(alloc, aggregator, false),
        Step::Resume => ask(alloc, aggregator, true),
        Step::Unask => {
            aggregator.request_remove(2);
            Ok(Answer::Nothing)
        }
        _ => hear(alloc, aggregator, step),
    }
}

/// The answer of the last of the steps.
fn take_all(alloc: Global, aggregator: &mut Aggregator, steps: &[Step]) -> Result<Answer, Fail> {
    let mut last = Answer::Nothing;
    for step in steps {
        last = take(alloc, aggregator, *step)?;
    }
    Ok(last)
}

/// The number of told keys, whether the target is CURRENT, and whether it is asked.
#[derive(Clone, Copy, Debug, PartialEq, Eq)]
struct Known {
    told: Option<u64>,
    is_current: bool,
    is_asked: bool,
}

fn known_of(aggregator: &Aggregator) -> Known {
    let told = match aggregator.told(2) {
        Some(keys) => Some(keys.len()),
        None => None,
    };
    Known {
        told,
        is_current: aggregator.is_current(2),
        is_asked: aggregator.is_asked(2),
    }
}

const UNKNOWN: Known = Known {
    told: None,
    is_current: false,
    is_asked: false,
};

const WAITS: Known = Known {
    told: None,
    is_current: false,
    is_asked: true,
};

const COUNTS: Known = Known {
    told: Some(0),
    is_current: false,
    is_asked: true,
};

const HAS_ONE: Known = Known {
    told: Some(1),
    is_current: false,
    is_asked: true,
};

fn check(
    rt: &(impl Abort + AllocGlobal),
    steps: &[Step],
    wanted: Answer,
    then: Known,
) -> Result<(), Fail> {
    let mut aggregator = Aggregator::new(rt.alloc());
    let last = take_all(rt.alloc(), &mut aggregator, steps)?;
    assert!(rt; last == wanted);
    let now = known_of(&aggregator);
    assert!(rt; now == then);
    Ok(())
}

const ADD: Step = Step::Change(ChangeKind::Add);

const REMOVE: Step = Step::Change(ChangeKind::Remove);

const CURRENT: Step = Step::Change(ChangeKind::Current);

const RESET: Step = Step::Change(ChangeKind::Reset);

#[test]
fn removed_but_never_added(rt: HostRuntime) -> Result<(), Fail> {
    check(&rt, &[REMOVE], Answer::Nothing, UNKNOWN)?;
    check(&rt, &[REMOVE, Step::Ask, ADD], Answer::Nothing, COUNTS)
}

#[test]
fn removed_twice(rt: HostRuntime) -> Result<(), Fail> {
    check(&rt, &[Step::Ask, ADD, Step::End], Answer::Ended(5), UNKNOWN)?;
    check(
        &rt,
        &[Step::Ask, ADD, Step::End, Step::End],
        Answer::Nothing,
        UNKNOWN,
    )?;
    check(&rt, &[Step::Ask, Step::End], Answer::Ended(5), UNKNOWN)
}

#[test]
fn removed_without_ids_or_cause(rt: HostRuntime) -> Result<(), Fail> {
    let all = Step::ChangeAll(ChangeKind::Remove);
    check(&rt, &[Step::Ask, ADD, all], Answer::NoIds, COUNTS)?;
    check(&rt, &[Step::Ask, ADD, REMOVE], Answer::NoCause, COUNTS)
}

#[test]
fn current_before_the_add(rt: HostRuntime) -> Result<(), Fail> {
    check(&rt, &[Step::Ask, CURRENT], Answer::Nothing, WAITS)?;
    check(&rt, &[Step::Ask, CURRENT, ADD], Answer::Nothing, COUNTS)
}

#[test]
fn in_both_lists(rt: HostRuntime) -> Result<(), Fail> {
    let both = Step::PutAndOut(3);
    check(&rt, &[Step::Ask, ADD, both], Answer::Nothing, COUNTS)?;
    check(&rt, &[Step::Resume, ADD, both], Answer::Nothing, COUNTS)
}

#[test]
fn falling_read_times(rt: HostRuntime) -> Result<(), Fail> {
    let points = [Step::Ask, ADD, Step::Point(9), Step::Point(5)];
    check(&rt, points.as_slice(), Answer::Point(5), COUNTS)
}

#[test]
fn starting_keys_and_resets(rt: HostRuntime) -> Result<(), Fail> {
    check(&rt, &[Step::Resume, ADD], Answer::Nothing, HAS_ONE)?;
    check(&rt, &[Step::Resume, RESET, ADD], Answer::Nothing, HAS_ONE)?;
    check(&rt, &[Step::Resume, ADD, RESET], Answer::Nothing, COUNTS)?;
    check(
        &rt,
        &[Step::Resume, ADD, RESET, ADD],
        Answer::Nothing,
        COUNTS,
    )
}

#[test]
fn an_older_incarnation(rt: HostRuntime) -> Result<(), Fail> {
    let old = [Step::Ask, ADD, Step::Unask, Step::Ask, ADD, Step::Put(3)];
    check(&rt, old.as_slice(), Answer::Nothing, WAITS)?;
    let next = [Step::Ask, ADD, Step::Unask, Step::Ask, REMOVE, ADD];
    check(&rt, next.as_slice(), Answer::Nothing, COUNTS)
}

#[test]
fn filters(rt: HostRuntime) -> Result<(), Fail> {
    let put = [Step::Ask, ADD, Step::Put(3), Step::Filter(1)];
    check(&rt, put.as_slice(), Answer::Nothing, HAS_ONE)?;
    let out = [Step::Resume, ADD, Step::Out, Step::Filter(1)];
    check(&rt, out.as_slice(), Answer::Mismatch(0, 1), COUNTS)?;
    check(
        &rt,
        &[Step::Resume, Step::Filter(7)],
        Answer::Nothing,
        WAITS,
    )
}

#[test]
fn verdicts(rt: HostRuntime) -> Result<(), Fail> {
    assert!(rt; judge(3, 3) == Verdict::Agrees);
    assert!(rt; judge(3, 4) == Verdict::Differs);
    Ok(())
}

/// What a point hands out: the version of the document that waits, or that none does; and the first byte of the token.
#[derive(Clone, Copy, Debug, PartialEq, Eq)]
struct Handed {
    found: Option<i64>,
    missing: Option<i64>,
    token: Option<u8>,
}

fn token_of(point: &WatchPoint) -> Option<u8> {
    let target = point.targets.as_slice().first()?;
    match &target.token {
        Some(token) => token.as_slice().first().copied(),
        None => None,
    }
}

fn handed_by(point: &WatchPoint) -> Handed {
    let token = token_of(point);
    let (found, missing) = match point.entries.as_slice().first() {
        Some((_, Entry::Found(_, version))) => (Some(version.seconds), None),
        Some((_, entry)) => (None, Some(entry.version().seconds)),
        None => (None, None),
    };
    Handed {
        found,
        missing,
        token,
    }
}

fn check_point(
    rt: &(impl Abort + AllocGlobal),
    aggregator: &mut Aggregator,
    steps: &[Step],
    wanted: Handed,
) -> Result<(), Fail> {
    take_all(rt.alloc(), aggregator, steps)?;
    let point = aggregator.apply_point(rt.alloc())?;
    let now = handed_by(&point);
    assert!(rt; now == wanted);
    Ok(())
}

const NONE: Handed = Handed {
    found: None,
    missing: None,
    token: None,
};

fn found(at: i64, token: Option<u8>) -> Handed {
    Handed {
        found: Some(at),
        missing: None,
        token,
    }
}

fn missing(at: i64) -> Handed {
    Handed {
        found: None,
        missing: Some(at),
        token: None,
    }
}

#[test]
fn points(rt: HostRuntime) -> Result<(), Fail> {
    let mut aggregator = Aggregator::new(rt.alloc());
    let first = [Step::Ask, Step::Token(6), ADD, Step::Put(3), Step::Token(7)];
    check_point(&rt, &mut aggregator, first.as_slice(), found(3, Some(7)))?;
    check_point(&rt, &mut aggregator, &[Step::Point(5)], NONE)?;
    let lower = [Step::Put(4), Step::Delete(3)];
    check_point(&rt, &mut aggregator, lower.as_slice(), found(4, None))?;
    let equal = [Step::Put(4), Step::Delete(4)];
    check_point(&rt, &mut aggregator, equal.as_slice(), missing(4))?;
    check_point(&rt, &mut aggregator, &[Step::DeleteAtNoTime], NONE)
}

#[test]
fn tokens_before_the_start(rt: HostRuntime) -> Result<(), Fail> {
    let mut aggregator = Aggregator::new(rt.alloc());
    let before = [Step::Ask, Step::Token(6), ADD];
    check_point(&rt, &mut aggregator, before.as_slice(), NONE)?;
    let reset = [Step::Token(6), RESET];
    check_point(&rt, &mut aggregator, reset.as_slice(), NONE)
}

#[test]
fn skipped_points(rt: HostRuntime) -> Result<(), Fail> {
    let mut aggregator = Aggregator::new(rt.alloc());
    let steps = [Step::Ask, ADD, Step::Put(3), Step::Token(7), Step::Point(1)];
    take_all(rt.alloc(), &mut aggregator, steps.as_slice())?;
    aggregator.skip_point();
    check_point(&rt, &mut aggregator, &[], found(3, None))
}
