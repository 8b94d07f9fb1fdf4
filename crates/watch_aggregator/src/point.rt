//! What a point hands out.

ghost use Rattle.std.specs.Prelude.{◌≡◌, ◌≤◌, [], IfOk, None, map, option_and_then};
ghost use Rattle.std.specs.List.{filter, slice_get};
ghost use Rattle.watch_aggregator.specs.Points.{target_from};
ghost use Rattle.std.specs.BTreeMap.{IsOrdered, btree_map_len};
ghost use Rattle.std.specs.Vec.{vec_capacity};
ghost use Rattle.listen_protocol.specs.Calls.{key_cmp};
ghost use Rattle.watch_aggregator.specs.Steps.{IsEach};

use crate::watched::Watched;
use document_keys::{DocumentKey, KeySet, NoMemory};
use std::alloc::Global;
use std::collections::BTreeMap;
use value_model::{Bytes, Entry};

/// What waited for a point: the entries, ascending by key, and the counting targets, ascending by id.
#[derive(Debug, Drop)]
pub struct WatchPoint {
    pub entries: Vec<(DocumentKey, Entry)>,
    pub targets: Vec<WatchTarget>,
}

/// A counting target as it stands at a point.
#[derive(Debug, Drop)]
pub struct WatchTarget {
    pub id: i32,
    /// The document of a document target.
    pub document: Option<DocumentKey>,
    pub current: bool,
    /// The token that came since the last point.
    pub token: Option<Bytes>,
    pub told: KeySet,
}

fn copy_document(
    alloc: Global,
    document: &Option<DocumentKey>,
) -> Result<Option<DocumentKey>, NoMemory>
    ensures { IfOk result (λ copy. copy ≡ document.now) }
{
    match document {
        Some(key) => {
            let key = key.copy(alloc)?;
            Ok(Some(key))
        }
        None => Ok(None),
    }
}

fn copy_token(
    alloc: Global,
    tokens: &[Bytes],
    place: Option<usize>,
) -> Result<Option<Bytes>, NoMemory>
    ensures { IfOk result (λ token. token ≡ option_and_then (slice_get tokens.now) place) }
{
    match place {
        Some(place) => match tokens.get(place) {
            Some(token) => {
                let token = token.copy(alloc)?;
                Ok(Some(token))
            }
            None => Ok(None),
        },
        None => Ok(None),
    }
}

fn target_from(alloc: Global, tokens: &[Bytes], one: &Watched) -> Result<WatchTarget, NoMemory>
    ensures { IfOk result (λ target. target ≡ target_from tokens.now one.now) }
{
    let document = copy_document(alloc, &one.document)?;
    let token = copy_token(alloc, tokens, one.token)?;
    let told = one.told.copy(alloc)?;
    Ok(WatchTarget {
        id: one.id,
        document,
        current: one.current,
        token,
        told,
    })
}

/// The counting targets.
pub(crate) fn targets_of(
    alloc: Global,
    tokens: &[Bytes],
    watched: &[Watched],
) -> Result<Vec<WatchTarget>, NoMemory>
    ensures { IfOk result (λ targets. targets.items
        ≡ map (target_from tokens.now) (filter (λ w. w.counts) watched.now)) }
{
    let mut targets = Vec::new(alloc);
    for one in watched {
        if one.counts {
            let target = target_from(alloc, tokens, one)?;
            targets.push(target)?;
        }
    }
    Ok(targets)
}

/// The entries that wait, moved into the list, which has room for them.
pub(crate) fn moved(
    buffer: BTreeMap<DocumentKey, Entry>,
    room: Vec<(DocumentKey, Entry)>,
) -> Vec<(DocumentKey, Entry)>
    requires none { room.items ≡ [] }
    requires fits { btree_map_len buffer ≤ vec_capacity room }
    ensures value { result.items ≡ buffer.entries }
    ensures ordered { IsOrdered key_cmp buffer }
{
    let mut entries = room;
    for entry in buffer {
        match entries.push(entry) {
            Ok(()) => {}
            Err(_full) => {}
        }
    }
    entries
}

/// Forgets which tokens came.
pub(crate) fn drop_tokens(watched: &mut Vec<Watched>)
    ensures { IsEach (λ v w. w ≡ record v { token = None }) watched.old.items watched.new.items }
{
    for i in 0..watched.len() {
        let one = &mut watched[i];
        one.token = None;
    }
}
