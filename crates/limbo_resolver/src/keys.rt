//! The keys in limbo, those that run before those that wait.

ghost use Rattle.std.specs.Prelude.{◌≡◌, ◌+◌, ◌*◌, IfOk, OnOk, length, take};
ghost use Rattle.std.specs.List.{filter};
ghost use Rattle.limbo_resolver.specs.Held.{firsts, joined};
ghost use Rattle.limbo_resolver.specs.Limbo.{has};

use document_keys::{DocumentKey, KeySet, NoMemory};
use indexmap::IndexSet;
use std::alloc::Global;

/// The greatest id that a listen may get.
const LAST_ID: u32 = 2_147_483_647;

/// Whether the key is in limbo.
pub(crate) fn is_wanted(wanted: &KeySet, key: &DocumentKey) -> bool
    ensures { result ≡ has wanted.now key.now }
{
    wanted.has(key)
}

/// Puts copies of those keys that aren't there behind the others.
///
/// # Errors
/// `NoMemory`: some may have been put there.
pub(crate) fn push_new(
    alloc: Global,
    keys: &mut IndexSet<DocumentKey>,
    wanted: &[DocumentKey],
) -> Result<(), NoMemory>
    ensures done { OnOk result (keys.new.keys ≡ joined keys.old.keys wanted.now) }
    ensures front { take (length keys.old.keys) keys.new.keys ≡ keys.old.keys }
{
    for key in wanted {
        if !keys.contains(key) {
            keys.insert(key.copy(alloc)?)?;
        }
    }
    Ok(())
}

/// Takes out the keys that aren't in limbo.
pub(crate) fn keep_wanted(keys: &mut IndexSet<DocumentKey>, wanted: &KeySet)
    ensures { keys.new.keys ≡ filter (has wanted.now) keys.old.keys }
{
    keys.retain(|key| is_wanted(wanted, key));
}

/// The listens that start, and the id behind theirs.
#[derive(Drop)]
pub(crate) struct Started {
    pub(crate) listens: Vec<(i32, DocumentKey)>,
    pub(crate) next: u32,
}

/// Starts so many of the keys in limbo, from the first on, under ids from this one on.
pub(crate) fn first_listens(
    alloc: Global,
    keys: &[DocumentKey],
    wanted: &KeySet,
    places: usize,
    next: u32,
) -> Result<Started, NoMemory>
    ensures listens { IfOk result (λ started. started.listens.items
        ≡ firsts places next (filter (has wanted.now) keys.now)) }
    ensures next { IfOk result (λ started. started.next ≡ next + 2 * length started.listens.items) }
{
    let mut listens = Vec::new(alloc);
    let mut places = places;
    let mut next = next;
    for key in keys {
        if places == 0 || next > LAST_ID {
            return Ok(Started { listens, next });
        }
        if is_wanted(wanted, key) {
            listens.push((next as i32, key.copy(alloc)?))?;
            places -= 1;
            next += 2;
        }
    }
    Ok(Started { listens, next })
}
