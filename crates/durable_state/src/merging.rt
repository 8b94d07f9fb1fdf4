//! Two ascending lists of keys as one.

ghost use Rattle.std.specs.Prelude.{◌≡◌, ◌↔◌, ◌⊎◌, ◌+◌, ◌<◌, ℕ, List, [], IfNone, IfOk, IfSome, MatchOption};
ghost use Rattle.std.specs.List.{All, Contains, slice_get};
ghost use Rattle.std.specs.VecDeque.{deque_len};
ghost use Rattle.document_keys.specs.KeySet.{IsAscending};
ghost use Rattle.std.specs.declared.cmp.Ordering.TheVariants.{Less, Equal, Greater};
ghost use Rattle.document_keys.specs.Order.{PathBefore, Ranks};

use document_keys::{DocumentKey, NoMemory};
use std::alloc::Global;
use std::cmp::Ordering;
use std::collections::VecDeque;

/// How the first keys of two lists stand; a list without a key stands behind one that has a key.
fn order_of(left: &VecDeque<DocumentKey>, right: &VecDeque<DocumentKey>) -> Ordering
    ensures { MatchOption (slice_get left.now.items 0)
        (MatchOption (slice_get right.now.items 0) (result ≡ Equal) (λ key. result ≡ Greater))
        (λ key. MatchOption (slice_get right.now.items 0) (result ≡ Less) (Ranks result key)) }
{
    match (left.front(), right.front()) {
        (Some(left), Some(right)) => left.cmp(right),
        (Some(_), None) => Ordering::Less,
        (None, Some(_)) => Ordering::Greater,
        (None, None) => Ordering::Equal,
    }
}

/// Takes the least key out of two ascending lists.
fn take_least(
    left: &mut VecDeque<DocumentKey>,
    right: &mut VecDeque<DocumentKey>,
) -> Option<DocumentKey>
    requires left { IsAscending left.old.items }
    requires right { IsAscending right.old.items }
    ensures left { IsAscending left.new.items }
    ensures right { IsAscending right.new.items }
    ensures none { IfNone result ((left.old.items ≡ []) × (right.old.items ≡ [])) }
    ensures least { IfSome result (λ key.
        All (PathBefore key) left.new.items × All (PathBefore key) right.new.items) }
    ensures members { IfSome result (λ key. (k : List (List ℕ)) →
        (Contains left.old.items k ⊎ Contains right.old.items k)
        ↔ ((key ≡ k) ⊎ (Contains left.new.items k ⊎ Contains right.new.items k))) }
    ensures fewer { IfSome result (λ key.
        deque_len left.new + deque_len right.new < deque_len left.old + deque_len right.old) }
{
    match order_of(left, right) {
        Ordering::Less => left.pop_front(),
        Ordering::Greater => right.pop_front(),
        Ordering::Equal => {
            right.pop_front();
            left.pop_front()
        }
    }
}

/// The keys of two ascending lists as one such list.
///
/// # Errors
/// `NoMemory`
pub(crate) fn merged(
    alloc: Global,
    left: Vec<DocumentKey>,
    right: Vec<DocumentKey>,
) -> Result<Vec<DocumentKey>, NoMemory>
    requires left { IsAscending left.items }
    requires right { IsAscending right.items }
    ensures ascending { IfOk result (λ keys. IsAscending keys.items) }
    ensures members { IfOk result (λ keys. (k : List (List ℕ)) →
        Contains keys.items k ↔ (Contains left.items k ⊎ Contains right.items k)) }
{
    let mut left = VecDeque::from(left);
    let mut right = VecDeque::from(right);
    let mut keys = Vec::new(alloc);
    while let Some(key) = take_least(&mut left, &mut right) {
        keys.push(key)?;
    }
    Ok(keys)
}
