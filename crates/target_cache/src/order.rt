//! The places of the rows in the order of their targets.

ghost use Rattle.std.specs.Prelude.{◌≡◌, ◌≢◌, ◌↔◌, ◌<◌, IsTrue, MatchOption, length, slice_index_or};
ghost use Rattle.std.specs.List.{All};
ghost use Rattle.target_cache.specs.Order.{IsBefore, IsLower, IsOrder, IsPlaceOf, no_target, targets_in};

use crate::row::Row;
use crate::same::is_same_target;
use queries::Target;

/// Whether the first target is before the second one: documents by their keys, then collections by their paths.
pub(crate) fn is_before(target: &Target, other: &Target) -> bool
    ensures { IsTrue result ↔ IsBefore target.now other.now }
{
    match (target, other) {
        (Target::Document(key), Target::Document(other)) => key.compare(other).is_lt(),
        (Target::Document(_), Target::Collection(_)) => true,
        (Target::Collection(_), Target::Document(_)) => false,
        (Target::Collection(target), Target::Collection(other)) => {
            target.collection.compare(&other.collection).is_lt()
        }
    }
}

/// The target of the row whose place stands at the index.
pub(crate) fn target_at<'a>(rows: &'a [Row], order: &[u64], index: usize) -> &'a Target
    requires within { All (λ place. place < length rows.now) order.now }
    requires inside { index < length order.now }
    ensures { result.now ≡ slice_index_or (targets_in rows.entry.now order.now) index no_target }
{
    &rows[order[index] as usize].target
}

/// How many targets are before this one.
pub(crate) fn lower(rows: &[Row], order: &[u64], target: &Target) -> usize
    requires { IsOrder rows.now order.now }
    ensures { IsLower (targets_in rows.now order.now) target.now result }
{
    let mut low = 0;
    let mut high = order.len();
    while low < high {
        let middle = low + (high - low) / 2;
        if is_before(target_at(rows, order, middle), target) {
            low = middle + 1;
        } else {
            high = middle;
        }
    }
    low
}

/// The place of a row of the target, where there is one, from the index on that no row of the target is below.
fn place_from(rows: &[Row], order: &[u64], target: &Target, from: usize) -> Option<u64>
    requires order { IsOrder rows.now order.now }
    requires from { IsLower (targets_in rows.now order.now) target.now from }
    ensures { MatchOption result (All (λ t. t ≢ target.now) (targets_in rows.now order.now))
        (IsPlaceOf rows.now target.now) }
{
    for i in from..order.len() {
        let other = target_at(rows, order, i);
        if is_before(target, other) {
            return None;
        }
        if is_same_target(other, target) {
            return Some(order[i]);
        }
    }
    None
}

/// The place of a row of the target, where there is one.
pub(crate) fn place_of(rows: &[Row], order: &[u64], target: &Target) -> Option<u64>
    requires { IsOrder rows.now order.now }
    ensures { MatchOption result (All (λ t. t ≢ target.now) (targets_in rows.now order.now))
        (IsPlaceOf rows.now target.now) }
{
    place_from(rows, order, target, lower(rows, order, target))
}
