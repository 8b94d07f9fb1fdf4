//! Whether keys and ids strictly ascend.

ghost use Rattle.std.specs.Prelude.{◌↔◌, ◌<◌, IsTrue};
ghost use Rattle.std.specs.List.{AllPairs};
ghost use Rattle.document_keys.specs.Order.{PathBefore};

use crate::parts::{KeyedEntry, PointRow};
use document_keys::DocumentKey;
use std::cmp::Ordering;

/// Whether the ids ascend.
pub(crate) fn ids_ascend(ids: &[u32]) -> bool
    ensures { IsTrue result ↔ AllPairs ◌<◌ ids.now }
{
    for i in 1..ids.len() {
        if ids[i - 1] >= ids[i] {
            return false;
        }
    }
    true
}

/// Whether the ids of the rows ascend.
pub(crate) fn rows_ascend(rows: &[PointRow]) -> bool
    ensures { IsTrue result ↔ AllPairs (λ a b. a.id < b.id) rows.now }
{
    for i in 1..rows.len() {
        if rows[i - 1].id >= rows[i].id {
            return false;
        }
    }
    true
}

/// Whether one key comes before the other.
fn is_before(key: &DocumentKey, other: &DocumentKey) -> bool
    ensures { IsTrue result ↔ PathBefore key.now other.now }
{
    key.compare(other) == Ordering::Less
}

/// Whether the keys ascend.
pub(crate) fn keys_ascend(keys: &[DocumentKey]) -> bool
    ensures { IsTrue result ↔ AllPairs PathBefore keys.now }
{
    for i in 1..keys.len() {
        let last = &keys[i - 1];
        let next = &keys[i];
        if !is_before(last, next) {
            return false;
        }
    }
    true
}

/// Whether the keys of the entries ascend.
pub(crate) fn entries_ascend(entries: &[KeyedEntry]) -> bool
    ensures { IsTrue result ↔ AllPairs (λ a b. PathBefore a.key b.key) entries.now }
{
    for i in 1..entries.len() {
        let last = &entries[i - 1];
        let next = &entries[i];
        if !is_before(&last.key, &next.key) {
            return false;
        }
    }
    true
}
