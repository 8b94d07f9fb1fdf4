//! Where the documents of a collection stand among all keys in their order.

ghost use Rattle.std.specs.Prelude.{◌↔◌, IsTrue};
ghost use Rattle.key_table.specs.Ranges.{IsBelow};

use document_keys::{CollectionPath, DocumentKey};

/// Whether the path of the key begins with the collection's.
pub(crate) fn is_below(collection: &CollectionPath, key: &DocumentKey) -> bool
    ensures { IsTrue result ↔ IsBelow collection.now key.now }
{
    for index in 0..collection.len() {
        let Some(segment) = key.segment(index) else {
            return false;
        };
        let Some(other) = collection.segment(index) else {
            unreachable!();
        };
        if segment != other {
            return false;
        }
    }
    true
}
