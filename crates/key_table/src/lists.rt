//! The keys of a table, listed: along their order where they are kept so, and else by a look at all of them.

ghost use Rattle.std.specs.Prelude.{◌↔◌, ℕ, List, IfOk, IsTrue};
ghost use Rattle.std.specs.List.{AllPairs, Contains};
ghost use Rattle.document_keys.specs.Names.{IsKey};
ghost use Rattle.document_keys.specs.Order.{PathBefore};
ghost use Rattle.value_model.specs.Documents.{IsIn};
ghost use Rattle.key_table.specs.Table.{Differ, has_key};

use crate::below::is_below;
use document_keys::{CollectionPath, DocumentKey, KeySet, NoMemory};
use std::alloc::Global;
use std::collections::{BTreeSet, HashMap};

/// The keys of the collection's documents, ascending. It looks at the keys below the collection's path alone.
pub(crate) fn listed(
    alloc: Global,
    order: &BTreeSet<DocumentKey>,
    collection: &CollectionPath,
) -> Result<Vec<DocumentKey>, NoMemory>
    requires { (key : List (List ℕ)) → Contains order.now.keys key → IsKey key }
    ensures ascending { IfOk result (λ keys. AllPairs PathBefore keys.items) }
    ensures members { IfOk result (λ keys. (key : List (List ℕ)) →
        Contains keys.items key ↔ (IsIn collection.now key × Contains order.now.keys key)) }
{
    let least = DocumentKey::least_in(alloc, collection)?;
    let mut keys = Vec::new(alloc);
    for key in order.range(&least..) {
        if !is_below(collection, key) {
            return Ok(keys);
        }
        if key.is_in(collection) {
            keys.push(key.copy(alloc)?)?;
        }
    }
    Ok(keys)
}

/// The keys of the collection's documents, as the places have them.
fn found<V>(
    alloc: Global,
    places: &HashMap<DocumentKey, V>,
    collection: &CollectionPath,
) -> Result<Vec<DocumentKey>, NoMemory>
    ensures once { IfOk result (λ keys. AllPairs Differ keys.items) }
    ensures members { IfOk result (λ keys. (key : List (List ℕ)) →
        Contains keys.items key ↔ (IsIn collection.now key × IsTrue (has_key places.now.entries key))) }
{
    let mut keys = Vec::new(alloc);
    for key in places.keys() {
        if key.is_in(collection) {
            keys.push(key.copy(alloc)?)?;
        }
    }
    Ok(keys)
}

/// The keys of the collection's documents, ascending. It looks at all keys.
pub(crate) fn sorted<V>(
    alloc: Global,
    places: &HashMap<DocumentKey, V>,
    collection: &CollectionPath,
) -> Result<Vec<DocumentKey>, NoMemory>
    ensures ascending { IfOk result (λ keys. AllPairs PathBefore keys.items) }
    ensures members { IfOk result (λ keys. (key : List (List ℕ)) →
        Contains keys.items key ↔ (IsIn collection.now key × IsTrue (has_key places.now.entries key))) }
{
    let mut keys = found(alloc, places, collection)?;
    keys.sort_unstable();
    Ok(keys)
}

/// All keys of the order.
pub(crate) fn gathered(alloc: Global, order: &BTreeSet<DocumentKey>) -> Result<KeySet, NoMemory>
    ensures { IfOk result (λ keys. (key : List (List ℕ)) →
        Contains keys key ↔ Contains order.now.keys key) }
{
    let mut keys = KeySet::with_capacity(alloc, order.len())?;
    for key in order.iter() {
        keys.insert(alloc, key.copy(alloc)?)?;
    }
    Ok(keys)
}
