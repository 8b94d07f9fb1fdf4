//! A store of documents in memory.

ghost use Rattle.std.specs.Prelude.{◌≡◌, IfOk, OnOk, option_map};
ghost use Rattle.query_tests.specs.Shelf.{held_fields, find_in, Takes, KeepsIn};

use document_keys::{CollectionPath, DocumentKey, KeySet, NoMemory};
use std::alloc::Global;
use value_model::{DocRef, DocState, Documents, Fields};

/// A document that is held.
#[derive(Drop)]
pub struct Held {
    pub key: DocumentKey,
    pub fields: Fields,
}

/// Documents; of two with one key the first counts.
#[derive(Drop)]
pub struct Shelf {
    pub documents: Vec<Held>,
}

/// The fields of the document of the key.
fn find<'a>(documents: &'a [Held], key: &DocumentKey) -> Option<&'a Fields>
    ensures { option_map held_fields result ≡ find_in documents.entry.now key.now }
{
    for held in documents {
        if key.cmp(&held.key).is_eq() {
            return Some(&held.fields);
        }
    }
    None
}

/// Puts the key of the document to the keys, if it is in the collection.
fn take(
    alloc: Global,
    keys: &mut KeySet,
    held: &Held,
    collection: &CollectionPath,
) -> Result<(), NoMemory>
    ensures { OnOk result (Takes collection.now held.now.key keys.old keys.new) }
{
    if held.key.is_in(collection) {
        keys.insert(alloc, held.key.copy(alloc)?)?;
    }
    Ok(())
}

/// The keys of the documents that are in the collection.
fn keys_in(
    alloc: Global,
    documents: &[Held],
    collection: &CollectionPath,
) -> Result<KeySet, NoMemory>
    ensures { IfOk result (λ keys. KeepsIn collection.now documents.now keys) }
{
    let mut keys = KeySet::new(alloc);
    for held in documents {
        take(alloc, &mut keys, held, collection)?;
    }
    Ok(keys)
}

/// Copies of the keys.
fn copy_keys(alloc: Global, keys: &[DocumentKey]) -> Result<Vec<DocumentKey>, NoMemory>
    ensures { IfOk result (λ copies. copies.items ≡ keys.now) }
{
    let mut copies = Vec::new(alloc);
    for key in keys {
        copies.push(key.copy(alloc)?)?;
    }
    Ok(copies)
}

impl Documents for Shelf {
    ghost use Rattle.std.specs.Prelude.{[]};
    ghost use Rattle.query_tests.specs.Shelf.{documents_of};

    ghost documents = { λ shelf. documents_of shelf.documents.items };

    ghost touched_keys = { λ shelf. [] };

    fn document<'a>(&'a self, key: &'a DocumentKey) -> Option<DocRef<'a>> {
        match find(self.documents.as_slice(), key) {
            Some(fields) => Some(DocRef {
                key,
                fields,
                update_time: None,
                state: DocState::Synced,
            }),
            None => None,
        }
    }

    fn touched(&self, _key: &DocumentKey) -> bool {
        false
    }

    fn collection_keys(
        &self,
        alloc: Global,
        collection: &CollectionPath,
    ) -> Result<Vec<DocumentKey>, NoMemory> {
        let keys = keys_in(alloc, self.documents.as_slice(), collection)?;
        copy_keys(alloc, keys.as_slice())
    }
}
