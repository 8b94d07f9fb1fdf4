//! What a store lends: the local documents of its state.

use crate::local_store::LocalStore;
use document_keys::{CollectionPath, DocumentKey, NoMemory};
use std::alloc::Global;
use value_model::{DocRef, Documents};

impl Documents for LocalStore {
    ghost use Rattle.local_store.specs.Documents.{documents_of, touched_keys_of};

    ghost documents = { λ store. documents_of store.state };

    ghost touched_keys = { λ store. touched_keys_of store.state };

    fn document<'a>(&'a self, key: &'a DocumentKey) -> Option<DocRef<'a>> {
        self.tables.document(key)
    }

    fn touched(&self, key: &DocumentKey) -> bool {
        self.tables.touched(key)
    }

    fn collection_keys(
        &self,
        alloc: Global,
        collection: &CollectionPath,
    ) -> Result<Vec<DocumentKey>, NoMemory> {
        self.tables.collection_keys(alloc, collection)
    }
}
