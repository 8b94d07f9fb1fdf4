use crate::document::DocState;
use crate::fields::Fields;
use crate::timestamp::Timestamp;
use document_keys::{CollectionPath, DocumentKey, NoMemory};
use std::alloc::Global;

/// A document that a store lends.
#[derive(Clone, Copy)]
pub struct DocRef<'a> {
    pub key: &'a DocumentKey,
    pub fields: &'a Fields,
    pub update_time: Option<Timestamp>,
    pub state: DocState,
}

/// A store of documents. Its meaning is a finite map from keys to documents with their states, and the keys that unfinished
/// writes touch.
pub trait Documents {
    ghost use Rattle.std.specs.Prelude.{◌≡◌, ◌↔◌, List, ℕ, IsTrue, IfOk, IfSome, option_map};
    ghost use Rattle.std.specs.List.{Contains};
    ghost use Rattle.std.specs.FinMap as map;
    ghost use Rattle.value_model.specs.Documents.{DocumentMap, ListsCollection};
    ghost use Rattle.value_model.specs.Lent.{lent_document};

    /// The documents by key.
    ghost documents: { Self → DocumentMap };

    /// The keys that unfinished writes touch.
    ghost touched_keys: { Self → List (List (List ℕ)) };

    /// The document of the key, lent without a copy, or `None` where there is none.
    fn document<'a>(&'a self, key: &'a DocumentKey) -> Option<DocRef<'a>>
        ensures document { option_map lent_document result ≡ map.get (documents self.now) key.now }
        ensures key { IfSome result (λ d. d.key.now ≡ key.now) };

    /// Whether an unfinished write touches the key.
    fn touched(&self, key: &DocumentKey) -> bool
        ensures { IsTrue result ↔ Contains (touched_keys self.now) key.now };

    /// The keys of the collection's documents, ascending.
    ///
    /// # Errors
    /// `NoMemory`
    fn collection_keys(
        &self,
        alloc: Global,
        collection: &CollectionPath,
    ) -> Result<Vec<DocumentKey>, NoMemory>
        ensures { IfOk result (λ keys. ListsCollection (documents self.now) collection.now keys.items) };
}
