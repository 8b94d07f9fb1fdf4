//! What a state lends: its local documents.

ghost use Rattle.std.specs.Prelude.{◌≡◌, ◌↔◌, ◌&&◌, ℕ, List, false, not, is_some, IsTrue, IfOk, IfSome, option_map, unwrap_or};
ghost use Rattle.std.specs.List.{Contains};
ghost use Rattle.std.specs.Option.{IsSome};
ghost use Rattle.document_keys.specs.KeySet.{IsAscending};
ghost use Rattle.value_model.specs.Documents.{IsIn};
ghost use Rattle.value_model.specs.Lent.{lent_document};
ghost use Rattle.value_model.specs.Order.{Earlier};
ghost use Rattle.value_model.specs.declared.document.DocState.TheVariants.{Pending};
ghost use Rattle.overlays.specs.LocalDocument.{base_of};
ghost use Rattle.durable_state.specs.Documents.{entry_of, is_named, is_uncovered, sealed_entry_of, standing_by, standing_of};
ghost use Rattle.durable_state.specs.Lending.{known_by, standing};
ghost use Rattle.durable_state.specs.Rising.{Replaces};
ghost use Rattle.durable_state.specs.Tables.{state_in};

use crate::durable_state::DurableState;
use crate::merging::merged;
use crate::readying::known;
use document_keys::{CollectionPath, DocumentKey, NoMemory};
use std::alloc::Global;
use value_model::{DocRef, DocState, Document, Documents, Entry, Seal, Timestamp};

/// How an entry that no pending write is laid on stands to the backend.
fn standing_by(sealed: Option<(&Entry, &Seal)>) -> DocState
    ensures { result ≡ standing_by (option_map (λ pair. (pair.0.now, pair.1.now)) sealed.entry) }
{
    match sealed {
        None => DocState::Unknown,
        Some((Entry::Unknown(_), _)) => DocState::Unknown,
        Some((_, Seal::Seen)) => DocState::Synced,
        Some((_, Seal::Committed(_))) => DocState::Committed,
    }
}

/// Whether the entry was left by an acknowledgement that no point has covered yet.
fn is_uncovered(last: Option<Timestamp>, sealed: Option<(&Entry, &Seal)>) -> bool
    ensures { result ≡ unwrap_or (option_map (λ pair. is_uncovered last pair.1.now) sealed.entry) false }
{
    match sealed {
        Some((_, Seal::Committed(at))) => match last {
            Some(last) => last.cmp(at).is_lt(),
            None => true,
        },
        _ => false,
    }
}

/// Whether the first time is before the other.
fn is_before(time: Timestamp, other: Timestamp) -> bool
    ensures { IsTrue result ↔ Earlier time other }
{
    time.seconds < other.seconds || (time.seconds == other.seconds && time.nanos < other.nanos)
}

/// Whether the entry is that of a document.
fn is_found(entry: Option<&Entry>) -> bool
    ensures { result ≡ is_some (base_of (option_map (λ e. e.now) entry.entry)) }
{
    matches!(entry, Some(Entry::Found(_, _)))
}

/// The local document of a key that a pending write names.
fn laid<'a>(key: &'a DocumentKey, document: &'a Option<Document>) -> Option<DocRef<'a>>
    ensures document { option_map lent_document result ≡ option_map (standing Pending) document.now }
    ensures key { IfSome result (λ d. d.key.now ≡ key.now) }
{
    let document = document.as_ref()?;
    Some(DocRef {
        key,
        fields: document.fields.as_fields(),
        update_time: document.update_time,
        state: DocState::Pending,
    })
}

/// The document of the entry of a key that no pending write names.
fn plain<'a>(key: &'a DocumentKey, sealed: Option<(&'a Entry, &'a Seal)>) -> Option<DocRef<'a>>
    ensures document { option_map lent_document result
        ≡ known_by (option_map (λ pair. (pair.0.now, pair.1.now)) sealed.entry) }
    ensures key { IfSome result (λ d. d.key.now ≡ key.now) }
{
    let (Entry::Found(fields, version), _) = sealed? else {
        return None;
    };
    Some(DocRef {
        key,
        fields,
        update_time: Some(*version),
        state: standing_by(sealed),
    })
}

impl DurableState {
    /// How the key's document stands to the backend.
    pub fn state_of(&self, key: &DocumentKey) -> DocState
        ensures { result ≡ standing_of (state_in self.now) key.now }
    {
        if self.pending.names(key) {
            return DocState::Pending;
        }
        standing_by(self.entry(key))
    }

    /// Whether the entry, which the backend told, replaces what is known of the key: nothing is, its version is later, or it is
    /// the same and what is known was left by an acknowledgement.
    pub fn is_replaced(&self, key: &DocumentKey, entry: &Entry) -> bool
        ensures { IsTrue result ↔ Replaces (sealed_entry_of (state_in self.now) key.now) entry.now }
    {
        match self.entry(key) {
            None => true,
            Some((known, Seal::Seen)) => is_before(known.version(), entry.version()),
            Some((known, Seal::Committed(_))) => !is_before(entry.version(), known.version()),
        }
    }

    /// Whether no pending write names the key, and its entry is that of a document.
    fn is_plain(&self, key: &DocumentKey) -> bool
        ensures { result ≡ (not (is_named (state_in self.now) key.now)
            && is_some (base_of (entry_of (state_in self.now) key.now))) }
    {
        !self.pending.names(key) && is_found(known(&self.entries, key))
    }

    /// The keys of the collection's documents that no pending write names, ascending.
    ///
    /// # Errors
    /// `NoMemory`
    fn plain_keys(
        &self,
        alloc: Global,
        collection: &CollectionPath,
    ) -> Result<Vec<DocumentKey>, NoMemory>
        ensures ascending { IfOk result (λ keys. IsAscending keys.items) }
        ensures members { IfOk result (λ keys. (key : List (List ℕ)) → Contains keys.items key
            ↔ (IsIn collection.now key × (is_named (state_in self.now) key ≡ false)
            × IsSome (base_of (entry_of (state_in self.now) key)))) }
    {
        let mut keys = self.entries.keys_in(alloc, collection)?;
        keys.retain(|key| self.is_plain(key));
        Ok(keys)
    }
}

impl Documents for DurableState {
    ghost use Rattle.durable_state.specs.Documents.{documents_of, touched_keys_of};
    ghost use Rattle.durable_state.specs.Tables.{state_in};

    ghost documents = { λ s. documents_of (state_in s) };

    ghost touched_keys = { λ s. touched_keys_of (state_in s) };

    fn document<'a>(&'a self, key: &'a DocumentKey) -> Option<DocRef<'a>> {
        match self.overlays.overlay(key) {
            Some(document) => laid(key, document),
            None => plain(key, self.entry(key)),
        }
    }

    fn touched(&self, key: &DocumentKey) -> bool {
        self.pending.names(key) || is_uncovered(self.last_read(), self.entry(key))
    }

    fn collection_keys(
        &self,
        alloc: Global,
        collection: &CollectionPath,
    ) -> Result<Vec<DocumentKey>, NoMemory> {
        let laid = self.overlays.keys_in(alloc, collection)?;
        let plain = self.plain_keys(alloc, collection)?;
        let keys = merged(alloc, laid, plain)?;
        Ok(keys)
    }
}
