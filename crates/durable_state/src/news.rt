//! The entries that some changes put, by key.

ghost use Rattle.std.specs.Prelude.{◌≡◌, IfOk, length, option_map};
ghost use Rattle.durable_state.specs.News.{AreLast, put_at};

use document_keys::{DocumentKey, NoMemory};
use outcome_codec::KeyedEntry;
use std::alloc::Global;
use std::collections::HashMap;
use std::marker::Model;
use value_model::Entry;

/// So many changes are looked at one by one.
const FEW: usize = 8;

/// Some changes, with the places of their keys. Contracts see the changes.
#[derive(Drop)]
pub(crate) struct News<'a> {
    changes: &'a [KeyedEntry],
    // none where the changes are few
    places: Option<HashMap<DocumentKey, usize>>,
}

impl<'a> Model for News<'a> {
    ghost use Rattle.std.specs.Prelude.{List, length};
    ghost use Rattle.std.specs.Coded.{coded_list};
    ghost use Rattle.std.specs.Option.{ForSome};
    ghost use Rattle.outcome_codec.specs.contracts.parts.KeyedEntry as keyed_entry;
    ghost use Rattle.outcome_codec.specs.declared.parts.KeyedEntry.{KeyedEntry};
    ghost use Rattle.durable_state.specs.News.{AreLast};

    ghost Value = { List KeyedEntry };

    ghost coded = { coded_list keyed_entry.the_row.coded };

    ghost view = { λ news. news.changes.now };

    ghost invariant = { λ news. ForSome news.places (λ places.
        AreLast (length news.changes.now) news.changes.now places.entries) };
}

/// For each key the place of its last change.
///
/// # Errors
/// `NoMemory`
fn last_places(
    alloc: Global,
    changes: &[KeyedEntry],
) -> Result<HashMap<DocumentKey, usize>, NoMemory>
    ensures { IfOk result (λ places. AreLast (length changes.now) changes.now places.entries) }
{
    let mut places = HashMap::with_capacity(alloc, changes.len())?;
    for place in 0..changes.len() {
        let key = changes[place].key.copy(alloc)?;
        places.insert(key, place)?;
    }
    Ok(places)
}

/// The entry of the key's last change.
fn last_entry<'a>(changes: &'a [KeyedEntry], key: &DocumentKey) -> Option<&'a Entry>
    ensures { option_map (λ e. e.now) result ≡ put_at changes.entry.now key.now }
{
    let mut found = None;
    for change in changes {
        if change.key == *key {
            found = Some(&change.entry);
        }
    }
    found
}

impl<'a> News<'a> {
    /// The changes, with the places of their keys.
    ///
    /// # Errors
    /// `NoMemory`
    pub(crate) fn new(alloc: Global, changes: &'a [KeyedEntry]) -> Result<News<'a>, NoMemory>
        ensures { IfOk result (λ news. news ≡ changes.entry.now) }
    {
        if changes.len() <= FEW {
            return Ok(News {
                changes,
                places: None,
            });
        }
        let places = Some(last_places(alloc, changes)?);
        Ok(News { changes, places })
    }

    /// The entry that is put at the key last, lent; `None` exactly where none is put there.
    pub(crate) fn entry(&self, key: &DocumentKey) -> Option<&'a Entry>
        ensures { option_map (λ e. e.now) result ≡ put_at self.now key.now }
    {
        let Some(places) = &self.places else {
            return last_entry(self.changes, key);
        };
        let place = places.get(key).copied()?;
        Some(&self.changes[place].entry)
    }
}
