ghost use Rattle.std.specs.Prelude.{◌≡◌, ◌↔◌, [], ◌∷◌, ◌++◌, IsTrue, OnOk, option_map};
ghost use Rattle.std.specs.List.{Contains};
ghost use Rattle.views.specs.Row.{HasAtKey, keys_of};

use crate::shown::Shown;
use document_keys::{DocumentKey, NoMemory};
use std::alloc::Global;
use std::collections::BTreeMap;
use std::marker::Model;
use std::rc::Rc;

/// A document that was shown, and its key.
#[derive(Debug, Drop)]
pub(crate) struct Row {
    pub key: DocumentKey,
    pub document: Rc<Shown>,
}

impl Model for Row {
    ghost use Rattle.views.specs.Row.{Row, row_code};

    ghost Value = { Row };

    ghost coded = { row_code };

    ghost view = { λ r. record { key = r.key; document = r.document.value } };
}

/// The documents that were shown, in their order, with an index by their keys. Contracts see the list of the rows.
#[derive(Debug, Drop)]
pub(crate) struct Rows {
    rows: Vec<Row>,
    by_key: BTreeMap<DocumentKey, Rc<Shown>>,
}

impl Model for Rows {
    ghost use Rattle.std.specs.Prelude.{List};
    ghost use Rattle.views.specs.Row.{Row, row_code};
    ghost use Rattle.std.specs.Coded.{coded_list};

    ghost Value = { List Row };

    ghost coded = { coded_list row_code };

    ghost use Rattle.views.specs.Index.{IsIndexOf};

    ghost view = { λ rows. rows.rows.items };

    ghost invariant = { λ rows. IsIndexOf rows.rows.items rows.by_key.entries };
}

impl Rows {
    /// No rows. It takes no memory yet.
    pub(crate) fn new(alloc: Global) -> Rows
        ensures { result ≡ [] }
    {
        Rows {
            rows: Vec::new(alloc),
            by_key: BTreeMap::new(alloc),
        }
    }

    /// The rows in their order, lent.
    pub(crate) fn as_slice(&self) -> &[Row]
        ensures { result.now ≡ self.now }
    {
        self.rows.as_slice()
    }

    /// The document of the key, lent, where there is one.
    pub(crate) fn get(&self, key: &DocumentKey) -> Option<&Rc<Shown>>
        ensures { HasAtKey self.now key.now (option_map (λ found. found.now.value) result) }
    {
        self.by_key.get(key)
    }

    /// Whether there is a document of the key.
    pub(crate) fn has(&self, key: &DocumentKey) -> bool
        ensures { IsTrue result ↔ Contains (keys_of self.now) key.now }
    {
        self.get(key).is_some()
    }

    /// Puts a row at the end, whose key isn't there yet.
    ///
    /// # Errors
    /// `NoMemory`
    pub(crate) fn push(
        &mut self,
        alloc: Global,
        key: DocumentKey,
        document: Rc<Shown>,
    ) -> Result<(), NoMemory>
        requires { Contains (keys_of self.old) key → ⊥ }
        ensures { OnOk result (self.new ≡ self.old ++ record { key = key; document = document.value } ∷ []) }
    {
        let place = key.copy(alloc)?;
        let lent = document.clone()?;
        self.rows.reserve(1)?;
        self.by_key.insert(place, lent)?;
        self.rows.push_reserved(Row { key, document });
        Ok(())
    }
}
