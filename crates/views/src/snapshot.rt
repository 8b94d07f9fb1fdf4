ghost use Rattle.std.specs.Prelude.{◌≡◌, ◌≤◌, length, MatchOption};
ghost use Rattle.std.specs.List.{All};
ghost use Rattle.views.specs.Row.{IsPrinted};
ghost use Rattle.views.specs.Snapshot.{LendsAt};

use crate::change::Change;
use crate::raised::Raised;
use std::marker::Model;
use value_model::{DocRef, Documents};

/// A snapshot that a view has raised, over the store that has its documents. Contracts see what was raised, and the documents.
#[derive(Drop)]
pub struct Snapshot<'a, D: Documents> {
    raised: &'a Raised,
    docs: &'a D,
}

impl<'a, D: Documents> Model for Snapshot<'a, D> {
    ghost use Rattle.views.specs.Snapshot.{Lent, lent_code};

    ghost Value = { Lent };

    ghost coded = { lent_code };

    ghost use Rattle.std.specs.List.{All};
    ghost use Rattle.views.specs.Row.{IsPrinted};

    ghost view = { λ s. record { raised = s.raised.now; documents = D.documents s.docs.now } };

    ghost invariant = { λ s. All (IsPrinted (D.documents s.docs.now)) s.raised.now.rows };
}

impl<'a, D: Documents> Snapshot<'a, D> {
    /// What was raised, over the documents.
    pub(crate) fn of(raised: &'a Raised, docs: &'a D) -> Snapshot<'a, D>
        requires { All (IsPrinted (D.documents docs.now)) raised.now.rows }
        ensures raised { result.raised ≡ raised.entry.now }
        ensures documents { result.documents ≡ D.documents docs.entry.now }
    {
        Snapshot { raised, docs }
    }

    /// The document at the index, from 0, lent by the store; `None` exactly past the last.
    pub fn document(&self, index: u64) -> Option<DocRef<'a>>
        ensures { MatchOption result (length self.now.raised.rows ≤ index)
            (λ document. LendsAt self.now index document) }
    {
        let row = self.raised.rows.as_slice().get(index as usize)?;
        self.docs.document(&row.key)
    }

    /// The number of documents.
    pub fn len(&self) -> u64
        ensures { result ≡ length self.now.raised.rows }
    {
        self.raised.rows.as_slice().len() as u64
    }

    /// Whether what is shown is from the cache alone.
    pub fn from_cache(&self) -> bool
        ensures { result ≡ self.now.raised.from_cache }
    {
        self.raised.from_cache
    }

    /// The changes against the last snapshot before, or against none.
    pub fn changes(&self) -> &'a [Change]
        ensures { result.now ≡ self.now.raised.changes }
    {
        self.raised.changes.as_slice()
    }
}
