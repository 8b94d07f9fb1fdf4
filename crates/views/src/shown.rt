ghost use Rattle.std.specs.Prelude.{◌≡◌, ◌↔◌, IsTrue, IfOk};
ghost use Rattle.views.specs.Printed.{printed, stored_of};

use crate::printed::fields_are_printed_as;
use document_keys::NoMemory;
use std::alloc::Global;
use std::marker::Model;
use value_model::{DocRef, DocState, Fields, Timestamp};

/// A copy of a document that was shown. Contracts see what is printed of it.
#[derive(Debug, Drop)]
pub(crate) struct Shown {
    fields: Fields,
    update_time: Option<Timestamp>,
    state: DocState,
}

impl Model for Shown {
    ghost use Rattle.value_model.specs.Documents.{Stored};
    ghost use Rattle.views.specs.Row.{stored_code};

    ghost Value = { Stored };

    ghost coded = { stored_code };

    ghost use Rattle.views.specs.Printed.{printed};

    ghost view = { λ shown. printed (record { fields = shown.fields; update_time = shown.update_time; state = shown.state }) };
}

impl Shown {
    /// A copy of the document.
    ///
    /// # Errors
    /// `NoMemory`
    pub(crate) fn copy_of(alloc: Global, document: DocRef<'_>) -> Result<Shown, NoMemory>
        ensures { IfOk result (λ shown. shown ≡ printed (stored_of document.entry)) }
    {
        let fields = document.fields.copy(alloc)?;
        Ok(Shown {
            fields,
            update_time: document.update_time,
            state: document.state,
        })
    }

    /// Whether the document is printed as this one.
    pub(crate) fn is_printed_as(&self, document: DocRef<'_>) -> bool
        ensures { IsTrue result ↔ (self.now ≡ printed (stored_of document.entry)) }
    {
        self.update_time == document.update_time
            && self.state == document.state
            && fields_are_printed_as(self.fields.as_slice(), document.fields.as_slice())
    }

    /// Whether the two are printed the same.
    pub(crate) fn is_same(&self, other: &Shown) -> bool
        ensures { IsTrue result ↔ (self.now ≡ other.now) }
    {
        self.update_time == other.update_time
            && self.state == other.state
            && fields_are_printed_as(self.fields.as_slice(), other.fields.as_slice())
    }
}
