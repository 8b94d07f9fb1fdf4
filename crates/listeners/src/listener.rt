ghost use Rattle.std.specs.Prelude.{◌≡◌, ◌↔◌, IsTrue, IfOk, OnErr, OnOk};
ghost use Rattle.views.specs.Refresh.{IsOver, Refreshes};
ghost use Rattle.listeners.specs.Concerns.{Concerns};
ghost use Rattle.listeners.specs.Places.{place_of};
ghost use Rattle.listeners.specs.Table.{fresh, listening};

use crate::place::place_of;
use document_keys::{Database, DocumentKey, NoMemory};
use queries::{Query, Target};
use std::alloc::Global;
use std::marker::Model;
use value_model::Documents;
use views::{Refresh, Standing, View};

/// A listener: what it shows, the id of its target, and where its query stands in the index.
/// Contracts see the view and the target's id.
#[derive(Debug, Drop)]
pub(crate) struct Listener {
    view: View,
    target_id: i32,
    place: DocumentKey,
}

impl Model for Listener {
    ghost use Rattle.listeners.specs.Table.{Listening, listening_code};

    ghost Value = { Listening };

    ghost coded = { listening_code };

    ghost use Rattle.std.specs.Prelude.{◌≡◌};
    ghost use Rattle.listeners.specs.Places.{place_of};

    ghost view = { λ listener. record { view = listener.view; target_id = listener.target_id } };

    ghost invariant = { λ listener. listener.place ≡ place_of listener.view.target };
}

impl Listener {
    /// A listener of the query, whose target has the id. It has raised no snapshot.
    ///
    /// # Errors
    /// `NoMemory`
    pub(crate) fn new(alloc: Global, query: Query, target_id: i32) -> Result<Listener, NoMemory>
        ensures { IfOk result (λ listener. listener ≡ listening (fresh query) target_id) }
    {
        let place = place_of(alloc, query.as_target())?;
        let view = View::new(alloc, query);
        Ok(Listener {
            view,
            target_id,
            place,
        })
    }

    /// What it shows, lent.
    pub(crate) fn view(&self) -> &View
        ensures { result.now ≡ self.now.view }
    {
        &self.view
    }

    /// The id of its target, lent.
    pub(crate) fn target_id(&self) -> &i32
        ensures { result.now ≡ self.now.target_id }
    {
        &self.target_id
    }

    /// Where its query stands.
    pub(crate) fn place(&self) -> &DocumentKey
        ensures { result.now ≡ place_of self.now.view.target }
    {
        &self.place
    }

    /// Whether a change of the key's document concerns it.
    pub(crate) fn is_concerned(&self, key: &DocumentKey) -> bool
        ensures { IsTrue result ↔ Concerns self.now.view.target key.now }
    {
        match self.view.query().as_target() {
            Target::Document(wanted) => key.compare(wanted).is_eq(),
            Target::Collection(target) => key.is_in(&target.collection),
        }
    }

    /// Refreshes its view.
    ///
    /// # Errors
    /// `NoMemory`: it is then as before.
    pub(crate) fn refresh<D: Documents>(
        &mut self,
        alloc: Global,
        root: &Database,
        docs: &D,
        standing: &Standing,
        may_start: bool,
    ) -> Result<Refresh, NoMemory>
        ensures done { IfOk result (λ refresh. Refreshes root.now (D.documents docs.now)
            (D.touched_keys docs.now) standing.now may_start self.old.view self.new.view refresh) }
        ensures over { OnOk result (IsOver self.new.view (D.documents docs.now)) }
        ensures undone { OnErr result (self.new.view ≡ self.old.view) }
        ensures target { self.new.target_id ≡ self.old.target_id }
    {
        self.view.refresh(alloc, root, docs, standing, may_start)
    }
}
