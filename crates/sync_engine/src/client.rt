ghost use Rattle.std.specs.Prelude.{◌≡◌, ◌↔◌, [], None, IsTrue, IsErr, IfErr, IfOk, IsErrOf, OnOk, option_map};
ghost use Rattle.disk_journal.specs.Steps.{Opens, SettlesFirst};
ghost use Rattle.host_api.specs.Counts.{RisesAt};
ghost use Rattle.host_api.specs.Host.{KeepsOut};
ghost use Rattle.client_events.specs.Spelled.{IsSpelledEvent};
ghost use Rattle.limbo_resolver.specs.Limbo.{key_in};
ghost use Rattle.local_store.specs.Files.{FindsState, Refuses};
ghost use Rattle.local_store.specs.State.{State};
ghost use Rattle.local_store.specs.Store.{IsFoundIn, IsStored};
ghost use Rattle.client_turns.specs.Past.{Past};
ghost use Rattle.write_pipeline.specs.Order.{latest_token};
ghost use Rattle.sync_engine.specs.Standing.{ComesAs, IsLive, IsSpent, IsStanding, StandsFor};
ghost use Rattle.sync_engine.specs.Telling.{HandsOut, Lends, MakesOne, MovesBy};
ghost use Rattle.client_turns.specs.Writing.{is_stream_open};

use crate::fault::ClientFault;
use crate::out::Outcome;
use crate::watch_stream::{Due, WatchStream};
use crate::write_stream::WriteStream;
use client_events::Event;
use disk_journal::OpenFault;
use document_keys::{Database, DocumentKey};
use host_api::Host;
use limbo_listens::LimboListens;
use listeners::Listeners;
use local_store::LocalStore;
use std::alloc::Global;
use std::marker::Model;
use value_model::StreamName;
use views::Snapshot;

/// A client of one database: its durable state in the files of a host, its listeners, and its two streams. Contracts see what it
/// keeps, and speak of each past that it stands for. After a fault it is spent.
#[derive(Drop)]
pub struct Client {
    pub(crate) root: Database,
    pub(crate) store: LocalStore,
    pub(crate) listeners: Listeners,
    pub(crate) limbo: LimboListens,
    pub(crate) watch: WatchStream,
    pub(crate) writes: WriteStream,
    spent: bool,
}

impl Model for Client {
    ghost use Rattle.std.specs.Prelude.{◌≡◌, false};
    ghost use Rattle.local_store.specs.Store.{IsSpent as IsStoreSpent};
    ghost use Rattle.sync_engine.specs.Standing.{Kept, kept_code};
    ghost use Rattle.sync_engine.specs.declared.watch_stream.Due.TheVariants.{Nothing};

    ghost Value = { Kept };

    ghost coded = { kept_code };

    ghost view = { λ c. record {
      root = c.root;
      store = c.store;
      listeners = c.listeners;
      limbo = c.limbo;
      watch = c.watch;
      writes = c.writes;
      spent = c.spent;
    } };

    ghost invariant = { λ c. c.spent ≡ false → ¬ (IsStoreSpent c.store) × (c.watch.due ≡ Nothing) };
}

impl Client {
    /// Opens the store of the host's files, with no listeners, and no stream open. What the store's opening promises, `LocalStore::open` says.
    ///
    /// # Errors
    /// As `LocalStore::open`.
    pub fn open<H: Host>(alloc: Global, host: &mut H, root: Database) -> Result<Client, OpenFault>
        ensures stands { IfOk result (λ client. StandsFor client client.store.state []) }
        ensures root { IfOk result (λ client. client.root ≡ root) }
        ensures live { IfOk result IsLive }
        ensures found { IfOk result (λ client. IsTrue H.tells_files
            → FindsState (H.view host.old).bytes client.store.state) }
        ensures stored { IfOk result (λ client. IsTrue H.tells_files
            → IsStored client.store (H.view host.new)) }
        ensures kept { IfOk result (λ client. IsTrue H.tells_files
            → IsFoundIn client.store.state (H.view host.new)) }
        ensures refused { IfErr result (λ fault. IsTrue H.tells_files
            → Refuses fault (H.view host.old) (H.view host.new)) }
        ensures files { IsTrue H.tells_files → Opens (H.view host.old) (H.view host.new) }
        ensures settled { IsTrue H.tells_files
            → SettlesFirst H.view result (H.view host.old) (H.view host.new) }
        ensures out { KeepsOut (H.view host.old) (H.view host.new) }
        ensures counts { RisesAt (IsErrOf result OpenFault.DiskFault)
            (H.view host.old).disk_faults (H.view host.new).disk_faults }
    {
        let store = LocalStore::open(alloc, host)?;
        Ok(Client {
            root,
            store,
            listeners: Listeners::new(alloc),
            limbo: LimboListens::new(alloc),
            watch: WatchStream::new(alloc),
            writes: WriteStream::new(),
            spent: false,
        })
    }

    /// Takes the turn of an event: what it commits is on the disk before this answers. A client that isn't spent stands for what it
    /// has heard, as it does once it is open and behind each event that it took.
    ///
    /// # Errors
    /// `Spent` exactly where the client is spent: nothing was done. `DiskFault` only where the count of disk faults rose, at an
    /// event that makes a commit, and `NoMemory`: the event's commit may have been made, and the client is spent.
    pub fn event<H: Host>(
        &mut self,
        alloc: Global,
        host: &mut H,
        event: Event,
    ) -> Result<Outcome, ClientFault>
        requires stored { IsTrue H.tells_files → ¬ (IsSpent self.old)
            → IsStored self.old.store (H.view host.old) }
        requires stands { ¬ (IsSpent self.old) → IsStanding self.old }
        requires spelled { IsSpelledEvent event }
        ensures turn { IfOk result (λ outcome. (s : State) (past : Past) → StandsFor self.old s past
            → HandsOut s past event outcome self.new) }
        ensures spent { IsErrOf result ClientFault.Spent ↔ IsSpent self.old }
        ensures spends { IsSpent self.new ↔ IsErr result }
        ensures live { OnOk result (IsLive self.new) }
        ensures untouched { IsErrOf result ClientFault.Spent → host.new ≡ host.old }
        ensures unchanged { IsErrOf result ClientFault.Spent → self.new ≡ self.old }
        ensures root { self.new.root ≡ self.old.root }
        ensures stored { IsTrue H.tells_files → ¬ (IsSpent self.old)
            → IsStored self.new.store (H.view host.new) }
        ensures files { IsTrue H.tells_files → ¬ (IsSpent self.old)
            → (s : State) (past : Past) → StandsFor self.old s past
            → MovesBy s past event (H.view host.old) (H.view host.new) }
        ensures meets { IsErrOf result ClientFault.DiskFault → (s : State) (past : Past)
            → StandsFor self.old s past → MakesOne s past event }
        ensures out { KeepsOut (H.view host.old) (H.view host.new) }
        ensures counts { RisesAt (IsErrOf result ClientFault.DiskFault)
            (H.view host.old).disk_faults (H.view host.new).disk_faults }
    {
        if self.spent {
            return Err(ClientFault::Spent);
        }
        self.spent = true;
        let outcome = self.turn(alloc, host, event)?;
        self.spent = false;
        Ok(outcome)
    }

    /// The store, lent.
    pub fn store(&self) -> &LocalStore
        ensures { result.now ≡ self.now.store }
    {
        &self.store
    }

    /// The database.
    pub fn root(&self) -> &Database
        ensures { result.now ≡ self.now.root }
    {
        &self.root
    }

    /// Whether the stream is open.
    pub fn is_open(&self, stream: StreamName) -> bool
        ensures { (s : State) (past : Past) → StandsFor self.now s past
            → result ≡ is_stream_open stream past }
    {
        match stream {
            StreamName::Watch => self.watch.is_open,
            StreamName::Write => self.writes.is_open,
        }
    }

    /// The latest token of the stream of writes since it was opened, empty where there is none.
    pub fn token(&self) -> &[u8]
        ensures { ComesAs self.now.writes (λ h. result.now ≡ latest_token h) }
    {
        self.writes.pipeline.token()
    }

    /// The key of the document in limbo that is listened to under the id, lent; `None` exactly where no listen of such a document
    /// runs under it.
    pub fn limbo_document(&self, id: i32) -> Option<&DocumentKey>
        ensures { option_map (λ key. key.now) result ≡ key_in self.now.limbo.limbo.running id }
    {
        self.limbo.key_of(id)
    }

    /// The last snapshot of the listener of the id, lent; `None` exactly where there is no such listener, or it has raised none, or
    /// the client is spent.
    pub fn snapshot(&self, id: u32) -> Option<Snapshot<'_, LocalStore>>
        requires { ¬ (IsSpent self.now) → IsStanding self.now }
        ensures lends { ¬ (IsSpent self.now) → Lends self.now id result }
        ensures spent { IsSpent self.now → result ≡ None }
    {
        let view = self.listeners.view(id)?;
        if self.spent || !view.has_raised() {
            return None;
        }
        Some(view.snapshot(&self.store))
    }
}
