ghost use Rattle.std.specs.Prelude.{◌≡◌, IfOk, OnOk};
ghost use Rattle.sync_engine.specs.Dropping.{Drops};
ghost use Rattle.sync_engine.specs.Stream.{Applies, Ends, EndsAll, Hears, IsClosed, IsNew, IsOpened, IsRung, Resets, Skips};
ghost use Rattle.sync_engine.specs.declared.watch_stream.Due.TheVariants.{One};

use crate::current::CurrentTargets;
use client_turns::OnlineState;
use document_keys::NoMemory;
use std::alloc::Global;
use value_model::ListenResponse;
use watch_aggregator::{Aggregator, WatchPoint};

/// For which targets a request may be due.
#[derive(Debug, Drop)]
pub enum Due {
    /// For none.
    Nothing,
    /// For the target of this id.
    One(i32),
    /// The targets of these ids are to be removed and added again.
    Resets(Vec<i32>),
    /// For all.
    All,
}

/// The stream of listeners, as a client keeps it: whether it is open, what came on it, the online state, the current targets, and
/// for which targets a request may be due. Contracts speak of each past that it stands for.
#[derive(Drop)]
pub struct WatchStream {
    pub(crate) is_open: bool,
    pub(crate) aggregator: Aggregator,
    pub(crate) online: OnlineState,
    pub(crate) current: CurrentTargets,
    pub(crate) due: Due,
}

impl WatchStream {
    /// A stream that was never opened.
    pub(crate) fn new(alloc: Global) -> WatchStream
        ensures { IsNew result }
    {
        WatchStream {
            is_open: false,
            aggregator: Aggregator::new(alloc),
            online: OnlineState::Unknown,
            current: CurrentTargets::new(alloc),
            due: Due::Nothing,
        }
    }

    /// It was opened: each wanted target is to be added, and each running listen of a document in limbo.
    pub(crate) fn opened(&mut self, alloc: Global)
        ensures { IsOpened self.old self.new }
    {
        self.is_open = true;
        self.aggregator = Aggregator::new(alloc);
        self.due = Due::All;
    }

    /// It was closed, while a target was wanted or none.
    pub(crate) fn closed(&mut self, alloc: Global, wanted: bool)
        ensures { IsClosed wanted self.old self.new }
    {
        self.is_open = false;
        self.aggregator = Aggregator::new(alloc);
        self.online = match self.online {
            _ if !wanted => OnlineState::Unknown,
            OnlineState::Online => OnlineState::Unknown,
            OnlineState::Unknown => OnlineState::Offline,
            OnlineState::Offline => OnlineState::Offline,
        };
        if self.online == OnlineState::Offline {
            self.current.clear();
        }
    }

    /// The timer of the online state went off.
    pub(crate) fn rung(&mut self)
        ensures { IsRung self.old self.new }
    {
        if self.online == OnlineState::Unknown {
            self.online = OnlineState::Offline;
        }
        if self.online == OnlineState::Offline {
            self.current.clear();
        }
    }

    /// A listener of the target began.
    pub(crate) fn listened(&mut self, target: &i32)
        ensures { self.new ≡ record self.old { due = One target.now } }
    {
        self.due = Due::One(*target);
    }

    /// A listener of the target ended; the target is still wanted, or not.
    pub(crate) fn unlistened(&mut self, target: &i32, wanted: bool)
        ensures { Ends target.now wanted self.old self.new }
    {
        if !wanted {
            self.current.remove(target);
        }
        self.due = Due::One(*target);
    }

    /// A message came that isn't refused: the client is online.
    ///
    /// # Errors
    /// `NoMemory`
    pub(crate) fn heard(&mut self, alloc: Global, message: &ListenResponse) -> Result<(), NoMemory>
        ensures { OnOk result (Hears message.now self.old self.new) }
    {
        self.aggregator.take(alloc, message)?;
        self.online = OnlineState::Online;
        Ok(())
    }

    /// The point that came is skipped.
    pub(crate) fn skipped(&mut self)
        ensures { Skips self.old self.new }
    {
        self.aggregator.skip_point();
    }

    /// The point that came is applied, and hands out what waited for it.
    ///
    /// # Errors
    /// `NoMemory`
    pub(crate) fn applied(&mut self, alloc: Global) -> Result<WatchPoint, NoMemory>
        ensures { IfOk result (λ point. Applies point self.old self.new) }
    {
        self.aggregator.apply_point(alloc)
    }

    /// The target is reset: it isn't current, and is to be removed and added again.
    ///
    /// # Errors
    /// `NoMemory`
    pub(crate) fn reset(&mut self, alloc: Global, target: &i32) -> Result<(), NoMemory>
        ensures { OnOk result (Resets target.now self.old self.new) }
    {
        let mut ids = Vec::new(alloc);
        ids.push(*target)?;
        self.current.remove(target);
        self.due = Due::Resets(ids);
        Ok(())
    }

    /// Targets ended, and the rows of others were made blank: none of them is current any more; and the last ones are to be removed
    /// and added again.
    pub(crate) fn dropped(&mut self, ended: &[i32], blanked: &[i32], resets: Vec<i32>)
        ensures { Drops ended.now blanked.now resets.items self.old self.new }
    {
        self.ended(ended);
        self.ended(blanked);
        self.due = Due::Resets(resets);
    }

    /// The targets ended: they aren't current any more.
    pub(crate) fn ended(&mut self, targets: &[i32])
        ensures { EndsAll targets.now self.old self.new }
    {
        for target in targets {
            self.current.remove(target);
        }
    }
}
