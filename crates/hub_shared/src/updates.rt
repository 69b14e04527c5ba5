//! The log of updates that threads share.

ghost use Rattle.std.specs.Prelude.{◌≡◌, ◌⊎◌, ◌≤◌, ◌<◌, ◌++◌, ◌∷◌, [], length, IfOk, IfErr, OnOk};
ghost use Rattle.hub_feed.specs.Host.{Hosted};
ghost use Rattle.hub_model.specs.Updates.{UpdateRow};
ghost use Rattle.hub_params.specs.FeedShown.{params_asked};
ghost use Rattle.hub_shared.specs.Feeds.{IsOpened};
ghost use Rattle.hub_shared.specs.Handles.{IsNew};
ghost use Rattle.hub_updates.specs.Asked.{updates_asked};

use crate::count::NoCount;
use crate::feed::HostFeed;
use crate::host::Host;
use crate::locked::{Locked, OpenedFeed};
use hub_document::Limits;
use hub_feed::OpenFault;
use hub_params::FeedParams;
use hub_updates::{NoteFault, Notice, UpdatesState};
use std::alloc::{AllocError, Global};
use std::sync::{Arc, Condvar, Mutex, Wait};

/// The log of updates, which threads share. Each `Updates` keeps it; it is dropped with the last of them.
pub type Updates = Host<UpdatesState>;

/// A feed of the log of updates.
pub type UpdatesFeed = HostFeed<UpdatesState>;

impl Locked<UpdatesState> {
    /// Adds a notice at the end of the log, or hands it back, as `UpdatesState::note`. The feeds that wait
    /// are told in both cases. The items sent for each feed go on fitting it.
    pub fn note(&mut self, notice: Notice) -> Result<(), (Notice, NoteFault)>
        ensures room { OnOk result (length self.old.state.notes < self.old.state.limits.journal) }
        ensures ok { OnOk result (self.new ≡ record self.old {
          state = record self.old.state { notes = self.old.state.notes ++ notice ∷ [] };
        }) }
        ensures err { IfErr result (λ e. (e.0 ≡ notice) × (self.new ≡ self.old)
            × (((e.1 ≡ NoteFault.NoMemory) × (length self.old.state.notes < self.old.state.limits.journal))
            ⊎ ((e.1 ≡ NoteFault.SequenceFull)
            × (self.old.state.limits.journal ≤ length self.old.state.notes)))) }
    {
        self.tell();
        self.state.note(notice)
    }
}

impl Host<UpdatesState> {
    /// An empty log. Its life is 0, which no database has.
    pub fn of_updates(alloc: Global, limits: Limits) -> Result<Updates, AllocError> {
        let state = UpdatesState::new(alloc, limits, 0);
        let locked = Locked::new(alloc, state, limits.lane as usize, limits.hold, NoCount);
        let shared = Arc::new(alloc, (Mutex::new(locked), Condvar::new()))?;
        Ok(Host { shared, alloc })
    }

    /// Adds a notice at the end of the log, or hands it back, as `UpdatesState::note`. It tells the feeds
    /// that wait. The cost is the wait for the lock, that of `UpdatesState::note`, and a look at each feed.
    pub fn note<R: Wait>(&self, rt: &R, notice: Notice) -> Result<(), (Notice, NoteFault)>
        ensures err { IfErr result (λ e. e.0 ≡ notice) }
    {
        let noted = self.locked().lock(rt).note(notice);
        self.tell();
        noted
    }

    /// Opens a feed, which stays until it is finished: its connection is to call `HostFeed::poll`, or a
    /// thread to `pump` it and the connection to call `HostFeed::take`. It shows every row of the log,
    /// upwards (`UpdatesState::effective`). The cost is the wait for the lock, and that of `Locked::begin`.
    pub fn open_feed<R: Wait>(&self, rt: &R, params: FeedParams) -> Result<UpdatesFeed, OpenFault>
        ensures new { IfOk result (IsNew (updates_asked (params_asked params)) 0) }
        ensures opened { IfOk result (λ feed. (h : Hosted UpdateRow)
            × IsOpened h (updates_asked (params_asked params)) feed) }
        ensures err { IfErr result (λ e. (e ≡ OpenFault.NoMemory) ⊎ (e ≡ OpenFault.TooManyFeeds)) }
    {
        let Ok(host) = self.again() else {
            return Err(OpenFault::NoMemory);
        };
        let OpenedFeed { id, taker } = self
            .locked()
            .lock(rt)
            .begin(UpdatesState::effective(params))?;
        Ok(HostFeed::new(host, id, taker))
    }
}
