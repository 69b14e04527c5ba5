//! The log of updates with its feeds.

ghost use Rattle.std.specs.Prelude.{◌≡◌, ◌⊎◌, ◌≤◌, ◌<◌, ◌++◌, ◌∷◌, [], length, OnOk, IfErr};
ghost use Rattle.hub_params.specs.FeedShown.{params_asked};
ghost use Rattle.hub_updates.specs.Asked.{updates_asked};

use crate::log::Log;
use crate::notice::Notice;
use hub_document::Limits;
use hub_feed::{Feeds, Source};
use hub_filter::Filter;
use hub_model::Style;
use hub_params::FeedParams;
use std::alloc::Global;
use std::marker::Model;

/// The fault with which a notice is handed back.
#[derive(Clone, Copy, Debug, PartialEq, Eq)]
pub enum NoteFault {
    /// A growth was refused.
    NoMemory,
    /// The log has as many notes as it may have.
    SequenceFull,
}

/// The log of updates, and the feeds that show it.
#[derive(Debug)]
pub struct UpdatesState {
    pub(crate) log: Log,
    pub(crate) feeds: Feeds,
    pub(crate) limits: Limits,
}

impl Drop for UpdatesState {
    fn drop(self) {
        let Self { log, feeds, limits } = self;
    }
}

impl Model for UpdatesState {
    ghost use Rattle.std.specs.Prelude.{length};
    ghost use Rattle.hub_feed.specs.Feeds.{AreBehind};
    ghost use Rattle.hub_updates.specs.Log.{Updates};

    ghost Value = { Updates };

    ghost view = { λ a. record {
      notes = a.log.notes;
      feeds = a.feeds.feeds;
      next_feed = a.feeds.next;
      limits = a.limits;
      life = a.log.life;
    } };

    ghost invariant = { λ a. AreBehind (length a.log.notes) a.feeds.feeds };
}

impl UpdatesState {
    /// An empty log without feeds, with this number as its life. It takes no memory yet. Later calls take
    /// memory from this allocator.
    pub fn new(alloc: Global, limits: Limits, life: u64) -> UpdatesState
        ensures { result ≡ record { notes = []; feeds = []; next_feed = 0; limits = limits; life = life } }
    {
        UpdatesState {
            log: Log::new(alloc, life),
            feeds: Feeds::new(alloc),
            limits,
        }
    }

    /// The parameters as a feed of a log heeds them. A note is no document, so `filter`, `style`,
    /// `include_docs` and `descending` have no effect: every row is shown, upwards (CouchDB API
    /// reference, `_db_updates`). It takes no memory.
    pub fn effective(params: FeedParams) -> FeedParams
        ensures { params_asked result ≡ updates_asked (params_asked params) }
    {
        FeedParams {
            descending: false,
            style: Style::MainOnly,
            include_docs: false,
            filter: Filter::All,
            ..params
        }
    }

    /// The number of notes. Constant time.
    pub fn update_seq(&self) -> u64
        ensures { result ≡ length self.now.notes }
    {
        self.log.length()
    }

    /// Adds a notice at the end, under the next sequence. On a fault the notice is handed back, and nothing
    /// changed. The limit is looked at before memory is. The cost is a look in the map of ids, a move in
    /// the index of rows, and for a pair's first note two copies of its id.
    pub fn note(&mut self, notice: Notice) -> Result<(), (Notice, NoteFault)>
        ensures room { OnOk result (length self.old.notes < self.old.limits.journal) }
        ensures ok { OnOk result (self.new ≡ record self.old { notes = self.old.notes ++ notice ∷ [] }) }
        ensures err { IfErr result (λ e. (e.0 ≡ notice) × (self.new ≡ self.old)
            × (((e.1 ≡ NoteFault.NoMemory) × (length self.old.notes < self.old.limits.journal))
            ⊎ ((e.1 ≡ NoteFault.SequenceFull) × (self.old.limits.journal ≤ length self.old.notes)))) }
    {
        if self.log.length() >= self.limits.journal {
            return Err((notice, NoteFault::SequenceFull));
        }
        match self.log.note(&notice) {
            Ok(()) => {
                notice.lapse();
                Ok(())
            }
            Err(_) => Err((notice, NoteFault::NoMemory)),
        }
    }
}
