//! The log of updates as a host of feeds.

use crate::state::UpdatesState;
use hub_document::UpdateRow;
use hub_feed::{FeedHost, FeedId, Handed, HostView, OpenFault, Pushes, Sink, Source};
use hub_model::Item;
use hub_params::FeedParams;
use std::alloc::AllocError;

impl HostView for UpdatesState {
    ghost use Rattle.hub_updates.specs.Log.{IsFitting, IsRightFor, hosted_of};

    type Row = UpdateRow;

    ghost hosted = { hosted_of };

    ghost fits = { λ log f items. IsFitting log.notes f items };

    ghost right = { IsRightFor };
}

impl FeedHost for UpdatesState {
    ghost use Rattle.hub_feed.proofs.Handing.{fitting_beat, fitting_expired, fitting_right};
    ghost use Rattle.hub_model.proofs.Laws.{rows_rise};
    ghost use Rattle.hub_model.specs.RowKind.{update_rows};
    ghost use Rattle.hub_model.specs.Updates.{UpdateRow as Shown, edits_of_log};
    ghost use Rattle.hub_updates.specs.Fits.{fits_given, fits_waiting};
    ghost use Rattle.hub_updates.specs.Laid.{rows_below};
    ghost use Rattle.hub_updates.specs.Log.{AreOfLog, with_hosted};
    ghost use Rattle.std.proofs.Common.{refl};

    ghost with_hosted = { with_hosted };

    ghost seq_of = { λ (r : Shown). r.seq };

    ghost rise = { λ log. rows_rise (edits_of_log log.notes) };

    ghost within = { λ log c. rows_below log.notes c };

    ghost keeps = { λ log style include_docs c. refl };

    ghost same = { λ log. refl };

    ghost hosts = { λ log feeds next. refl };

    ghost rightly = { λ log f items fitting.
        fitting_right update_rows AreOfLog (edits_of_log log.notes) f items fitting };

    ghost stays = { λ log h f items fitting. fitting };

    ghost handed_fits = { λ log f items item due fitting. fits_given log.notes f items fitting item due };

    ghost waiting_fits = { λ log f items due fitting. fits_waiting log.notes f items fitting due };

    ghost beat_fits = { λ log f items due fitting.
        fitting_beat update_rows AreOfLog (edits_of_log log.notes) f items fitting due };

    ghost expired_fits = { λ log f items fitting.
        fitting_expired update_rows AreOfLog (edits_of_log log.notes) f items fitting };

    /// Constant time.
    fn length(&self) -> u64 {
        self.update_seq()
    }

    /// Constant time.
    fn life(&self) -> u64 {
        self.log.life
    }

    /// Constant time.
    fn refusal(&self) -> Option<OpenFault> {
        if self.feeds.is_full(self.limits.feeds) {
            return Some(OpenFault::TooManyFeeds);
        }
        None
    }

    /// The cost is that of `Feeds::open`.
    fn open_feed(&mut self, params: FeedParams) -> Result<FeedId, OpenFault> {
        if let Some(fault) = self.refusal() {
            return Err(fault);
        }
        let life = self.life();
        match self.feeds.open(params, self.log.length(), life) {
            Ok(feed) => Ok(feed),
            Err(AllocError) => Err(OpenFault::NoMemory),
        }
    }

    /// The cost is that of `FeedState::first_of_open` and `Feeds::hand_at`, and a binary search among the
    /// feeds unless the last hand was to the same feed.
    fn hand<K: Sink<Item<UpdateRow>>, H: Pushes<K, Item<UpdateRow>>>(
        &mut self,
        feed: FeedId,
        handle: &H,
        sink: &mut K,
    ) -> Result<Handed, AllocError> {
        let Some(at) = self.feeds.place(feed) else {
            return Ok(Handed::Gone);
        };
        let first = self.feeds.state_at(feed, at).first_of_open(&self.log);
        self.feeds.hand_at(&self.log, feed, at, first, handle, sink)
    }

    /// The cost is a binary search among the feeds.
    fn beat_due(&self, feed: FeedId) -> bool {
        match self.feeds.find(feed) {
            Some(state) => state.beat_due(),
            None => false,
        }
    }

    /// The cost is a binary search among the feeds.
    fn expire(&mut self, feed: FeedId) {
        self.feeds.expire(feed);
    }

    /// The cost is a look at each feed.
    fn finish(&mut self, feed: FeedId) {
        self.feeds.finish(feed);
    }
}
