//! A database as a host of feeds.

ghost use Rattle.std.specs.Prelude.{◌≡◌, Some, position, IfSome, IfOk, OnErr};
ghost use Rattle.hub_model.specs.Current.{current};
ghost use Rattle.hub_model.specs.Entries.{entry_in, is_of};
ghost use Rattle.hub_feed.specs.Host.{next_of_number, hosted_after_next, due_of_number, hosted_after_hand, item_of_number};
ghost use Rattle.hub_feed.specs.Hand.{MayTake};
ghost use Rattle.hub_feed.specs.Hands.{HandsOne};
ghost use Rattle.hub_feed.specs.Next.{IsRowDue};
ghost use Rattle.hub_feed.specs.Reach.{IsFirst};
ghost use Rattle.hub_database.specs.Hosting.{hosted_of, with_hosted};

use crate::database::DbState;
use hub_document::ChangeRow;
use hub_feed::{FeedHost, FeedId, Handed, HostView, Next, OpenFault, Pushes, Sink, Source};
use hub_model::Item;
use hub_params::FeedParams;
use std::alloc::AllocError;

impl HostView for DbState {
    ghost use Rattle.hub_database.specs.Handing.{IsFitting, IsRightFor};

    type Row = ChangeRow;

    ghost hosted = { hosted_of };

    ghost fits = { λ db f items. IsFitting db.journal f items };

    ghost right = { IsRightFor };
}

impl FeedHost for DbState {
    ghost use Rattle.hub_database.specs.Laid.{rows_below};
    ghost use Rattle.hub_feed.proofs.Handing.{fitting_beat, fitting_expired, fitting_handed};
    ghost use Rattle.hub_feed.proofs.Handing.{fitting_nothing, fitting_right};
    ghost use Rattle.hub_model.specs.Journal.{IsLegal};
    ghost use Rattle.hub_model.specs.RowKind.{change_rows};
    ghost use Rattle.hub_model.proofs.Laws.{rows_rise};
    ghost use Rattle.hub_model.specs.Row.{ChangeRow as Shown};
    ghost use Rattle.std.proofs.Common.{refl};

    ghost with_hosted = { with_hosted };

    ghost seq_of = { λ (r : Shown). r.seq };

    ghost rise = { λ db. rows_rise db.journal };

    ghost within = { λ db c. rows_below db.journal c };

    ghost keeps = { λ db style include_docs c. refl };

    ghost same = { λ db. refl };

    ghost hosts = { λ db feeds next. refl };

    ghost rightly = { λ db f items fitting. fitting_right change_rows IsLegal db.journal f items fitting };

    ghost stays = { λ db h f items fitting. fitting };

    ghost handed_fits = { λ db f items item due fitting.
        fitting_handed change_rows IsLegal db.journal f items fitting item due };

    ghost waiting_fits = { λ db f items due fitting.
        fitting_nothing change_rows IsLegal db.journal f items fitting due };

    ghost beat_fits = { λ db f items due fitting.
        fitting_beat change_rows IsLegal db.journal f items fitting due };

    ghost expired_fits = { λ db f items fitting.
        fitting_expired change_rows IsLegal db.journal f items fitting };

    /// Constant time.
    fn length(&self) -> u64 {
        self.update_seq()
    }

    /// Constant time.
    fn life(&self) -> u64 {
        self.contents.life
    }

    /// Constant time.
    fn refusal(&self) -> Option<OpenFault> {
        if self.deleted {
            return Some(OpenFault::Deleted);
        }
        if self.feeds.is_full(self.contents.limits.feeds) {
            return Some(OpenFault::TooManyFeeds);
        }
        None
    }

    /// The cost is that of `Feeds::open`.
    fn open_feed(&mut self, params: FeedParams) -> Result<FeedId, OpenFault> {
        if let Some(fault) = self.refusal() {
            return Err(fault);
        }
        let life = self.life();
        let length = self.contents.length();
        match self.feeds.open(params, length, life) {
            Ok(feed) => Ok(feed),
            Err(AllocError) => Err(OpenFault::NoMemory),
        }
    }

    /// The cost is that of `FeedState::first_of_open` and `Feeds::hand_at`, and a binary search among the
    /// feeds unless the last hand was to the same feed. A feed of listed documents may ask again with no
    /// write between. Then it costs a search for each id and a sort of the rows, once until the next write.
    /// After that it costs a look at the rows beside the last one, and the row.
    fn hand<K: Sink<Item<ChangeRow>>, H: Pushes<K, Item<ChangeRow>>>(
        &mut self,
        feed: FeedId,
        handle: &H,
        sink: &mut K,
    ) -> Result<Handed, AllocError> {
        let Some(at) = self.feeds.place(feed) else {
            return Ok(Handed::Gone);
        };
        self.hand_at(feed, at, handle, sink)
    }

    /// The feed is searched for once, and where there is none the answer is `Gone`. Then the cost is that of the
    /// hands.
    fn hand_items<K: Sink<Item<ChangeRow>>, H: Pushes<K, Item<ChangeRow>>>(
        &mut self,
        feed: FeedId,
        handle: &H,
        sink: &mut K,
        most: u64,
    ) -> Result<(Handed, u64), AllocError> {
        let Some(at) = self.feeds.place(feed) else {
            return Ok((Handed::Gone, 0));
        };
        for sent in 0..most {
            match self.hand_at(feed, at, handle, sink)? {
                Handed::Row => {}
                Handed::End => return Ok((Handed::End, sent + 1)),
                last => return Ok((last, sent)),
            }
        }
        Ok((Handed::Row, most))
    }

    /// The cost is a binary search among the feeds.
    fn beat_due(&self, feed: FeedId) -> bool {
        match self.feeds.find(feed) {
            Some(state) => state.beat_due(),
            None => false,
        }
    }

    /// The cost is a binary search among the feeds.
    fn expire(&mut self, feed: FeedId) {
        self.feeds.expire(feed);
    }

    /// The cost is a look at each feed.
    fn finish(&mut self, feed: FeedId) {
        self.feeds.finish(feed);
    }
}

impl DbState {
    // Hands the item that is due to the feed at this place of the list. The feed keeps this place. The cost is
    // that of `first_at` and `Feeds::hand_at`.
    #[inline(always)]
    fn hand_at<K: Sink<Item<ChangeRow>>, H: Pushes<K, Item<ChangeRow>>>(
        &mut self,
        feed: FeedId,
        at: usize,
        handle: &H,
        sink: &mut K,
    ) -> Result<Handed, AllocError>
        requires placed { Some at ≡ position (is_of feed.number) self.old.feeds }
        requires may { IfSome (item_of_number (hosted_of self.old) feed.number)
            (MayTake K.allows K.sent sink.old) }
        ensures ok { IfOk result (λ did. HandsOne hosted_of with_hosted K.behind (H.refuses handle.now)
            feed.number self.old sink.old did self.new sink.new) }
        ensures err { OnErr result ((self.new ≡ self.old) × (sink.new ≡ sink.old)
            × IsRowDue (due_of_number (hosted_of self.old) feed.number)) }
        ensures stays { Some at ≡ position (is_of feed.number) self.new.feeds }
    {
        let first = self.first_at(feed, at);
        self.feeds
            .hand_at(&self.contents, feed, at, first, handle, sink)
    }

    /// The sequence of the first row in reach of the feed at this place of the list, if it is open. Where it
    /// lists documents and its rows are kept (`Listing::holds`), the cost is that of `Listing::first_between`. Else
    /// it is that of `FeedState::first_of_open`.
    pub(crate) fn first_at(&mut self, feed: FeedId, at: usize) -> Option<u64>
        requires placed { Some at ≡ position (is_of feed.number) self.old.feeds }
        ensures same { self.new ≡ self.old }
        ensures first { IsFirst result (current self.old.journal) (entry_in feed.number self.old.feeds) }
    {
        let state = self.feeds.state_at(feed, at);
        if let Some(ids) = state.listed() {
            if state.is_open()
                && self
                    .listing
                    .holds(feed.number, &self.contents, ids, state.place())
            {
                return self.listing.first_between(state.place(), state.bound());
            }
        }
        state.first_of_open(&self.contents)
    }

    /// The item that a feed has to hand now, if any. An item is made and nothing changes: `accept_item`
    /// goes on. A feed that has nothing to hand goes to the journal's length. The cost is that of
    /// `FeedState::next_item`, and a binary search among the feeds unless the last call was for the same
    /// feed. The call keeps no rows of listed documents: `hand` does.
    pub fn next_item(&mut self, feed: FeedId) -> Result<Next<ChangeRow>, AllocError>
        ensures ok { IfOk result (λ next. (next ≡ next_of_number (hosted_of self.old) feed.number)
            × (self.new ≡ with_hosted self.old (hosted_after_next (hosted_of self.old) feed.number next))) }
        ensures err { OnErr result ((self.new ≡ self.old)
            × IsRowDue (due_of_number (hosted_of self.old) feed.number)) }
    {
        let Some(at) = self.feeds.place(feed) else {
            return Ok(Next::Gone);
        };
        self.feeds.next_at(&self.contents, feed, at)
    }

    /// Moves a feed past the item that `next_item` gives now. It takes no memory, and constant time where
    /// the last call was for this feed.
    pub fn accept_item(&mut self, feed: FeedId, item: &Item<ChangeRow>)
        requires due { item_of_number (hosted_of self.old) feed.number ≡ Some item.now }
        ensures { self.new ≡ with_hosted self.old (hosted_after_hand (hosted_of self.old) feed.number) }
    {
        let Some(at) = self.feeds.place(feed) else {
            return;
        };
        self.feeds.accept_at(&self.contents, feed, at, item);
    }
}
