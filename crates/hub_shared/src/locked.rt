//! A host of feeds and the outboxes of its feeds, as they lie under a lock.

ghost use Rattle.std.specs.Prelude.{◌≡◌, ◌<◌, ◌≤◌, [], ℕ, Some, None, option_and_then};
ghost use Rattle.std.specs.Prelude.{IfErr, IfNone, IfOk, IfSome, IsSome, OnErr, OnOk, length};
ghost use Rattle.hub_model.specs.Entries.{entry_in, with_change, without};
ghost use Rattle.hub_model.specs.Feed.{Feed, Params, new_feed};
ghost use Rattle.hub_feed.specs.Host.{next_of_number, due_of_number, hosted_after_expiry, hosted_after_finish, is_beat_allowed_if_any};
ghost use Rattle.hub_feed.specs.Host.{opening_fault};
ghost use Rattle.hub_feed.specs.Next.{IsRowDue};
ghost use Rattle.hub_feed.specs.declared.handed.Handed.TheVariants.{Row};
ghost use Rattle.hub_params.specs.FeedShown.{params_asked};
ghost use Rattle.hub_shared.specs.Blocks.{IsHeldUp, handed_over, waiting_of, with_room};
ghost use Rattle.hub_shared.specs.Label.{label_of};
ghost use Rattle.hub_shared.specs.Locked.{AreSendersOf, Beats, Hands, HandsEach, IsSenderOf, IsUnused, stepped};
ghost use Rattle.hub_shared.specs.Opening.{Begins};

use crate::block::Block;
use crate::count::{Count, Plain};
use crate::label::FeedLabel;
use crate::outbox::{Outbox, Receives, Shelf, TwoEnded};
use crate::outboxes::{outbox_of, remove};
use crate::pumping::Turn;
use crate::signals::Signals;
use crate::subscriber::{Directly, Subscriber};
use hub_feed::{FeedHost, FeedId, Handed, HostView, OpenFault, Pushes};
use hub_lane::Asks;
use hub_model::{Item, place_near, place_of};
use hub_params::FeedParams;
use std::alloc::{AllocError, Global};
use std::marker::Model;
use std::sync::Arc;

/// A feed that was opened.
#[derive(Drop)]
pub struct OpenedFeed<T> {
    /// The number under which its host keeps it.
    pub id: FeedId,
    /// The end that takes the items that the host hands.
    pub taker: T,
}

/// A host of feeds, the outbox of each feed that is not finished, and a book that counts the host's edits.
/// Whenever a lock gives it, the items sent to each outbox fit the feed in the present host (`state`). Where
/// edits are counted, the book's total is the number of the host's edits. Contracts see the host, the
/// outboxes and how many items of a feed may wait.
#[derive(Drop)]
pub struct Locked<S: HostView, C: Count = Plain, K: Outbox<S> = Subscriber<S>> {
    pub(crate) state: S,
    /// The outboxes of the feeds that are not finished, by the numbers of the feeds, which rise.
    pub(crate) subscribers: Vec<(u64, K)>,
    /// The place of the outbox to which the last hand went. A search looks there first.
    near: usize,
    /// How many items of a feed may wait at most.
    lane: usize,
    /// How many items a feed is handed in one holding at most.
    hold: u64,
    /// A number that changes with each change that a pump may wait for, and with each end of a feed.
    news: u64,
    pub(crate) book: C::Book,
    pub(crate) alloc: Global,
}

impl<S: HostView, C: Count, K: Outbox<S>> Model for Locked<S, C, K> {
    ghost use Rattle.std.specs.Prelude.{◌<◌};
    ghost use Rattle.hub_shared.specs.Locked.{LockedState, AreSendersOf, IsBookOf};

    ghost Value = { LockedState S K };

    ghost view = { λ a. record { state = a.state; senders = a.subscribers.items; lane = a.lane } };

    ghost invariant = { λ a. (0 < a.lane)
        × AreSendersOf K.label K.items (S.fits a.state) (S.hosted a.state) a.subscribers.items
        × IsBookOf C.counts (C.total a.book) (S.hosted a.state).length };
}

/// Calls for outboxes that are subscribers.
impl<S: HostView, C: Count> Locked<S, C> {
    // The most items that one holding hands a feed (`Subscriber::most`), and how many items may wait then: as
    // many more than wait already, but at most `lane`. The cost is the search of `make_room`.
    fn most(&self, feed: FeedId) -> (u64, usize) {
        let Some(at) = place_near(self.subscribers.as_slice(), self.near, feed.number) else {
            return (self.hold, self.lane);
        };
        let subscriber = &self.subscribers[at].1;
        let most = subscriber.most(self.hold);
        let room = subscriber.waiting().saturating_add(most as usize);
        (most, self.lane.min(room))
    }

    /// The signals of the feed of this number, if there is one. A binary search.
    pub(crate) fn signals(&self, feed: FeedId) -> Result<Option<Arc<Signals, Global>>, AllocError> {
        let Some(at) = place_of(self.subscribers.as_slice(), feed.number) else {
            return Ok(None);
        };
        let entry = &self.subscribers[at];
        Ok(Some(entry.1.signals()?))
    }

    /// Reserves memory so that `room` items of a feed may wait, with the items that wait already among them.
    /// Without a feed of this number, or out of memory, nothing changes. The cost is a search among the
    /// outboxes: constant time where the last hand was for the same feed.
    pub fn make_room(&mut self, feed: FeedId, room: usize) -> Result<(), AllocError>
        ensures ok { OnOk result (self.new ≡ record self.old {
          senders = with_change feed.number (with_room room) self.old.senders;
        }) }
        ensures err { OnErr result (self.new ≡ self.old) }
    {
        let Some(at) = place_near(self.subscribers.as_slice(), self.near, feed.number) else {
            return Ok(());
        };
        let entry = &mut self.subscribers[at];
        entry.1.make_room(room)
    }

    /// Lends a feed items whose memory may serve its next rows (`Subscriber::lend`). Without a feed of this
    /// number they are dropped. The cost is the search of `make_room`.
    fn lend(&mut self, feed: FeedId, spare: Vec<Item<S::Row>>)
        ensures { self.new ≡ self.old }
    {
        let Some(at) = place_near(self.subscribers.as_slice(), self.near, feed.number) else {
            return;
        };
        let entry = &mut self.subscribers[at];
        entry.1.lend(spare);
    }

    /// Gives the lane of a feed all its items that wait, as one block, and answers their number: 0 also where
    /// there is no feed of this number. Where the lane was full at a moment of the call, the items go on
    /// waiting, and the answer is `None`. In both cases no memory is reserved for further items: `make_room`
    /// reserves it. The cost is the search of `make_room`, and the call takes no memory.
    pub fn hand_over<R>(&mut self, rt: &R, feed: FeedId) -> Option<usize>
    where
        R: Asks<FeedLabel<S>, Block<S::Row>>,
        ensures count { IfSome result (λ count. count
            ≡ length (waiting_of (entry_in feed.number self.old.senders))) }
        ensures over { IfSome result (λ _. self.new ≡ record self.old {
          senders = with_change feed.number handed_over self.old.senders;
        }) }
        ensures held_up { IfNone result (self.new ≡ record self.old {
          senders = with_change feed.number (with_room 0) self.old.senders;
        }) }
        ensures full { IfNone result (IfSome (entry_in feed.number self.old.senders)
            (IsHeldUp (R.refuses rt.now))) }
        ensures feed { IfNone result (IsSome (entry_in feed.number self.old.senders)) }
    {
        let Some(at) = place_near(self.subscribers.as_slice(), self.near, feed.number) else {
            return Some(0);
        };
        let entry = &mut self.subscribers[at];
        entry.1.hand_over(rt, self.alloc)
    }
}

/// The steps of a holding, for outboxes that are subscribers.
impl<S: FeedHost, C: Count> Locked<S, C> {
    /// Makes the steps of one holding: the last answer, and how many rows and Ends were sent. `Turn::Hand`
    /// goes on until an answer is not a row, or `most` items were sent. Room is made for these items alone,
    /// and the spare items may give them memory. The cost is that of the steps.
    pub(crate) fn step(
        &mut self,
        feed: FeedId,
        turn: Turn,
        spare: Vec<Item<S::Row>>,
    ) -> Result<(Handed, u64), AllocError> {
        if turn == Turn::Expire {
            self.expire(feed);
            return Ok((Handed::Nothing, 0));
        }
        if turn == Turn::Beat {
            self.make_room(feed, self.lane)?;
            return Ok((self.beat(&Directly, feed), 0));
        }
        let (most, room) = self.most(feed);
        self.make_room(feed, room)?;
        self.lend(feed, spare);
        self.hand_items(&Directly, feed, most)
    }
}

/// Calls that read.
impl<S: HostView, C: Count, K: Outbox<S>> Locked<S, C, K> {
    /// The host. Each of its feeds that is not finished has an outbox. The outbox's label has the feed's
    /// parameters and since, and the items sent to it fit the feed in the present host. Constant time.
    pub fn state(&self) -> &S
        ensures state { result.now ≡ self.now.state }
        ensures senders { AreSendersOf K.label K.items (S.fits self.now.state) (S.hosted self.now.state)
            self.now.senders }
    {
        &self.state
    }

    /// A number that changes with each change that a pump may wait for, and with each end of a feed.
    pub(crate) fn news(&self) -> u64 {
        self.news
    }
}

impl<S: FeedHost, C: Count, K: Outbox<S>> Locked<S, C, K> {
    /// A host without feeds, and a book that has counted nothing. Of each feed at most `lane` items may wait,
    /// and a holding hands a feed at most `hold` items. It takes no memory.
    pub fn new(alloc: Global, state: S, lane: usize, hold: u64, book: C::Book) -> Locked<S, C, K>
        requires room { 0 < lane }
        requires unused { IsUnused C.counts (C.total book) (S.hosted state) }
        ensures { result ≡ record { state = state; senders = []; lane = lane } }
    {
        Locked {
            state,
            subscribers: Vec::new(alloc),
            near: 0,
            lane,
            hold,
            news: 0,
            book,
            alloc,
        }
    }

    /// Tells of a change that feeds may wait for: the number of the news changes, and watches get news. The
    /// cost is a look at each feed.
    pub(crate) fn tell(&mut self)
        ensures { self.new ≡ self.old }
    {
        self.news = self.news.wrapping_add(1);
        for entry in &self.subscribers {
            entry.1.tell();
        }
    }

    /// Ends a feed's time without an item: an open feed that waits is ending. It takes no memory. The cost is
    /// that of the host's `expire`.
    pub fn expire(&mut self, feed: FeedId)
        ensures { self.new ≡ stepped S.hosted S.with_hosted self.old (λ h. hosted_after_expiry h feed.number) }
    {
        self.state.expire(feed);
    }

    /// Forgets the feed of this number, if there is one, and gives out its outbox: no later hand sends to it.
    /// The items sent to it fit the feed and the host as both were before. It takes no memory. The cost is
    /// that of the host's `finish`, a search among the outboxes, and a move of the later outboxes.
    pub fn finish(&mut self, feed: FeedId) -> Option<K>
        ensures sender { result ≡ entry_in feed.number self.old.senders }
        ensures fits { IfSome result (λ s. (f : Feed)
            × (entry_in feed.number (S.hosted self.old.state).feeds ≡ Some f)
            × IsSenderOf K.label K.items (S.fits self.old.state) f s) }
        ensures step { self.new
            ≡ record (stepped S.hosted S.with_hosted self.old (λ h. hosted_after_finish h feed.number)) {
              senders = without feed.number self.old.senders;
            } }
    {
        self.state.finish(feed);
        self.news = self.news.wrapping_add(1);
        remove(&mut self.subscribers, feed.number)
    }
}

/// How feeds are opened.
impl<S: FeedHost, C: Count, K: TwoEnded<S>> Locked<S, C, K> {
    // An outbox for a feed of these parameters that begins now, and its other end.
    fn open_outbox(&self, params: &FeedParams) -> Result<(K, K::Taker), AllocError>
        ensures outbox { IfOk result (λ ends. ends.0 ≡ K.made ends.1
            (label_of (params_asked params.now) (S.hosted self.now.state)) self.now.lane) }
        ensures taker { IfOk result (λ ends. K.takes ends.1
            (label_of (params_asked params.now) (S.hosted self.now.state))) }
        ensures begins { (p : Params) → S.fits self.now.state
            (new_feed p (S.hosted self.now.state).length (S.hosted self.now.state).life) [] }
    {
        let life = self.state.life();
        let since = params.since.within(self.state.length(), life);
        let label = FeedLabel::new(params.copy(self.alloc)?, since, life);
        K::open(self.alloc, self.lane, label, params)
    }

    /// Opens a feed at the host, under a number that no feed had before. The feed's outbox stays here, and
    /// the result is the outbox's other end. `descending` is not looked at. Out of memory is the error only
    /// where the host refuses nothing, and any error leaves all as it was. The cost is a copy of the
    /// parameters, an outbox, and that of `open_feed`.
    pub fn begin(&mut self, params: FeedParams) -> Result<OpenedFeed<K::Taker>, OpenFault>
        ensures ok { IfOk result (λ opened. Begins S.hosted S.with_hosted K.made K.takes
            params self.old opened.id.number opened.taker self.new) }
        ensures err { IfErr result (λ e. (self.new ≡ self.old)
            × (e ≡ opening_fault (S.hosted self.old.state))) }
    {
        if let Some(fault) = self.state.refusal() {
            return Err(fault);
        }
        let Ok((outbox, taker)) = self.open_outbox(&params) else {
            return Err(OpenFault::NoMemory);
        };
        if let Err(AllocError) = self.subscribers.try_reserve(1) {
            return Err(OpenFault::NoMemory);
        }
        match self.state.open_feed(params) {
            Ok(id) => {
                self.subscribers.push_reserved((id.number, outbox));
                Ok(OpenedFeed { id, taker })
            }
            Err(fault) => Err(fault),
        }
    }
}

/// Hands and heartbeats.
impl<S: FeedHost, C: Count, K: Receives<S>> Locked<S, C, K> {
    /// Hands the feed's next item to its outbox: the item that is due is sent, and only then the feed moves
    /// on. `Full` is answered only where the outbox had no room and gave the item back. Nothing changes then,
    /// and the next hand makes the item again. Where nothing is due, the feed's place goes to the length of
    /// the journal or log that it follows. Only a row takes memory, and out of memory nothing changes. The
    /// cost is that of the host's `hand`, and a push. The outbox is found in constant time where the last
    /// hand was for the same feed.
    pub fn hand<P: Pushes<K, Item<S::Row>>>(
        &mut self,
        handle: &P,
        feed: FeedId,
    ) -> Result<Handed, AllocError>
        ensures ok { IfOk result (λ handed. Hands S.hosted S.with_hosted K.behind (P.refuses handle.now)
            (next_of_number (S.hosted self.old.state) feed.number) self.old feed.number handed self.new) }
        ensures err { OnErr result ((self.new ≡ self.old)
            × IsRowDue (due_of_number (S.hosted self.old.state) feed.number)) }
    {
        let Some(at) = place_near(self.subscribers.as_slice(), self.near, feed.number) else {
            return Ok(Handed::Gone);
        };
        self.near = at;
        let entry = &mut self.subscribers[at];
        self.state.hand(feed, handle, &mut entry.1)
    }

    /// Hands the feed's next items to its outbox, until an answer is not `Row`, or `most` items were sent. The
    /// answer is the last one, and how many items were sent. Out of memory, the items that were sent stay so.
    /// The outbox is searched for once. Then the cost is that of the host's `hand_items`.
    pub(crate) fn hand_items<P: Pushes<K, Item<S::Row>>>(
        &mut self,
        handle: &P,
        feed: FeedId,
        most: u64,
    ) -> Result<(Handed, u64), AllocError>
        ensures ok { IfOk result (λ handed. HandsEach S.hosted S.with_hosted K.behind (P.refuses handle.now)
            feed.number self.old handed.1 handed.0 self.new) }
        ensures most { IfOk result (λ handed. (handed.1 ≤ most) × (handed.0 ≡ Row → handed.1 ≡ most)) }
        ensures err { OnErr result ((count : ℕ) × HandsEach S.hosted S.with_hosted K.behind
            (P.refuses handle.now) feed.number self.old count Row self.new
            × IsRowDue (due_of_number (S.hosted self.new.state) feed.number)) }
    {
        let Some(at) = place_near(self.subscribers.as_slice(), self.near, feed.number) else {
            return Ok((Handed::Gone, 0));
        };
        self.near = at;
        let entry = &mut self.subscribers[at];
        self.state.hand_items(feed, handle, &mut entry.1, most)
    }

    /// Sends a heartbeat where one is due, and the feed keeps its place. `Full` is answered only where the
    /// outbox gave the heartbeat back, and else `Nothing`, sent or not. It takes no memory. The cost is that
    /// of the host's `beat_due`, a search among the outboxes, and a push.
    pub fn beat<P: Pushes<K, Item<S::Row>>>(&mut self, handle: &P, feed: FeedId) -> Handed
        ensures { Beats K.behind (P.refuses handle.now)
            (is_beat_allowed_if_any (entry_in feed.number (S.hosted self.old.state).feeds))
            self.old feed.number result self.new }
    {
        let Some(at) = place_near(self.subscribers.as_slice(), self.near, feed.number) else {
            return Handed::Nothing;
        };
        if !self.state.beat_due(feed) {
            return Handed::Nothing;
        }
        let entry = &mut self.subscribers[at];
        match handle.push(&mut entry.1, Item::Beat) {
            Ok(()) => Handed::Nothing,
            Err(_) => Handed::Full,
        }
    }
}

/// Calls for outboxes whose items lie under the lock with them.
impl<S: FeedHost, C: Count, K: Shelf<S>> Locked<S, C, K> {
    /// The outbox of the feed of this number, if there is one. A binary search.
    pub fn outbox(&self, feed: FeedId) -> Option<&K>
        ensures found { IfSome result (λ k. entry_in feed.number self.now.senders ≡ Some k.now) }
        ensures none { IfNone result (entry_in feed.number self.now.senders ≡ None) }
    {
        outbox_of(self.subscribers.as_slice(), feed.number)
    }

    /// Takes the first item of a feed that was handed and not taken yet. It takes no memory. The cost is a
    /// binary search, and that of `Shelf::take`.
    pub fn take(&mut self, feed: FeedId) -> Option<Item<S::Row>>
        ensures item { result ≡ option_and_then K.front (entry_in feed.number self.old.senders) }
        ensures rest { self.new
            ≡ record self.old { senders = with_change feed.number K.without_front self.old.senders } }
    {
        let at = place_of(self.subscribers.as_slice(), feed.number)?;
        let entry = &mut self.subscribers[at];
        entry.1.take()
    }
}
