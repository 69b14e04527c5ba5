//! The feeds of a host, by their numbers.

ghost use Rattle.std.specs.Prelude.{◌≡◌, ◌<◌, ◌^◌, ◌+◌, ◌-◌, ◌||◌, ◌++◌, ◌∷◌, [], ℕ, length, map};
ghost use Rattle.std.specs.Prelude.{nat_le, option_map, position, Some, None, IfSome, IfOk, OnOk, OnErr};
ghost use Rattle.hub_model.specs.Entries.{with_change, entry_in, is_of, without};
ghost use Rattle.hub_model.specs.Feed.{new_feed, expired_feed};
ghost use Rattle.hub_params.specs.FeedModel.{params_of};
ghost use Rattle.hub_feed.specs.Feeds.{AreBehind, IsChangedTo, IsReadyAt, ended_entry, feeds_of, over};
ghost use Rattle.hub_feed.specs.Hand.{HandsTo, MayTake};
ghost use Rattle.hub_feed.specs.Host.{next_of_number, hosted_after_next, due_of_number, hosted_after_hand, item_of_number};
ghost use Rattle.hub_feed.specs.Next.{IsRowDue};
ghost use Rattle.hub_feed.specs.declared.next.Next.TheVariants.{Nothing};

use crate::feed::FeedState;
use crate::handed::Handed;
use crate::host::FeedId;
use crate::next::Next;
use crate::sink::{Pushes, Sink};
use crate::source::Source;
use hub_model::{Item, place_near, place_of};
use hub_params::FeedParams;
use std::alloc::{AllocError, Global};
use std::marker::Model;

/// The feeds of a host that are not finished. A feed is found by its number, by binary search.
#[derive(Debug)]
pub struct Feeds {
    /// The feeds by their numbers, which rise.
    list: Vec<(u64, FeedState)>,
    /// The number of the next feed: only lower numbers were given.
    next: u64,
    /// The place of the feed that was found last. The next search looks there first.
    near: usize,
}

impl Drop for Feeds {
    fn drop(self) {
        let Self { list, next, near } = self;
    }
}

impl Model for Feeds {
    ghost use Rattle.hub_feed.specs.Feeds.{AreNumbered, FeedList};

    ghost Value = { FeedList };

    ghost view = { λ a. record { feeds = a.list.items; next = a.next } };

    ghost invariant = { λ a. AreNumbered a.next a.list.items };
}

// Ends each open feed.
fn end_each(feeds: &mut Vec<(u64, FeedState)>)
    ensures { feeds.new.items ≡ map ended_entry feeds.old.items }
{
    for feed in feeds.iter_mut() {
        feed.1.end();
    }
}

impl Feeds {
    /// A list of no feeds. It takes no memory yet; `open` takes it from this allocator.
    pub fn new(alloc: Global) -> Feeds
        ensures { result ≡ record { feeds = []; next = 0 } }
    {
        Feeds {
            list: Vec::new(alloc),
            next: 0,
            near: 0,
        }
    }

    /// Whether there are `limit` feeds or more, or no number is left for one more feed. Constant time.
    pub fn is_full(&self, limit: u64) -> bool
        ensures { result ≡ (nat_le limit (length self.now.feeds) || nat_le (2 ^ 64 - 1) self.now.next) }
    {
        self.list.len() as u64 >= limit || self.next == u64::MAX
    }

    /// Opens a feed while there are `length` edits of the life of this number. The feed gets a number that no
    /// feed had before. The cost is that of a list that grows by one.
    pub fn open(&mut self, params: FeedParams, length: u64, life: u64) -> Result<FeedId, AllocError>
        requires left { self.old.next < 2 ^ 64 - 1 }
        ensures number { IfOk result (λ id. id.number ≡ self.old.next) }
        ensures fresh { IfOk result (λ id. entry_in id.number self.old.feeds ≡ None) }
        ensures ok { OnOk result (self.new ≡ record {
          feeds = self.old.feeds ++ (self.old.next, new_feed (params_of params) length life) ∷ [];
          next = self.old.next + 1;
        }) }
        ensures err { OnErr result (self.new ≡ self.old) }
        ensures behind { AreBehind length self.old.feeds → AreBehind length self.new.feeds }
    {
        self.list.try_reserve(1)?;
        let number = self.next;
        self.list
            .push_reserved((number, FeedState::begin(params, length, life)));
        self.next += 1;
        Ok(FeedId { number })
    }

    /// The place of the feed with this number, if there is one. Constant time if the last call found this
    /// feed and none was finished since; else a binary search.
    pub fn place(&mut self, feed: FeedId) -> Option<usize>
        ensures { (self.new ≡ self.old) × (result ≡ position (is_of feed.number) self.old.feeds) }
    {
        let at = place_near(self.list.as_slice(), self.near, feed.number)?;
        self.near = at;
        Some(at)
    }

    /// The feed at this place. Constant time.
    pub fn state_at(&self, feed: FeedId, at: usize) -> &FeedState
        requires placed { Some at ≡ position (is_of feed.number) self.now.feeds }
        ensures found { entry_in feed.number self.now.feeds ≡ Some result.now }
        ensures given { feed.number < self.now.next }
    {
        let state = &self.list[at];
        &state.1
    }

    /// The item that the feed at this place has to hand now, over the source of all the feeds. The item is
    /// made, and the feed stays: `accept_at` moves it. A feed with nothing to hand moves its place to the
    /// source's length. Only a row takes memory. The cost is that of `FeedState::next_item`.
    pub fn next_at<S: Source>(
        &mut self,
        source: &S,
        feed: FeedId,
        at: usize,
    ) -> Result<Next<S::Row>, AllocError>
        requires behind { AreBehind (S.length source.now) self.old.feeds }
        requires placed { Some at ≡ position (is_of feed.number) self.old.feeds }
        ensures ok { IfOk result (λ next. (next ≡ next_of_number
            (over (S.length source.now) (S.current source.now) (S.shown source.now) self.old) feed.number)
            × (self.new ≡ feeds_of (hosted_after_next (over (S.length source.now) (S.current source.now)
            (S.shown source.now) self.old) feed.number next))) }
        ensures err { OnErr result ((self.new ≡ self.old) × IsRowDue (due_of_number
            (over (S.length source.now) (S.current source.now) (S.shown source.now) self.old) feed.number)) }
        ensures behind { AreBehind (S.length source.now) self.new.feeds }
    {
        let state = &mut self.list[at];
        state.1.next_item(source)
    }

    /// Hands the item that is due to the feed at `at`. `first` is the sequence of the feed's first row in
    /// reach, if it is open and there is one. The item is made, then `sink` takes it, and only then the feed
    /// moves. Where `sink` gives it back nothing changes. A feed with nothing to hand moves its place to the
    /// source's length. Only a row takes memory. Out of memory, nothing changes. The cost is that of
    /// `FeedState::hand`: no feed is searched for.
    pub fn hand_at<S: Source, K: Sink<Item<S::Row>>, H: Pushes<K, Item<S::Row>>>(
        &mut self,
        source: &S,
        feed: FeedId,
        at: usize,
        first: Option<u64>,
        handle: &H,
        sink: &mut K,
    ) -> Result<Handed, AllocError>
        requires ready { IsReadyAt (S.length source.now) (S.current source.now) self.old.feeds feed.number
            at first }
        requires may { IfSome (item_of_number
            (over (S.length source.now) (S.current source.now) (S.shown source.now) self.old) feed.number)
            (MayTake K.allows K.sent sink.old) }
        ensures ok { IfOk result (λ did. HandsTo K.behind (H.refuses handle.now) self.old
            (feeds_of (hosted_after_hand (over (S.length source.now) (S.current source.now) (S.shown source.now)
            self.old) feed.number))
            (feeds_of (hosted_after_next (over (S.length source.now) (S.current source.now)
            (S.shown source.now) self.old) feed.number Nothing))
            sink.old (next_of_number (over (S.length source.now) (S.current source.now) (S.shown source.now)
            self.old) feed.number)
            did self.new sink.new) }
        ensures err { OnErr result ((self.new ≡ self.old) × (sink.new ≡ sink.old) × IsRowDue (due_of_number
            (over (S.length source.now) (S.current source.now) (S.shown source.now) self.old) feed.number)) }
        ensures behind { AreBehind (S.length source.now) self.new.feeds }
    {
        let state = &mut self.list[at];
        state.1.hand(source, first, handle, sink)
    }

    /// The feed at `at` moves as if it handed the item of `next_at`. It takes no memory, and constant time.
    pub fn accept_at<S: Source>(&mut self, source: &S, feed: FeedId, at: usize, item: &Item<S::Row>)
        requires placed { Some at ≡ position (is_of feed.number) self.old.feeds }
        requires due { item_of_number
            (over (S.length source.now) (S.current source.now) (S.shown source.now) self.old) feed.number
            ≡ Some item.now }
        ensures { IsChangedTo (hosted_after_hand (over (S.length source.now) (S.current source.now)
            (S.shown source.now) self.old) feed.number).feeds (S.length source.now) self.old self.new }
    {
        let state = &mut self.list[at];
        state.1.accept_item(source, item);
    }

    /// The feed with this number, if there is one. It takes no memory, and costs a binary search.
    pub fn find(&self, feed: FeedId) -> Option<&FeedState>
        ensures { option_map (λ state. state.now) result ≡ entry_in feed.number self.now.feeds }
    {
        let Some(at) = place_of(self.list.as_slice(), feed.number) else {
            return None;
        };
        let feed = &self.list[at];
        Some(&feed.1)
    }

    /// A feed's time without an item is over: an open feed that waits is ending. It takes no memory,
    /// and costs a binary search.
    pub fn expire(&mut self, feed: FeedId)
        ensures { IsChangedTo (with_change feed.number expired_feed self.old.feeds) 0 self.old self.new }
    {
        let Some(at) = place_of(self.list.as_slice(), feed.number) else {
            return;
        };
        let feed = &mut self.list[at];
        feed.1.expire();
    }

    /// Forgets a feed, if there is one of this number. It takes no memory, and costs a look at each
    /// feed.
    pub fn finish(&mut self, feed: FeedId)
        ensures { IsChangedTo (without feed.number self.old.feeds) 0 self.old self.new }
    {
        let number = feed.number;
        self.list.retain(|kept| kept.0 != number);
    }

    /// The source of the feeds is deleted: each open feed is ending. It takes no memory, and costs a step for
    /// each feed.
    pub fn end_all(&mut self)
        ensures { IsChangedTo (map ended_entry self.old.feeds) 0 self.old self.new }
    {
        end_each(&mut self.list);
    }
}
