//! Hosts of feeds.

ghost use Rattle.std.specs.Prelude.{◌≡◌, ◌<◌, ◌≤◌, ◌++◌, ◌∷◌, [], ℕ, List, Bool, true, Some};
ghost use Rattle.std.specs.Prelude.{None, Contains, IfOk, IfErr, IfSome, OnOk, OnErr};
ghost use Rattle.std.specs.List.{AllPairs};
ghost use Rattle.hub_model.specs.Current.{Current};
ghost use Rattle.hub_model.specs.Entries.{entry_in};
ghost use Rattle.hub_model.specs.Feed.{Feed, Params, DueNothing, after_nothing, new_feed, is_beat_allowed, next_due, expired_feed};
ghost use Rattle.hub_model.specs.declared.feeds.Item.{Item as HandedItem};
ghost use Rattle.hub_model.specs.declared.feeds.Item.TheVariants.{Beat};
ghost use Rattle.hub_model.specs.declared.feeds.Style.{Style as Listing};
ghost use Rattle.hub_params.specs.FeedModel.{params_of};
ghost use Rattle.hub_feed.specs.Hand.{HandsTo, MayTake};
ghost use Rattle.hub_feed.specs.Hands.{HandsItems};
ghost use Rattle.hub_feed.specs.declared.handed.Handed.TheVariants.{Row};
ghost use Rattle.hub_feed.specs.Next.{IsRowDue};
ghost use Rattle.hub_feed.specs.Host.{Hosted, with_feeds, opening_refusal, opening_fault, hosted_after_opening};
ghost use Rattle.hub_feed.specs.Host.{due_of_number, next_of_number, item_of_feed, item_of_number, hosted_after_next};
ghost use Rattle.hub_feed.specs.Host.{hosted_feed_after_due, hosted_after_hand, is_beat_allowed_if_any, hosted_after_expiry, hosted_after_finish};
ghost use Rattle.hub_feed.specs.declared.next.Next.TheVariants.{Nothing};

use crate::handed::Handed;
use crate::sink::{Pushes, Sink};
use hub_model::Item;
use hub_params::FeedParams;
use std::alloc::AllocError;

/// A feed's number in its host, from 0 on. No number is given twice. A number that was given and that no feed
/// has is the number of a finished feed.
#[derive(Clone, Copy, Debug, PartialEq, Eq)]
pub struct FeedId {
    pub number: u64,
}

/// Why no feed is opened.
#[derive(Clone, Copy, Debug, PartialEq, Eq)]
pub enum OpenFault {
    /// Out of memory.
    NoMemory,
    /// The source of the feed is deleted.
    Deleted,
    /// There are as many feeds as the limit, or no number is left for one more feed.
    TooManyFeeds,
}

/// The view of a host of feeds. Types over hosts ask for this trait alone: each function that names such a
/// type is proved with all that the type asks for.
pub trait HostView {
    /// A row as it is handed.
    type Row: Drop;

    /// The source of the feeds, and the feeds.
    ghost hosted: { Self → Hosted Self.Row };

    /// The lists of items that fit a feed in this state of the host. The items that the feed has handed fit.
    ghost fits: { Self → Feed → List (HandedItem Self.Row) → Type 0 };

    /// The lists of items that a feed with these parameters, which shows rows above this sequence, may have
    /// handed by some time.
    ghost right: { Params → ℕ → List (HandedItem Self.Row) → Type 0 };
}

/// A host of feeds. The feeds follow the host, and the host keeps each feed from its opening until it is
/// finished. A step of a feed changes only the feeds and the number of the next feed (`with_hosted`).
pub trait FeedHost: HostView {
    /// The host with the feeds, and the number of the next feed, of this view.
    ghost with_hosted: { Self → Hosted Self.Row → Self };

    /// The sequence of a row that is handed.
    ghost seq_of: { Self.Row → ℕ };

    /// The number of edits. The empty list fits a feed that is opened now. It takes no memory.
    fn length(&self) -> u64
        ensures length { result ≡ (Self.hosted self.now).length }
        ensures begins { (params : Params)
            → Self.fits self.now
            (new_feed params (Self.hosted self.now).length (Self.hosted self.now).life) [] };

    /// The number of the life of the edits. It takes no memory.
    fn life(&self) -> u64
        ensures { result ≡ (Self.hosted self.now).life };

    /// The fault of an opening now, if it would fail even with memory. It takes no memory.
    fn refusal(&self) -> Option<OpenFault>
        ensures { result ≡ opening_refusal (Self.hosted self.now) };

    /// Opens a feed, which stays until it is finished, with a number that no feed had before. `descending` is
    /// not looked at. A refusal takes no memory.
    fn open_feed(&mut self, params: FeedParams) -> Result<FeedId, OpenFault>
        ensures free { OnOk result (opening_refusal (Self.hosted self.old) ≡ None) }
        ensures new { IfOk result (λ id. entry_in id.number (Self.hosted self.old).feeds ≡ None) }
        ensures number { IfOk result (λ id. id.number ≡ (Self.hosted self.old).next_feed) }
        ensures ok { OnOk result
            (self.new ≡ with_hosted self.old (hosted_after_opening (Self.hosted self.old) (params_of params))) }
        ensures err { IfErr result (λ e. (self.new ≡ self.old)
            × (e ≡ opening_fault (Self.hosted self.old))) };

    /// Hands the item that is due to a feed. The item is made, then `sink` takes it, and only then the feed
    /// moves. Where `sink` gives it back nothing changes, and the next hand makes it again. A feed with
    /// nothing to hand moves its place to the number of edits. Only a row takes memory. Out of memory,
    /// nothing changes.
    fn hand<K: Sink<Item<Self::Row>>, H: Pushes<K, Item<Self::Row>>>(
        &mut self,
        feed: FeedId,
        handle: &H,
        sink: &mut K,
    ) -> Result<Handed, AllocError>
        requires may { IfSome (item_of_number (Self.hosted self.old) feed.number)
            (MayTake K.allows K.sent sink.old) }
        ensures ok { IfOk result (λ did. HandsTo K.behind (H.refuses handle.now) self.old
            (with_hosted self.old (hosted_after_hand (Self.hosted self.old) feed.number))
            (with_hosted self.old (hosted_after_next (Self.hosted self.old) feed.number Nothing))
            sink.old (next_of_number (Self.hosted self.old) feed.number) did self.new sink.new) }
        ensures err { OnErr result ((self.new ≡ self.old) × (sink.new ≡ sink.old)
            × IsRowDue (due_of_number (Self.hosted self.old) feed.number)) };

    /// Hands a feed's items, one after the other, until an answer is not `Row`, or `most` items were taken. The
    /// result is the last answer, or `Row` without a hand, and how many items `sink` took. Out of memory, the
    /// items that were taken stay handed. The cost is that of the hands.
    fn hand_items<K: Sink<Item<Self::Row>>, H: Pushes<K, Item<Self::Row>>>(
        &mut self,
        feed: FeedId,
        handle: &H,
        sink: &mut K,
        most: u64,
    ) -> Result<(Handed, u64), AllocError>
        requires may { (count : ℕ) (s : Self) (k : K)
            → HandsItems Self.hosted with_hosted K.behind (H.refuses handle.now) feed.number
            self.old sink.old count Row s k
            → IfSome (item_of_number (Self.hosted s) feed.number) (MayTake K.allows K.sent k) }
        ensures ok { IfOk result (λ did. HandsItems Self.hosted with_hosted K.behind (H.refuses handle.now)
            feed.number self.old sink.old did.1 did.0 self.new sink.new) }
        ensures most { IfOk result (λ did. (did.1 ≤ most) × (did.0 ≡ Row → did.1 ≡ most)) }
        ensures err { OnErr result ((count : ℕ) × HandsItems Self.hosted with_hosted K.behind
            (H.refuses handle.now) feed.number self.old sink.old count Row self.new sink.new
            × IsRowDue (due_of_number (Self.hosted self.new) feed.number)) }
    {
        for sent in 0..most {
            match self.hand(feed, handle, sink)? {
                Handed::Row => {}
                Handed::End => return Ok((Handed::End, sent + 1)),
                last => return Ok((last, sent)),
            }
        }
        Ok((Handed::Row, most))
    }

    /// Whether a feed may hand a heartbeat now: it asked for heartbeats, is open, and waits. It takes no
    /// memory.
    fn beat_due(&self, feed: FeedId) -> bool
        ensures { result ≡ is_beat_allowed_if_any (entry_in feed.number (Self.hosted self.now).feeds) };

    /// A feed's time without an item is over: an open feed that waits is ending. It takes no memory.
    fn expire(&mut self, feed: FeedId)
        ensures { self.new ≡ with_hosted self.old (hosted_after_expiry (Self.hosted self.old) feed.number) };

    /// Forgets the feed with this number, if there is one. It takes no memory.
    fn finish(&mut self, feed: FeedId)
        ensures { self.new ≡ with_hosted self.old (hosted_after_finish (Self.hosted self.old) feed.number) };

    /// The sequences of the current rows rise.
    ghost rise: { (s : Self) → AllPairs (λ (c d : Current). c.seq < d.seq) (Self.hosted s).current };

    /// The sequence of a current row is at most the number of edits.
    ghost within: { (s : Self) (c : Current) → Contains (Self.hosted s).current c
        → c.seq ≤ (Self.hosted s).length };

    /// A row that is handed has the sequence of its current row.
    ghost keeps: { (s : Self) (style : Listing) (include_docs : Bool) (c : Current)
        → seq_of ((Self.hosted s).shown style include_docs c) ≡ c.seq };

    /// A host with its own feeds is the same host.
    ghost same: { (s : Self) → with_hosted s (Self.hosted s) ≡ s };

    /// A host with other feeds has the same view, but for these feeds.
    ghost hosts: { (s : Self) (feeds : List (ℕ × Feed)) (next : ℕ)
        → Self.hosted (with_hosted s (with_feeds (Self.hosted s) feeds next))
        ≡ with_feeds (Self.hosted s) feeds next };

    /// A list that fits a feed is right for it.
    ghost rightly: { (s : Self) (f : Feed) (items : List (HandedItem Self.Row)) → Self.fits s f items
        → Self.right f.params f.since items };

    /// A list that fits a feed still fits with other feeds in the host.
    ghost stays: { (s : Self) (h : Hosted Self.Row) (f : Feed) (items : List (HandedItem Self.Row))
        → Self.fits s f items → Self.fits (with_hosted s h) f items };

    /// A list that fits a feed, with the item that is due at its end, fits the feed that handed this item.
    ghost handed_fits: { (s : Self) (f : Feed) (items : List (HandedItem Self.Row))
        → (item : HandedItem Self.Row) → item_of_feed (Self.hosted s) f ≡ Some item → Self.fits s f items
        → Self.fits s (hosted_feed_after_due (Self.hosted s) f) (items ++ item ∷ []) };

    /// A list that fits a feed still fits after the feed found nothing to hand.
    ghost waiting_fits: { (s : Self) (f : Feed) (items : List (HandedItem Self.Row))
        → next_due (Self.hosted s).current f ≡ DueNothing → Self.fits s f items
        → Self.fits s (after_nothing f (Self.hosted s).length) items };

    /// A list that fits a feed still fits with a heartbeat at the end, if the feed may hand a heartbeat.
    ghost beat_fits: { (s : Self) (f : Feed) (items : List (HandedItem Self.Row)) → is_beat_allowed f ≡ true
        → Self.fits s f items → Self.fits s f (items ++ Beat ∷ []) };

    /// A list that fits a feed still fits once the feed's time without an item is over.
    ghost expired_fits: { (s : Self) (f : Feed) (items : List (HandedItem Self.Row)) → Self.fits s f items
        → Self.fits s (expired_feed f) items };
}
