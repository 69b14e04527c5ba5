//! Feeds of hosts that threads share.

ghost use Rattle.std.specs.Prelude.{◌≡◌, IfNone, Option};
ghost use Rattle.std.specs.Bool.{OnFalse};
ghost use Rattle.hub_model.specs.declared.feeds.Item.{Item as HandedItem};
ghost use Rattle.hub_shared.specs.Blocks.{IsDrained};
ghost use Rattle.hub_shared.specs.Feeds.{Takes, feed_of, receiver_of};
ghost use Rattle.hub_shared.specs.Shown.{IsShown};

use crate::block::Block;
use crate::count::{Count, Plain};
use crate::feed_end::FeedEnd;
use crate::gate::Gate;
use crate::host::Host;
use crate::label::FeedLabel;
use crate::pumping::Turn;
use crate::signals::Signals;
use crate::subscriber::FeedTaker;
use hub_database::DbState;
use hub_document::ChangeRow;
use hub_feed::{FeedHost, FeedId, Handed, HostView};
use hub_lane::Asks;
use hub_model::Item;
use std::alloc::{AllocError, Global};
use std::marker::Model;
use std::sync::atomic::Ordering;
use std::sync::{Arc, Wait};

/// The label of a feed of changes.
pub type ChangeLabel = FeedLabel<DbState>;

/// An item of a feed of changes.
pub type ChangeItem = Item<ChangeRow>;

/// A feed of a database.
pub type Feed<C> = HostFeed<DbState, C>;

/// A feed of a shared host, as its connection has it. `finish` finishes it: a feed that is dropped otherwise
/// stays among the feeds of its host. Contracts see its number, its lane, its label, and all taken items.
#[derive(Drop)]
pub struct HostFeed<S: HostView, C: Count = Plain> {
    pub(crate) host: Host<S, C>,
    pub(crate) id: FeedId,
    pub(crate) end: FeedEnd<S>,
    pub(crate) signals: Arc<Signals, Global>,
    /// Whether its host may have items for it. `poll` alone uses this.
    pub(crate) is_behind: bool,
    /// The clock's reading at the first poll without an item after the last item, or at the last heartbeat.
    pub(crate) idle_since: Option<u64>,
    /// The clock's reading at which a feed that waits is to be polled.
    pub(crate) due: u64,
}

impl<S: HostView, C: Count> Model for HostFeed<S, C> {
    ghost use Rattle.hub_shared.specs.Feeds.{FeedState, feed_of};

    ghost Value = { FeedState S.Row };

    ghost view = { λ a. feed_of a.id.number a.end };
}

impl<S: FeedHost, C: Count> HostFeed<S, C> {
    pub(crate) fn new(host: Host<S, C>, id: FeedId, taker: FeedTaker<S>) -> HostFeed<S, C>
        ensures { result ≡ feed_of id.number taker.end }
    {
        let FeedTaker { end, signals } = taker;
        HostFeed {
            host,
            id,
            end,
            signals,
            is_behind: true,
            idle_since: None,
            due: 0,
        }
    }

    /// The feed's number, under which its host keeps it. Constant time, and no memory.
    pub fn id(&self) -> FeedId
        ensures { result.number ≡ self.now.number }
    {
        self.id
    }

    /// The taking end of its lane, which has its label. Constant time, and no memory.
    pub fn end(&self) -> &FeedEnd<S>
        ensures { result.now ≡ receiver_of self.now }
    {
        &self.end
    }

    /// Whether an item is left to take: where none is left of the lane's blocks, the lane's next block is taken
    /// first. `false` says that the lane was empty at a moment of the call. A pump that waits for room is woken
    /// then. No item is taken. It waits for nobody, and takes no memory.
    #[inline(always)]
    pub fn fetch<R: Asks<FeedLabel<S>, Block<S::Row>>>(&mut self, rt: &R) -> bool
        ensures same { self.new ≡ self.old }
        ensures none { OnFalse result (IsDrained (R.lacks rt.now) (receiver_of self.old)) }
    {
        if self.end.fetch(rt) {
            return true;
        }
        self.signals.ring_room();
        false
    }

    /// Takes the first item that the lane got and that was not taken yet. All items taken so far are the
    /// beginning of a list that is rightly handed, with the parameters and the since of the label. `None`
    /// comes only where the lane was empty at a moment of the call, and no item was left of its blocks. A
    /// pump that waits for room is woken then. It waits for nobody, and takes no memory.
    pub fn take<R: Asks<FeedLabel<S>, Block<S::Row>>>(&mut self, rt: &R) -> Option<Item<S::Row>>
        ensures taken { Takes S.right self.old result self.new }
        ensures none { IfNone result (IsDrained (R.lacks rt.now) (receiver_of self.old)) }
    {
        let next = self.end.take(rt);
        if next.is_none() {
            self.signals.ring_room();
        }
        next
    }

    /// As `take`, but the item is not given out: it is shown to `see` where it lies, which saves a copy. `see`
    /// may change two values, and the answer is that of `see`. The cost is that of `see`.
    #[inline(always)]
    pub fn show<R, T, A, B, F>(
        &mut self,
        rt: &R,
        first: &mut A,
        second: &mut B,
        see: F,
    ) -> Option<T>
    where
        R: Asks<FeedLabel<S>, Block<S::Row>>,
        F: FnOnce(&Item<S::Row>, &mut A, &mut B) -> T,
        requires { F.IsAlwaysCallable see }
        ensures { (found : Option (HandedItem S.Row)) × Takes S.right self.old found self.new
            × IsShown F.FnOnce see found first.old second.old result first.new second.new }
    {
        if !self.end.has_left() {
            self.fetch(rt);
        }
        self.end.show(first, second, see)
    }

    /// Sleeps until the feed's pump handed items or ended, for a connection that found no item to take. It
    /// may come back for no reason.
    pub fn wait<R: Wait>(&self, rt: &R) {
        self.signals.wait_for_items(rt);
    }

    /// Whether nothing more is handed: the feed's pump has ended, or `poll` found the feed gone or no memory
    /// for an item. Items that can still be taken are the last ones. Constant time.
    pub fn is_over(&self) -> bool {
        self.signals.is_over.load(Ordering::SeqCst)
    }

    /// Takes the lock once for this feed, as the free function `hold`. The memory of items that were taken may
    /// serve the items that are handed.
    pub fn hold<R, G>(&mut self, rt: &R, turn: Turn, gate: &G) -> Result<Handed, AllocError>
    where
        R: Asks<FeedLabel<S>, Block<S::Row>>,
        G: Gate,
        ensures { self.new ≡ self.old }
    {
        let spare = self.end.spare();
        let holding = self.host.hold_once(rt, self.id, turn, gate, spare)?;
        Ok(holding.last)
    }
}

impl<S: FeedHost + Drop, C: Count> HostFeed<S, C> {
    /// Takes the feed out of the lock, drops its subscriber, and gives back the taking end. The items of the
    /// blocks that the lane got can still be taken from that end. Items that wait for room in the lane are
    /// dropped with the subscriber. A pump of the feed ends. It takes no memory.
    pub fn finish<R: Wait>(self, rt: &R) -> FeedEnd<S>
        ensures { result ≡ receiver_of self }
    {
        let HostFeed {
            host,
            id,
            end,
            signals,
            is_behind: _,
            idle_since: _,
            due: _,
        } = self;
        let outbox = host.locked().lock(rt).finish(id);
        drop(outbox);
        host.tell();
        signals.ring_room();
        end
    }
}
