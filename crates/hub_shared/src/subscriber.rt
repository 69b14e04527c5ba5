//! The program's outbox of a feed: the sending end of the feed's lane, the items that wait for room in the
//! lane, and the watch of the feed.

ghost use Rattle.std.specs.Prelude.{◌≡◌, [], length, IfOk, IfSome, IfNone, OnErr, OnOk};
ghost use Rattle.hub_lane.specs.Ends.{new_receiver};
ghost use Rattle.hub_params.specs.FeedModel.{params_in};
ghost use Rattle.hub_shared.specs.Blocks.{IsHeldUp, handed_over, new_subscriber, with_room};
ghost use Rattle.hub_shared.specs.Holdings.{most_items};

use crate::block::Block;
use crate::feed_end::FeedEnd;
use crate::label::FeedLabel;
use crate::outbox::{Outbox, Receives, TwoEnded};
use crate::signals::Signals;
use crate::watch::Watch;
use hub_feed::{HostView, Pushes, Sink};
use hub_lane::{Asks, Full, Lane, Sender};
use hub_model::Item;
use hub_params::FeedParams;
use std::alloc::{AllocError, Global};
use std::marker::Model;
use std::mem;
use std::sync::Arc;

/// The sending end of a feed's lane, with the items that wait for room in the lane, and the watch of the
/// feed. An item that is sent waits here first. All items that wait go into the lane as one block. Contracts
/// see the lane, its label, all items that were sent, the items among them that wait, and how many may wait
/// without taking memory.
#[derive(Drop)]
pub struct Subscriber<S: HostView> {
    sender: Sender<FeedLabel<S>, Block<S::Row>>,
    /// The items that were sent, and that the lane has not got yet.
    waiting: Vec<Item<S::Row>>,
    /// How many items may wait, with no memory taken.
    room: usize,
    /// Items that were sent and are needed no more, whose memory may serve the next rows.
    spare: Vec<Item<S::Row>>,
    /// The signals between the feed's connection and a pump of the feed.
    signals: Arc<Signals, Global>,
    /// The watch that gets the news of the host, where a thread polls the feed.
    watch: Option<Arc<Watch, Global>>,
}

impl<S: HostView> Model for Subscriber<S> {
    ghost use Rattle.std.specs.Prelude.{◌≡◌, ◌≤◌, ◌++◌};
    ghost use Rattle.std.specs.Vec.{vec_capacity};
    ghost use Rattle.hub_params.specs.FeedModel.{params_in};
    ghost use Rattle.hub_shared.specs.Blocks.{SubscriberState, items_in};

    ghost Value = { SubscriberState S.Row };

    ghost view = { λ a. record {
      lane_id = a.sender.lane_id;
      label = a.sender.label;
      sent = items_in a.sender.sent ++ a.waiting.items;
      waiting = a.waiting.items;
      room = a.room;
    } };

    ghost invariant = { λ a. (a.room ≤ vec_capacity a.waiting)
        × (a.sender.capacity ≡ 1)
        × S.right (params_in a.sender.label.asked) a.sender.label.since
        (items_in a.sender.sent ++ a.waiting.items) };
}

/// It takes the lists of items that the label of its lane allows.
impl<S: HostView> Sink<Item<S::Row>> for Subscriber<S> {
    ghost use Rattle.hub_params.specs.FeedModel.{params_in};
    ghost use Rattle.hub_shared.specs.Blocks.{behind_sent};

    ghost allows = { λ s items. S.right (params_in s.label.asked) s.label.since items };

    ghost sent = { λ s. s.sent };

    ghost behind = { λ s item. behind_sent s item };

    fn spare(&mut self) -> Option<Item<S::Row>> {
        self.spare.pop()
    }
}

/// The parts of a feed that its connection gets as the feed is opened.
#[derive(Drop)]
pub struct FeedTaker<S: HostView> {
    /// The taking end of the feed's lane.
    pub end: FeedEnd<S>,
    /// The signals between the feed's connection and a pump of the feed.
    pub signals: Arc<Signals, Global>,
}

/// By its lane, and the items that wait for room there.
impl<S: HostView> Outbox<S> for Subscriber<S> {
    ghost label = { λ s. s.label };

    ghost items = { λ s. s.sent };

    fn tell(&self) {
        if let Some(watch) = &self.watch {
            watch.tell();
        }
    }
}

/// By a lane of one block, and signals that both ends share.
impl<S: HostView> TwoEnded<S> for Subscriber<S> {
    type Taker = FeedTaker<S>;

    ghost use Rattle.std.proofs.Common.{refl};

    ghost made = { λ taker label capacity. new_subscriber taker.end.lane_id label capacity };

    ghost takes = { λ taker label. taker.end ≡ new_receiver taker.end.lane_id label };

    fn open(
        alloc: Global,
        capacity: usize,
        feed: FeedLabel<S>,
        params: &FeedParams,
    ) -> Result<(Subscriber<S>, FeedTaker<S>), AllocError>
        requires allowed { S.right (params_in feed.asked) feed.since [] }
        ensures outbox { IfOk result (λ ends.
            ends.0 ≡ new_subscriber ends.1.end.lane_id feed capacity) }
        ensures taker { IfOk result (λ ends.
            ends.1.end ≡ new_receiver ends.1.end.lane_id feed) }
    {
        let (sender, receiver) = Lane::new(alloc, 1, feed)?;
        let (own, signals) = Signals::shared(alloc, params)?;
        let waiting = Vec::with_capacity(alloc, capacity)?;
        Ok((
            Subscriber {
                sender,
                waiting,
                room: capacity,
                spare: Vec::new(alloc),
                signals: own,
                watch: None,
            },
            FeedTaker {
                end: FeedEnd::new(alloc, receiver),
                signals,
            },
        ))
    }

    ghost labelled = { λ end l capacity. refl };

    ghost begins = { λ end l capacity. refl };
}

impl<S: HostView> Receives<S> for Subscriber<S> {
    ghost use Rattle.std.proofs.Common.{refl};

    ghost same = { λ s. refl };

    ghost stays = { λ s item. refl };

    ghost permits = { λ s list is. is };
}

/// The most rows with documents that one holding hands a feed. The copies of documents take the memory of as
/// many documents that were sent, so that a feed keeps no more of them than these.
const MOST_DOCUMENTS: u64 = 32;

impl<S: HostView> Subscriber<S> {
    /// Another copy of its signals. Constant time.
    pub(crate) fn signals(&self) -> Result<Arc<Signals, Global>, AllocError> {
        Arc::try_clone(&self.signals)
    }

    /// The most items that one holding hands its feed, where no feed is handed more than `hold`. Where the
    /// rows bring their documents, the number is `MOST_DOCUMENTS` at most. Constant time.
    pub(crate) fn most(&self, hold: u64) -> u64
        ensures { result ≡ most_items self.now.label.asked hold }
    {
        if self.sender.label().params().include_docs {
            hold.min(MOST_DOCUMENTS)
        } else {
            hold
        }
    }

    /// How many items wait. Constant time.
    pub(crate) fn waiting(&self) -> usize
        ensures { result ≡ length self.now.waiting }
    {
        self.waiting.len()
    }

    /// Takes items that are needed no more: until the lane gets its next block, their memory may serve the next
    /// rows. Constant time.
    pub(crate) fn lend(&mut self, spare: Vec<Item<S::Row>>)
        ensures { self.new ≡ self.old }
    {
        self.spare = spare;
    }

    /// From here on this watch gets the news of the feed's host.
    pub(crate) fn watch(&mut self, watch: Arc<Watch, Global>)
        ensures { self.new ≡ self.old }
    {
        self.watch = Some(watch);
    }

    /// Reserves memory so that `room` items may wait, with the items that wait already among them. Out of
    /// memory, nothing changes.
    pub(crate) fn make_room(&mut self, room: usize) -> Result<(), AllocError>
        ensures ok { OnOk result (self.new ≡ with_room room self.old) }
        ensures err { OnErr result (self.new ≡ self.old) }
    {
        let more = room.saturating_sub(self.waiting.len());
        self.waiting.try_reserve(more)?;
        self.room = room;
        Ok(())
    }

    /// Gives the lane all items that wait, as one block, and answers their number: 0 where none waits. Where
    /// the lane was full at a moment of the call, the items go on waiting, and the answer is `None`. In both
    /// cases no memory is reserved for further items, and no spare item is kept. It takes no memory. The cost
    /// is that of the drop of the spare items.
    pub(crate) fn hand_over<R>(&mut self, rt: &R, alloc: Global) -> Option<usize>
    where
        R: Asks<FeedLabel<S>, Block<S::Row>>,
        ensures over { IfSome result (λ count. (count ≡ length self.old.waiting)
            × (self.new ≡ handed_over self.old)) }
        ensures held_up { IfNone result ((self.new ≡ with_room 0 self.old)
            × IsHeldUp (R.refuses rt.now) self.old) }
    {
        self.room = 0;
        self.spare = Vec::new(alloc);
        let count = self.waiting.len();
        let Some(block) = Block::of(mem::replace(&mut self.waiting, Vec::new(alloc))) else {
            return Some(0);
        };
        match self.sender.push(rt, block) {
            Ok(()) => Some(count),
            Err(Full(block)) => {
                self.waiting = block.into_items();
                None
            }
        }
    }
}

/// The way in which a subscriber is given an item: the item waits there.
#[derive(Drop)]
pub struct Directly;

/// An item is added to the items that wait. It is refused just where as many items wait as have room.
impl<S: HostView> Pushes<Subscriber<S>, Item<S::Row>> for Directly {
    ghost use Rattle.std.proofs.Common.{refl};
    ghost use Rattle.hub_shared.specs.Blocks.{HasNoRoom};

    ghost refuses = { λ h s item. HasNoRoom s };

    ghost sends = { λ s item. refl };

    ghost keeps = { λ s item items allowed. allowed };

    fn push(&self, sink: &mut Subscriber<S>, item: Item<S::Row>) -> Result<(), Item<S::Row>> {
        if sink.room <= sink.waiting.len() {
            return Err(item);
        }
        sink.waiting.push_reserved(item);
        Ok(())
    }
}
