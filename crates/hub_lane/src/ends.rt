//! The two ends of a lane.

ghost use Rattle.std.specs.Prelude.{◌≡◌, ◌<◌, [], ◌∷◌, ◌++◌, IfOk, IfErr, IfSome, IfNone, OnErr, OnOk};
ghost use Rattle.crossbeam_queue.specs.Passes.{view, IsPassOf, ruled_capacity};
ghost use Rattle.hub_lane.specs.declared.rule.View.TheVariants.{NoLabel};
ghost use Rattle.hub_lane.specs.Ends.{IsAllowedBeginning, behind_push, behind_take, lane_of};
ghost use Rattle.hub_lane.specs.Ends.{IsNewLabel, new_receiver, new_sender};

use crate::asks::Asks;
use crate::rule::{Kept, LaneRule, NewLabel, TwoEnds, View};
use crossbeam_queue::{Pass, RuledArrayQueue};
use std::alloc::{AllocError, Global};
use std::marker::{Brand, Model};
use std::sync::Arc;

// The queue of a lane.
type Queue<L, I> = RuledArrayQueue<I, View<L, I>, LaneRule<L, I>>;

/// The queue and the label, which the two ends of a lane share. It is dropped with the second end, and items
/// that were not taken are dropped with it. It serves 2^62 items: after them no push and no take returns.
#[derive(Drop)]
pub struct Lane<L: Kept<I>, I> {
    // The items that were sent and not taken yet.
    pub(crate) queue: Queue<L, I>,
    // Which lists of items may be sent.
    label: L,
}

/// The lane held as many items as it may, so this item was not sent: it comes back.
#[derive(Drop)]
pub struct Full<I>(
    /// The item.
    pub I,
);

/// The sending end of a lane, of which there is one. Contracts see the lane's identity, its label, all items
/// that were sent, and how many items the lane holds at most.
#[derive(Drop)]
pub struct Sender<L: Kept<I>, I> {
    // The receiver has the other handle on the lane.
    pub(crate) lane: Arc<Lane<L, I>, Global>,
    // The items that this end sent. A pass has no bytes, and stays with its end.
    pub(crate) pass: Pass<I, View<L, I>>,
}

impl<L: Kept<I>, I> Model for Sender<L, I> {
    ghost use Rattle.std.specs.Arc.{arc_value};
    ghost use Rattle.crossbeam_queue.specs.Passes.{view as known, IsPassOf, ruled_capacity};
    ghost use Rattle.hub_lane.specs.Ends.{SenderState, lane_of};
    ghost use Rattle.hub_lane.specs.Rule.{items_of, IsOfSender};

    ghost Value = { SenderState L I };

    ghost view = { λ s. record {
      lane_id = lane_of (arc_value s.lane).queue;
      label = (arc_value s.lane).label;
      sent = items_of (known s.pass);
      capacity = ruled_capacity (arc_value s.lane).queue;
    } };

    ghost invariant = { λ s.
        IsPassOf (arc_value s.lane).queue s.pass
        × IsOfSender L.allows (arc_value s.lane).label (known s.pass) };
}

/// The taking end of a lane, of which there is one. Contracts see the lane's identity, its label, and all
/// items that were taken.
#[derive(Drop)]
pub struct Receiver<L: Kept<I>, I> {
    // The sender has the other handle on the lane.
    pub(crate) lane: Arc<Lane<L, I>, Global>,
    // The items that this end took. A pass has no bytes, and stays with its end.
    pub(crate) pass: Pass<I, View<L, I>>,
}

impl<L: Kept<I>, I> Model for Receiver<L, I> {
    ghost use Rattle.std.specs.Arc.{arc_value};
    ghost use Rattle.crossbeam_queue.specs.Passes.{view as known, IsPassOf};
    ghost use Rattle.hub_lane.specs.Ends.{ReceiverState, lane_of};
    ghost use Rattle.hub_lane.specs.Rule.{items_of, IsOfReceiver};

    ghost Value = { ReceiverState L I };

    ghost view = { λ s. record {
      lane_id = lane_of (arc_value s.lane).queue;
      label = (arc_value s.lane).label;
      taken = items_of (known s.pass);
    } };

    ghost invariant = { λ s.
        IsPassOf (arc_value s.lane).queue s.pass
        × IsOfReceiver L.allows (arc_value s.lane).label (known s.pass) };
}

impl<L: Kept<I> + Drop, I: Drop> Lane<L, I> {
    /// An empty lane that holds at most `capacity` items, and its two ends. It makes room for all of these
    /// items, and no later call takes memory. A capacity of 2^60 and more is an error, out of memory. With
    /// every error the label is dropped.
    pub fn new(
        alloc: Global,
        capacity: usize,
        label: L,
    ) -> Result<(Sender<L, I>, Receiver<L, I>), AllocError>
        requires room { 0 < capacity }
        requires allowed { L.allows label [] }
        ensures sender { IfOk result (λ ends. ends.0 ≡ new_sender ends.1.lane_id label capacity) }
        ensures receiver { IfOk result (λ ends. ends.1 ≡ new_receiver ends.0.lane_id label) }
    {
        let (queue, pass) = Queue::<L, I>::ruled(alloc, capacity)?;
        Lane::two_ends::<Brand>(alloc, queue, pass, label)
    }

    // The ends of a queue that is being made. `N` has the label, for the proof alone.
    fn two_ends<N: NewLabel<L>>(
        alloc: Global,
        queue: Queue<L, I>,
        mut pass: Pass<I, View<L, I>>,
        label: L,
    ) -> Result<(Sender<L, I>, Receiver<L, I>), AllocError>
        requires label { IsNewLabel L.allows N.label label }
        requires pass { IsPassOf queue pass × (view pass ≡ NoLabel) }
        ensures sender { IfOk result (λ ends. ends.0
            ≡ new_sender (lane_of queue) label (ruled_capacity queue)) }
        ensures receiver { IfOk result (λ ends. ends.1 ≡ new_receiver (lane_of queue) label) }
    {
        let receiver_pass = queue.another::<TwoEnds<N>>(&mut pass);
        let lane = Arc::new(alloc, Lane { queue, label })?;
        let receiver = Receiver {
            lane: Arc::try_clone(&lane)?,
            pass: receiver_pass,
        };
        Ok((Sender { lane, pass }, receiver))
    }
}

impl<L: Kept<I>, I> Sender<L, I> {
    /// The lane's label, which allows the items that were sent. Constant time.
    pub fn label(&self) -> &L
        ensures label { result.now ≡ self.now.label }
        ensures allowed { L.allows self.now.label self.now.sent }
    {
        &self.lane.label
    }

    /// Sends an item, after the items that were sent before. Where the lane was full at a moment of the call,
    /// the item comes back: no call waits for room. It tries again only while the receiver is within a take.
    /// Otherwise it takes constant time, and no memory.
    pub fn push<R: Asks<L, I>>(&mut self, rt: &R, item: I) -> Result<(), Full<I>>
        requires allowed { L.allows self.old.label (self.old.sent ++ item ∷ []) }
        ensures sent { OnOk result (self.new ≡ behind_push self.old item) }
        ensures same { IfErr result (λ full. (full.0 ≡ item) × (self.new ≡ self.old)) }
        ensures full { OnErr result (R.refuses rt.now self.old item) }
    {
        match rt.offer(self, item) {
            Ok(()) => Ok(()),
            Err(item) => Err(Full(item)),
        }
    }
}

impl<L: Kept<I>, I> Receiver<L, I> {
    /// The lane's label, which allows a list that begins with the taken items. Constant time.
    pub fn label(&self) -> &L
        ensures label { result.now ≡ self.now.label }
        ensures allowed { IsAllowedBeginning L.allows self.now }
    {
        &self.lane.label
    }

    /// Takes the first item that was sent and not taken yet. `None` says that the lane was empty at a moment
    /// of the call: no call waits for an item, and none tells whether the sender is still there. It tries
    /// again only while the sender is within a push. Otherwise it takes constant time, and no memory.
    pub fn take<R: Asks<L, I>>(&mut self, rt: &R) -> Option<I>
        ensures taken { IfSome result (λ item. self.new ≡ behind_take self.old item) }
        ensures same { IfNone result (self.new ≡ self.old) }
        ensures none { IfNone result (R.lacks rt.now self.old) }
        ensures allowed { IsAllowedBeginning L.allows self.new }
    {
        rt.poll(self)
    }
}
