//! The rule of a lane's queue: the sent items are the taken items, and then the items in the queue.

ghost use Rattle.hub_lane.specs.Rule.{EndsAgree};

use crossbeam_queue::protocol::{Lesson, Outcome, Protocol, Split};
use std::collections::LinkedList;
use std::marker::{Brand, PhantomData};

/// The meaning of a lane's label: which lists of items may be sent under it, the first item first.
pub trait Kept<I> {
    ghost use Rattle.std.specs.Prelude.{List};

    /// Whether the label allows that just these items were sent, in this order.
    ghost allows: { Self → List I → Type 0 };
}

/// The knowledge of a pass of the queue. It stands in proofs alone: no value of it is made.
pub enum View<L, I> {
    /// The one pass of a queue that is being made.
    NoLabel,
    /// The sender's: the label, and every item that was sent, the first one first.
    OfSender(L, LinkedList<I>),
    /// The receiver's: the label, and every item that was taken, the first one first.
    OfReceiver(L, LinkedList<I>),
}

/// The rule of the queue.
pub struct LaneRule<L, I> {
    of: PhantomData<(L, I)>,
}

impl<L: Kept<I>, I> Protocol<I, View<L, I>> for LaneRule<L, I> {
    ghost use Rattle.hub_lane.specs.Rule.{IsLane};
    ghost use Rattle.hub_lane.specs.declared.rule.View.TheVariants.{NoLabel};

    ghost holds = { IsLane L.allows };

    ghost first = { NoLabel };
}

/// The label of the lane that a call makes, for the call's proof. The call picks it.
pub trait NewLabel<L> {
    ghost use Rattle.std.specs.Prelude.{Option};

    ghost label: { Option L };
}

impl<L> NewLabel<L> for Brand {
    ghost use Rattle.std.specs.Prelude.{None};

    ghost label = { None };
}

/// The one pass of a new queue becomes the sender's, and a second one is the receiver's.
pub struct TwoEnds<N> {
    of: PhantomData<N>,
}

impl<L, I, N: NewLabel<L>> Split<View<L, I>> for TwoEnds<N> {
    ghost use Rattle.hub_lane.specs.Rule.{new_sender_view, new_receiver_view};

    ghost left = { λ v. new_sender_view N.label };

    ghost right = { λ v. new_receiver_view N.label };
}

/// A push: the item stands after the sent items. A refused push tells that the lane held the last of these.
pub struct Push;

impl<L, I> Outcome<I, View<L, I>> for Push {
    ghost use Rattle.std.specs.Prelude.{◌≡◌};
    ghost use Rattle.hub_lane.specs.Rule.{with_item};

    ghost then = { λ v x w. w ≡ with_item v x };
}

impl<L, I> Lesson<I, View<L, I>> for Push {
    ghost use Rattle.hub_lane.specs.Rule.{items_of, IsLeftOf};

    ghost fact = { λ v items. IsLeftOf items (items_of v) };
}

/// A take: the item stands after the taken items, which begin a list that the label allows. A take that finds
/// no item tells that the label allows the taken items, and then the items that the lane held.
pub struct Take<L> {
    of: PhantomData<L>,
}

impl<L: Kept<I>, I> Outcome<I, View<L, I>> for Take<L> {
    ghost use Rattle.std.specs.Prelude.{◌≡◌};
    ghost use Rattle.hub_lane.specs.Rule.{with_item, HasAllowedRest};

    ghost then = { λ v x w. (w ≡ with_item v x) × HasAllowedRest L.allows w };
}

impl<L: Kept<I>, I> Lesson<I, View<L, I>> for Take<L> {
    ghost use Rattle.hub_lane.specs.Rule.{IsAllowedWith};

    ghost fact = { λ v items. IsAllowedWith L.allows v items };
}

/// At every moment of a lane its ends have one label. The sent items are the taken items and then the items
/// in the queue, and the label allows the sent items.
pub fn ends_agree<L: Kept<I>, I>()
    ensures { EndsAgree L.allows }
{}
