//! Outboxes: the places to which a host hands the items of its feeds.

ghost use Rattle.std.specs.Prelude.{◌≡◌, ◌<◌, [], ℕ, List, Option, IfOk};
ghost use Rattle.hub_model.specs.declared.feeds.Item.{Item as HandedItem};
ghost use Rattle.hub_params.specs.FeedModel.{params_in};
ghost use Rattle.hub_shared.specs.Label.{Label};

use crate::label::FeedLabel;
use hub_feed::{HostView, Sink};
use hub_model::Item;
use hub_params::FeedParams;
use std::alloc::{AllocError, Global};

/// The end of a feed's lane into which a host's items go, as it lies under the lock: a lane's sender, or a
/// plain list. Types have no other bound on outboxes: each function that names a type is proved with all
/// bounds of the type.
pub trait Outbox<S: HostView>: Drop {
    /// The label of its feed: parameters, since and life.
    ghost label: { Self → Label };

    /// All items that were sent to it, the first item first.
    ghost items: { Self → List (HandedItem S.Row) };

    /// Tells the watch of the feed, if there is one, that there is news. It takes no memory.
    fn tell(&self);
}

/// An outbox that is made, with its other end, as its feed is opened.
pub trait TwoEnded<S: HostView>: Outbox<S> {
    /// The other end, which takes.
    type Taker: Drop;

    /// The new outbox that has this other end, this label and this capacity.
    ghost made: { Self.Taker → Label → ℕ → Self };

    /// Whether an end is the other end of a new outbox of this label.
    ghost takes: { Self.Taker → Label → Type 0 };

    /// An outbox for the feed of this label, and its other end. It takes the memory for as many items as the
    /// lane is to hold.
    fn open(
        alloc: Global,
        capacity: usize,
        feed: FeedLabel<S>,
        params: &FeedParams,
    ) -> Result<(Self, Self::Taker), AllocError>
        requires room { 0 < capacity }
        requires allowed { S.right (params_in feed.asked) feed.since [] }
        ensures outbox { IfOk result (λ ends. ends.0 ≡ made ends.1 feed capacity) }
        ensures taker { IfOk result (λ ends. takes ends.1 feed) };

    /// A new outbox has the label that it was made with.
    ghost labelled: { (end : Self.Taker) (l : Label) (capacity : ℕ) → Self.label (made end l capacity) ≡ l };

    /// Nothing was sent to a new outbox.
    ghost begins: { (end : Self.Taker) (l : Label) (capacity : ℕ) → Self.items (made end l capacity) ≡ [] };
}

/// An outbox that is a sink, to which a host hands.
pub trait Receives<S: HostView>: Outbox<S> + Sink<Item<S::Row>> {
    /// As a sink it took the items that were sent to it.
    ghost same: { (k : Self) → Self.sent k ≡ Self.items k };

    /// One item more leaves its label as it was.
    ghost stays: { (k : Self) (item : HandedItem S.Row)
        → Self.label (Self.behind k item) ≡ Self.label k };

    /// It allows each list that is right for its feed.
    ghost permits: { (k : Self) (list : List (HandedItem S.Row))
        → S.right (params_in (Self.label k).asked) (Self.label k).since list → Self.allows k list };
}

/// An outbox whose items lie with it until they are taken: both ends of its lane are under the lock.
pub trait Shelf<S: HostView>: Outbox<S> {
    /// The item that is taken next.
    ghost front: { Self → Option (HandedItem S.Row) };

    /// The outbox after that item was taken.
    ghost without_front: { Self → Self };

    /// Takes the next item. It takes no memory.
    fn take(&mut self) -> Option<Item<S::Row>>
        ensures item { result ≡ front self.old }
        ensures rest { self.new ≡ without_front self.old };

    /// A take leaves its label and the list of its sent items as they were.
    ghost keeps: { (k : Self) → (Self.label (without_front k) ≡ Self.label k)
        × (Self.items (without_front k) ≡ Self.items k) };
}
