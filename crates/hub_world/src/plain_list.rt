//! A plain list as a feed's outbox: the items that the feed handed lie in it until they are taken.

ghost use Rattle.std.specs.Prelude.{◌≡◌, ◌≤◌, length, Some, None, IfOk, IfSome, IfNone, ⊤};
ghost use Rattle.hub_world.specs.PlainList.{held_of, last, new_list};

use hub_database::DbState;
use hub_document::ChangeRow;
use hub_feed::{Pushes, Sink};
use hub_model::Item;
use hub_params::FeedParams;
use hub_shared::{FeedLabel, Outbox, Receives, Shelf, TwoEnded};
use std::alloc::{AllocError, Global};
use std::collections::VecDeque;
use std::marker::Model;
use std::mem;
use std::snapshot::Snapshot;

/// The items that a list was sent. Contracts alone know them: a snapshot of this value has no bytes.
#[derive(Drop)]
pub(crate) enum Sent<T> {
    /// No item yet.
    Nothing,
    /// An item, after the items that were sent before it.
    Behind(Snapshot<Sent<T>>, Snapshot<T>),
}

/// The items that a feed handed and its connection has not taken, the front first. From its opening on the
/// list has memory for as many items as it may hold. Contracts see the label of the feed, these items, all
/// items that the list was sent, and how many it holds at most.
#[derive(Drop)]
pub(crate) struct PlainList {
    label: FeedLabel<DbState>,
    held: VecDeque<Item<ChangeRow>>,
    sent: Snapshot<Sent<Item<ChangeRow>>>,
    /// How many items the list holds at most.
    capacity: usize,
}

impl Model for PlainList {
    ghost use Rattle.std.specs.Prelude.{◌≤◌, length};
    ghost use Rattle.std.specs.VecDeque.{deque_capacity};
    ghost use Rattle.hub_world.specs.PlainList.{ListState, items_of};

    ghost Value = { ListState };

    ghost view = { λ a. record {
      label = a.label;
      held = a.held.items;
      sent = items_of a.sent.value;
      capacity = a.capacity;
    } };

    ghost invariant = { λ a.
        (a.capacity ≤ deque_capacity a.held) × (length a.held.items ≤ a.capacity) };
}

/// A plain list allows every list of items.
impl Sink<Item<ChangeRow>> for PlainList {
    ghost use Rattle.std.specs.Prelude.{⊤};
    ghost use Rattle.hub_world.specs.PlainList.{behind};

    ghost allows = { λ k items. ⊤ };

    ghost sent = { λ k. k.sent };

    ghost behind = { λ k item. behind k item };
}

/// Nobody watches a plain list, so `tell` does nothing.
impl Outbox<DbState> for PlainList {
    ghost label = { λ k. k.label };

    ghost items = { λ k. k.sent };

    fn tell(&self) {}
}

/// A plain list has no other end.
impl TwoEnded<DbState> for PlainList {
    type Taker = ();

    ghost use Rattle.std.proofs.Common.{refl};
    ghost use Rattle.std.specs.Prelude.{⊤};
    ghost use Rattle.hub_world.specs.PlainList.{new_list};

    ghost made = { λ end label capacity. new_list label capacity };

    ghost takes = { λ end label. ⊤ };

    fn open(
        alloc: Global,
        capacity: usize,
        feed: FeedLabel<DbState>,
        _params: &FeedParams,
    ) -> Result<(PlainList, ()), AllocError>
        ensures outbox { IfOk result (λ ends. ends.0 ≡ new_list feed capacity) }
        ensures taker { IfOk result (λ ends. ⊤) }
    {
        let held = VecDeque::with_capacity(alloc, capacity)?;
        let list = PlainList {
            label: feed,
            held,
            sent: Snapshot::of(&Sent::Nothing),
            capacity,
        };
        Ok((list, ()))
    }

    ghost labelled = { λ end l capacity. refl };

    ghost begins = { λ end l capacity. refl };
}

/// The items that the list took as a sink are those that it was sent.
impl Receives<DbState> for PlainList {
    ghost use Rattle.std.proofs.Common.{refl};

    ghost same = { λ k. refl };

    ghost stays = { λ k item. refl };

    ghost permits = { λ k items is. tt };
}

/// The front is taken first.
impl Shelf<DbState> for PlainList {
    ghost use Rattle.std.proofs.Common.{refl};
    ghost use Rattle.hub_world.specs.PlainList.{front, without_front};

    ghost front = { λ k. front k };

    ghost without_front = { λ k. without_front k };

    fn take(&mut self) -> Option<Item<ChangeRow>> {
        self.held.pop_front()
    }

    ghost keeps = { λ k. (refl, refl) };
}

impl PlainList {
    /// The item that the list was sent last, where the list still holds it. Constant time.
    pub(crate) fn last(&self) -> Option<&Item<ChangeRow>>
        ensures some { IfSome result (λ item. last self.now ≡ Some item.now) }
        ensures none { IfNone result (last self.now ≡ None) }
        ensures within { length self.now.held ≤ self.now.capacity }
    {
        self.held.back()
    }
}

/// The items that a list holds, the front first; none where there is no list. Constant time.
pub(crate) fn items_left(alloc: Global, list: Option<PlainList>) -> VecDeque<Item<ChangeRow>>
    ensures { result.items ≡ held_of list }
{
    match list {
        Some(list) => list.held,
        None => VecDeque::new(alloc),
    }
}

/// The handle of plain lists: it needs no runtime to ask, and no push waits.
#[derive(Drop)]
pub(crate) struct Directly;

/// A push is refused just where the list holds as many items as it may.
impl Pushes<PlainList, Item<ChangeRow>> for Directly {
    ghost use Rattle.std.proofs.Common.{refl};
    ghost use Rattle.std.specs.Prelude.{◌≤◌, length};

    ghost refuses = { λ h k item. k.capacity ≤ length k.held };

    ghost sends = { λ k item. refl };

    ghost keeps = { λ k item items allowed. tt };

    fn push(&self, sink: &mut PlainList, item: Item<ChangeRow>) -> Result<(), Item<ChangeRow>> {
        if sink.held.len() >= sink.capacity {
            return Err(item);
        }
        let before = mem::replace(&mut sink.sent, Snapshot::of(&Sent::Nothing));
        sink.sent = Snapshot::of(&Sent::Behind(before, Snapshot::of(&item)));
        sink.held.push_back_reserved(item);
        Ok(())
    }
}
