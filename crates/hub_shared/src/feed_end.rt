//! The end of a feed's lane from which its connection takes.

ghost use Rattle.std.specs.Prelude.{◌≡◌, [], IfNone, Option};
ghost use Rattle.std.specs.Bool.{OnFalse};
ghost use Rattle.hub_lane.specs.Ends.{new_receiver};
ghost use Rattle.hub_model.specs.declared.feeds.Item.{Item as HandedItem};
ghost use Rattle.hub_params.specs.FeedModel.{params_in};
ghost use Rattle.hub_shared.specs.Blocks.{IsDrained};
ghost use Rattle.hub_shared.specs.Feeds.{EndTakes};
ghost use Rattle.hub_shared.specs.Shown.{IsShown};

use crate::block::{Block, Rest};
use crate::label::FeedLabel;
use hub_feed::HostView;
use hub_lane::{Asks, Receiver};
use hub_model::Item;
use std::alloc::Global;
use std::marker::Model;
use std::mem;

/// The taking end of a feed's lane. Blocks come out of the lane, and items out of the block that was taken
/// last. Contracts see the lane, its label, and all items that were taken.
#[derive(Drop)]
pub struct FeedEnd<S: HostView> {
    receiver: Receiver<FeedLabel<S>, Block<S::Row>>,
    /// The rest of the last block that the lane gave.
    rest: Rest<S::Row>,
    alloc: Global,
}

impl<S: HostView> Model for FeedEnd<S> {
    ghost use Rattle.std.specs.Prelude.{◌≡◌, ◌++◌};
    ghost use Rattle.hub_model.specs.declared.feeds.Item.{Item as HandedItem};
    ghost use Rattle.hub_lane.specs.Ends.{IsAllowedBeginning, ReceiverState};
    ghost use Rattle.hub_params.specs.FeedModel.{params_in};
    ghost use Rattle.hub_shared.specs.Blocks.{end_of, front_of, items_in};
    ghost use Rattle.hub_shared.specs.Label.{Label};

    ghost Value = { ReceiverState Label (HandedItem S.Row) };

    ghost view = { λ a. end_of a.receiver a.rest };

    ghost invariant = { λ a. (items_in a.receiver.taken
        ≡ front_of (items_in a.receiver.taken) a.rest ++ a.rest)
        × IsAllowedBeginning (λ l blocks. S.right (params_in l.asked) l.since (items_in blocks)) a.receiver };
}

impl<S: HostView> FeedEnd<S> {
    /// The end of a lane of which nothing was taken. It takes no memory.
    pub(crate) fn new(alloc: Global, receiver: Receiver<FeedLabel<S>, Block<S::Row>>) -> FeedEnd<S>
        requires new { receiver ≡ new_receiver receiver.lane_id receiver.label }
        requires allowed { S.right (params_in receiver.label.asked) receiver.label.since [] }
        ensures { result ≡ new_receiver receiver.lane_id receiver.label }
    {
        FeedEnd {
            receiver,
            rest: Rest::of(alloc, None),
            alloc,
        }
    }

    /// The label of the lane: parameters, since and life of the feed. Constant time, and no memory.
    pub fn label(&self) -> &FeedLabel<S>
        ensures { result.now ≡ self.now.label }
    {
        self.receiver.label()
    }

    /// Whether an item is left of the block that the lane gave last. No block is taken from the lane. Constant
    /// time.
    #[inline(always)]
    pub fn has_left(&self) -> bool {
        !self.rest.is_empty()
    }

    /// Whether an item is left of the lane's blocks. Where none is left, the lane's next block is taken first.
    /// `false` says that the lane was empty at a moment of the call. The last block stays in memory then
    /// (`spare`). No item is taken. It waits for nobody, and takes no memory.
    #[inline(always)]
    pub(crate) fn fetch<R>(&mut self, rt: &R) -> bool
    where
        R: Asks<FeedLabel<S>, Block<S::Row>>,
        ensures same { self.new ≡ self.old }
        ensures none { OnFalse result (IsDrained (R.lacks rt.now) self.old) }
    {
        if !self.rest.is_empty() {
            return true;
        }
        let Some(block) = self.receiver.take(rt) else {
            return false;
        };
        self.rest = Rest::of(self.alloc, Some(block));
        true
    }

    /// Gives up the items of the lane's last block where all were taken, and keeps no memory of blocks then.
    /// The memory of rows with documents may serve the feed's next rows. Rows without documents are dropped.
    /// Where an item is left, no item is given up. The cost is that of the drops.
    pub(crate) fn spare(&mut self) -> Vec<Item<S::Row>>
        ensures { self.new ≡ self.old }
    {
        if !self.rest.is_empty() {
            return Vec::new(self.alloc);
        }
        let rest = mem::replace(&mut self.rest, Rest::of(self.alloc, None));
        if self.label().params().include_docs {
            rest.into_spare()
        } else {
            Vec::new(self.alloc)
        }
    }

    /// Takes the first item that the lane got and that was not taken yet. All items taken so far are the
    /// beginning of a list that is rightly handed, with the parameters and the since of the label. `None`
    /// comes only where the lane was empty at a moment of the call, and no item was left of its blocks. The
    /// end keeps no memory of blocks then. It waits for nobody, and takes no memory.
    pub fn take<R: Asks<FeedLabel<S>, Block<S::Row>>>(&mut self, rt: &R) -> Option<Item<S::Row>>
        ensures taken { EndTakes S.right self.old result self.new }
        ensures none { IfNone result (IsDrained (R.lacks rt.now) self.old) }
    {
        if !self.rest.is_empty() {
            return self.rest.take();
        }
        self.rest = Rest::of(self.alloc, self.receiver.take(rt));
        self.rest.take()
    }

    /// Takes the first item that is left of the lane's blocks, and shows it to `see`, which may change two
    /// values. The answer is that of `see`, or `None` where no item is left. The item is not moved, and lies in
    /// memory until the lane's next block is taken. The cost is that of `see`.
    #[inline(always)]
    pub(crate) fn show<T, A, B, F>(&mut self, first: &mut A, second: &mut B, see: F) -> Option<T>
    where
        F: FnOnce(&Item<S::Row>, &mut A, &mut B) -> T,
        requires { F.IsAlwaysCallable see }
        ensures { (found : Option (HandedItem S.Row)) × EndTakes S.right self.old found self.new
            × IsShown F.FnOnce see found first.old second.old result first.new second.new }
    {
        let item = self.rest.first()?;
        let seen = see(item, first, second);
        self.rest.pass();
        Some(seen)
    }
}
