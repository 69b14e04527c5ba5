//! The elements of a feed's lane. An element is a block: the items that one holding puts into the lane.

ghost use Rattle.std.specs.Prelude.{◌≡◌, ◌<◌, [], drop, length, option_map, slice_get, IfSome, IfNone};
ghost use Rattle.std.specs.Bool.{OnFalse, OnTrue};

use hub_model::Item;
use std::alloc::Global;
use std::marker::Model;
use std::mem;

/// Items that go through a lane together, at least one. Contracts see the list of them.
#[derive(Drop)]
pub struct Block<R> {
    items: Vec<Item<R>>,
}

impl<R> Model for Block<R> {
    ghost use Rattle.std.specs.Prelude.{◌<◌, List, length};
    ghost use Rattle.hub_model.specs.declared.feeds.Item.{Item as HandedItem};

    ghost Value = { List (HandedItem R) };

    ghost view = { λ a. a.items.items };

    ghost invariant = { λ a. 0 < length a.items.items };
}

impl<R: Drop> Block<R> {
    /// A block of these items, unless there are none. Constant time, and no memory.
    pub(crate) fn of(items: Vec<Item<R>>) -> Option<Block<R>>
        ensures some { IfSome result (λ block. block ≡ items.items) }
        ensures none { IfNone result (items.items ≡ []) }
    {
        if items.is_empty() {
            return None;
        }
        Some(Block { items })
    }

    /// Its items. Constant time, and no memory.
    pub(crate) fn into_items(self) -> Vec<Item<R>>
        ensures items { result.items ≡ self }
        ensures some { 0 < length self }
    {
        let Self { items } = self;
        items
    }
}

/// The items of a block that were not taken yet. Contracts see the list of them.
#[derive(Drop)]
pub(crate) struct Rest<R> {
    /// The items of the whole block. A heartbeat stands where an item was moved out.
    items: Vec<Item<R>>,
    /// How many of the items were taken.
    taken: usize,
}

impl<R> Model for Rest<R> {
    ghost use Rattle.std.specs.Prelude.{◌≤◌, List, drop, length};
    ghost use Rattle.hub_model.specs.declared.feeds.Item.{Item as HandedItem};

    ghost Value = { List (HandedItem R) };

    ghost view = { λ a. drop a.taken a.items.items };

    ghost invariant = { λ a. a.taken ≤ length a.items.items };
}

impl<R: Drop> Rest<R> {
    /// All items of a block, and without a block no item. Constant time, and no memory.
    pub(crate) fn of(alloc: Global, block: Option<Block<R>>) -> Rest<R>
        ensures some { IfSome block (λ items. (result ≡ items) × (0 < length items)) }
        ensures none { IfNone block (result ≡ []) }
    {
        let items = match block {
            Some(block) => block.into_items(),
            None => Vec::new(alloc),
        };
        Rest { items, taken: 0 }
    }

    /// Whether no item is left. Constant time.
    pub(crate) fn is_empty(&self) -> bool
        ensures none { OnTrue result (self.now ≡ []) }
        ensures some { OnFalse result (0 < length self.now) }
    {
        self.taken >= self.items.len()
    }

    /// The first item. Constant time.
    pub(crate) fn first(&self) -> Option<&Item<R>>
        ensures { option_map (λ item. item.now) result ≡ slice_get self.now 0 }
    {
        self.items.get(self.taken)
    }

    /// Passes the first item, which lies in memory until the rest is dropped. Constant time.
    pub(crate) fn pass(&mut self)
        requires { 0 < length self.old }
        ensures { self.new ≡ drop 1 self.old }
    {
        self.taken += 1;
    }

    /// Its items, which were all taken, as memory for other items. Constant time, and no memory.
    pub(crate) fn into_spare(self) -> Vec<Item<R>> {
        let Self { items, taken: _ } = self;
        items
    }

    /// Moves the first item out. Constant time.
    pub(crate) fn take(&mut self) -> Option<Item<R>>
        ensures item { result ≡ slice_get self.old 0 }
        ensures rest { self.new ≡ drop 1 self.old }
    {
        let item = self.items.get_mut(self.taken)?;
        self.taken += 1;
        Some(mem::replace(item, Item::Beat))
    }
}
