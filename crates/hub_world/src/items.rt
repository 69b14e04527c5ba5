//! Items in replies.

ghost use Rattle.std.specs.Prelude.{◌≡◌};

use hub_document::ChangeRow;
use hub_model::Item;
use std::collections::VecDeque;
use std::fmt;
use std::marker::Model;
use std::snapshot::Snapshot;

/// An item that lies in a lane. Contracts alone know the item: this value has no bytes. Code sees the item
/// once `Event::Take` took it.
#[derive(Drop)]
pub struct ToldItem {
    item: Snapshot<Item<ChangeRow>>,
}

impl Model for ToldItem {
    ghost use Rattle.hub_model.specs.RightlyHanded.{ChangeItem};

    ghost Value = { ChangeItem };

    ghost view = { λ a. a.item.value };
}

impl ToldItem {
    /// The told form of an item.
    pub(crate) fn of(item: &Item<ChangeRow>) -> ToldItem
        ensures { result ≡ item.now }
    {
        ToldItem {
            item: Snapshot::of(item),
        }
    }
}

/// Items that were handed and never taken, the front first. Contracts see their list.
#[derive(Debug, Drop)]
pub struct Items {
    pub(crate) items: VecDeque<Item<ChangeRow>>,
}

impl Model for Items {
    ghost use Rattle.std.specs.Prelude.{List};
    ghost use Rattle.hub_model.specs.RightlyHanded.{ChangeItem};

    ghost Value = { List ChangeItem };

    ghost view = { λ a. a.items.items };
}

impl Items {
    /// The items. Constant time.
    pub fn as_deque(&self) -> &VecDeque<Item<ChangeRow>>
        ensures { result.now.items ≡ self.now }
    {
        &self.items
    }
}
