//! The next item of a feed.

use hub_model::Item;

/// The item that a feed has to hand, or why there is none.
#[derive(Debug, Drop)]
pub enum Next<R> {
    /// This item is due. The feed moves once the item is accepted.
    Give(Item<R>),
    /// Nothing is due now. Later edits may bring an item.
    Nothing,
    /// Nothing is due any more: the feed handed its end, or is finished.
    Gone,
}
