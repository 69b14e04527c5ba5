//! The replies to events.

ghost use Rattle.std.specs.Prelude.{◌≡◌};
ghost use Rattle.hub_world.specs.Applied.{is_stopped};

use crate::items::{Items, ToldItem};
use hub_database::Batch;
use hub_document::ChangeRow;
use hub_feed::FeedId;
use hub_model::Item;

/// A reply to an event.
#[derive(Drop)]
pub enum Reply {
    /// The outcome of each document, in order; where the batch stopped, of the documents before the stop.
    Outcomes(Batch),
    /// The feed was opened.
    Opened(FeedId),
    /// The database has as many feeds as its limit allows, or no number is left for one more feed.
    TooManyFeeds,
    /// The database was deleted before.
    DatabaseDeleted,
    /// This item is now the last of the lane. Contracts know the item, and a later `Took` hands it out.
    Pushed(ToldItem),
    /// The lane has no room for the due item.
    Full,
    /// There was nothing to do, or nothing to tell.
    Nothing,
    /// The feed will hand nothing more.
    Gone,
    /// This item was the front of the lane; none where it was empty.
    Took(Option<Item<ChangeRow>>),
    /// The items that were handed and never taken, the front first.
    Left(Items),
}

impl Reply {
    /// Whether this is the reply of a batch that found no memory for a document.
    pub(crate) fn is_stopped(&self) -> bool
        ensures { result ≡ is_stopped self.now }
    {
        match self {
            Reply::Outcomes(batch) => batch.stopped,
            _ => false,
        }
    }
}
