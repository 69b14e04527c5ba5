//! The events of a database with feeds.

use crate::docs::Docs;
use hub_feed::FeedId;
use hub_params::FeedParams;

/// An event. Each is one step: no other event comes between its parts.
#[derive(Debug, Drop)]
pub enum Event {
    /// Documents come with their histories, as a replicator sends them (CouchDB API reference,
    /// `_bulk_docs` with `new_edits=false`).
    Write(Docs),
    /// Documents come whose revisions are made here (CouchDB API reference, `_bulk_docs`).
    Interactive(Docs),
    /// A subscriber opens a feed (CouchDB API reference, `_changes`). `descending` is not looked at.
    Begin(FeedParams),
    /// A feed is to hand its due item into its lane.
    Hand(FeedId),
    /// It is time for a heartbeat of a feed.
    Heartbeat(FeedId),
    /// A feed's time without an item is over.
    Expire(FeedId),
    /// The connection of a feed takes the front item of its lane.
    Take(FeedId),
    /// The subscriber of a feed is gone.
    Finish(FeedId),
    /// The database is deleted.
    Delete,
}
