//! Feeds over any source: the item that a feed hands next, and the feed after it (CouchDB API reference,
//! `_changes` and `_db_updates`).
#![tactic(auto)]

mod feed;
mod feeds;
mod handed;
mod host;
mod next;
mod sink;
mod source;

pub use feed::FeedState;
pub use feeds::Feeds;
pub use handed::Handed;
pub use host::{FeedHost, FeedId, HostView, OpenFault};
pub use hub_document::{ChangeRow, UpdateRow};
pub use hub_model::{Item, UpdateKind};
pub use next::Next;
pub use sink::{Pushes, Sink};
pub use source::{Source, is_ahead};
