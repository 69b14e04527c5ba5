//! Hosts of feeds that threads share: a database, and the log of updates, each behind its lock. A host has a
//! subscriber for each of its feeds, and a step of a feed is one step of the host and of its subscriber
//! together. Handles count the edits that were accepted through them. Pumps and polls fill the lanes.
#![tactic(auto)]

mod block;
mod count;
mod database;
mod db;
mod feed;
mod feed_end;
mod gate;
mod handle;
mod host;
mod label;
mod locked;
mod outbox;
mod outboxes;
mod poll;
mod pumping;
mod signals;
mod subscriber;
mod times;
mod updates;
mod watch;
mod write;

pub use block::Block;
pub use count::{Count, Counted, NoCount, Plain};
pub use db::Db;
pub use feed::{ChangeItem, ChangeLabel, Feed, HostFeed};
pub use feed_end::FeedEnd;
pub use gate::{Clock, Gate, Point};
pub use handle::Handle;
pub use host::Host;
pub use hub_database::{Answer, AuditFault, Question, Receipt, audit_of};
pub use hub_feed::Handed;
pub use label::FeedLabel;
pub use locked::{Locked, OpenedFeed};
pub use outbox::{Outbox, Receives, Shelf, TwoEnded};
pub use pumping::{Turn, hold, pump};
pub use subscriber::{Directly, FeedTaker, Subscriber};
pub use updates::{Updates, UpdatesFeed};
pub use watch::{Bell, Watch, Watchable};
pub use write::Accepted;
