//! The calls of a follower to its peers, and the answers of peers.

use crate::fetched::FetchedRevs;
use crate::log::Log;
use crate::peer::Changes;
use crate::session::Session;
use hub_database::{Diff, Replies};
use hub_document::{Asked, Doc};
use hub_follow_model::Seq;

/// A call of a follower to a peer.
#[derive(Drop)]
pub enum Call<'a> {
    /// Asks for the replication log of the source.
    GetSource,
    /// Asks for the replication log of the target.
    GetTarget,
    /// Asks for the source's changes above this sequence, which counts as 0 where it is of another life.
    Changes(Seq),
    /// Asks which of these revisions the target misses.
    RevsDiff(&'a [Asked]),
    /// Asks for these revisions of a document of the source, with their histories.
    OpenRevs(&'a Asked),
    /// Stores these documents at the target, with their histories.
    Merge(&'a [Doc]),
    /// Keeps the log of this session at the source.
    PutSource(&'a Session),
    /// Keeps the log of this session at the target.
    PutTarget(&'a Session),
}

/// The answer of a peer.
#[derive(Debug, Drop)]
pub enum Answer {
    /// The replication log, if there is one.
    Log(Option<Log>),
    /// The changes.
    Changes(Changes),
    /// The revisions that are missing.
    RevsDiff(Vec<Diff>),
    /// The revisions, in the order asked.
    OpenRevs(FetchedRevs),
    /// The outcome of each document.
    Merge(Replies),
    /// The log is kept.
    Put,
}
