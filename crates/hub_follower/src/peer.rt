//! The peers of a follower.

ghost use Rattle.std.specs.Prelude.{◌≡◌, ℕ, map, length, IfOk};
ghost use Rattle.hub_follow_model.specs.Follower as follow;
ghost use Rattle.hub_database.specs.Edits.{edit_of};
ghost use Rattle.hub_follower.specs.Peers.{IsCalled, IsLogCalled};
ghost use Rattle.hub_follower.specs.Views.{found_edit};

use crate::fetched::FetchedRevs;
use crate::log::Log;
use hub_database::{DbFault, Diff, Replies};
use hub_document::{Asked, ChangeRow, Doc};
use hub_follow_model::Seq;
use std::alloc::AllocError;
use thiserror::Error;

/// The reason for which a call on a peer fails.
#[derive(Clone, Copy, Debug, PartialEq, Eq, Error)]
pub enum CallFault {
    /// The peer failed: its count of faults rose, or stands at its last value.
    #[error("the peer failed")]
    Peer,
    /// Memory ran out.
    #[error("out of memory")]
    NoMemory,
}

impl From<DbFault> for CallFault {
    ghost use Rattle.hub_follower.specs.Peers.{IsDbFault};

    ghost from_gives = { IsDbFault };

    fn from(fault: DbFault) -> CallFault {
        match fault {
            DbFault::NoMemory => CallFault::NoMemory,
            DbFault::Refused(_) => CallFault::Peer,
        }
    }
}

impl From<AllocError> for CallFault {
    ghost use Rattle.std.specs.Prelude.{◌≡◌};
    ghost use Rattle.hub_follower.specs.declared.peer.CallFault.TheVariants.{NoMemory};

    ghost from_gives = { λ _ e. e ≡ NoMemory };

    fn from(_refused: AllocError) -> CallFault {
        CallFault::NoMemory
    }
}

/// Rows of changes, with their end.
#[derive(Debug, Drop)]
pub struct Changes {
    pub rows: Vec<ChangeRow>,
    /// The sequence up to which the rows show all changes.
    pub last_seq: u64,
    /// The number of the life of these sequences.
    pub life: u64,
}

/// A database as a follower sees it (CouchDB Replication Protocol). A peer says itself which answers its
/// calls may have. `gives` is exact for a peer that a single thread holds. For a peer behind a lock it says
/// no more than each answer shows, since anything may be written between two calls. The count of faults never
/// falls. A call tells a fault of the peer only where the count rose, or stands at 2^64 - 1.
pub trait Peer {
    /// From a state of the peer, a call may have this answer and leave that state.
    ghost gives: { Self → follow.Call → follow.Answer → Self → Type 0 };

    /// From a state of the peer, a call may fail and leave that state.
    ghost loses: { Self → follow.Call → Self → Type 0 };

    /// The number of calls that failed, 2^64 - 1 at most.
    ghost fault_count: { Self → ℕ };

    /// The changes above this sequence, of every leaf: 100 rows at most, with their end. A sequence of
    /// another life counts as 0.
    fn changes(&mut self, since: Seq) -> Result<Changes, CallFault>
        ensures called { IsCalled gives loses fault_count (follow.Changes since)
            (λ c. follow.ChangesAnswer c.rows.items c.last_seq c.life) result self.old self.new };

    /// The revisions of `asked` that the peer misses, document by document.
    fn revs_diff(&mut self, asked: &[Asked]) -> Result<Vec<Diff>, CallFault>
        ensures called { IsCalled gives loses fault_count (follow.RevsDiff asked.now)
            (λ diffs. follow.RevsDiffAnswer diffs.items) result self.old self.new };

    /// These revisions of a document, in this order, with their histories.
    fn open_revs(&mut self, asked: &Asked) -> Result<FetchedRevs, CallFault>
        ensures called { IsCalled gives loses fault_count (follow.OpenRevs asked.now.id asked.now.revs)
            (λ found. follow.OpenRevsAnswer (map found_edit found)) result self.old self.new }
        ensures many { IfOk result (λ found. length found ≡ length asked.now.revs) };

    /// Stores documents with their histories, one after the other. After an error some of them may be stored.
    fn merge(&mut self, docs: &[Doc]) -> Result<Replies, CallFault>
        ensures called { IsCalled gives loses fault_count (follow.Merge (map edit_of docs.now))
            (λ replies. follow.MergeAnswer replies) result self.old self.new }
        ensures many { IfOk result (λ replies. length replies ≡ length docs.now) };

    /// The replication log of this id, if there is one that can be read.
    fn local_get(&mut self, log_id: &str) -> Result<Option<Log>, CallFault>
        ensures called { IsLogCalled gives loses fault_count (λ side. follow.LocalGet side)
            (λ log. follow.LogAnswer log) result self.old self.new };

    /// Keeps a log as the replication log of this id. After an error the log may be kept.
    fn local_put(&mut self, log_id: &str, log: &Log) -> Result<(), CallFault>
        ensures called { IsLogCalled gives loses fault_count (λ side. follow.LocalPut side log.now)
            (λ _. follow.PutAnswer) result self.old self.new };

    /// The number of calls that failed. It stays at 2^64 - 1 once there.
    fn faults(&self) -> u64
        ensures { result ≡ fault_count self.now };
}
