//! The faults of a follower.

use hub_document::{DocId, RevId};
use hub_model::Fault;
use std::alloc::AllocError;
use thiserror::Error;

/// The reason for which a session, a round or a checkpoint fails.
#[derive(Debug, Drop, Error)]
pub enum FollowFault {
    /// A call on a peer failed, and the peer's count of faults rose, or stands at its last value.
    #[error("a peer failed")]
    Peer,
    /// Memory ran out.
    #[error("out of memory")]
    NoMemory,
    /// No local document may have the id of the replication logs.
    #[error("no local document may have the id of the replication logs")]
    BadLogId,
    /// The target refused this revision of a document.
    #[error("the target refused a document")]
    Refused { id: DocId, rev: RevId, fault: Fault },
    /// The source says that it misses this revision, which it listed. The id is the text that the target
    /// named in its answer. This text may be no id of a document.
    #[error("the source misses a revision that it listed")]
    Lost { id: String, rev: RevId },
}

impl From<AllocError> for FollowFault {
    ghost use Rattle.std.specs.Prelude.{◌≡◌};
    ghost use Rattle.hub_follower.specs.declared.fault.FollowFault.TheVariants.{NoMemory};

    ghost from_gives = { λ _ e. e ≡ NoMemory };

    fn from(_refused: AllocError) -> FollowFault {
        FollowFault::NoMemory
    }
}
