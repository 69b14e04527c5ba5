//! The results of writes, and the test whether a write is to be noted.

ghost use Rattle.std.specs.Prelude.{◌≡◌};
ghost use Rattle.std.specs.List.{list_any};
ghost use Rattle.hub_shared.specs.Stored.{is_stored};

use hub_database::Batch;
use hub_document::RevId;
use hub_model::Outcome;
use hub_updates::NoteFault;

/// The result of a batch that was written.
#[derive(Debug, Drop)]
pub struct Written {
    /// The reply to each document, and whether the batch stopped.
    pub batch: Batch,
    /// The fault for which the log of updates has no note, though edits were stored. The edits stand.
    pub lapsed: Option<NoteFault>,
}

/// The result of one edit that was stored.
#[derive(Debug, Drop)]
pub struct Edited {
    /// The revision that the edit gave the document.
    pub rev: RevId,
    /// The fault for which the log of updates has no note. The edit stands.
    pub lapsed: Option<NoteFault>,
}

/// Whether at least one document was stored. The cost is a step for each reply.
pub(crate) fn has_stored(replies: &[Outcome<RevId>]) -> bool
    ensures { result ≡ list_any is_stored replies.now }
{
    replies
        .iter()
        .any(|reply| matches!(reply, Outcome::Stored(_)))
}
