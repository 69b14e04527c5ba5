//! Replication logs.

ghost use Rattle.std.specs.Prelude.{◌≡◌, option_copied, string_bytes, IfOk};
ghost use Rattle.hub_follow_model.specs.ReplicationLog as model;

use crate::copies::copies_of;
use hub_follow_model::Seq;
use std::alloc::{AllocError, Global};
use std::marker::Model;

/// The entry of one session in the history of a replication log.
#[derive(Debug, Drop)]
pub struct HistoryEntry {
    /// The id of the session.
    pub session_id: String,
    /// The source's sequence after which the session began.
    pub start_last_seq: Seq,
    /// The last sequence to which the session came.
    pub end_last_seq: Seq,
    /// The sequence that the session recorded.
    pub recorded_seq: Seq,
}

impl Model for HistoryEntry {
    ghost use Rattle.std.specs.Prelude.{string_bytes};
    ghost use Rattle.hub_follow_model.specs.ReplicationLog as model;

    ghost Value = { model.HistoryEntry };

    ghost view = { λ a. record {
      session_id = string_bytes a.session_id;
      start_last_seq = a.start_last_seq;
      end_last_seq = a.end_last_seq;
      recorded_seq = a.recorded_seq;
    } };
}

impl HistoryEntry {
    /// A copy of the entry. The cost is the length of the session's id.
    pub fn copy(&self, alloc: Global) -> Result<HistoryEntry, AllocError>
        ensures { IfOk result (λ entry. entry ≡ self.now) }
    {
        let session_id = String::from_str(alloc, self.session_id.as_str())?;
        Ok(HistoryEntry {
            session_id,
            start_last_seq: self.start_last_seq,
            end_last_seq: self.end_last_seq,
            recorded_seq: self.recorded_seq,
        })
    }
}

/// A replication log (CouchDB Replication Protocol, retrieve replication logs).
#[derive(Debug, Drop)]
pub struct Log {
    /// The id of the last session.
    pub session_id: String,
    /// The source's sequence that the last session recorded.
    pub source_last_seq: Seq,
    /// The entries of the sessions, newest first.
    pub history: Vec<HistoryEntry>,
}

impl Model for Log {
    ghost use Rattle.std.specs.Prelude.{string_bytes};
    ghost use Rattle.hub_follow_model.specs.ReplicationLog as model;

    ghost Value = { model.ReplicationLog };

    ghost view = { λ a. record {
      session_id = string_bytes a.session_id;
      source_last_seq = a.source_last_seq;
      history = a.history.items;
    } };
}

impl Log {
    /// A copy of the log. The cost is the log's length.
    pub fn copy(&self, alloc: Global) -> Result<Log, AllocError>
        ensures { IfOk result (λ log. log ≡ self.now) }
    {
        let session_id = String::from_str(alloc, self.session_id.as_str())?;
        let history = copies_of(alloc, &self.history, HistoryEntry::copy)?;
        Ok(Log {
            session_id,
            source_last_seq: self.source_last_seq,
            history,
        })
    }
}

// The sequence that the first entry of a session records, if there is one.
fn recorded_seq_of(session: &str, history: &[HistoryEntry]) -> Option<Seq>
    ensures { result ≡ model.recorded_seq_of session.now history.now }
{
    for entry in history {
        if session.as_bytes() == entry.session_id.as_bytes() {
            return Some(entry.recorded_seq);
        }
    }
    None
}

// The sequence of the newest session in the target's history that the source's history has too: the lesser of
// the two that they record for it. Without a common session it is the beginning.
fn common_session_sequence(source: &[HistoryEntry], target: &[HistoryEntry]) -> Seq
    ensures { result ≡ model.common_session_sequence source.now target.now }
{
    for entry in target {
        if let Some(recorded) = recorded_seq_of(entry.session_id.as_str(), source) {
            return recorded.lesser(entry.recorded_seq);
        }
    }
    Seq::beginning()
}

/// The sequence up to which the logs of source and target agree. It is the beginning where no session is in
/// both, one log is absent, or the two sequences are of two lives. (CouchDB Replication Protocol, compare
/// replication logs; that the lesser of two numbers is taken is own.) The function takes no memory. It
/// compares each entry of one history with each of the other.
pub fn common_sequence(source: Option<&Log>, target: Option<&Log>) -> Seq
    ensures { result ≡ model.common_sequence (option_copied source.entry) (option_copied target.entry) }
{
    match (source, target) {
        (Some(source), Some(target)) => {
            if source.session_id.as_bytes() == target.session_id.as_bytes() {
                source.source_last_seq.lesser(target.source_last_seq)
            } else {
                common_session_sequence(&source.history, &target.history)
            }
        }
        _ => Seq::beginning(),
    }
}
