//! A follower's session.

ghost use Rattle.std.specs.Prelude.{◌≡◌, string_bytes, IfOk};
ghost use Rattle.hub_follow_model.specs.Follower as follow;
ghost use Rattle.hub_follow_model.specs.ReplicationLog as logs;

use crate::copies::copies_of;
use crate::log::{HistoryEntry, Log, common_sequence};
use hub_follow_model::Seq;
use std::alloc::{AllocError, Global};
use std::marker::Model;

// The greatest number of older entries in the history of a log that a checkpoint writes.
const OLDER: usize = 49;

/// A replication session.
#[derive(Debug, Drop)]
pub struct Session {
    session_id: String,
    /// The source's sequence after which the session began.
    start: Seq,
    /// The source's sequence up to which the session's rounds have copied.
    place: Seq,
    /// The entries of the source's log as the session began.
    source_history: Vec<HistoryEntry>,
    /// The entries of the target's log as the session began.
    target_history: Vec<HistoryEntry>,
}

impl Model for Session {
    ghost use Rattle.std.specs.Prelude.{string_bytes};
    ghost use Rattle.hub_follow_model.specs.Follower as follow;

    ghost Value = { follow.Session };

    ghost view = { λ a. record {
      session_id = string_bytes a.session_id;
      start = a.start;
      place = a.place;
      source_history = a.source_history.items;
      target_history = a.target_history.items;
    } };
}

// The entries of a log; none where there is no log.
fn history_of(alloc: Global, log: Option<Log>) -> Vec<HistoryEntry>
    ensures { result.items ≡ logs.history_of log }
{
    match log {
        Some(log) => log.history,
        None => Vec::new(alloc),
    }
}

impl Session {
    /// The session that begins after the sequence up to which the two logs agree. It takes no memory.
    pub(crate) fn begin(
        alloc: Global,
        session_id: String,
        source: Option<Log>,
        target: Option<Log>,
    ) -> Session
        ensures { result ≡ follow.new_session (string_bytes session_id) source target }
    {
        let start = common_sequence(source.as_ref(), target.as_ref());
        Session {
            session_id,
            start,
            place: start,
            source_history: history_of(alloc, source),
            target_history: history_of(alloc, target),
        }
    }

    /// The source's sequence up to which the session's rounds have copied. Constant time.
    pub fn place(&self) -> Seq
        ensures { result ≡ self.now.place }
    {
        self.place
    }

    /// The same session at another place.
    pub(crate) fn at(self, place: Seq) -> Session
        ensures { result ≡ record self { place = place } }
    {
        Session { place, ..self }
    }

    // The log that records the place in front of these older entries: 50 entries at most.
    #[tactic(auto, using(std::proofs::lemmas::List::take_min))]
    fn checkpoint_log(&self, alloc: Global, older: &[HistoryEntry]) -> Result<Log, AllocError>
        ensures { IfOk result (λ log. log ≡ follow.checkpoint_log self.now older.now) }
    {
        let older = &older[..OLDER.min(older.len())];
        let mut history = copies_of(alloc, older, HistoryEntry::copy)?;
        let newest = HistoryEntry {
            session_id: String::from_str(alloc, self.session_id.as_str())?,
            start_last_seq: self.start,
            end_last_seq: self.place,
            recorded_seq: self.place,
        };
        history.insert(0, newest)?;
        Ok(Log {
            session_id: String::from_str(alloc, self.session_id.as_str())?,
            source_last_seq: self.place,
            history,
        })
    }

    /// The log that a checkpoint writes at the source: 50 entries at most. The cost is the log's length.
    pub fn source_log(&self, alloc: Global) -> Result<Log, AllocError>
        ensures { IfOk result (λ log. log ≡ follow.checkpoint_log self.now self.now.source_history) }
    {
        self.checkpoint_log(alloc, &self.source_history)
    }

    /// The log that a checkpoint writes at the target: 50 entries at most. The cost is the log's length.
    pub fn target_log(&self, alloc: Global) -> Result<Log, AllocError>
        ensures { IfOk result (λ log. log ≡ follow.checkpoint_log self.now self.now.target_history) }
    {
        self.checkpoint_log(alloc, &self.target_history)
    }
}
