//! Two databases that one thread holds, and the replication log at each.

ghost use Rattle.std.specs.Prelude.{◌≡◌, ℕ, [], List, map, length, None, IfOk, IfSome, OnOk};
ghost use Rattle.hub_follow_model.specs.ChangesFeed.{IsChangesAnswer};
ghost use Rattle.hub_follow_model.specs.Follower as follow;
ghost use Rattle.hub_follow_model.specs.Sequence.{seq_in};
ghost use Rattle.hub_follow_model.specs.World as world;
ghost use Rattle.hub_model.specs.Outcome.{merges_all};
ghost use Rattle.hub_model.specs.Row.{ChangeRow as Row};
ghost use Rattle.hub_database.specs.Edits.{edit_of};
ghost use Rattle.hub_follower.specs.Views.{call_of};
ghost use Rattle.hub_follower.specs.Worlds.{Answers, IsWithin, IsAnswerOf};

use crate::call::{Answer, Call};
use crate::copies::copies_of;
use crate::fetched::FetchedRevs;
use crate::handed::changes_in;
use crate::log::Log;
use crate::rebuilt::rows_above;
use crate::serving;
use hub_database::DbState;
use hub_document::{Asked, ChangeRow, Doc, Limits, OpenRevs};
use hub_feed::FeedHost;
use hub_follow_model::Seq;
use hub_model::Item;
use std::alloc::{AllocError, Global};
use std::marker::Model;

/// Two databases, of which one is copied into the other, and the replication log at each.
#[derive(Debug, Drop)]
pub(crate) struct Pair {
    alloc: Global,
    source: DbState,
    target: DbState,
    source_log: Option<Log>,
    target_log: Option<Log>,
}

impl Model for Pair {
    ghost use Rattle.std.specs.Prelude.{◌≡◌, false};
    ghost use Rattle.hub_follower.specs.Worlds.{Pair as Both};

    ghost Value = { Both };

    ghost view = { λ a. record {
      limit = a.source.limits.journal;
      life = a.source.life;
      source = a.source.journal;
      target = a.target.journal;
      source_log = a.source_log;
      target_log = a.target_log;
    } };

    ghost invariant = { λ a. (a.source.deleted ≡ false) × (a.target.deleted ≡ false)
        × (a.target.limits.journal ≡ a.source.limits.journal) };
}

// A copy of a log, where there is one.
fn copied(alloc: Global, log: &Option<Log>) -> Result<Option<Log>, AllocError>
    ensures { IfOk result (λ copy. copy ≡ log.now) }
{
    match log {
        Some(log) => Ok(Some(log.copy(alloc)?)),
        None => Ok(None),
    }
}

impl Pair {
    /// Two empty databases without logs, each in its first life. Their journals take as many edits as the
    /// journals of a hub.
    pub(crate) fn new(alloc: Global) -> Pair
        ensures { result ≡ record {
          limit = 4294967295;
          life = 1;
          source = [];
          target = [];
          source_log = None;
          target_log = None;
        } }
    {
        Pair {
            alloc,
            source: DbState::new(alloc, Limits::full(), 1),
            target: DbState::new(alloc, Limits::full(), 1),
            source_log: None,
            target_log: None,
        }
    }

    /// Stores documents at the source, with their histories.
    pub(crate) fn write(&mut self, docs: Vec<Doc>) -> Result<(), AllocError>
        ensures { OnOk result (self.new ≡ record self.old {
          source = (merges_all self.old.limit self.old.source (map edit_of docs.items)).journal;
        }) }
    {
        drop(serving::merged(self.alloc, &mut self.source, docs.as_slice())?);
        Ok(())
    }

    /// These items as the answer to a call for the changes above `since`, as that counts in the source's
    /// life; None where the source may not answer so.
    pub(crate) fn changes_in(
        &self,
        since: Seq,
        items: Vec<Item<ChangeRow>>,
    ) -> Result<Option<Answer>, AllocError>
        ensures right { IfOk result (λ found. IfSome found
            (IsAnswerOf self.now.source self.now.life (seq_in self.now.life since) items.items)) }
        ensures wrong { IfOk result (λ found. found ≡ None → (rows : List Row) (last : ℕ)
            → ¬ IsChangesAnswer self.now.source (seq_in self.now.life since) items.items rows last) }
    {
        let since = since.counted_in(self.source.life());
        changes_in(self.alloc, &self.source, since, items)
    }

    /// The answer of the database that the call names. Changes cost the rows of all documents above the
    /// sequence.
    pub(crate) fn answer(&mut self, call: Call<'_>) -> Result<Answer, AllocError>
        requires { IsWithin (length self.old.source) (call_of call) }
        ensures { IfOk result (λ answer. Answers self.old (call_of call.entry) answer self.new) }
    {
        match call {
            Call::GetSource => Ok(Answer::Log(copied(self.alloc, &self.source_log)?)),
            Call::GetTarget => Ok(Answer::Log(copied(self.alloc, &self.target_log)?)),
            Call::Changes(since) => {
                let since = since.counted_in(self.source.life());
                let rows = rows_above(&self.source, since)?;
                let (edits, life) = (self.source.update_seq(), self.source.life());
                Ok(Answer::Changes(serving::first_rows(rows, edits, life)))
            }
            Call::RevsDiff(asked) => {
                let asked = copies_of(self.alloc, asked, Asked::copy)?;
                match self.target.revs_diff(asked) {
                    Ok(missed) => Ok(Answer::RevsDiff(missed)),
                    Err(_) => Err(AllocError),
                }
            }
            Call::OpenRevs(asked) => {
                let which = OpenRevs::Listed(asked.revs.copy(self.alloc)?);
                match self.source.open_revs(asked.id.as_str(), &which, true) {
                    Ok(found) => Ok(Answer::OpenRevs(FetchedRevs::new(found))),
                    Err(_) => Err(AllocError),
                }
            }
            Call::Merge(docs) => {
                let replies = serving::merged(self.alloc, &mut self.target, docs)?;
                Ok(Answer::Merge(replies))
            }
            Call::PutSource(session) => {
                self.source_log = Some(session.source_log(self.alloc)?);
                Ok(Answer::Put)
            }
            Call::PutTarget(session) => {
                self.target_log = Some(session.target_log(self.alloc)?);
                Ok(Answer::Put)
            }
        }
    }
}
