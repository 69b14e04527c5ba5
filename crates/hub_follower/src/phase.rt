//! The point of a round or a checkpoint.

ghost use Rattle.std.specs.Prelude.{◌≡◌, ◌++◌, ℕ, List, [], length, map, Ok, Err};
ghost use Rattle.std.specs.Prelude.{IfOk, IfErr, IfSome, IfNone, Some, None};
ghost use Rattle.hub_follow_model.specs.Follower as follow;
ghost use Rattle.hub_model.specs.Journal.{Edit};
ghost use Rattle.hub_database.specs.Edits.{edit_of};
ghost use Rattle.hub_follower.specs.Views.{follower_behind, found_edit, IsFaultOf};
ghost use Rattle.hub_follower.specs.Fetched.{HasPath};

use crate::fault::FollowFault;
use crate::fetched::{FetchedDocs, FetchedRevs};
use hub_database::{Diff, OpenRev};
use hub_document::{Asked, ChangeRow, Doc, RevId};
use hub_follow_model::Seq;
use hub_model::{Fault, Outcome};
use std::alloc::{AllocError, Global};
use std::collections::VecDeque;

/// The point of a round or a checkpoint, by its next call. Each sequence is the one at which the round's
/// changes end.
#[derive(Debug, Drop)]
pub(crate) enum Phase {
    Listing,
    /// The documents that the target is asked about.
    Comparison(Vec<Asked>, Seq),
    /// The document that is fetched, the documents that come later, and those that were fetched.
    Retrieval(Asked, VecDeque<Asked>, FetchedDocs, Seq),
    /// The documents that were fetched.
    Storage(FetchedDocs, Seq),
    SourceCheckpoint,
    TargetCheckpoint,
}

/// The next state of a session, after an answer.
#[derive(Drop)]
pub(crate) enum Next {
    /// The checkpoint is done.
    Ready,
    /// The round is done, and this is the session's place.
    ReadyAt(Seq),
    /// The session goes on with this phase.
    Busy(Phase),
}

// The documents of rows, with the leaves that they list.
fn revisions_of_rows(alloc: Global, rows: Vec<ChangeRow>) -> Result<Vec<Asked>, AllocError>
    ensures { IfOk result (λ asked. asked.items ≡ map follow.revisions_of_row rows.items) }
{
    let mut asked = Vec::new(alloc);
    for row in rows {
        asked.push(Asked {
            id: row.id.to_text(alloc)?,
            revs: row.changes.copy(alloc)?.into_revisions(alloc)?,
        })?;
    }
    Ok(asked)
}

/// The next state after the changes: their revisions are compared, or the round is over where there are none.
/// It takes memory for the list.
pub(crate) fn comparison_or_ready(
    alloc: Global,
    rows: Vec<ChangeRow>,
    last: Seq,
) -> Result<Next, AllocError>
    ensures value { IfOk result (λ goes. (s : follow.Session)
        → follower_behind s goes
        ≡ follow.comparison_or_ready s (map follow.revisions_of_row rows.items) last) }
{
    let asked = revisions_of_rows(alloc, rows)?;
    if asked.is_empty() {
        return Ok(Next::ReadyAt(last));
    }
    Ok(Next::Busy(Phase::Comparison(asked, last)))
}

// The documents of which the target misses revisions, with these revisions.
fn missing_revisions(alloc: Global, diffs: Vec<Diff>) -> Result<VecDeque<Asked>, AllocError>
    ensures { IfOk result (λ asked. asked.items ≡ map follow.missing_revisions diffs.items) }
{
    let mut asked = VecDeque::new(alloc);
    for diff in diffs {
        asked.push_back(Asked {
            id: diff.id,
            revs: diff.missing,
        })?;
    }
    Ok(asked)
}

/// The next state after a fetch: the next document that the target misses is fetched. Where none is left, all
/// fetched documents are stored; where none was fetched, the round is over. It takes no memory.
pub(crate) fn retrieval_or_storage(later: VecDeque<Asked>, got: FetchedDocs, last: Seq) -> Next
    ensures value { (s : follow.Session)
        → follower_behind s result ≡ follow.retrieval_or_storage s later.items (map edit_of got) last }
{
    let mut later = later;
    match later.pop_front() {
        Some(next) => Next::Busy(Phase::Retrieval(next, later, got, last)),
        None if got.list.is_empty() => Next::ReadyAt(last),
        None => Next::Busy(Phase::Storage(got, last)),
    }
}

/// The next state after the comparison: the missing revisions are fetched. It takes memory for the list.
pub(crate) fn first_retrieval(
    alloc: Global,
    diffs: Vec<Diff>,
    last: Seq,
) -> Result<Next, AllocError>
    ensures value { IfOk result (λ goes. (s : follow.Session) → follower_behind s goes
        ≡ follow.retrieval_or_storage s (map follow.missing_revisions diffs.items) [] last) }
{
    let later = missing_revisions(alloc, diffs)?;
    let list = Vec::new(alloc);
    Ok(retrieval_or_storage(later, FetchedDocs { list }, last))
}

/// The documents that were fetched before, and then those that an answer of `open_revs` brings.
pub(crate) fn documents_behind(
    asked: Asked,
    found: FetchedRevs,
    got: FetchedDocs,
) -> Result<FetchedDocs, FollowFault>
    requires many { length found ≡ length asked.revs }
    ensures ok { IfOk result (λ docs. (es : List Edit)
        × (follow.all_documents asked.id asked.revs (map found_edit found) ≡ Ok es)
        × (map edit_of docs ≡ map edit_of got ++ es)) }
    ensures err { IfErr result (λ e.
        IsFaultOf e (follow.all_documents asked.id asked.revs (map found_edit found))) }
{
    let mut got = got;
    let mut at = 0;
    for opened in found.into_vec() {
        match opened {
            OpenRev::Found(doc) => got.push(doc)?,
            OpenRev::Missing(_) => {
                return Err(FollowFault::Lost {
                    id: asked.id,
                    rev: asked.revs.as_slice()[at],
                });
            }
        }
        at += 1;
    }
    Ok(got)
}

/// The fault of the first document that the target refused; a document that it knew is no refusal.
pub(crate) fn first_refusal(docs: FetchedDocs, outcomes: &[Outcome<RevId>]) -> Option<FollowFault>
    requires many { length outcomes.now ≡ length docs }
    ensures some { IfSome result (λ e. (f : follow.Fault)
        × (follow.first_refusal (map edit_of docs) outcomes.now ≡ Some f)
        × IsFaultOf {A = ℕ} e (Err f)) }
    ensures none { IfNone result (follow.first_refusal (map edit_of docs) outcomes.now ≡ None) }
{
    let mut at = 0;
    for doc in docs.list {
        if let Outcome::Refused(fault) = outcomes[at] {
            let Doc { id, path, .. } = doc;
            let rev = match path {
                Some(path) => path.head(),
                None => return Some(FollowFault::Peer),
            };
            return Some(FollowFault::Refused { id, rev, fault });
        }
        at += 1;
    }
    None
}
