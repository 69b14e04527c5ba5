//! Documents by their ids (CouchDB API reference, `/{db}/{docid}`).

ghost use Rattle.std.specs.Prelude.{◌≡◌, ◌⊎◌, Err, IfErr, IfOk, List, Ok, ℕ};
ghost use Rattle.hub_document.specs.Ids.{short_id};
ghost use Rattle.hub_document.specs.Put.{put_in};
ghost use Rattle.hub_params.specs.DocParams.{doc_asked};
ghost use Rattle.hub_model.specs.declared.outcomes.Outcome.TheVariants.{Stored};
ghost use Rattle.hub_replies.specs.Bodies.{edit_front};
ghost use Rattle.hub_service.specs.Calls.{edits, gets_doc, gets_revs, is_all, puts_doc, says_edit};
ghost use Rattle.hub_service.specs.Calls.{says_found, says_noted, says_revs, winner_in};
ghost use Rattle.hub_service.specs.Deletions.{DeletesLeaf, IsDeletion, refuses_unnamed};
ghost use Rattle.hub_service.specs.Moments.{IsRead, IsWritten};
ghost use Rattle.hub_service.specs.Said.{IsSaid, Refusing};

use crate::context::Context;
use crate::refusal::{unnoted, with_refusal};
use crate::response::{Response, answer};
use hub_database::{Lookup, OpenRev};
use hub_databases::{Edited, HubDb};
use hub_document::{Body, Doc, DocFault, DocId, OpenRevs, RevId, put_doc};
use hub_http::{Refusal, StatusCode};
use hub_params::DocParams;
use hub_replies::{doc_body, edit_body, edit_front, open_revs_body};
use hub_revtree::Winner;
use std::alloc::Global;
use std::sync::Wait;

// The answer to a document that was asked for.
fn say_found(alloc: Global, found: &Lookup) -> Result<Response, Refusal>
    ensures { IsSaid (says_found found.now) result }
{
    match found {
        Lookup::Unknown => Err(Refusal::Missing),
        Lookup::Deleted => Err(Refusal::DocDeleted),
        Lookup::Found(doc) => answer(StatusCode::OK, doc_body(alloc, doc)),
    }
}

// The answer to revisions that were asked for, to all leaves or some.
fn say_revs(alloc: Global, which: &OpenRevs, revs: &[OpenRev]) -> Result<Response, Refusal>
    ensures { IsSaid (says_revs (is_all which.now) revs.now) result }
{
    match (which, revs) {
        (OpenRevs::All, []) => Err(Refusal::Missing),
        _ => answer(StatusCode::OK, open_revs_body(alloc, revs)),
    }
}

// The answer to an edit that was stored, with this status. `front` is the answer up to the revision.
fn say_edited(status: StatusCode, front: Vec<u8>, edited: &Edited) -> Result<Response, Refusal>
    ensures { let e = edited.now in (id : List ℕ) → front.items ≡ edit_front id
        → IsSaid (says_noted e.lapsed (says_edit status id (Stored e.rev))) result }
{
    if let Some(fault) = edited.lapsed {
        return Err(unnoted(fault));
    }
    Ok(Response::Body(status, edit_body(front, &edited.rev)?))
}

// The refusal to delete a document where the request names no leaf.
fn refuse_unnamed(winner: Option<Winner>) -> Refusal
    ensures { result ≡ refuses_unnamed winner }
{
    match winner {
        None => Refusal::Missing,
        Some(winner) if winner.deleted => Refusal::DocDeleted,
        Some(_) => Refusal::Conflict,
    }
}

impl<N: Wait> Context<'_, N> {
    // The revisions of a document that a value of `open_revs` asks for.
    fn get_revs(
        &self,
        db: &HubDb,
        id: &str,
        revs: bool,
        asked: Option<OpenRevs>,
    ) -> Result<Response, Refusal>
        ensures { IsRead (λ db. gets_revs db.journal id.now revs asked) result }
    {
        let Some(which) = asked else {
            return Err(Refusal::BadRev);
        };
        let found = self.look(db, |state| state.open_revs(id, &which, revs))?;
        say_revs(self.alloc, &which, found.as_slice())
    }

    /// Answers a document, or those of its revisions that `open_revs` asks for. The cost is the wait for the
    /// database, the cost of `DbState::get` or `DbState::open_revs`, and the length of the answer.
    pub(crate) fn get(&self, db: &HubDb, id: &str, query: &[u8]) -> Result<Response, Refusal>
        ensures { IsRead (λ db. gets_doc db.journal id.now (doc_asked query.now)) result }
    {
        let DocParams {
            rev,
            open_revs,
            revs,
            ..
        } = DocParams::read(self.alloc, query)?;
        if let Some(text) = open_revs {
            let asked = OpenRevs::read(self.alloc, text.as_str())?;
            return self.get_revs(db, id, revs, asked);
        }
        if rev.is_some() {
            return Err(Refusal::BadRev);
        }
        let found = self.look(db, |state| state.get(id, revs))?;
        say_found(self.alloc, &found)
    }

    // Stores an edit whose revision is made here, and says so with this status. The answer is begun first,
    // with room for its rest, so that no stored edit lacks memory for its answer.
    fn edit(&self, db: &HubDb, status: StatusCode, doc: Doc) -> Result<Response, Refusal>
        ensures { IsWritten (λ db. edits status db doc) result }
    {
        let front = edit_front(self.alloc, doc.id.as_str())?;
        let edited = with_refusal(self.hub.write_one(self.rt, db, doc))?;
        say_edited(status, front, &edited)
    }

    // The document in a body. The query may name the leaf that it edits.
    fn read_put(&self, id: &str, query: &[u8], body: &[u8]) -> Result<Doc, DocFault>
        ensures ok { IfOk result (λ doc.
            put_in id.now (doc_asked query.now).rev (doc_asked query.now).new_edits body.now ≡ Ok doc) }
        ensures err { IfErr result (λ e. (e ≡ DocFault.NoMemory)
            ⊎ (put_in id.now (doc_asked query.now).rev (doc_asked query.now).new_edits body.now ≡ Err e)) }
    {
        let params = DocParams::read(self.alloc, query)?;
        let rev = params.rev.as_deref();
        let value = self.rooms.read(self.rt, body)?;
        put_doc(self.alloc, id, rev, params.new_edits, &value)
    }

    /// Puts a document: an edit of the leaf that the query or the body names. The cost is the body's length,
    /// and the cost of `Hub::write_one`. The document takes memory as it is read, and in the database and the
    /// log. Only the answer and the notice take more, one allocation each. Out of memory, no edit stays stored
    /// but one that could not be noted.
    pub(crate) fn put(
        &self,
        db: &HubDb,
        id: &str,
        query: &[u8],
        body: &[u8],
    ) -> Result<Response, Refusal>
        ensures { IsWritten (λ db. puts_doc db
            (put_in id.now (doc_asked query.now).rev (doc_asked query.now).new_edits body.now)) result }
    {
        let doc = self.read_put(id, query, body)?;
        self.edit(db, StatusCode::CREATED, doc)
    }

    // Refuses to delete a document where the request names no leaf.
    fn delete_unnamed(&self, db: &HubDb, id: &str) -> Result<Response, Refusal>
        ensures { IsRead (λ db. Refusing (refuses_unnamed (winner_in db id.now))) result }
    {
        let winner = self.winner(db, id)?;
        Err(refuse_unnamed(winner))
    }

    // Deletes the leaf of this revision.
    fn delete_leaf(&self, db: &HubDb, id: &str, rev: RevId) -> Result<Response, Refusal>
        ensures { DeletesLeaf id.now (short_id id.now) rev result }
    {
        let Some(known) = DocId::read(self.alloc, id)? else {
            return Err(Refusal::Missing);
        };
        let Some(_) = self.winner(db, id)? else {
            return Err(Refusal::Missing);
        };
        let body = Body::empty(self.alloc)?;
        let doc = Doc {
            id: known,
            rev: Some(rev),
            path: None,
            deleted: true,
            body,
        };
        self.edit(db, StatusCode::OK, doc)
    }

    /// Deletes a document: an edit of the leaf that the query names. The cost is a look for the document, and
    /// the cost of `Hub::write_one`. Out of memory, no edit stays stored but one that could not be noted.
    pub(crate) fn delete(&self, db: &HubDb, id: &str, query: &[u8]) -> Result<Response, Refusal>
        ensures { IsDeletion id.now query.now result }
    {
        let DocParams { rev, .. } = DocParams::read(self.alloc, query)?;
        let Some(text) = rev else {
            return self.delete_unnamed(db, id);
        };
        match RevId::read(text.as_str()) {
            Some(rev) => self.delete_leaf(db, id, rev),
            None => Err(Refusal::BadRev),
        }
    }
}
