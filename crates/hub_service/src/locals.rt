//! Local documents by their ids (CouchDB API reference, `/{db}/_local/{docid}`).

ghost use Rattle.std.specs.Prelude.{option_map};
ghost use Rattle.hub_database.specs.Locals.{local_of, local_after_write};
ghost use Rattle.hub_document.specs.Local.{local_in};
ghost use Rattle.hub_database.specs.Answers.{local_named};
ghost use Rattle.hub_service.specs.Calls.{local_reply, puts_local, says_local};
ghost use Rattle.hub_service.specs.Moments.{IsRead};
ghost use Rattle.hub_service.specs.Said.{IsSaid};

use crate::context::Context;
use crate::response::{Response, answer};
use hub_database::Local;
use hub_databases::HubDb;
use hub_document::LocalDoc;
use hub_http::{Refusal, StatusCode};
use hub_replies::{edit_front, local_doc_body, local_edit_body};
use std::alloc::Global;
use std::sync::Wait;

// The answer to a local document that was asked for by its id.
fn say_local(alloc: Global, id: &str, found: &Option<Local>) -> Result<Response, Refusal>
    ensures { IsSaid (says_local (option_map (local_named id.now) found.now)) result }
{
    match found {
        Some(local) => answer(StatusCode::OK, local_doc_body(alloc, id, local)),
        None => Err(Refusal::Missing),
    }
}

impl<N: Wait> Context<'_, N> {
    /// Answers a local document. The cost is the wait for the database, a look in the map of local documents,
    /// and the length of the answer.
    pub(crate) fn get_local(&self, db: &HubDb, id: &str) -> Result<Response, Refusal>
        ensures { IsRead (λ db. says_local (local_of db.locals id.now)) result }
    {
        let found = self.look(db, |state| state.local_copy(id))?;
        say_local(self.alloc, id, &found)
    }

    // Keeps a local document. The answer is begun first, so that no kept document lacks memory for its answer.
    fn keep(&self, db: &HubDb, doc: LocalDoc) -> Result<Response, Refusal>
        ensures { IsRead (λ db. local_reply (local_after_write db.locals doc)) result }
    {
        let front = edit_front(self.alloc, doc.id.as_str())?;
        let count = self.local_put(db, doc)?;
        answer(StatusCode::CREATED, local_edit_body(front, count))
    }

    /// Keeps a local document in place of the stored one of its id. The cost is the body's length, the wait
    /// for the database, and two looks in the map of local documents. Out of memory, nothing is kept.
    pub(crate) fn put_local(&self, db: &HubDb, id: &str, body: &[u8]) -> Result<Response, Refusal>
        ensures { IsRead (λ db. puts_local db (local_in id.now body.now)) result }
    {
        let doc = LocalDoc::read(self.alloc, id, body)?;
        self.keep(db, doc)
    }
}
