//! Missing revisions (CouchDB API reference, `POST /{db}/_revs_diff`).

ghost use Rattle.std.specs.Prelude.{◌≡◌, ◌⊎◌, Err, IfErr, IfOk, Ok};
ghost use Rattle.hub_service.specs.Calls.{asked_by, says_diffs};
ghost use Rattle.hub_service.specs.Moments.{IsRead};

use crate::context::Context;
use crate::response::{Response, answer};
use hub_databases::HubDb;
use hub_document::{Asked, DocFault, read_asked};
use hub_http::{Refusal, StatusCode};
use hub_replies::diffs_body;
use std::sync::Wait;

impl<N: Wait> Context<'_, N> {
    // The revisions that a body asks for.
    fn read_asked(&self, body: &[u8]) -> Result<Vec<Asked>, DocFault>
        ensures ok { IfOk result (λ v. asked_by body.now ≡ Ok v.items) }
        ensures err { IfErr result (λ e. (e ≡ DocFault.NoMemory) ⊎ (asked_by body.now ≡ Err e)) }
    {
        let value = self.rooms.read(self.rt, body)?;
        read_asked(self.alloc, &value)
    }

    // Answers which of these revisions are missing.
    fn diff(&self, db: &HubDb, asked: Vec<Asked>) -> Result<Response, Refusal>
        ensures { IsRead (λ db. says_diffs db.journal (Ok asked.items)) result }
    {
        let found = self.look(db, move |state| state.revs_diff(asked))?;
        answer(StatusCode::OK, diffs_body(self.alloc, found.as_slice()))
    }

    /// Answers which of the revisions that a body asks for are missing. The cost is the body's length, the
    /// wait for the database, and the cost of `DbState::revs_diff`.
    pub(crate) fn revs_diff(&self, db: &HubDb, body: &[u8]) -> Result<Response, Refusal>
        ensures { IsRead (λ db. says_diffs db.journal (asked_by body.now)) result }
    {
        let asked = self.read_asked(body)?;
        self.diff(db, asked)
    }
}
