//! The information of a database (CouchDB API reference, `GET /{db}`).

ghost use Rattle.hub_service.specs.Calls.{says_info};
ghost use Rattle.hub_service.specs.Moments.{IsRead};

use crate::context::Context;
use crate::response::{Response, answer};
use hub_databases::HubDb;
use hub_http::{Refusal, StatusCode};
use hub_replies::info_body;
use std::sync::Wait;

impl<N: Wait> Context<'_, N> {
    /// Answers the information of a database. The cost is the wait for the database, and the length of its
    /// name.
    pub(crate) fn info(&self, db: &HubDb) -> Result<Response, Refusal>
        ensures { let name = db.now in IsRead (λ db. says_info name db) result }
    {
        let info = self.look(db, |state| state.info())?;
        answer(StatusCode::OK, info_body(self.alloc, db.name(), &info))
    }
}
