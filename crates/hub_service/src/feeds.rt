//! Feeds of a database, and of the log of updates (CouchDB API reference, `/{db}/_changes` and
//! `/_db_updates`).

ghost use Rattle.hub_params.specs.FeedShown.{params_asked};
ghost use Rattle.hub_service.specs.Feeds.{Begins, BeginsChanges, BeginsUpdates};

use crate::context::Context;
use crate::refusal::{unopened, unread};
use crate::response::Response;
use crate::sent::{Listed, Sent};
use hub_databases::HubDb;
use hub_http::Refusal;
use hub_model::Mode;
use hub_params::FeedParams;
use std::sync::Wait;

impl<N: Wait> Context<'_, N> {
    // Begins the feed that parameters ask of a database, or the list where they ask for one downwards.
    fn begin_asked(&self, db: &HubDb, params: FeedParams) -> Result<Response, Refusal>
        ensures { BeginsChanges (params_asked params) result }
    {
        if params.descending {
            let answer = self.look(db, |state| state.changes_descending(&params))?;
            let sent = Sent::Listed(Listed::new(answer));
            return Ok(Response::Stream(Mode::Normal, sent));
        }
        let mode = params.mode;
        match self.open_feed(db, params) {
            Ok(feed) => Ok(Response::Stream(mode, Sent::Changes(feed))),
            Err(fault) => Err(unopened(fault)),
        }
    }

    /// Begins the feed of a database that a query and a body ask for. The cost is the reading of both, and
    /// the wait for the database. An answer that goes downwards is made at once.
    pub(crate) fn begin_feed(
        &self,
        db: &HubDb,
        query: &[u8],
        body: &[u8],
    ) -> Result<Response, Refusal>
        ensures { Begins BeginsChanges query.now body.now result }
    {
        match FeedParams::read(self.alloc, query, body) {
            Ok(params) => self.begin_asked(db, params),
            Err(fault) => Err(unread(fault)),
        }
    }
}

/// Begins the feed of the log of updates that a query and a body ask for. The cost is the reading of both,
/// and the wait for the log.
pub(crate) fn begin_updates<N: Wait>(
    context: &Context<'_, N>,
    query: &[u8],
    body: &[u8],
) -> Result<Response, Refusal>
    ensures { Begins BeginsUpdates query.now body.now result }
{
    let params = match FeedParams::read(context.alloc, query, body) {
        Ok(params) => params,
        Err(fault) => return Err(unread(fault)),
    };
    let mode = params.mode;
    match context.hub.updates(context.rt, params) {
        Ok(feed) => Ok(Response::Stream(mode, Sent::Updates(feed))),
        Err(fault) => Err(unopened(fault)),
    }
}
