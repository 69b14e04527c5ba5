//! The context of a connection's answers, and calls on a database.

ghost use Rattle.std.specs.Prelude.{◌≡◌, ◌⊎◌, IfErr, IfOk};
ghost use Rattle.std.specs.Fn.{FnOnceReturnsAt};
ghost use Rattle.hub_database.specs.Hosting.{hosted_of};
ghost use Rattle.hub_feed.specs.Host.{opening_fault};
ghost use Rattle.hub_params.specs.FeedShown.{params_asked};
ghost use Rattle.hub_service.specs.Calls.{winner_in};
ghost use Rattle.hub_service.specs.Moments.{HasDatabase, IsFound, IsKept, IsLooked};
ghost use Rattle.hub_shared.specs.Handles.{IsNew};

use crate::refusal::with_refusal;
use crate::rooms::JsonRooms;
use hub_database::{DbFault, DbState};
use hub_databases::{Hub, HubDb};
use hub_document::LocalDoc;
use hub_feed::OpenFault;
use hub_http::Refusal;
use hub_params::FeedParams;
use hub_revtree::Winner;
use hub_shared::{Feed, Plain};
use std::alloc::Global;
use std::sync::Wait;

/// The context of each answer of a connection.
#[derive(Drop)]
pub(crate) struct Context<'h, N: Wait> {
    /// The threads' runtime, by which a call waits for a lock.
    pub(crate) rt: &'h N,
    pub(crate) alloc: Global,
    /// The databases, and the log of updates.
    pub(crate) hub: &'h Hub,
    /// The rooms that bodies are read with.
    pub(crate) rooms: &'h JsonRooms,
}

impl<'h, N: Wait> Context<'h, N> {
    /// The result of one look at the database: of `ask`, called once under the lock.
    pub(crate) fn look<T, F: FnOnce(&DbState) -> Result<T, DbFault>>(
        &self,
        db: &HubDb,
        ask: F,
    ) -> Result<T, Refusal>
        requires { F.IsAlwaysCallable ask }
        ensures { IsLooked (λ db r. FnOnceReturnsAt F.FnOnce ask db r) result }
    {
        let mut handle = db.handle()?;
        with_refusal(handle.look(self.rt, ask))
    }

    /// The winner of a document, if there is one.
    pub(crate) fn winner(&self, db: &HubDb, id: &str) -> Result<Option<Winner>, Refusal>
        ensures { IsFound (λ db found. found ≡ winner_in db id.now) result }
    {
        self.look(db, |state| {
            state.standing()?;
            Ok(state.winner(id))
        })
    }

    /// Stores a local document in place of the stored one of its id, and says how often it was written.
    pub(crate) fn local_put(&self, db: &HubDb, doc: LocalDoc) -> Result<u64, Refusal>
        ensures { IsKept doc result }
    {
        let handle = db.handle()?;
        with_refusal(handle.local_put(self.rt, doc))
    }

    /// Opens a feed.
    pub(crate) fn open_feed(&self, db: &HubDb, params: FeedParams) -> Result<Feed<Plain>, OpenFault>
        ensures new { IfOk result (IsNew (params_asked params) 0) }
        ensures err { IfErr result (λ e. (e ≡ OpenFault.NoMemory)
            ⊎ HasDatabase (λ db. e ≡ opening_fault (hosted_of db))) }
    {
        let Ok(mut handle) = db.handle() else {
            return Err(OpenFault::NoMemory);
        };
        handle.open_feed(self.rt, params)
    }
}
