//! Connections: the answers to a client, request by request.

ghost use Rattle.std.specs.Prelude.{◌≡◌, IfErr, IfOk, None, Ok, Result, Some, true};
ghost use Rattle.hub_databases.specs.Names.{is_name as is_database_name};
ghost use Rattle.hub_http.specs.Stream.{asked_by};
ghost use Rattle.hub_http.specs.declared.refusal.Refusal.{Refusal};
ghost use Rattle.hub_replies.specs.Bodies.{ok_body};
ghost use Rattle.hub_routes.specs.Routes.{GoesTo};
ghost use Rattle.hub_routes.specs.declared.route.Route.{Route};
ghost use Rattle.hub_service.specs.Laws.{connection_rules};
ghost use Rattle.hub_service.specs.Requests.{AnswersCall, AtName, IsNoDatabase, IsListed, IsMade};
ghost use Rattle.hub_service.specs.Requests.{IsRemoved, IsSent, Responds};
ghost use Rattle.hub_service.specs.Said.{Body, IsSaid};

use crate::context::Context;
use crate::feeds::begin_updates;
use crate::pumping::Pumping;
use crate::refusal::with_hub_refusal;
use crate::response::{Response, answer};
use crate::rooms::JsonRooms;
use crate::sent::Sent;
use hub_databases::{Hub, HubDb, is_name};
use hub_http::{ChunkWriter, Output, Refusal, Reply, Request, StatusCode};
use hub_replies::{commit_body, names_body, ok_body, welcome_body};
use hub_routes::{Call, Route, Routes};
use hub_session::{Answer, Sending, SentItem, Service};
use hub_shared::{Watch, Watchable};
use std::alloc::Global;
use std::marker::Model;
use std::sync::{Arc, Wait};

/// A connection to a hub, which other connections share. It answers one request at a time, and sends at
/// most one feed.
#[derive(Drop)]
pub struct Connection<'h, N: Wait, P: Pumping> {
    context: Context<'h, N>,
    routes: &'h Routes,
    /// The way in which a feed is handed its items.
    pumping: P,
    /// The feed or list that is sent, item by item, until its end was handed.
    sent: Option<Sent>,
}

impl<'h, N: Wait, P: Pumping> Model for Connection<'h, N, P> {
    ghost use Rattle.std.specs.Prelude.{Option};
    ghost use Rattle.hub_service.specs.declared.sent.Sent.{Sent};

    ghost Value = { Option Sent };

    ghost view = { λ a. a.sent };
}

impl<'h, N: Wait, P: Pumping> Connection<'h, N, P> {
    /// A connection that sends no feed. The table of routes and the rooms for bodies may serve every
    /// connection.
    pub fn new(
        rt: &'h N,
        alloc: Global,
        hub: &'h Hub,
        routes: &'h Routes,
        rooms: &'h JsonRooms,
        pumping: P,
    ) -> Connection<'h, N, P>
        ensures { result ≡ None }
    {
        Connection {
            context: Context {
                rt,
                alloc,
                hub,
                rooms,
            },
            routes,
            pumping,
            sent: None,
        }
    }

    // The answer to a call by name that asks for no data, with this status, where the name is good. It is
    // made before the call, so that each call that is done is answered.
    fn ok_answer(&self, status: StatusCode, name: &str) -> Result<Response, Refusal>
        ensures { AtName name.now (IsSaid (Body status ok_body)) result }
    {
        if !is_name(name) {
            return Err(Refusal::BadName);
        }
        answer(status, Vec::from_slice(self.context.alloc, ok_body()))
    }

    // Makes a database.
    fn create(&self, name: &str) -> Result<Response, Refusal>
        ensures { AtName name.now IsMade result }
    {
        let made = self.ok_answer(StatusCode::CREATED, name)?;
        with_hub_refusal(self.context.hub.create(self.context.rt, name))?;
        Ok(made)
    }

    // Removes a database.
    fn remove(&self, name: &str) -> Result<Response, Refusal>
        ensures { AtName name.now IsRemoved result }
    {
        let removed = self.ok_answer(StatusCode::OK, name)?;
        with_hub_refusal(self.context.hub.remove(self.context.rt, name))?;
        Ok(removed)
    }

    // Lists the names of the databases.
    fn list(&self) -> Result<Response, Refusal>
        ensures { IsListed result }
    {
        let names = self.context.hub.list(self.context.rt)?;
        answer(
            StatusCode::OK,
            names_body(self.context.alloc, names.as_slice()),
        )
    }

    // The database of a name.
    fn database(&self, name: &str) -> Result<HubDb, Refusal>
        ensures own { IfOk result (λ db. (db ≡ name.now) × (is_database_name name.now ≡ true)) }
        ensures err { IfErr result (λ e. IsNoDatabase name.now e) }
    {
        with_hub_refusal(self.context.hub.find(self.context.rt, name))
    }

    // The answer to a call, with the parts of its request. A commit has nothing to do: every edit that was
    // answered is stored.
    fn call(
        &self,
        call: Call,
        name: &str,
        id: &str,
        query: &[u8],
        body: &[u8],
    ) -> Result<Response, Refusal>
        ensures { AnswersCall call name.now id.now query.now body.now result }
    {
        let context = &self.context;
        let alloc = context.alloc;
        match call {
            Call::Welcome => answer(StatusCode::OK, Vec::from_slice(alloc, welcome_body())),
            Call::AllDbs => self.list(),
            Call::DbUpdates => begin_updates(context, query, body),
            Call::PutDatabase => self.create(name),
            Call::DeleteDatabase => self.remove(name),
            Call::Info => context.info(&self.database(name)?),
            Call::BulkDocs => context.store_batch(&self.database(name)?, body),
            Call::Changes => context.begin_feed(&self.database(name)?, query, body),
            Call::RevsDiff => context.revs_diff(&self.database(name)?, body),
            Call::FullCommit => {
                self.database(name)?;
                answer(StatusCode::CREATED, Vec::from_slice(alloc, commit_body()))
            }
            Call::GetDocument => context.get(&self.database(name)?, id, query),
            Call::PutDocument => context.put(&self.database(name)?, id, query, body),
            Call::DeleteDocument => context.delete(&self.database(name)?, id, query),
            Call::GetLocal => context.get_local(&self.database(name)?, id),
            Call::PutLocal => context.put_local(&self.database(name)?, id, body),
        }
    }

    // The answer to a request.
    fn respond(&self, request: &Request) -> Result<Response, Refusal>
        ensures { (route : Result Route Refusal) × GoesTo (asked_by request.now) route
            × Responds (asked_by request.now).body route result }
    {
        let route = self.routes.route(self.context.alloc, request)?;
        self.call(
            route.call,
            route.db.as_str(),
            route.id.as_str(),
            route.query,
            request.body.as_slice(),
        )
    }

    // The answer that sends a response. A feed is kept until its end was handed.
    fn send(&mut self, response: Response) -> Answer
        ensures { IsSent (Ok response) result self.old self.new }
    {
        match response {
            Response::Body(status, body) => Answer::Whole(Reply::Done { status, body }),
            Response::Stream(mode, sent) => {
                let life = sent.life();
                self.sent = Some(sent);
                Answer::Stream(mode, life)
            }
        }
    }
}

impl<'h, N: Wait, P: Pumping> Watchable for Connection<'h, N, P> {
    fn life(&self) -> Option<u64> {
        Some(self.sent.as_ref()?.life())
    }

    fn due(&self) -> Option<u64> {
        match &self.sent {
            Some(Sent::Changes(feed)) => Some(feed.due()),
            Some(Sent::Updates(feed)) => Some(feed.due()),
            Some(Sent::Listed(_)) | None => None,
        }
    }

    fn watch(&self, watch: Arc<Watch, Global>) {
        match &self.sent {
            Some(Sent::Changes(feed)) => feed.watch(self.context.rt, watch),
            Some(Sent::Updates(feed)) => feed.watch(self.context.rt, watch),
            Some(Sent::Listed(_)) | None => {}
        }
    }
}

impl<'h, N: Wait, P: Pumping> Service for Connection<'h, N, P> {
    ghost rules = { connection_rules };

    fn answer(&mut self, request: &Request) -> Answer {
        self.pumping.pass_request();
        match self.respond(request) {
            Ok(response) => self.send(response),
            Err(refusal) => Answer::Whole(Reply::Refused(refusal)),
        }
    }

    fn is_ready(&self) -> bool {
        true
    }

    fn send_next<W: Output>(
        &mut self,
        sending: Sending,
        chunks: &mut ChunkWriter,
        writer: &mut W,
    ) -> Option<SentItem> {
        let sent = self.sent.as_mut()?;
        let item = sent.send_next(self.context.rt, &self.pumping, sending, chunks, writer)?;
        if item.is_end {
            self.drop_stream();
        }
        Some(item)
    }

    fn waits(&self) -> bool {
        match &self.sent {
            Some(Sent::Changes(feed)) => self.pumping.waits(feed),
            Some(Sent::Updates(feed)) => self.pumping.waits(feed),
            Some(Sent::Listed(_)) | None => false,
        }
    }

    fn drop_stream(&mut self) {
        if let Some(sent) = self.sent.take() {
            sent.finish(self.context.rt);
        }
    }
}
