//! A database with its feeds and their lanes, as one machine: the value that the program keeps under a lock,
//! in one thread.

ghost use Rattle.std.specs.Prelude.{◌≡◌, ◌<◌, ◌≤◌, length, IfOk, OnErr};
ghost use Rattle.hub_world.specs.Applied.{Answers, Applies, CoreStep, last_reply, write_of};
ghost use Rattle.hub_world.specs.Core.{Shows, limits_of};
ghost use Rattle.hub_world.specs.Growth.{MayFail};
ghost use Rattle.hub_world.specs.Headline.{AreFaithful, AreRight};
ghost use Rattle.hub_world.specs.Lane.{back, lane_items};
ghost use Rattle.hub_world.specs.Step.{Run};
ghost use Rattle.hub_world.specs.World.{World as Shown, empty};

use crate::docs::Docs;
use crate::event::Event;
use crate::items::{Items, ToldItem};
use crate::plain_list::{Directly, PlainList, items_left};
use crate::reply::Reply;
use hub_database::DbState;
use hub_document::Limits;
use hub_feed::{FeedHost, FeedId, OpenFault};
use hub_params::FeedParams;
use hub_shared::{Handed, Locked, NoCount, Plain};
use std::alloc::{AllocError, Global};
use std::marker::Model;

/// A database with its feeds and their lanes: the very `Locked` of the program, over lanes that are plain
/// lists. An event changes it by at most one call of `Locked`. So a list of events is an interleaving of such
/// calls, whoever makes them.
#[derive(Drop)]
pub struct World {
    locked: Locked<DbState, Plain, PlainList>,
    alloc: Global,
}

impl Model for World {
    ghost use Rattle.hub_world.specs.Core.{Core, core_of, IsWorld};

    ghost Value = { Core };

    ghost view = { λ a. core_of a.locked };

    ghost invariant = { λ a. IsWorld a.locked };
}

impl World {
    /// A database with no document and no feed, in its first life.
    pub fn new(alloc: Global, limits: Limits) -> World
        ensures { Shows result (empty (limits_of limits)) }
    {
        let state = DbState::new(alloc, limits, 1);
        World {
            locked: Locked::new(alloc, state, limits.lane as usize, limits.hold, NoCount),
            alloc,
        }
    }

    // Stores documents: with their histories, or, as new edits, with revisions that are made here.
    fn write(&mut self, docs: Docs, new_edits: bool) -> Result<Reply, AllocError>
        ensures ok { IfOk result (λ reply. Applies self.old (write_of new_edits docs) reply self.new
            × Answers self.old (write_of new_edits docs) reply self.new) }
        ensures err { OnErr result
            ((self.new ≡ self.old) × MayFail self.old (write_of new_edits docs)) }
    {
        let Ok((batch, _)) = self.locked.store(&mut NoCount, docs.list, new_edits) else {
            return Err(AllocError);
        };
        Ok(Reply::Outcomes(batch))
    }

    // Opens a feed, with an empty lane.
    fn begin(&mut self, params: FeedParams) -> Result<Reply, AllocError>
        ensures ok { IfOk result (λ reply. Applies self.old (Event.Begin params) reply self.new) }
        ensures err { OnErr result ((self.new ≡ self.old) × MayFail self.old (Event.Begin params)) }
    {
        match self.locked.begin(params) {
            Ok(opened) => Ok(Reply::Opened(opened.id)),
            Err(fault) => match fault {
                OpenFault::Deleted => Ok(Reply::DatabaseDeleted),
                OpenFault::TooManyFeeds => Ok(Reply::TooManyFeeds),
                OpenFault::NoMemory => Err(AllocError),
            },
        }
    }

    // The reply that tells the last item of a feed's lane; `Nothing` where no item lies in it.
    fn last_reply(&self, feed: FeedId) -> Reply
        ensures reply { result ≡ last_reply (back feed.number self.now.lanes) }
        ensures within { length (lane_items feed.number self.now.lanes) ≤ self.now.db.limits.lane }
    {
        let Some(list) = self.locked.outbox(feed) else {
            return Reply::Nothing;
        };
        match list.last() {
            Some(item) => Reply::Pushed(ToldItem::of(item)),
            None => Reply::Nothing,
        }
    }

    // Hands the item that is due to a feed into its lane.
    fn hand(&mut self, feed: FeedId) -> Result<Reply, AllocError>
        ensures ok { IfOk result (λ reply. Applies self.old (Event.Hand feed) reply self.new) }
        ensures err { OnErr result ((self.new ≡ self.old) × MayFail self.old (Event.Hand feed)) }
    {
        match self.locked.hand(&Directly, feed)? {
            Handed::Row | Handed::End => Ok(self.last_reply(feed)),
            Handed::Full => Ok(Reply::Full),
            Handed::Nothing => Ok(Reply::Nothing),
            Handed::Gone => Ok(Reply::Gone),
        }
    }

    // Hands a heartbeat into the feed's lane, where one is due. `Locked::beat` answers the same for a
    // heartbeat that it sent and for one that was not due, so `beat_due` is asked before. A due heartbeat
    // that the lane does not refuse is the lane's last item.
    fn beat(&mut self, feed: FeedId) -> Reply
        ensures { Applies self.old (Event.Heartbeat feed) result self.new }
    {
        if !self.locked.state().beat_due(feed) {
            return Reply::Nothing;
        }
        match self.locked.beat(&Directly, feed) {
            Handed::Full => Reply::Full,
            _ => self.last_reply(feed),
        }
    }

    // Tells a feed that its time without an item is over.
    fn expire(&mut self, feed: FeedId) -> Reply
        ensures { Applies self.old (Event.Expire feed) result self.new }
    {
        self.locked.expire(feed);
        Reply::Nothing
    }

    // Finishes a feed, whose subscriber is gone. The reply has the items that were left in its lane.
    fn finish(&mut self, feed: FeedId) -> Reply
        ensures { Applies self.old (Event.Finish feed) result self.new }
    {
        let list = self.locked.finish(feed);
        Reply::Left(Items {
            items: items_left(self.alloc, list),
        })
    }

    // Deletes the database, unless it was deleted before.
    fn delete(&mut self) -> Reply
        ensures { Applies self.old Event.Delete result self.new }
    {
        let Ok(()) = self.locked.delete() else {
            return Reply::DatabaseDeleted;
        };
        Reply::Nothing
    }

    /// Makes one event take place. Where it finds no memory nothing changes, but for a batch: the documents
    /// before the one that found no memory stay stored, and the reply says that the batch stopped. The cost
    /// is that of the call of `Locked`. No row is copied.
    pub fn apply(&mut self, event: Event) -> Result<Reply, AllocError>
        ensures step { IfOk result (λ reply. Applies self.old event reply self.new) }
        ensures batch { IfOk result (λ reply. Answers self.old event reply self.new) }
        ensures err { OnErr result ((self.new ≡ self.old) × MayFail self.old event) }
    {
        match event {
            Event::Write(docs) => self.write(docs, false),
            Event::Interactive(docs) => self.write(docs, true),
            Event::Begin(params) => self.begin(params),
            Event::Hand(feed) => self.hand(feed),
            Event::Heartbeat(feed) => Ok(self.beat(feed)),
            Event::Expire(feed) => Ok(self.expire(feed)),
            Event::Take(feed) => Ok(Reply::Took(self.locked.take(feed))),
            Event::Finish(feed) => Ok(self.finish(feed)),
            Event::Delete => Ok(self.delete()),
        }
    }

    // Makes one event take place as a whole. A batch that stopped is an `AllocError` too.
    fn apply_whole(&mut self, event: Event) -> Result<Reply, AllocError>
        ensures { IfOk result (λ reply. CoreStep self.old event reply self.new) }
    {
        let reply = self.apply(event)?;
        if reply.is_stopped() {
            return Err(AllocError);
        }
        Ok(reply)
    }

    /// Runs a list of events on a new database. An event that finds no memory is an error. Over every list of
    /// events (`headline`) the items that a feed's connection has taken are a prefix of the items that the
    /// feed handed out. Their rows are in strictly rising sequence. Each is its document's current row at its
    /// step, passes the filter, and is not above last_seq. Nothing comes after the end. Every current passing
    /// row between since and the feed's place is among them. The handed items are right besides (`right`).
    /// The replies and the world are those of the events' one run (`run`).
    pub fn run(
        alloc: Global,
        limits: Limits,
        events: Vec<Event>,
    ) -> Result<(World, Vec<Reply>), AllocError>
        ensures headline { IfOk result (λ r. AreFaithful (limits_of limits) events.items r.1.items) }
        ensures right { IfOk result (λ r. AreRight (limits_of limits) events.items r.1.items) }
        ensures run { IfOk result (λ r. (world : Shown)
            × Run (empty (limits_of limits)) events.items r.1.items world × Shows r.0 world) }
        ensures memory { OnErr result (0 < length events.items) }
    {
        let mut world = World::new(alloc, limits);
        let mut replies = Vec::new(alloc);
        replies.try_reserve(events.len())?;
        for event in events {
            let reply = world.apply_whole(event)?;
            replies.push_reserved(reply);
        }
        Ok((world, replies))
    }
}
