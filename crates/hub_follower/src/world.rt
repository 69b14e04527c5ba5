//! Two databases, the replication log at each, and a follower: whole runs of events.

ghost use Rattle.std.specs.Prelude.{◌≡◌, [], map, option_map, true, string_bytes, IfOk, OnOk};
ghost use Rattle.std.specs.List.{list_any};
ghost use Rattle.std.specs.Str.{bytes_eq};
ghost use Rattle.hub_database.specs.Edits.{edit_of};
ghost use Rattle.hub_follow_model.specs.Copied.{IsFaithful};
ghost use Rattle.hub_follow_model.specs.Follower as follow;
ghost use Rattle.hub_follow_model.specs.World as world;
ghost use Rattle.hub_follower.specs.Views.{answer_of, call_of};
ghost use Rattle.hub_follower.specs.Worlds.{changes_asked, event_of, HasAnswered, HasPlace};

use crate::call::{Answer, Call};
use crate::fault::FollowFault;
use crate::machine::FollowCore;
use crate::pair::Pair;
use hub_document::{ChangeRow, Doc};
use hub_follow_model::Seq;
use hub_model::Item;
use std::alloc::{AllocError, Global};
use std::marker::Model;

/// An event. An event that does not fit the follower's state changes nothing.
#[derive(Debug, Drop)]
pub enum FollowEvent {
    /// Documents are stored at the source, with their histories.
    Write(Vec<Doc>),
    /// A session of this id begins, where no call is due and no earlier session had the id.
    Start(String),
    /// A round begins.
    Round,
    /// A checkpoint begins.
    Checkpoint,
    /// The next call is answered.
    Answer,
    /// The next call asks for changes, and these items are an answer that the source may give to it. Else
    /// nothing changes.
    Changes(Vec<Item<ChangeRow>>),
    /// The next call fails, and had no effect.
    LostBefore,
    /// The next call has its effect, and its answer is lost.
    LostAfter,
    /// The follower loses all that it holds.
    Restart,
}

/// Two databases, the replication log at each, and a follower that copies one into the other.
#[derive(Debug, Drop)]
pub struct FollowWorld {
    alloc: Global,
    pair: Pair,
    /// The ids of the sessions that have begun, the latest first.
    sessions: Vec<String>,
    core: FollowCore,
}

impl Model for FollowWorld {
    ghost use Rattle.std.specs.Prelude.{map, string_bytes};
    ghost use Rattle.hub_follow_model.specs.World.{World};
    ghost use Rattle.hub_follower.specs.Worlds.{world_of};

    ghost Value = { World };

    ghost view = { λ a. world_of a.pair (map string_bytes a.sessions.items) a.core };
}

// Whether a session of this id has begun.
fn is_used(sessions: &[String], session_id: &str) -> bool
    ensures { result ≡ list_any (bytes_eq session_id.now) (map string_bytes sessions.now) }
{
    for used in sessions {
        if session_id.as_bytes() == used.as_bytes() {
            return true;
        }
    }
    false
}

// The sequence above which a call asks for changes; None for another call.
fn changes_asked(call: Option<Call<'_>>) -> Option<Seq>
    ensures { result ≡ changes_asked (option_map call_of call.entry) }
{
    match call {
        Some(Call::Changes(since)) => Some(since),
        _ => None,
    }
}

impl FollowWorld {
    /// Two empty databases without logs, and no session.
    pub fn new(alloc: Global) -> FollowWorld
        ensures { result ≡ world.empty_world 4294967295 }
    {
        FollowWorld {
            alloc,
            pair: Pair::new(alloc),
            sessions: Vec::new(alloc),
            core: FollowCore::new(),
        }
    }

    /// The follower.
    pub fn core(&self) -> &FollowCore
        ensures { result.now ≡ self.now.follower }
    {
        &self.core
    }

    // Begins a session, where one of this id may begin.
    fn start(&mut self, session_id: String) -> Result<(), AllocError>
        ensures { OnOk result (world.Step self.old (world.Start (string_bytes session_id)) self.new) }
    {
        if !self.core.is_free() {
            return Ok(());
        }
        if is_used(&self.sessions, session_id.as_str()) {
            return Ok(());
        }
        let kept = String::from_str(self.alloc, session_id.as_str())?;
        self.sessions.insert(0, kept)?;
        self.core.start(session_id);
        Ok(())
    }

    // The answer to the next call, where there is a next call.
    fn answered(&mut self) -> Result<Option<Answer>, AllocError>
        requires { HasPlace self.old }
        ensures answered { IfOk result (λ answer.
            HasAnswered self.old (follow.next_call self.old.follower) answer self.new) }
        ensures follower { self.new.follower ≡ self.old.follower }
    {
        match self.core.next_call() {
            None => Ok(None),
            Some(call) => Ok(Some(self.pair.answer(call)?)),
        }
    }

    // Gives the follower the answer to its call.
    fn take(&mut self, answer: Answer) -> Result<(), AllocError>
        requires { follow.IsAnswerToNext (follow.next_call self.old.follower) (answer_of answer) }
        ensures { OnOk result (self.new ≡ record self.old {
          follower = follow.after_answer self.old.follower (answer_of answer);
        }) }
    {
        match self.core.accept(self.alloc, answer) {
            Ok(()) => Ok(()),
            Err(FollowFault::NoMemory) => Err(AllocError),
            Err(_) => Ok(()),
        }
    }

    // Answers the next call, and gives the follower the answer.
    fn reply(&mut self) -> Result<(), AllocError>
        requires { HasPlace self.old }
        ensures { OnOk result (world.Step self.old world.Reply self.new) }
    {
        let answer = match self.answered() {
            Ok(Some(answer)) => answer,
            Ok(None) => return Ok(()),
            Err(refused) => return Err(refused),
        };
        self.take(answer)
    }

    // Answers the next call by these items, where it asks for changes and the source may answer so.
    fn reply_changes(&mut self, items: Vec<Item<ChangeRow>>) -> Result<(), AllocError>
        ensures { OnOk result (world.Step self.old (world.ChangesReply items.items) self.new) }
    {
        let Some(since) = changes_asked(self.core.next_call()) else {
            return Ok(());
        };
        let answer = match self.pair.changes_in(since, items) {
            Ok(Some(answer)) => answer,
            Ok(None) => return Ok(()),
            Err(refused) => return Err(refused),
        };
        self.take(answer)
    }

    /// Makes an event happen. Out of memory, the event may leave its effect or a part of it.
    pub fn step(&mut self, event: FollowEvent) -> Result<(), AllocError>
        requires { HasPlace self.old }
        ensures { OnOk result (world.Step self.old (event_of event) self.new) }
    {
        match event {
            FollowEvent::Write(docs) => self.pair.write(docs),
            FollowEvent::Start(session_id) => self.start(session_id),
            FollowEvent::Round => {
                self.core.begin_round();
                Ok(())
            }
            FollowEvent::Checkpoint => {
                self.core.begin_checkpoint();
                Ok(())
            }
            FollowEvent::Answer => self.reply(),
            FollowEvent::Changes(items) => self.reply_changes(items),
            FollowEvent::LostBefore => {
                self.core.fail();
                Ok(())
            }
            FollowEvent::LostAfter => {
                if let Some(answer) = self.answered()? {
                    drop(answer);
                    self.core.fail();
                }
                Ok(())
            }
            FollowEvent::Restart => {
                self.core.restart();
                Ok(())
            }
        }
    }

    /// Runs a list of events on two empty databases. An event that finds no memory is an error. Over every
    /// list the copy is faithful. Up to each sequence that a log records, and up to the follower's place, the
    /// target has each document's known revisions, leaves, winner, and the leaves' marks and bodies. Where
    /// such a sequence is the last one of the source, every document is copied.
    pub fn run(alloc: Global, events: Vec<FollowEvent>) -> Result<FollowWorld, AllocError>
        ensures run { IfOk result
            (λ w. world.Run (world.empty_world 4294967295) (map event_of events.items) w) }
        ensures faithful { IfOk result IsFaithful }
    {
        let mut world = FollowWorld::new(alloc);
        for event in events {
            world.step(event)?;
        }
        Ok(world)
    }
}
