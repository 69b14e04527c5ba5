//! A world, which carries out the commands of transcripts.

use crate::texts::{put_outcomes, put_replies, put_reply};
use hub_document::{Doc, Limits};
use hub_feed::FeedId;
use hub_params::FeedParams;
use hub_transcript::{Answer, Subject, Words};
use hub_world::{Docs, Event, Reply, World};
use std::alloc::{AllocError, Global};
use std::fmt::Write;

// The bytes of room for the commands of a case, and for the texts of their replies.
const ROOM: usize = 16_384;

/// A database with feeds. Each command makes one event happen. Feeds go by their numbers.
///
/// - `write DOC ..`: documents come with their histories. A document after `~` has no history.
/// - `make DOC ..`: documents come whose revisions are made here.
/// - `begin QUERY` opens a feed with the parameters of this query, and `empty QUERY` one with the limit 0.
/// - `hand FEED`, `beat FEED`, `expire FEED`, `take FEED`, `finish FEED` and `delete`.
///
/// Each answers the text of its reply. Two commands are no events:
///
/// - `room FEEDS LANE EDITS` begins anew within these limits. Without it the limits are the widest.
/// - `run`: all events so far happen once more, in a run of their own. It answers the texts of the replies.
#[derive(Drop)]
pub(crate) struct Shell {
    alloc: Global,
    limits: Limits,
    world: World,
    // The events so far, a line each.
    commands: String,
    // The text of the last reply, or of all replies of a run.
    last: String,
}

impl<R> Subject<R> for Shell {
    fn begin(_: &R, alloc: Global, _: &str) -> Result<Shell, AllocError> {
        Shell::new(alloc)
    }

    fn answer(&mut self, _: &R, command: &str, answer: &mut Answer) -> Result<(), AllocError> {
        if command == "run" {
            return self.run(answer);
        }
        if let Some(limits) = command.strip_prefix("room ") {
            return self.room(limits);
        }
        self.apply(command)?;
        writeln!(self.commands, "{command}")?;
        answer.text(self.last.as_str())
    }
}

// A text as a number; an error each time where it is no number.
fn number(text: &str) -> Result<u64, AllocError> {
    match text.parse::<u64>() {
        Ok(number) => Ok(number),
        Err(_) => Err(AllocError),
    }
}

// The document of a text; an error out of memory, and each time where the text is no document. After `~`, and
// where revisions are made here, the document has no history.
fn doc(alloc: Global, text: &str, new_edits: bool) -> Result<Doc, AllocError> {
    let bare = text.strip_prefix('~').unwrap_or(text);
    match Doc::read(alloc, bare.as_bytes(), new_edits || bare.len() < text.len()) {
        Ok(doc) => Ok(doc),
        Err(_) => Err(AllocError),
    }
}

// The documents of these texts, without the first `skipped`.
fn docs(alloc: Global, texts: &str, skipped: usize, new_edits: bool) -> Result<Docs, AllocError> {
    let mut list = Vec::new(alloc);
    for text in texts.split(' ').skip(skipped) {
        if !text.is_empty() {
            list.push(doc(alloc, text, new_edits)?)?;
        }
    }
    Ok(Docs { list })
}

// The event that opens a feed of a query. A feed that `is_empty` has the limit 0.
fn begin(alloc: Global, query: &str, is_empty: bool) -> Result<Event, AllocError> {
    let Ok(mut params) = FeedParams::read(alloc, query.as_bytes(), b"") else {
        return Err(AllocError);
    };
    if is_empty {
        params.limit = Some(0);
    }
    Ok(Event::Begin(params))
}

// The event of a command, without the first `skipped` of its documents.
fn event(alloc: Global, command: &str, skipped: usize) -> Result<Event, AllocError> {
    let (verb, rest) = command.split_once(' ').unwrap_or((command, ""));
    match Words::of(verb).verb("write make begin empty delete") {
        0 => Ok(Event::Write(docs(alloc, rest, skipped, false)?)),
        1 => Ok(Event::Interactive(docs(alloc, rest, skipped, true)?)),
        2 => begin(alloc, rest, false),
        3 => begin(alloc, rest, true),
        4 => Ok(Event::Delete),
        _ => feed_event(verb, number(rest)?),
    }
}

// The event of a verb, for the feed of this number.
fn feed_event(verb: &str, number: u64) -> Result<Event, AllocError> {
    let feed = FeedId { number };
    match Words::of(verb).verb("hand beat expire take finish") {
        0 => Ok(Event::Hand(feed)),
        1 => Ok(Event::Heartbeat(feed)),
        2 => Ok(Event::Expire(feed)),
        3 => Ok(Event::Take(feed)),
        4 => Ok(Event::Finish(feed)),
        _ => Err(AllocError),
    }
}

impl Shell {
    /// A database with the widest limits.
    pub(crate) fn new(alloc: Global) -> Result<Shell, AllocError> {
        Ok(Shell {
            alloc,
            limits: Limits::full(),
            world: World::new(alloc, Limits::full()),
            commands: String::with_capacity(alloc, ROOM)?,
            last: String::with_capacity(alloc, ROOM)?,
        })
    }

    /// The text of the last reply, or of all replies of a run.
    pub(crate) fn last(&self) -> &str {
        self.last.as_str()
    }

    /// Begins anew within these limits: of feeds, of the items of a lane, and of edits.
    pub(crate) fn room(&mut self, rest: &str) -> Result<(), AllocError> {
        let mut words = Words::of(rest);
        let feeds = number(words.word())?;
        let lane = number(words.word())?;
        let edits = number(words.word())?;
        if feeds == 0 || feeds > 1024 || lane == 0 || lane > 64 {
            return Err(AllocError);
        }
        if edits == 0 || edits > 4_294_967_295 {
            return Err(AllocError);
        }
        let mut limits = Limits::full();
        limits.feeds = feeds;
        limits.lane = lane;
        limits.journal = edits;
        self.limits = limits;
        self.world = World::new(self.alloc, limits);
        Ok(())
    }

    /// Makes the event of a command happen. Where a document finds no memory, the documents before it stay,
    /// and the event happens again with the other documents.
    pub(crate) fn apply(&mut self, command: &str) -> Result<(), AllocError> {
        let event = event(self.alloc, command, 0)?;
        match self.world.apply(event) {
            Ok(reply) => self.tell(command, &reply),
            Err(AllocError) => Err(AllocError),
        }
    }

    // Keeps the text of the reply to a command.
    fn tell(&mut self, command: &str, reply: &Reply) -> Result<(), AllocError> {
        self.last.clear();
        put_reply(&mut self.last, reply)?;
        match reply {
            Reply::Outcomes(batch) if batch.stopped => {
                self.apply_rest(command, batch.replies.as_slice().len())
            }
            _ => Ok(()),
        }
    }

    // Makes the event happen again without the first `skipped` documents, and adds the outcomes.
    fn apply_rest(&mut self, command: &str, skipped: usize) -> Result<(), AllocError> {
        let event = event(self.alloc, command, skipped)?;
        match &self.world.apply(event)? {
            Reply::Outcomes(batch) => put_outcomes(&mut self.last, batch),
            _ => Err(AllocError),
        }
    }

    // The events so far.
    fn events(&self) -> Result<Vec<Event>, AllocError> {
        let mut events = Vec::new(self.alloc);
        for command in self.commands.as_str().split_terminator('\n') {
            events.push(event(self.alloc, command, 0)?)?;
        }
        Ok(events)
    }

    // Runs the events so far.
    fn run(&mut self, answer: &mut Answer) -> Result<(), AllocError> {
        let (_world, replies) = World::run(self.alloc, self.limits, self.events()?)?;
        self.last.clear();
        put_replies(&mut self.last, replies.as_slice())?;
        answer.text(self.last.as_str())
    }
}
