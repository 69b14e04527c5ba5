//! A hub's shell, which carries out the commands of transcripts.

use hub_databases::{Hub, HubDb, HubFault, Written};
use hub_document::{Doc, Limits};
use hub_model::{Item, Outcome};
use hub_params::FeedParams;
use hub_shared::{Bell, Feed, Gate, Plain, Point, Turn, UpdatesFeed, Watch, hold};
use hub_transcript::{Answer, Subject, Words};
use std::alloc::{AllocError, Global};
use std::sync::{Arc, Wait};

// A gate that holds no thread.
#[derive(Drop)]
struct Open;

impl Gate for Open {
    fn pass(&self, _point: Point) {}
}

/// A hub, the database in use, a feed of the database, and a feed of the log of updates. The commands:
///
/// - `create NAME` and `remove NAME` answer the hub's outcome.
/// - `find NAME` has the database of this name in use from here on, also after its removal, and answers its
///   name.
/// - `write` writes one more document to the database in use, and answers the outcome. Where its note finds
///   no memory the document stays, and the command is given again with another document. So no answer tells
///   the number of the documents.
/// - `follow` opens a continuous feed of the database in use, from now on, and `follow-log` one of the log.
///   Each has a watch, and both watches ring one bell.
/// - `hand` answers the outcome of one holding for the database's feed. `take` answers its next item.
/// - `news` says which of the bell and the watches had news since the last time. `finish` finishes the feeds.
#[derive(Drop)]
pub(crate) struct Shell {
    alloc: Global,
    hub: Hub,
    db: Option<HubDb>,
    feed: Option<Feed<Plain>>,
    log: Option<UpdatesFeed>,
    watches: Watches,
    // How many documents were stored.
    stored: u64,
}

// The watches of both feeds, and the bell that they ring.
#[derive(Drop)]
struct Watches {
    bell: Arc<Bell, Global>,
    of_database: Arc<Watch, Global>,
    of_log: Arc<Watch, Global>,
}

// A new watch that rings a bell.
fn watch(alloc: Global, bell: &Arc<Bell, Global>) -> Result<Arc<Watch, Global>, AllocError> {
    let bell = Arc::try_clone(bell)?;
    Ok(Arc::new(alloc, Watch::new(bell))?)
}

impl Watches {
    fn new(alloc: Global) -> Result<Watches, AllocError> {
        let bell = Arc::new(alloc, Bell::new())?;
        let of_database = watch(alloc, &bell)?;
        let of_log = watch(alloc, &bell)?;
        Ok(Watches {
            bell,
            of_database,
            of_log,
        })
    }

    // Tells which of the bell and the watches had news since the last time.
    fn news(&self, answer: &mut Answer) -> Result<(), AllocError> {
        if self.bell.take() {
            answer.text("bell\n")?;
        }
        if self.of_database.take() {
            answer.text("database\n")?;
        }
        if self.of_log.take() {
            answer.text("log\n")?;
        }
        Ok(())
    }
}

impl<R: Wait> Subject<R> for Shell {
    fn begin(_: &R, alloc: Global, _: &str) -> Result<Shell, AllocError> {
        let watches = Watches::new(alloc)?;
        Ok(Shell {
            alloc,
            hub: Hub::new(alloc, Limits::full())?,
            db: None,
            feed: None,
            log: None,
            watches,
            stored: 0,
        })
    }

    fn answer(&mut self, rt: &R, command: &str, answer: &mut Answer) -> Result<(), AllocError> {
        let mut words = Words::of(command);
        match words.verb("create remove find write news") {
            0 => told(answer, self.hub.create(rt, words.rest())),
            1 => told(answer, self.hub.remove(rt, words.rest())),
            2 => self.find(rt, words.rest(), answer),
            3 => self.write(rt, answer),
            4 => self.watches.news(answer),
            _ => self.answer_of_feeds(rt, command, answer),
        }
    }
}

// Writes the outcome of a call on the names.
fn told(answer: &mut Answer, told: Result<(), HubFault>) -> Result<(), AllocError> {
    match told {
        Err(HubFault::NoMemory) => Err(AllocError),
        told => answer.line(format_args!("{told:?}")),
    }
}

// The document of this number; an error out of memory.
fn docs(alloc: Global, number: u64) -> Result<Vec<Doc>, AllocError> {
    let text = format!(in alloc; r#"{{"_id":"{number}","_rev":"1-a"}}"#)?;
    let mut docs = Vec::with_capacity(alloc, 1)?;
    match Doc::read(alloc, text.as_bytes(), false) {
        Ok(doc) => docs.push(doc)?,
        Err(_) => return Err(AllocError),
    }
    Ok(docs)
}

// The parameters of a feed that waits; an error out of memory.
fn waiting(alloc: Global) -> Result<FeedParams, AllocError> {
    match FeedParams::read(alloc, b"feed=continuous&since=now", b"") {
        Ok(params) => Ok(params),
        Err(_) => Err(AllocError),
    }
}

impl Shell {
    // The database in use; an error each time where no database is in use.
    fn db(&self) -> Result<&HubDb, AllocError> {
        match &self.db {
            Some(db) => Ok(db),
            None => Err(AllocError),
        }
    }

    fn find<R: Wait>(&mut self, rt: &R, name: &str, answer: &mut Answer) -> Result<(), AllocError> {
        match self.hub.find(rt, name) {
            Ok(db) => {
                let told = answer.line(db.name());
                self.db = Some(db);
                told
            }
            Err(fault) => told(answer, Err(fault)),
        }
    }

    fn write<R: Wait>(&mut self, rt: &R, answer: &mut Answer) -> Result<(), AllocError> {
        let docs = docs(self.alloc, self.stored)?;
        match self.hub.write(rt, self.db()?, docs, false) {
            Ok(written) => self.note(&written, answer),
            Err(_) => Err(AllocError),
        }
    }

    // Notes and tells the outcome of a document.
    fn note(&mut self, written: &Written, answer: &mut Answer) -> Result<(), AllocError> {
        match written.batch.replies.as_slice() {
            [Outcome::Stored(_)] => self.stored = self.stored.saturating_add(1),
            [] => return Err(AllocError),
            replies => return answer.line(format_args!("{replies:?}")),
        }
        match written.lapsed {
            None => answer.line("stored"),
            Some(_) => Err(AllocError),
        }
    }

    fn answer_of_feeds<R: Wait>(
        &mut self,
        rt: &R,
        command: &str,
        answer: &mut Answer,
    ) -> Result<(), AllocError> {
        match Words::of(command).verb("follow follow-log hand take finish") {
            0 => self.follow(rt),
            1 => self.follow_log(rt),
            2 => self.hand(rt, answer),
            3 => self.take(rt, answer),
            4 => self.finish(rt),
            _ => answer.line("?"),
        }
    }

    fn follow<R: Wait>(&mut self, rt: &R) -> Result<(), AllocError> {
        let watch = Arc::try_clone(&self.watches.of_database)?;
        let params = waiting(self.alloc)?;
        match self.db()?.handle()?.open_feed(rt, params) {
            Ok(feed) => {
                feed.watch(rt, watch);
                self.feed = Some(feed);
                Ok(())
            }
            Err(_) => Err(AllocError),
        }
    }

    fn follow_log<R: Wait>(&mut self, rt: &R) -> Result<(), AllocError> {
        let watch = Arc::try_clone(&self.watches.of_log)?;
        match self.hub.updates(rt, waiting(self.alloc)?) {
            Ok(log) => {
                log.watch(rt, watch);
                self.log = Some(log);
                Ok(())
            }
            Err(_) => Err(AllocError),
        }
    }

    fn hand<R: Wait>(&self, rt: &R, answer: &mut Answer) -> Result<(), AllocError> {
        let Some(feed) = &self.feed else {
            return Err(AllocError);
        };
        let handed = hold(rt, self.db()?.db(), feed.id(), Turn::Hand, &Open)?;
        answer.line(format_args!("{handed:?}"))
    }

    fn take<R: Wait>(&mut self, rt: &R, answer: &mut Answer) -> Result<(), AllocError> {
        let Some(feed) = &mut self.feed else {
            return Err(AllocError);
        };
        match &feed.take(rt) {
            Some(Item::End { last_seq, pending }) if *last_seq == self.stored => {
                answer.line(format_args!("the end at the last document, pending {pending}"))
            }
            other => answer.line(format_args!("{other:?}")),
        }
    }

    fn finish<R: Wait>(&mut self, rt: &R) -> Result<(), AllocError> {
        if let Some(feed) = self.feed.take() {
            drop(feed.finish(rt));
        }
        if let Some(log) = self.log.take() {
            drop(log.finish(rt));
        }
        Ok(())
    }
}
