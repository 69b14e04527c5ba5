//! A database that threads share, which carries out the commands of transcripts.

use crate::tests::followed::{Followed, Pace};
use crate::tests::shows::round_docs;
use crate::tests::told::{Rev, put_answer, put_debug, put_receipts, put_replies, put_row};
use hub_database::{DbFault, DbState, Question, Receipt};
use hub_document::{Asked, Doc, DocId, Limits, LocalDoc, OpenRevs, RevId, Revisions};
use hub_feed::OpenFault;
use hub_model::Item;
use hub_params::FeedParams;
use hub_shared::{Accepted, Bell, ChangeItem, Db, Feed, Handle, Plain, Watch};
use hub_transcript::{Answer, Subject, Words};
use std::alloc::{AllocError, Global};
use std::sync::{Arc, Wait};
use std::time;

/// The number of the life of each database.
const LIFE: u64 = 6;

// The bytes of room for the commands of a case.
const ROOM: usize = 8_192;

/// A database behind its lock, and its feeds. The commands:
///
/// - `limits LANE HOLD FEEDS JOURNAL` begins anew, with a database within these limits. Without it the limits
///   are the widest.
/// - `write DOC ..` writes documents of another database. It answers the outcome of each, and keeps and
///   answers a receipt of each that was stored. `load` is the same, and answers the receipts alone.
/// - `store DOC ..` stores documents whose revisions are made here, without receipts, and answers the outcome
///   of each. `edit DOC` stores one, and answers its revision, or the fault.
/// - `round NUMBER` writes the documents of a round (`round_docs`), and answers nothing.
/// - `local TEXT` stores a local document, and answers how often it was written.
/// - `look ID` answers how many edits there are, whether there is a document of this id, and how often the
///   local document was written. `look` alone is a look that finds no memory.
/// - `ask info`, `ask get ID`, `ask history ID`, `ask winner ID`, `ask leaves ID` and `ask local` are
///   questions. So are `ask falling QUERY`, for the rows downwards, and `ask missing ID REV`, whether a
///   revision is missing. `delete` deletes the database.
/// - `audit` compares all kept receipts with the journal. `audit AT SEQ ID REV` first puts this receipt in
///   the place AT, counted from 0.
/// - `open QUERY STEP` opens a feed of the database, whose clock goes on by STEP milliseconds with each
///   reading. It answers the sequence at which the feed begins, and the life of its sequences; or the fault.
/// - `VERB FEED` is a command of a feed (`Followed`). The feeds are numbered from 1 on.
/// - `watch FEED WATCH` puts a watch on a feed. `news WATCH` tells the news of this watch and its bell, and
///   takes the news. The watches are numbered from 1 on.
/// - `rows` polls a new feed of the database until it waits. A feed that finds no memory for a row is over:
///   another feed goes on after the rows that it handed.
///
/// After a command out of memory, the earlier commands of the case are carried out on a new database.
#[derive(Drop)]
pub(crate) struct Shared {
    database: Database,
    // The commands so far, a line each.
    commands: String,
}

impl<R: Wait + time::Clock> Subject<R> for Shared {
    fn begin(_: &R, alloc: Global, _: &str) -> Result<Shared, AllocError> {
        let commands = String::with_capacity(alloc, ROOM)?;
        Ok(Shared {
            database: Database::new(alloc, Limits::full())?,
            commands,
        })
    }

    fn answer(&mut self, rt: &R, command: &str, answer: &mut Answer) -> Result<(), AllocError> {
        if self.database.run(rt, command, answer).is_ok() {
            self.commands.push_str(command)?;
            return self.commands.push('\n');
        }
        self.database = Database::new(self.database.alloc, Limits::full())?;
        for earlier in self.commands.as_str().split('\n') {
            self.database.run(rt, earlier, answer)?;
        }
        Err(AllocError)
    }
}

/// A sender of feeds: a bell, and a watch that rings it.
#[derive(Drop)]
struct Sender {
    bell: Arc<Bell, Global>,
    watch: Arc<Watch, Global>,
}

impl Sender {
    fn new(alloc: Global) -> Result<Sender, AllocError> {
        let bell = Arc::new(alloc, Bell::new())?;
        let watch = Arc::new(alloc, Watch::new(Arc::try_clone(&bell)?))?;
        Ok(Sender { bell, watch })
    }

    // Writes the news of the bell and the watch, and takes the news.
    fn news(&self, answer: &mut Answer) -> Result<(), AllocError> {
        if self.bell.is_rung() {
            answer.line("rung")?;
        }
        if self.bell.take() {
            answer.line("bell")?;
        }
        if self.watch.take() {
            answer.line("watch")?;
        }
        Ok(())
    }
}

// The documents of these texts; an error out of memory, and each time where a text is no document. The
// revisions of new edits are made here.
fn docs(alloc: Global, texts: &str, new_edits: bool) -> Result<Vec<Doc>, AllocError> {
    let mut docs = Vec::new(alloc);
    for text in texts.split(' ') {
        let Ok(doc) = Doc::read(alloc, text.as_bytes(), new_edits) else {
            return Err(AllocError);
        };
        docs.push(doc)?;
    }
    Ok(docs)
}

// The parameters of a query; an error out of memory, and each time where the query is refused.
fn params(alloc: Global, query: &str) -> Result<FeedParams, AllocError> {
    match FeedParams::read(alloc, query.as_bytes(), b"") {
        Ok(params) => Ok(params),
        Err(_) => Err(AllocError),
    }
}

// How many edits there are, whether there is a document of this id, and how often the local document was
// written. It takes no memory. Without an id it answers that it found none.
fn looked(state: &DbState, id: &str) -> Result<(u64, bool, u64), DbFault> {
    if id == "" {
        return Err(DbFault::NoMemory);
    }
    let edits = state.info()?.update_seq;
    let count = match state.local_get("_local/p")? {
        Some(local) => local.count,
        None => 0,
    };
    Ok((edits, state.winner(id).is_some(), count))
}

// The question whether a revision of a document is missing; an error each time where the text is no revision.
fn missing(alloc: Global, words: &mut Words<'_>) -> Result<Question, AllocError> {
    let id = words.word();
    let Some(rev) = RevId::read(words.rest()) else {
        return Err(AllocError);
    };
    let revs = Revisions::new(Vec::from_slice(alloc, &[rev])?);
    let id = String::from_str(alloc, id)?;
    let mut asked = Vec::with_capacity(alloc, 1)?;
    asked.push(Asked { id, revs })?;
    Ok(Question::RevsDiff(asked))
}

// A question about the document of this id.
fn question_of(verb: usize, id: String) -> Question {
    match verb {
        3 => Question::Get { id, revs: false },
        4 => Question::Get { id, revs: true },
        5 => Question::Winner { id },
        6 => Question::OpenRevs {
            id,
            which: OpenRevs::All,
            revs: true,
        },
        _ => Question::Local { id },
    }
}

// The question of a command.
fn question(alloc: Global, rest: &str) -> Result<Question, AllocError> {
    let mut words = Words::of(rest);
    match words.verb("info falling missing get history winner leaves local") {
        0 => Ok(Question::Info),
        1 => Ok(Question::Descending(params(alloc, words.rest())?)),
        2 => missing(alloc, &mut words),
        verb => Ok(question_of(verb, String::from_str(alloc, words.rest())?)),
    }
}

// Writes the row of an item, and keeps its sequence in `last`. Answers whether the item is a row.
fn put_next(
    alloc: Global,
    item: &ChangeItem,
    last: &mut u64,
    answer: &mut Answer,
) -> Result<bool, AllocError> {
    let Item::Row(row) = item else {
        return Ok(false);
    };
    *last = row.seq;
    put_row(alloc, row, answer)?;
    Ok(true)
}

// Polls a feed until it gives no row, nine times at most, and writes the rows. Answers whether the feed then
// waits. The sequence of the last row is kept in `last`.
fn put_rows<R: Wait>(
    rt: &R,
    alloc: Global,
    feed: &mut Feed<Plain>,
    last: &mut u64,
    answer: &mut Answer,
) -> Result<bool, AllocError> {
    let pace = Pace::new(0);
    for _ in 0..9 {
        if !feed.poll(rt, &pace, &pace) {
            return Ok(!feed.is_over());
        }
        let put = feed.show(rt, last, answer, |item, last, answer| {
            put_next(alloc, item, last, answer)
        });
        match put {
            Some(Ok(true)) => {}
            Some(Err(AllocError)) => return Err(AllocError),
            _ => break,
        }
    }
    Ok(false)
}

#[derive(Drop)]
struct Database {
    alloc: Global,
    handle: Handle<Plain>,
    feeds: Vec<Followed>,
    senders: Vec<Sender>,
    receipts: Vec<Receipt>,
}

impl Database {
    fn new(alloc: Global, limits: Limits) -> Result<Database, AllocError> {
        let (_db, handle) = Db::new(alloc, limits, LIFE, Plain)?;
        Ok(Database {
            alloc,
            handle,
            feeds: Vec::new(alloc),
            senders: Vec::new(alloc),
            receipts: Vec::new(alloc),
        })
    }

    // Carries out a command.
    fn run<R: Wait + time::Clock>(
        &mut self,
        rt: &R,
        command: &str,
        answer: &mut Answer,
    ) -> Result<(), AllocError> {
        let mut words = Words::of(command);
        match words.verb("write load store edit local look ask audit") {
            0 => self.write(rt, words.rest(), true, answer),
            1 => self.write(rt, words.rest(), false, answer),
            2 => self.store(rt, words.rest(), answer),
            3 => self.edit(rt, words.rest(), answer),
            4 => self.local(rt, words.rest(), answer),
            5 => put_debug(&self.look(rt, words.rest()), answer),
            6 => self.ask(rt, words.rest(), answer),
            7 => self.audit(rt, words.rest(), answer),
            _ => self.run_other(rt, command, answer),
        }
    }

    // Carries out a command that is of no documents.
    fn run_other<R: Wait + time::Clock>(
        &mut self,
        rt: &R,
        command: &str,
        answer: &mut Answer,
    ) -> Result<(), AllocError> {
        let mut words = Words::of(command);
        match words.verb("open limits rows news watch delete round") {
            0 => self.open(rt, words.rest(), answer),
            1 => self.limits(words.rest()),
            2 => self.rows(rt, answer),
            3 => match self
                .senders
                .get((words.number() as usize).saturating_sub(1))
            {
                Some(sender) => sender.news(answer),
                None => Ok(()),
            },
            4 => self.watch(rt, words.number(), words.number() as usize),
            5 => put_debug(&self.handle.delete(rt), answer),
            6 => self.round(rt, words.number()),
            _ => self.run_feed(rt, command, answer),
        }
    }

    // Carries out a command of a feed.
    fn run_feed<R: Wait + time::Clock>(
        &mut self,
        rt: &R,
        command: &str,
        answer: &mut Answer,
    ) -> Result<(), AllocError> {
        let mut words = Words::of(command);
        let (verb, number) = (words.word(), words.number());
        let db = self.handle.db();
        match self.feeds.get_mut((number as usize).saturating_sub(1)) {
            Some(feed) => feed.run(rt, db, verb, answer),
            None => answer.line("?"),
        }
    }

    fn limits(&mut self, rest: &str) -> Result<(), AllocError> {
        let mut words = Words::of(rest);
        let (lane, hold) = (words.number(), words.number());
        let (feeds, journal) = (words.number(), words.number());
        if lane == 0 || lane > 64 || hold == 0 || hold > 64 {
            return Err(AllocError);
        }
        if feeds == 0 || feeds > 1_024 || journal == 0 || journal > 4_294_967_295 {
            return Err(AllocError);
        }
        let mut limits = Limits::full();
        limits.lane = lane;
        limits.hold = hold;
        limits.feeds = feeds;
        limits.journal = journal;
        *self = Database::new(self.alloc, limits)?;
        Ok(())
    }

    // Puts the watch of the sender of this number on a feed. Senders are made as they are named.
    fn watch<R: Wait>(&mut self, rt: &R, feed: u64, sender: usize) -> Result<(), AllocError> {
        for _ in self.senders.len()..sender {
            self.senders.push(Sender::new(self.alloc)?)?;
        }
        let feed = self.feeds.get((feed as usize).saturating_sub(1));
        match (feed, self.senders.get(sender.saturating_sub(1))) {
            (Some(feed), Some(sender)) => feed.watch(rt, &sender.watch),
            _ => Err(AllocError),
        }
    }

    fn write<R: Wait>(
        &mut self,
        rt: &R,
        texts: &str,
        has_replies: bool,
        answer: &mut Answer,
    ) -> Result<(), AllocError> {
        let docs = docs(self.alloc, texts, false)?;
        match self.handle.write(rt, docs, false) {
            Ok(accepted) if !accepted.stopped => self.keep(accepted, has_replies, answer),
            _ => Err(AllocError),
        }
    }

    // Writes the documents of a round.
    fn round<R: Wait>(&mut self, rt: &R, round: u64) -> Result<(), AllocError> {
        let docs = round_docs(self.alloc, round)?;
        match self.handle.write(rt, docs, false) {
            Ok(accepted) if !accepted.stopped => Ok(()),
            _ => Err(AllocError),
        }
    }

    // Writes the outcomes of documents, where they are asked for, and their receipts, and keeps the receipts.
    fn keep(
        &mut self,
        accepted: Accepted,
        has_replies: bool,
        answer: &mut Answer,
    ) -> Result<(), AllocError> {
        let put = if has_replies {
            put_replies(accepted.replies.as_slice(), answer)
        } else {
            Ok(())
        };
        let mut receipts = accepted.receipts;
        let told = put_receipts(receipts.as_slice(), answer);
        let kept = self.receipts.append(&mut receipts);
        put.and(told).and(kept)
    }

    fn store<R: Wait>(
        &mut self,
        rt: &R,
        texts: &str,
        answer: &mut Answer,
    ) -> Result<(), AllocError> {
        let docs = docs(self.alloc, texts, true)?;
        match self.handle.store(rt, docs, true) {
            Ok(batch) if !batch.stopped => put_replies(batch.replies.as_slice(), answer),
            _ => Err(AllocError),
        }
    }

    fn edit<R: Wait>(&mut self, rt: &R, text: &str, answer: &mut Answer) -> Result<(), AllocError> {
        let Ok(doc) = Doc::read(self.alloc, text.as_bytes(), true) else {
            return Err(AllocError);
        };
        match self.handle.write_one(rt, doc) {
            Ok(rev) => answer.line(Rev(rev)),
            Err(DbFault::NoMemory) => Err(AllocError),
            Err(fault) => put_debug(&fault, answer),
        }
    }

    // Stores a local document. A call that finds no memory has to change nothing.
    fn local<R: Wait>(
        &mut self,
        rt: &R,
        text: &str,
        answer: &mut Answer,
    ) -> Result<(), AllocError> {
        let before = self.look(rt, "p");
        let Ok(doc) = LocalDoc::read(self.alloc, "_local/p", text.as_bytes()) else {
            return Err(AllocError);
        };
        let put = self.handle.local_put(rt, doc);
        if put != Err(DbFault::NoMemory) {
            return put_debug(&put, answer);
        }
        if self.look(rt, "p") != before {
            return answer.line("a write without memory changed something");
        }
        Err(AllocError)
    }

    fn look<R: Wait>(&mut self, rt: &R, id: &str) -> Result<(u64, bool, u64), DbFault> {
        self.handle.look(rt, |state| looked(state, id))
    }

    fn ask<R: Wait>(&mut self, rt: &R, rest: &str, answer: &mut Answer) -> Result<(), AllocError> {
        let told = self.handle.read(rt, question(self.alloc, rest)?);
        put_answer(self.alloc, &told, answer)
    }

    fn audit<R: Wait>(
        &mut self,
        rt: &R,
        rest: &str,
        answer: &mut Answer,
    ) -> Result<(), AllocError> {
        if rest != "" {
            self.tell(rest)?;
        }
        let told = self.handle.audit(rt, self.receipts.as_slice());
        put_debug(&told, answer)
    }

    // Puts a receipt in the place of another one.
    fn tell(&mut self, rest: &str) -> Result<(), AllocError> {
        let mut words = Words::of(rest);
        let (at, seq, id) = (words.number(), words.number(), words.word());
        let Some(rev) = RevId::read(words.word()) else {
            return Err(AllocError);
        };
        let Some(id) = DocId::read(self.alloc, id)? else {
            return Err(AllocError);
        };
        if let Some(receipt) = self.receipts.get_mut(at as usize) {
            *receipt = Receipt { seq, id, rev };
        }
        Ok(())
    }

    fn open<R: Wait>(&mut self, rt: &R, rest: &str, answer: &mut Answer) -> Result<(), AllocError> {
        let mut words = Words::of(rest);
        let params = params(self.alloc, words.word())?;
        match self.handle.open_feed(rt, params) {
            Ok(feed) => self.follow(feed, words.number(), answer),
            Err(OpenFault::NoMemory) => Err(AllocError),
            Err(fault) => put_debug(&fault, answer),
        }
    }

    // Keeps a feed, and writes the sequence at which it begins, and the life of its sequences.
    fn follow(
        &mut self,
        feed: Feed<Plain>,
        step: u64,
        answer: &mut Answer,
    ) -> Result<(), AllocError> {
        let (since, life) = (feed.end().label().since(), feed.end().label().life());
        self.feeds.push(Followed::new(self.alloc, feed, step))?;
        answer.line(format_args!("since {since} of life {life}"))
    }

    // A continuous feed that begins after this sequence.
    fn feed_behind<R: Wait>(&mut self, rt: &R, last: u64) -> Result<Feed<Plain>, AllocError> {
        let query = format!(in self.alloc; "feed=continuous&since={last}")?;
        let params = params(self.alloc, query.as_str())?;
        match self.handle.open_feed(rt, params) {
            Ok(feed) => Ok(feed),
            Err(_) => Err(AllocError),
        }
    }

    fn rows<R: Wait>(&mut self, rt: &R, answer: &mut Answer) -> Result<(), AllocError> {
        let mut last = 0u64;
        for _ in 0..2 {
            let Ok(mut feed) = self.feed_behind(rt, last) else {
                continue;
            };
            let waits = put_rows(rt, self.alloc, &mut feed, &mut last, answer);
            drop(feed.finish(rt));
            if waits == Ok(true) {
                return answer.line("it waits");
            }
        }
        Err(AllocError)
    }
}
