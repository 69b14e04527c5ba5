//! A database that carries out the commands of transcripts.

mod asks;
mod feeds;
mod items;

use crate::session::items::put_refusal;
use hub_database::{DbFault, DbState};
use hub_document::{ChangeRow, Doc, Limits};
use hub_model::Item;
use hub_transcript::{Answer, Subject, Words};
use std::alloc::{AllocError, Global};
use std::fmt::Write;

// The number of the life of each database.
const LIFE: u64 = 6;

// The bytes that an answer has room for. So no answer takes memory after a call that changed the database.
const ROOM: usize = 4_000;

/// A database of life 6. In a case whose name begins with `one feed: ` it has room for one open feed. A
/// command that is refused answers `refused` and why.
///
/// Commands on the database. Each document is a JSON text without blanks:
///
/// - `merge DOC`: stores a document that another database made, and tells the number of edits
/// - `bulk DOC`: stores a document whose revision is made here, and tells the number of edits
/// - `next`: stores a document whose id is its sequence, with the revision `1-a`
/// - `delete`: deletes the database
/// - `state`: tells the number of edits, the length as a host of feeds, the life, and whether it is deleted
/// - `entry SEQ`: names the document and the revision of an edit, and shows the edit as it came
/// - `winner ID`: tells the best leaf of a document
///
/// Commands on feeds, by number. A row is `Row SEQ/SEEN ID REV..`, and then has `deleted` and its members:
///
/// - `open QUERY`: opens a feed
/// - `take FEED`: shows the next item that the feed has to hand, and accepts it
/// - `hand FEED`, `full FEED`: the feed hands into a list with room for one item, or for none
/// - `items FEED MOST`, `items-full FEED MOST`: the feed hands so many items at most into a list with room for
///   all of them, or for all but one. It tells the last answer, how many items the list took, and each item.
/// - `items-over FEED MOST`: as `items`, and the items of the last such command are spare items of the list,
///   the last one first. The spare items are dropped behind it.
/// - `beat-due FEED`: tells whether a beat is due
/// - `expire FEED`, `finish FEED`: ends the feed's time, or finishes the feed
///
/// `COMMAND times N` carries out a command N times.
///
/// Where a growth of a command is refused, the database shows the same as before. The same command then
/// answers as with ample memory. So a transcript holds whichever one growth is refused. The growths of the
/// test itself are among them, as that of a document's text.
#[derive(Drop)]
pub(crate) struct Session {
    alloc: Global,
    state: DbState,
    // The items that the last command for several items handed.
    items: Vec<Item<ChangeRow>>,
}

impl<R> Subject<R> for Session {
    fn begin(_: &R, alloc: Global, case: &str) -> Result<Session, AllocError> {
        let mut limits = Limits::full();
        if case.starts_with("one feed: ") {
            limits.feeds = 1;
        }
        Ok(Session {
            alloc,
            state: DbState::new(alloc, limits, LIFE),
            items: Vec::new(alloc),
        })
    }

    fn answer(&mut self, _: &R, command: &str, answer: &mut Answer) -> Result<(), AllocError> {
        let (command, times) = command.split_once(" times ").unwrap_or((command, "1"));
        let mut out = String::with_capacity(self.alloc, ROOM)?;
        for _ in 0..times.parse::<u64>().unwrap_or(0) {
            out.clear();
            self.put_again(command, &mut out)?;
            answer.text(out.as_str())?;
        }
        Ok(())
    }
}

impl Session {
    // Writes the answer. A command out of memory leaves the info and the winner of `a`, and runs once more.
    fn put_again(&mut self, command: &str, out: &mut String) -> Result<(), AllocError> {
        let (info, winner) = (self.state.info(), self.state.winner("a"));
        if self.run(command, out).is_ok() {
            return Ok(());
        }
        out.clear();
        if info != self.state.info() || winner != self.state.winner("a") {
            return out.push_str("it failed and changed the database\n");
        }
        self.run(command, out)
    }

    // Carries out a command.
    fn run(&mut self, command: &str, out: &mut String) -> Result<(), AllocError> {
        let mut words = Words::of(command);
        match words.verb("merge bulk next delete state entry winner open") {
            0 => self.write(words.rest(), false, out),
            1 => self.write(words.rest(), true, out),
            2 => self.write_next(),
            3 => self.delete(out),
            4 => self.tell(out),
            5 => self.entry(words.number(), out),
            6 => self.winner(words.rest(), out),
            7 => self.open(words.rest(), out),
            _ => self.run_feed(command, out),
        }
    }

    // Stores a document; an error out of memory, and each time where the text is no document.
    fn store(&mut self, text: &str, new_edits: bool) -> Result<(), AllocError> {
        let Ok(doc) = Doc::read(self.alloc, text.as_bytes(), new_edits) else {
            return Err(AllocError);
        };
        let mut docs = Vec::new(self.alloc);
        docs.push(doc)?;
        match self.state.write_edits(docs, new_edits) {
            Ok(batch) if !batch.stopped => Ok(()),
            _ => Err(AllocError),
        }
    }

    // Stores a document, and counts the edits.
    fn write(&mut self, text: &str, new_edits: bool, out: &mut String) -> Result<(), AllocError> {
        self.store(text, new_edits)?;
        writeln!(out, "seq {}", self.state.update_seq())
    }

    // Stores a document whose id is its sequence.
    fn write_next(&mut self) -> Result<(), AllocError> {
        let next = self.state.update_seq().saturating_add(1);
        let text = format!(in self.alloc; r#"{{"_id":"{next}","_rev":"1-a"}}"#)?;
        self.store(text.as_str(), false)
    }

    // Deletes the database.
    fn delete(&mut self, out: &mut String) -> Result<(), AllocError> {
        match self.state.delete() {
            Ok(()) => Ok(()),
            Err(DbFault::Refused(fault)) => put_refusal(out, &fault),
            Err(DbFault::NoMemory) => Err(AllocError),
        }
    }
}
