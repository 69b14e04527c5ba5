//! Transcripts of two databases and a follower between them.

use crate::tests::desk::{Desk, Lost};
use crate::tests::{LOG, database, number, text_of};
use hub_document::Limits;
use hub_follower::DbPeer;
use hub_shared::{Db, Plain};
use hub_transcript::{Answer, Subject, Words};
use std::alloc::{AllocError, Global};
use std::sync::Wait;

/// A source and a target, both empty at first and of the life 1, and a follower of the source into the
/// target. A sequence is shown as in a log: its number, with its life where the life is known.
///
/// - `make END LIFE [LIMIT]`: puts a new database in the place of `source` or `target`. The running session
///   has it too. The limit `feed` gives room for one feed, the limit `edit` for one edit.
/// - `put DOC ..`: stores documents with their histories at the source, and tells how many edits it has.
/// - `fill N`: stores N documents d0, d1 and so on there, each with the revision 1-a, and tells the same.
/// - `delete END`: deletes the database of an end.
/// - `keep END LOG`: keeps a log at an end. The log is written as `Values` says.
/// - `logs ID`: later sessions have logs of this id.
/// - `loses END N LOSS`: later sessions lose the call of this number of an end, `before` its effect or
///   `after` it. Calls are counted from 1.
/// - `session ID`: begins a session, and tells its place. A failed start tells why, then how many faults
///   source and target counted, and how many of those their databases counted. In `session ID numbers` a call
///   for changes has the number of its sequence alone, without the life.
/// - `round`: makes a round, and tells its outcome and the place after it.
/// - `copy`: makes rounds until a round finds nothing new, and one round more, told as `round` tells it.
/// - `checkpoint`: records the place, and tells the sequences that the logs of source and target record.
/// - `end`: ends the session, and tells the counts of faults as `session` does.
/// - `library ID OTHER`: copies the source by the example of README.md, in a session of the first id. Out of
///   memory, it copies once more, in a session of the other id.
/// - `count`: tells how many edits the target has.
/// - `log END`: tells the text of the log that an end keeps, or `none`.
/// - `leaves ID`: tells the leaves of a document at both ends, best first.
/// - `changes SEQ`: tells how many rows the source lists above a sequence, and where they end.
/// - `missing SEQ`: tells the documents of which the target misses revisions that the source lists above SEQ.
/// - `first DOC ..`: sets the documents that `lose` has its first session copy and record.
/// - `then DOC ..`: sets the documents that `lose` stores at the source after that session.
/// - `ids ID ..`: sets the ids of the documents whose leaves `lose` compares in the end.
/// - `lose END N LOSS`: runs sessions between two new databases. The second one loses such a call, the third
///   loses none. It tells how the second session ended, how many edits the target had then, where the third
///   one began, and how many edits the target has at last. The target then has the source's leaves and as
///   many edits, and both logs record all of them.
///
/// Where a growth of the second session of `lose` is refused, the third one goes on as after any failure. A
/// call that is to be lost, but finds no memory itself, has no effect. So `lose` runs all sessions until two
/// runs tell the same.
#[derive(Drop)]
pub(crate) struct Copier<'a, R: Wait> {
    rt: &'a R,
    source: Db<Plain>,
    target: Db<Plain>,
    desk: Desk<DbPeer<'a, R>>,
}

// The limits of a database with room for one `feed` or one `edit`, or else those of a hub that serves.
fn limits_of(limit: &str) -> Limits {
    let mut limits = Limits::full();
    if limit == "feed" {
        limits.feeds = 1;
    }
    if limit == "edit" {
        limits.journal = 1;
    }
    limits
}

impl<'a, R: Wait> Copier<'a, R> {
    // The database of an end.
    fn db(&self, name: &str) -> &Db<Plain> {
        if name == "source" {
            &self.source
        } else {
            &self.target
        }
    }

    // Puts a new database in the place of the source or the target.
    fn make(&mut self, is_source: bool, life: u64, limits: Limits) -> Result<(), AllocError> {
        let alloc = self.desk.alloc;
        let db = database(alloc, limits, life)?;
        let peer = DbPeer::new(self.rt, alloc, db.handle()?);
        if is_source {
            self.source = db;
            self.desk.source.put(peer)
        } else {
            self.target = db;
            self.desk.target.put(peer)
        }
    }

    // Deletes a database.
    fn delete(&mut self, name: &str, answer: &mut Answer) -> Result<(), AllocError> {
        match self.db(name).handle()?.delete(self.rt) {
            Ok(()) => Ok(()),
            Err(fault) => answer.line(format_args!("{fault:?}")),
        }
    }

    // Tells the text of the log that a database keeps.
    fn log(&self, name: &str, answer: &mut Answer) -> Result<(), AllocError> {
        let mut handle = self.db(name).handle()?;
        match handle.look(self.rt, |state| state.local_copy(LOG)) {
            Ok(Some(local)) => answer.line(text_of(local.body.as_bytes())?),
            Ok(None) => answer.line("none"),
            Err(_) => Err(AllocError),
        }
    }

    // Runs the sessions of `lose` until two runs tell the same, three times at most.
    fn lose(&mut self, lost: Lost, answer: &mut Answer) -> Result<(), AllocError> {
        let mut last = String::new(self.desk.alloc);
        for _ in 0..3 {
            self.make(true, 1, Limits::full())?;
            self.make(false, 1, Limits::full())?;
            let told = self.desk.run(lost)?;
            if told.as_str() == last.as_str() {
                return answer.line(told.as_str());
            }
            last = told;
        }
        answer.line("each time something else")
    }
}

impl<'a, R: Wait> Subject<&'a R> for Copier<'a, R> {
    fn begin(rt: &&'a R, alloc: Global, _: &str) -> Result<Copier<'a, R>, AllocError> {
        let source = database(alloc, Limits::full(), 1)?;
        let target = database(alloc, Limits::full(), 1)?;
        let source_peer = DbPeer::new(*rt, alloc, source.handle()?);
        let target_peer = DbPeer::new(*rt, alloc, target.handle()?);
        let desk = Desk::new(alloc, source_peer, target_peer)?;
        Ok(Copier {
            rt: *rt,
            source,
            target,
            desk,
        })
    }

    fn answer(&mut self, _: &&'a R, command: &str, answer: &mut Answer) -> Result<(), AllocError> {
        let mut words = Words::of(command);
        match words.verb("make delete log lose") {
            0 => {
                let is_source = words.word() == "source";
                let life = number(words.word())?;
                self.make(is_source, life, limits_of(words.word()))
            }
            1 => self.delete(words.rest(), answer),
            2 => self.log(words.rest(), answer),
            3 => self.lose(Lost::read(&mut words)?, answer),
            _ => self.desk.answer(command, answer),
        }
    }
}
