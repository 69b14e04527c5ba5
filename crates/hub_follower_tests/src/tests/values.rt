//! Transcripts of values: logs, worlds, a follower's machine, and items that feeds hand.

use crate::tests::handed::Handed;
use crate::tests::logs::answer_of_logs;
use crate::tests::surface::answer_of_machine;
use crate::tests::worlds::run;
use hub_follower::FollowCore;
use hub_transcript::{Answer, Subject, Words};
use std::alloc::{AllocError, Global};

/// The parts of a follower: logs, its machine, runs of its world, and the items of its feeds.
///
/// Logs. A log is written `ID:SEQ/ID:SEQ,ID:SEQ..`: its last session with the recorded sequence, and then the
/// sessions of its history, which began at 0. The word `none` is no log. A sequence is a number, with its
/// life where the life is known, as `7-1`.
///
/// - `log write LOG`: the log's text.
/// - `log read TEXT`: the log of the text, or `none`. Shown is its last session with its sequence, and then
///   the sessions of its history, each with the sequences of its beginning, of its end and of its record.
/// - `log agree LOG LOG`: the sequence up to which the logs of source and target agree, read from their
///   texts.
/// - `log history N`: how many entries are read of a log whose history has N, or `none`.
///
/// Runs of two empty databases and a follower, each from its beginning.
///
/// - `run EVENT ..`: lets these events happen one after the other. Tells the follower's place, and whether it
///   owes a call. An event is `write`, by which the source stores a and b, `start ID`, `round`, `checkpoint`,
///   `answer`, `changes ITEM+ITEM..`, `lost-before`, `lost-after` or `restart`.
///
/// A follower's machine without a session. Each command tells the call then owed, and the place.
///
/// - `machine look`: changes nothing.
/// - `machine start ID`: begins a session, where no call is owed.
/// - `machine absent`: answers a call for a log: there is none.
/// - `machine round`, `machine checkpoint`: begins a round or a checkpoint.
/// - `machine fail`: the owed call fails.
/// - `machine kept`: tells first the place, and the logs that the source and the target are to keep.
///
/// A database of one thread, and items that its feed handed. A row is written as `SEQ:ID:REV,REV..:SEEN`: its
/// sequence, its document, its leaves, and the update sequence when the row was made. An end is written as
/// `end:LAST`, and a heartbeat as `beat`.
///
/// - `put DOC ..`: stores documents with their histories, and tells how many edits there are.
/// - `feed SINCE`: opens a feed with the parameters of a follower.
/// - `hand`: tells the next item that the feed hands.
/// - `handed`: tells whether the items that the feed handed are right.
/// - `above SINCE ITEM ..`: tells whether these items are right above a sequence, also of a deleted database.
/// - `rows N`: stores the documents d0, d1 and so on, and tells whether a row of each, with their end, is
///   right.
#[derive(Drop)]
pub(crate) struct Values {
    alloc: Global,
    core: FollowCore,
    handed: Handed,
}

impl<R> Subject<R> for Values {
    fn begin(_: &R, alloc: Global, _: &str) -> Result<Values, AllocError> {
        Ok(Values {
            alloc,
            core: FollowCore::new(),
            handed: Handed::new(alloc),
        })
    }

    fn answer(&mut self, _: &R, command: &str, answer: &mut Answer) -> Result<(), AllocError> {
        let mut words = Words::of(command);
        match words.verb("log run machine") {
            0 => answer_of_logs(self.alloc, &mut words, answer),
            1 => run(self.alloc, &mut words, answer),
            2 => answer_of_machine(self.alloc, &mut self.core, &mut words, answer),
            _ => self.handed.answer(command, answer),
        }
    }
}
