//! Two peers, and a follower between them.

use crate::tests::following::{tell_checkpoint, tell_copy, tell_place, tell_round};
use crate::tests::held::Held;
use crate::tests::library::copies;
use crate::tests::logs::log_of;
use crate::tests::telling::{
    count, keep, put, store, tell_changes, tell_leaves, tell_logs, tell_missing,
};
use crate::tests::{LOG, number, numbered, seq_of, tell_fault};
use hub_follower::{FailedStart, FaultPeer, Follower, Loss, Peer};
use hub_transcript::{Answer, Words};
use std::alloc::{AllocError, Global};

/// A peer of a follower, some of whose calls may be lost.
pub(crate) type End<P> = FaultPeer<Held<P>>;

/// The number of the call that is lost at each end, and how it is lost. 0: none is lost.
#[derive(Clone, Copy)]
pub(crate) struct Lost {
    source: u64,
    target: u64,
    loss: Loss,
}

impl Lost {
    /// No call is lost.
    pub(crate) fn nothing() -> Lost {
        Lost {
            source: 0,
            target: 0,
            loss: Loss::Before,
        }
    }

    /// Reads the lost call from the words `END N LOSS` of a command.
    pub(crate) fn read(words: &mut Words<'_>) -> Result<Lost, AllocError> {
        let is_source = words.word() == "source";
        let call = number(words.word())?;
        let loss = if words.rest() == "after" {
            Loss::After
        } else {
            Loss::Before
        };
        let (source, target) = if is_source { (call, 0) } else { (0, call) };
        Ok(Lost {
            source,
            target,
            loss,
        })
    }
}

/// Two peers, and a follower of the first into the second. `Copier` lists the commands.
#[derive(Drop)]
pub(crate) struct Desk<P> {
    pub(crate) alloc: Global,
    pub(crate) source: Held<P>,
    pub(crate) target: Held<P>,
    pub(crate) follower: Option<Follower<End<P>, End<P>>>,
    log_id: String,
    /// The lost calls of the sessions that `session` begins.
    lost: Lost,
    /// The documents that `lose` stores before its first session and after it, and the ids of both.
    pub(crate) first: String,
    pub(crate) then: String,
    pub(crate) ids: String,
}

// Tells how many faults the source and the target counted, and how many of these their databases counted.
fn tell_faults<P: Peer + Drop>(
    source: End<P>,
    target: End<P>,
    answer: &mut Answer,
) -> Result<(), AllocError> {
    let all = (source.faults(), target.faults());
    let own = (
        source.into_peer().own_faults(),
        target.into_peer().own_faults(),
    );
    answer.line(format_args!(
        "faults {} {}, of databases {} {}",
        all.0, all.1, own.0, own.1
    ))
}

impl<P: Peer + Drop> Desk<P> {
    /// Two peers without a follower.
    pub(crate) fn new(alloc: Global, source: P, target: P) -> Result<Desk<P>, AllocError> {
        Ok(Desk {
            alloc,
            source: Held::new(alloc, source)?,
            target: Held::new(alloc, target)?,
            follower: None,
            log_id: String::from_str(alloc, LOG)?,
            lost: Lost::nothing(),
            first: String::new(alloc),
            then: String::new(alloc),
            ids: String::new(alloc),
        })
    }

    /// Begins a session. A start that fails is answered.
    pub(crate) fn begin(
        &mut self,
        session_id: &str,
        tells_lives: bool,
        lost: Lost,
    ) -> Result<Option<FailedStart<End<P>, End<P>>>, AllocError> {
        let source = self.source.again(tells_lives)?;
        let target = self.target.again(tells_lives)?;
        let source = FaultPeer::new(source, lost.source, lost.loss);
        let target = FaultPeer::new(target, lost.target, lost.loss);
        match Follower::start(self.alloc, source, target, self.log_id.as_str(), session_id) {
            Ok(follower) => {
                self.follower = Some(follower);
                Ok(None)
            }
            Err(failed) => Ok(Some(failed)),
        }
    }

    // Begins a session, and tells its place. A failed start tells why, and the counts of faults.
    fn session(&mut self, words: &mut Words<'_>, answer: &mut Answer) -> Result<(), AllocError> {
        let session_id = words.word();
        let tells_lives = words.rest() != "numbers";
        if let Some(failed) = self.begin(session_id, tells_lives, self.lost)? {
            tell_fault(self.alloc, failed.fault, answer)?;
            answer.text(", ")?;
            return tell_faults(failed.source, failed.target, answer);
        }
        tell_place("", &self.follower, answer)
    }

    // Records the place, and tells the sequences that both logs record.
    fn checkpoint(&mut self, answer: &mut Answer) -> Result<(), AllocError> {
        tell_checkpoint(self.alloc, &mut self.follower, answer)?;
        tell_logs(&mut self.source, &mut self.target, answer)
    }

    // Ends the session.
    fn end(&mut self, answer: &mut Answer) -> Result<(), AllocError> {
        let Some(follower) = self.follower.take() else {
            return answer.line("no session");
        };
        let (source, target) = follower.into_peers();
        tell_faults(source, target, answer)
    }

    // Tells how many edits the source has.
    fn tell_source(&mut self, answer: &mut Answer) -> Result<(), AllocError> {
        let stored = count(&mut self.source)?;
        answer.line(format_args!("source {stored}"))
    }

    // Keeps a log.
    fn keep(&mut self, words: &mut Words<'_>) -> Result<(), AllocError> {
        let is_source = words.word() == "source";
        let log = log_of(self.alloc, words.rest())?;
        if is_source {
            keep(&mut self.source, log)
        } else {
            keep(&mut self.target, log)
        }
    }

    // Runs the example of README.md, and once more under the other id where it finds no memory.
    fn copied(&mut self, words: &mut Words<'_>, answer: &mut Answer) -> Result<(), AllocError> {
        let ids = (words.word(), words.rest());
        if copies(self.alloc, &self.source, &self.target, ids) {
            return answer.line("copied");
        }
        answer.line("not copied")
    }

    /// Carries out a command on the follower.
    pub(crate) fn answer(&mut self, command: &str, answer: &mut Answer) -> Result<(), AllocError> {
        let mut words = Words::of(command);
        match words.verb("session round copy checkpoint end loses logs library") {
            0 => self.session(&mut words, answer),
            1 => tell_round(self.alloc, &mut self.follower, answer),
            2 => tell_copy(self.alloc, &mut self.follower, answer),
            3 => self.checkpoint(answer),
            4 => self.end(answer),
            5 => {
                self.lost = Lost::read(&mut words)?;
                Ok(())
            }
            6 => {
                self.log_id = String::from_str(self.alloc, words.rest())?;
                Ok(())
            }
            7 => self.copied(&mut words, answer),
            _ => self.answer_of_peers(command, answer),
        }
    }

    // Carries out a command on the peers.
    fn answer_of_peers(&mut self, command: &str, answer: &mut Answer) -> Result<(), AllocError> {
        let mut words = Words::of(command);
        match words.verb("put fill count leaves keep changes missing") {
            0 => {
                put(self.alloc, &mut self.source, words.rest())?;
                self.tell_source(answer)
            }
            1 => {
                store(
                    &mut self.source,
                    numbered(self.alloc, number(words.rest())?)?,
                )?;
                self.tell_source(answer)
            }
            2 => {
                let stored = count(&mut self.target)?;
                answer.line(format_args!("target {stored}"))
            }
            3 => {
                let (source, target) = (&mut self.source, &mut self.target);
                tell_leaves(self.alloc, source, target, words.rest(), answer)
            }
            4 => self.keep(&mut words),
            5 => tell_changes(&mut self.source, seq_of(words.rest())?, answer),
            6 => {
                let (source, target) = (&mut self.source, &mut self.target);
                tell_missing(self.alloc, source, target, seq_of(words.rest())?, answer)
            }
            _ => self.give(command, answer),
        }
    }

    // Keeps a text for `lose`: documents of the source, or ids.
    fn give(&mut self, command: &str, answer: &mut Answer) -> Result<(), AllocError> {
        let mut words = Words::of(command);
        let place = words.verb("first then ids");
        let text = String::from_str(self.alloc, words.rest())?;
        match place {
            0 => self.first = text,
            1 => self.then = text,
            2 => self.ids = text,
            _ => return answer.line("?"),
        }
        Ok(())
    }
}
