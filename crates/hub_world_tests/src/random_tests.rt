//! Random events through `World`: each kind of reply comes, and the rows at the end are those that the
//! replies told.

use crate::made::{IDS, Maker, Random, word_at};
use crate::shell::Shell;
use std::alloc::{AllocError, Global};
use std::fmt::Write;
use std::test::Fail;

// A database with random events, and the texts of all replies, a line each.
#[derive(Drop)]
struct Run {
    alloc: Global,
    shell: Shell,
    maker: Maker,
    replies: String,
}

impl Run {
    fn new(alloc: Global) -> Result<Run, AllocError> {
        let shell = Shell::new(alloc)?;
        Ok(Run {
            alloc,
            shell,
            maker: Maker::new(alloc, Random { state: 20_260_101 }),
            replies: String::new(alloc),
        })
    }

    // One more event.
    fn step(&mut self) -> Result<(), AllocError> {
        self.maker.make()?;
        self.shell.apply(self.maker.command.as_str())?;
        writeln!(self.replies, "{}", self.shell.last())?;
        self.maker.note(self.shell.last())
    }

    // Whether the reply to a command on a feed begins with `wanted`.
    fn replies(&mut self, verb: &str, feed: u64, wanted: &str) -> Result<bool, AllocError> {
        let command = format!(in self.alloc; "{verb} {feed}")?;
        self.shell.apply(command.as_str())?;
        Ok(self.shell.last().starts_with(wanted))
    }

    // Whether the newest feed hands an item next, and the reply that takes it begins with `wanted`.
    fn shows(&mut self, wanted: &str) -> Result<bool, AllocError> {
        let feed = self.maker.feeds;
        Ok(self.replies("hand", feed, "pushed")? && self.replies("take", feed, wanted)?)
    }

    // Whether the newest feed shows the document whose last sequence this is, if there is one.
    fn shows_row(&mut self, seq: u64) -> Result<bool, AllocError> {
        for place in 0..4u64 {
            if self.maker.last.get(place as usize).copied() == Some(seq) {
                let wanted = format!(in self.alloc; "took row {seq} {} ", word_at(IDS, place))?;
                return self.shows(wanted.as_str());
            }
        }
        Ok(true)
    }

    // Whether the rows above this sequence of a life are the last ones that the replies told, each once and
    // rising. A sequence of another life than 1 counts as 0.
    fn rows_are_told(&mut self, since: u64, life: u64) -> Result<bool, AllocError> {
        for feed in 0..self.maker.feeds {
            self.replies("finish", feed, "")?;
        }
        let begin = format!(in self.alloc; "begin since={since}-{life}")?;
        self.shell.apply(begin.as_str())?;
        if !self.shell.last().starts_with("opened") {
            return Ok(self.shell.last() == "database deleted");
        }
        let first = if life == 1 { since } else { 0 };
        for seq in first..self.maker.length {
            if !self.shows_row(seq.saturating_add(1))? {
                return Ok(false);
            }
        }
        self.shows("took end ")
    }

    // Whether a new database with small limits has the told rows after 100 random events.
    fn is_right(&mut self) -> Result<bool, AllocError> {
        self.shell.room("2 2 12")?;
        self.maker.forget()?;
        for _ in 0..100 {
            self.step()?;
        }
        let (seq, life) = (self.maker.random.below(16), self.maker.random.below(3));
        self.rows_are_told(seq, life)
    }

    // How many of 20 databases are right, before the first that is not.
    fn count_right(&mut self) -> Result<u64, AllocError> {
        for number in 0..20 {
            if !self.is_right()? {
                return Ok(number);
            }
        }
        Ok(20)
    }
}

// A part of the text of each kind of reply.
const KINDS: &str = "
wrote 1-
 Known
 Refused(Deleted)
 Refused(Contradicts)
 Refused(Conflict)
 Refused(SequenceFull)
opened
too many feeds
database deleted
pushed
took row
took beat
took end
took none
full
nothing
gone
left 0
left 1";

// The first kind of reply that did not come; empty where all came.
fn missing(all: &str) -> &'static str {
    for kind in KINDS.split('\n') {
        if !all.contains(kind) {
            return kind;
        }
    }
    ""
}

#[test]
fn each_reply_comes_and_the_rows_are_those_that_were_told(rt: HostRuntime) -> Result<(), Fail> {
    let mut run = Run::new(rt.alloc())?;
    assert_eq!(rt; run.count_right()?, 20);
    assert_eq!(rt; missing(run.replies.as_str()), "");
    Ok(())
}
