//! A feed that is followed, which carries out the commands of transcripts.

use crate::tests::shows::Tally;
use crate::tests::told::{put_debug, put_item};
use hub_feed::FeedId;
use hub_model::Item;
use hub_shared::{Clock, Db, Feed, Gate, Plain, Point, Turn, Watch, hold, pump};
use hub_transcript::{Answer, Words};
use std::alloc::{AllocError, Global};
use std::sync::atomic::{AtomicU64, Ordering};
use std::sync::{Arc, Wait};
use std::time;

/// A gate that counts how often the lock was held, and holds no thread; and a clock that goes on by `step`
/// milliseconds with each reading.
#[derive(Drop)]
pub(crate) struct Pace {
    holdings: AtomicU64,
    now: AtomicU64,
    step: u64,
}

impl Pace {
    /// A lock that was never held, and a clock at 0.
    pub(crate) fn new(step: u64) -> Pace {
        Pace {
            holdings: AtomicU64::new(0),
            now: AtomicU64::new(0),
            step,
        }
    }
}

impl Gate for Pace {
    fn pass(&self, point: Point) {
        if point == Point::PumpHolding {
            self.holdings.fetch_add(1, Ordering::SeqCst);
        }
    }
}

impl Clock for Pace {
    fn now_ms(&self) -> u64 {
        self.now.fetch_add(self.step, Ordering::SeqCst)
    }
}

/// A feed of a database, until it is finished. Its commands:
///
/// - `hand` answers the outcome of the feed's own holding of the lock; `hold`, `beat` and `expire` answer the
///   outcome of a holding that names the feed by its number.
/// - `take` answers the next item of its lane, and `poll` the next item of a poll.
/// - `show` polls it until no item is left, and shows each item where it lies. It answers how many rows are as
///   they were written (`round_docs`), and how many items were left before a poll.
/// - `pump` pumps it. `finish` finishes it, and answers the items that are left of it.
/// - `held` answers how often the lock was held for it, `due` the reading of the clock at which it is due,
///   and `over` whether it is over.
#[derive(Drop)]
pub(crate) struct Followed {
    alloc: Global,
    id: FeedId,
    feed: Option<Feed<Plain>>,
    pace: Pace,
    // Whether a poll gave the feed's end.
    has_ended: bool,
}

impl Followed {
    /// A feed with a clock that goes on by `step` milliseconds with each reading.
    pub(crate) fn new(alloc: Global, feed: Feed<Plain>, step: u64) -> Followed {
        Followed {
            alloc,
            id: feed.id(),
            feed: Some(feed),
            pace: Pace::new(step),
            has_ended: false,
        }
    }

    /// Puts a watch on the feed: it has news of the feed from here on.
    pub(crate) fn watch<R: Wait>(
        &self,
        rt: &R,
        watch: &Arc<Watch, Global>,
    ) -> Result<(), AllocError> {
        let watch = Arc::try_clone(watch)?;
        if let Some(feed) = &self.feed {
            feed.watch(rt, watch);
        }
        Ok(())
    }

    /// Carries out a command, over the feed's database.
    pub(crate) fn run<R: Wait + time::Clock>(
        &mut self,
        rt: &R,
        db: &Db<Plain>,
        verb: &str,
        answer: &mut Answer,
    ) -> Result<(), AllocError> {
        match Words::of(verb).verb("hold beat expire pump finish") {
            0 => self.turn(rt, db, Turn::Hand, answer),
            1 => self.turn(rt, db, Turn::Beat, answer),
            2 => self.turn(rt, db, Turn::Expire, answer),
            3 => pump(rt, db, self.id, &self.pace, &self.pace),
            4 => self.finish(rt, answer),
            _ => self.run_open(rt, verb, answer),
        }
    }

    // Carries out a command of a feed that is not finished.
    fn run_open<R: Wait>(
        &mut self,
        rt: &R,
        verb: &str,
        answer: &mut Answer,
    ) -> Result<(), AllocError> {
        let Some(feed) = &mut self.feed else {
            return answer.line("finished");
        };
        match Words::of(verb).verb("hand take poll held due over show") {
            0 => {
                let handed = feed.hold(rt, Turn::Hand, &self.pace)?;
                put_debug(&handed, answer)
            }
            1 => put_item(self.alloc, &feed.take(rt), answer),
            2 => self.poll(rt, answer),
            3 => answer.line(self.pace.holdings.load(Ordering::SeqCst)),
            4 => answer.line(feed.due()),
            5 => answer.line(feed.is_over()),
            6 => self.show(rt, answer),
            _ => answer.line("?"),
        }
    }

    fn turn<R: Wait>(
        &self,
        rt: &R,
        db: &Db<Plain>,
        turn: Turn,
        answer: &mut Answer,
    ) -> Result<(), AllocError> {
        let handed = hold(rt, db, self.id, turn, &self.pace)?;
        put_debug(&handed, answer)
    }

    // Polls the feed. A feed that is over and gave no end found no memory: this is an error.
    fn poll<R: Wait>(&mut self, rt: &R, answer: &mut Answer) -> Result<(), AllocError> {
        let Some(feed) = &mut self.feed else {
            return answer.line("finished");
        };
        let next = if feed.poll(rt, &self.pace, &self.pace) {
            feed.take(rt)
        } else {
            None
        };
        self.has_ended |= matches!(&next, Some(Item::End { .. }));
        if next.is_none() && feed.is_over() && !self.has_ended {
            return Err(AllocError);
        }
        put_item(self.alloc, &next, answer)
    }

    // Shows the items of polls, 99 at most, until a poll leaves none. A feed that is over found no memory: this
    // is an error.
    fn show<R: Wait>(&mut self, rt: &R, answer: &mut Answer) -> Result<(), AllocError> {
        let Some(feed) = &mut self.feed else {
            return answer.line("finished");
        };
        let mut tally = Tally::new(self.alloc);
        for _ in 0..99 {
            tally.count_left(feed.end().has_left());
            if !feed.poll(rt, &self.pace, &self.pace) {
                break;
            }
            let seen = feed.show(rt, &mut tally, &mut (), |item, tally, _| tally.see(item));
            seen.unwrap_or(Ok(()))?;
        }
        if feed.is_over() || feed.end().has_left() {
            return Err(AllocError);
        }
        tally.put(answer)
    }

    fn finish<R: Wait>(&mut self, rt: &R, answer: &mut Answer) -> Result<(), AllocError> {
        let Some(feed) = self.feed.take() else {
            return answer.line("finished");
        };
        let mut end = feed.finish(rt);
        let mut put = Ok(());
        for _ in 0..9 {
            let item = end.take(rt);
            if item.is_none() || put.is_err() {
                break;
            }
            put = put_item(self.alloc, &item, answer);
        }
        put
    }
}
