//! Readers of feeds whose pumps run in other threads.

use crate::tests::{Counts, Pace, Reader, database, is_pumped, open, put_many};
use hub_shared::{Feed, Handed, Handle, Plain, Turn};
use std::alloc::Global;
use std::sync::Wait;
use std::sync::atomic::Ordering;
use std::test::Fail;
use std::thread::{self, Threads};
use std::time;

/// A feed of a new database, its pump, and its reader, which finishes it in the end.
#[derive(Drop)]
struct Case {
    name: &'static str,
    /// How many items the lane holds.
    lane: u64,
    /// How many documents there are before the feed is opened.
    documents: u64,
    query: &'static str,
    /// How many milliseconds pass with each reading of the pump's clock.
    step: u64,
    /// How many documents the reader writes, once the pump has held the lock.
    later: u64,
    /// How many items the reader then waits for. With 0 it takes the items that the finished feed still has.
    items: u64,
    /// How many rows, beats and ends come.
    wanted: (u64, u64, u64),
}

const CASES: &[Case] = &[
    Case {
        name: "a stopped reader lets the pump of a normal feed end, and leaves what fits its lane",
        lane: 2,
        documents: 5,
        query: "",
        step: 0,
        later: 0,
        items: 0,
        wanted: (2, 0, 0),
    },
    Case {
        name: "a stopped reader lets the pump of a continuous feed end, and leaves what fits its lane",
        lane: 2,
        documents: 5,
        query: "feed=continuous",
        step: 0,
        later: 0,
        items: 0,
        wanted: (2, 0, 0),
    },
    Case {
        name: "a slow reader gets every row",
        lane: 2,
        documents: 50,
        query: "",
        step: 0,
        later: 0,
        items: 51,
        wanted: (50, 0, 1),
    },
    Case {
        name: "a longpoll that waits is told of a write",
        lane: 64,
        documents: 0,
        query: "feed=longpoll",
        step: 0,
        later: 1,
        items: 2,
        wanted: (1, 0, 1),
    },
    Case {
        name: "a continuous feed that waits is told of writes",
        lane: 64,
        documents: 0,
        query: "feed=continuous",
        step: 0,
        later: 2,
        items: 2,
        wanted: (2, 0, 0),
    },
    Case {
        name: "a feed without news beats",
        lane: 64,
        documents: 0,
        query: "feed=continuous&heartbeat=1",
        step: 1000,
        later: 0,
        items: 1,
        wanted: (0, 1, 0),
    },
    // A millisecond passes with each reading, and the heartbeat is due after a minute.
    Case {
        name: "no heartbeat comes before its time",
        lane: 64,
        documents: 0,
        query: "feed=continuous&heartbeat=60000",
        step: 1,
        later: 1,
        items: 1,
        wanted: (1, 0, 0),
    },
];

/// Waits until a pump has held the lock.
fn wait_for_pump<R: Wait>(rt: &R, pace: &Pace) {
    for _ in rt.forever() {
        if pace.holdings.load(Ordering::SeqCst) > 0 {
            break;
        }
        thread::yield_now();
    }
}

/// Whether the lane of a feed is full, and the feed is not over.
fn is_full<R: Wait>(rt: &R, feed: &mut Feed<Plain>) -> bool {
    let handed = feed.hold(rt, Turn::Hand, &Pace::new(0));
    matches!(handed, Ok(Handed::Full)) && !feed.is_over()
}

/// Counts the items that a finished feed still has. Answers whether they came in order.
fn count_left<R: Wait>(rt: &R, feed: Feed<Plain>, counts: &mut Counts) -> bool {
    let mut end = feed.finish(rt);
    let mut is_well = true;
    for _ in 0..9 {
        match end.take(rt) {
            Some(item) => is_well &= counts.count(&item),
            None => break,
        }
    }
    is_well
}

/// Waits for the next items and counts them. Answers whether so many came, in order.
fn count_next<R: Wait>(rt: &R, feed: &mut Feed<Plain>, items: u64, counts: &mut Counts) -> bool {
    let mut left = items;
    let mut is_well = true;
    for _ in rt.forever() {
        if left == 0 || !is_well {
            break;
        }
        let is_over = feed.is_over();
        match feed.take(rt) {
            Some(item) => {
                is_well = counts.count(&item);
                left = left.saturating_sub(1);
            }
            None if is_over => is_well = false,
            None => feed.wait(rt),
        }
    }
    is_well
}

/// The reader of a case.
#[derive(Drop)]
struct Reading {
    alloc: Global,
    handle: Handle<Plain>,
    case: &'static Case,
    counts: Counts,
    /// Whether all items came in order.
    is_well: bool,
}

impl<R: Wait> Reader<R, Pace> for Reading {
    fn read(&mut self, rt: &R, pace: &Pace, mut feed: Feed<Plain>) {
        wait_for_pump(rt, pace);
        self.is_well = put_many(rt, self.alloc, &mut self.handle, self.case.later).is_some();
        if self.case.items == 0 {
            let is_full = is_full(rt, &mut feed);
            self.is_well &= count_left(rt, feed, &mut self.counts) && is_full;
        } else {
            self.is_well &= count_next(rt, &mut feed, self.case.items, &mut self.counts);
            drop(feed.finish(rt));
        }
    }
}

impl Reading {
    /// Whether the wanted items came.
    fn is_wanted(&self) -> bool {
        let counts = &self.counts;
        self.is_well && (counts.rows, counts.beats, counts.ends) == self.case.wanted
    }
}

/// Whether the wanted items come in a case.
fn holds<R: Threads + Wait + time::Clock + Sync>(
    rt: &R,
    alloc: Global,
    case: &'static Case,
) -> Option<bool> {
    let (db, mut handle) = database(alloc, case.lane, 64)?;
    put_many(rt, alloc, &mut handle, case.documents)?;
    let feed = open(rt, alloc, &mut handle, case.query, "")?;
    let mut reading = Reading {
        alloc,
        handle,
        case,
        counts: Counts::new(),
        is_well: false,
    };
    let is_pumped = is_pumped(rt, &db, &Pace::new(case.step), feed, &mut reading);
    Some(is_pumped && reading.is_wanted())
}

#[test]
fn readers_get_what_pumps_hand(rt: HostRuntime) -> Result<(), Fail> {
    for case in CASES {
        if holds(&rt, rt.alloc(), case) != Some(true) {
            return Err(Fail::new(case.name));
        }
    }
    Ok(())
}
