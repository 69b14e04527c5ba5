//! One worker that sends the feeds of two databases, while other threads write to these.

use crate::tests::{Counts, Pace, database, open, put_many};
use hub_shared::{Bell, Feed, Handle, Plain, Watch};
use std::alloc::Global;
use std::sync::{Arc, Wait};
use std::thread::{self, Threads};
use std::time::{Clock, Duration};

/// How many documents are written to each database, one at a time.
const WRITES: u64 = 200;

/// How often the worker looks at its bell before it gives up. It sleeps a millisecond after a silent look.
const LOOKS: u64 = 20_000;

/// A feed, and the counts of its items.
#[derive(Drop)]
struct Shown {
    feed: Feed<Plain>,
    counts: Counts,
}

impl Shown {
    /// Polls the feed until it waits. Answers whether each item was the next row.
    fn catch_up<R: Wait>(&mut self, rt: &R) -> bool {
        let pace = Pace::new(0);
        for _ in 0..=WRITES {
            if !self.feed.poll(rt, &pace, &pace) {
                return self.counts.beats == 0 && self.counts.ends == 0;
            }
            let Some(item) = self.feed.take(rt) else {
                return false;
            };
            if !self.counts.count(&item) {
                return false;
            }
        }
        false
    }
}

/// The feeds of one database that a worker sends. They share a watch.
#[derive(Drop)]
struct Watched {
    watch: Arc<Watch, Global>,
    shown: Vec<Shown>,
}

impl Watched {
    /// No feeds yet.
    fn new(alloc: Global, bell: &Arc<Bell, Global>) -> Option<Watched> {
        let watch = Watch::new(Arc::try_clone(bell).ok()?);
        Some(Watched {
            watch: Arc::new(alloc, watch).ok()?,
            shown: Vec::new(alloc),
        })
    }

    /// Opens three feeds of a database.
    fn open<R: Wait>(&mut self, rt: &R, alloc: Global, handle: &mut Handle<Plain>) -> Option<()> {
        for _ in 0..3 {
            let feed = open(rt, alloc, handle, "feed=continuous", "")?;
            feed.watch(rt, Arc::try_clone(&self.watch).ok()?);
            let counts = Counts::new();
            self.shown.push(Shown { feed, counts }).ok()?;
        }
        Some(())
    }

    /// Where there is news, polls each feed until it waits. Answers whether each item was the next row.
    fn catch_up<R: Wait>(&mut self, rt: &R) -> bool {
        if !self.watch.take() {
            return true;
        }
        for shown in &mut self.shown {
            if !shown.catch_up(rt) {
                return false;
            }
        }
        true
    }

    /// Whether each feed had all its rows.
    fn is_whole(&self) -> bool {
        self.shown.iter().all(|shown| shown.counts.rows == WRITES)
    }
}

/// Whether each feed gets all its rows. The worker polls feeds only where the bell was rung.
fn works<R: Wait + Clock>(rt: &R, bell: &Bell, first: &mut Watched, second: &mut Watched) -> bool {
    for _ in 0..LOOKS {
        if first.is_whole() && second.is_whole() {
            return true;
        }
        if !bell.take() {
            thread::sleep(rt, Duration::from_millis(1));
        } else if !first.catch_up(rt) || !second.catch_up(rt) {
            return false;
        }
    }
    false
}

/// Whether a worker sends the documents that two threads write, each to a database of its own.
fn sends_written<R: Threads + Wait + Clock + Sync>(
    rt: &R,
    alloc: Global,
    bell: &Bell,
    first: (&mut Watched, &mut Handle<Plain>),
    second: (&mut Watched, &mut Handle<Plain>),
) -> bool {
    let ((first, one), (second, other)) = (first, second);
    let (is_sent, (is_first, is_second)) = thread::join(
        rt,
        || works(rt, bell, first, second),
        || {
            thread::join(
                rt,
                || put_many(rt, alloc, one, WRITES).is_some(),
                || put_many(rt, alloc, other, WRITES).is_some(),
            )
        },
    );
    is_sent && is_first && is_second
}

/// Whether a worker sends all of two new databases, whose lanes hold two items, with three feeds each.
fn sends_all<R: Threads + Wait + Clock + Sync>(rt: &R, alloc: Global) -> Option<bool> {
    let bell = Arc::new(alloc, Bell::new()).ok()?;
    let (mut first, mut second) = (Watched::new(alloc, &bell)?, Watched::new(alloc, &bell)?);
    let (_db, mut one) = database(alloc, 2, 64)?;
    let (_db, mut other) = database(alloc, 2, 64)?;
    first.open(rt, alloc, &mut one)?;
    second.open(rt, alloc, &mut other)?;
    Some(sends_written(
        rt,
        alloc,
        &bell,
        (&mut first, &mut one),
        (&mut second, &mut other),
    ))
}

// No write is missed, though the worker looks at its feeds only where the bell was rung.
#[test]
fn a_worker_sends_what_others_write(rt: HostRuntime) {
    assert!(rt; sends_all(&rt, rt.alloc()) == Some(true));
}
