//! The answers to threads that share a database, and the items of their feeds.

mod readers;
mod stress;
mod workers;

use hub_document::{ChangeRow, Doc, Limits};
use hub_model::Item;
use hub_params::FeedParams;
use hub_shared::{Clock, Count, Db, Feed, Gate, Handle, Plain, Point, Receipt, pump};
use std::alloc::Global;
use std::sync::Wait;
use std::sync::atomic::{AtomicU64, Ordering};
use std::thread::{self, Threads};
use std::time;

/// A gate that counts how often the lock was held, and holds no thread; and a clock that goes on by `step`
/// milliseconds with each reading.
#[derive(Drop)]
struct Pace {
    holdings: AtomicU64,
    now: AtomicU64,
    step: u64,
}

impl Pace {
    /// A lock that was never held, and a clock at 0.
    fn new(step: u64) -> Pace {
        Pace {
            holdings: AtomicU64::new(0),
            now: AtomicU64::new(0),
            step,
        }
    }
}

impl Gate for Pace {
    fn pass(&self, point: Point) {
        if point == Point::PumpHolding {
            self.holdings.fetch_add(1, Ordering::SeqCst);
        }
    }
}

impl Clock for Pace {
    fn now_ms(&self) -> u64 {
        self.now.fetch_add(self.step, Ordering::SeqCst)
    }
}

/// How many items of each kind came.
#[derive(Drop)]
struct Counts {
    rows: u64,
    beats: u64,
    ends: u64,
}

impl Counts {
    /// Nothing came yet.
    fn new() -> Counts {
        Counts {
            rows: 0,
            beats: 0,
            ends: 0,
        }
    }

    /// Counts an item. Answers whether it is the next row, a beat, or an end at the last row.
    fn count(&mut self, item: &Item<ChangeRow>) -> bool {
        match item {
            Item::Row(row) => {
                self.rows = self.rows.saturating_add(1);
                row.seq == self.rows
            }
            Item::Beat => {
                self.beats = self.beats.saturating_add(1);
                true
            }
            Item::End { last_seq, .. } => {
                self.ends = self.ends.saturating_add(1);
                *last_seq == self.rows
            }
        }
    }
}

/// The number of the life of each database.
pub(crate) const LIFE: u64 = 6;

/// A new database whose lanes hold `lane` items, and whose holdings hand `hold` items; None also where one of
/// these is below 1 or above 64.
fn database(alloc: Global, lane: u64, hold: u64) -> Option<(Db<Plain>, Handle<Plain>)> {
    if lane == 0 || lane > 64 || hold == 0 || hold > 64 {
        return None;
    }
    let mut limits = Limits::full();
    limits.lane = lane;
    limits.hold = hold;
    Db::new(alloc, limits, LIFE, Plain).ok()
}

/// The document of a text, which another database made.
fn doc_of(alloc: Global, text: &str) -> Option<Vec<Doc>> {
    let mut docs = Vec::new(alloc);
    docs.push(Doc::read(alloc, text.as_bytes(), false).ok()?)
        .ok()?;
    Some(docs)
}

/// Stores the document of a text, which another database made. Answers its receipt, which passes an audit;
/// None where the document is not stored.
fn put_text<R: Wait>(
    rt: &R,
    alloc: Global,
    handle: &mut Handle<Plain>,
    text: &str,
) -> Option<Receipt> {
    let docs = doc_of(alloc, text)?;
    let mut receipts = handle.write(rt, docs, false).ok()?.receipts;
    if handle.audit(rt, receipts.as_slice()).is_err() {
        return None;
    }
    receipts.pop()
}

/// Stores so many documents, and lets other threads on after each; None where one is not stored.
fn put_many<R: Wait>(rt: &R, alloc: Global, handle: &mut Handle<Plain>, count: u64) -> Option<()> {
    for number in 0..count {
        let text = format!(in alloc; r#"{{"_id":"d{number}","_rev":"1-a"}}"#).ok()?;
        put_text(rt, alloc, handle, text.as_str())?;
        thread::yield_now();
    }
    Some(())
}

/// A feed with the parameters of a query and a body; None where it is not opened.
pub(crate) fn open<C: Count, R: Wait>(
    rt: &R,
    alloc: Global,
    handle: &mut Handle<C>,
    query: &str,
    body: &str,
) -> Option<Feed<C>> {
    let params = FeedParams::read(alloc, query.as_bytes(), body.as_bytes()).ok()?;
    handle.open_feed(rt, params).ok()
}

/// A reader of a feed beside the feed's pump, which has `K` as its gate and its clock.
trait Reader<R, K> {
    /// Takes items of the feed, and finishes it.
    fn read(&mut self, rt: &R, pace: &K, feed: Feed<Plain>);
}

/// Whether the pump of a feed ends well, beside the feed's reader.
fn is_pumped<R, K, T>(rt: &R, db: &Db<Plain>, pace: &K, feed: Feed<Plain>, reader: &mut T) -> bool
where
    R: Threads + Wait + time::Clock + Sync,
    K: Gate + Clock + Sync,
    T: Reader<R, K> + Send,
{
    let id = feed.id();
    let (is_pumped, ()) = thread::join(
        rt,
        || pump(rt, db, id, pace, pace).is_ok(),
        || reader.read(rt, pace, feed),
    );
    is_pumped
}
