//! A held database holds no call on other databases or on the hub, also while a write waits for it.

use hub_databases::{Hub, HubDb};
use hub_document::{Doc, Limits};
use hub_model::Outcome;
use hub_params::FeedParams;
use hub_shared::{Clock, Feed, Gate, Plain, Point, pump};
use std::alloc::{AllocError, Global};
use std::sync::Wait;
use std::sync::atomic::{AtomicBool, Ordering};
use std::test::Fail;
use std::thread::{self, Threads};
use std::time::{self, Duration};

// A gate that holds a pump inside the lock until the gate is opened. It gives up after 1,000 looks, with a
// millisecond between two looks.
#[derive(Drop)]
struct Held<R: time::Clock> {
    rt: R,
    is_reached: AtomicBool,
    is_writing: AtomicBool,
    is_open: AtomicBool,
    gave_up: AtomicBool,
}

impl<R: time::Clock> Held<R> {
    fn new(rt: R) -> Held<R> {
        Held {
            rt,
            is_reached: AtomicBool::new(false),
            is_writing: AtomicBool::new(false),
            is_open: AtomicBool::new(false),
            gave_up: AtomicBool::new(false),
        }
    }
}

impl<R: time::Clock> Gate for Held<R> {
    fn pass(&self, point: Point) {
        if point == Point::PumpFree {
            return;
        }
        self.is_reached.store(true, Ordering::SeqCst);
        for _ in 0..1000 {
            if self.is_open.load(Ordering::SeqCst) {
                return;
            }
            thread::sleep(&self.rt, Duration::from_millis(1));
        }
        self.gave_up.store(true, Ordering::SeqCst);
    }
}

// A clock that stands still.
#[derive(Drop)]
struct Still;

impl Clock for Still {
    fn now_ms(&self) -> u64 {
        0
    }
}

// One document.
fn docs(alloc: Global) -> Result<Vec<Doc>, AllocError> {
    let mut docs = Vec::with_capacity(alloc, 1)?;
    match Doc::read(alloc, br#"{"_id":"a","_rev":"1-a"}"#, false) {
        Ok(doc) => docs.push(doc)?,
        Err(_) => return Err(AllocError),
    }
    Ok(docs)
}

// Whether a hub stores and notes a document in the database of a name.
fn writes<R: Wait>(rt: &R, alloc: Global, hub: &Hub, name: &str) -> bool {
    let (Ok(db), Ok(docs)) = (hub.find(rt, name), docs(alloc)) else {
        return false;
    };
    match hub.write(rt, &db, docs, false) {
        Ok(written) => {
            written.lapsed.is_none()
                && matches!(written.batch.replies.as_slice(), [Outcome::Stored(_)])
        }
        Err(_) => false,
    }
}

// Whether a hub answers calls on its names.
fn answers<R: Wait>(rt: &R, hub: &Hub) -> bool {
    hub.create(rt, "c").is_ok()
        && hub.remove(rt, "c").is_ok()
        && hub.find(rt, "a").is_ok()
        && hub.list(rt).is_ok()
}

// Waits until a flag is set.
fn wait_for<R: Wait>(rt: &R, flag: &AtomicBool) {
    for _ in rt.forever() {
        if flag.load(Ordering::SeqCst) {
            break;
        }
        thread::yield_now();
    }
}

// A new feed of a database.
fn opened<R: Wait>(rt: &R, alloc: Global, db: &HubDb) -> Result<Feed<Plain>, AllocError> {
    let Ok(params) = FeedParams::read(alloc, b"", b"") else {
        return Err(AllocError);
    };
    match db.handle()?.open_feed(rt, params) {
        Ok(feed) => Ok(feed),
        Err(_) => Err(AllocError),
    }
}

// Writes to the database of the pump, once the pump is at the gate. The write waits for the pump.
fn write_held<R: Wait + time::Clock>(rt: &R, alloc: Global, gate: &Held<R>, hub: &Hub) -> bool {
    wait_for(rt, &gate.is_reached);
    gate.is_writing.store(true, Ordering::SeqCst);
    writes(rt, alloc, hub, "a")
}

// Asks a hub while a write waits for the held database, and then opens the gate. The write has 20
// milliseconds to come to the lock.
fn ask_and_open<R: Wait + time::Clock>(rt: &R, alloc: Global, gate: &Held<R>, hub: &Hub) -> bool {
    wait_for(rt, &gate.is_writing);
    thread::sleep(rt, Duration::from_millis(20));
    let is_answered = writes(rt, alloc, hub, "b") && answers(rt, hub);
    gate.is_open.store(true, Ordering::SeqCst);
    is_answered
}

// A write that waits for the held database, beside calls that do not wait.
fn ask<R: Threads + Wait + time::Clock + Sync>(
    rt: &R,
    alloc: Global,
    gate: &Held<R>,
    hub: &Hub,
) -> bool {
    let (is_written, is_answered) = thread::join(
        rt,
        || write_held(rt, alloc, gate, hub),
        || ask_and_open(rt, alloc, gate, hub),
    );
    is_written && is_answered
}

// The write and the calls, beside a pump of the database `a`.
fn run<R: Threads + Wait + time::Clock + Sync>(
    rt: &R,
    alloc: Global,
    gate: &Held<R>,
    hub: &Hub,
) -> bool {
    let Ok(db) = hub.find(rt, "a") else {
        return false;
    };
    let feed = match opened(rt, alloc, &db) {
        Ok(feed) => feed.id(),
        Err(_) => return false,
    };
    let (is_pumped, is_answered) = thread::join(
        rt,
        || pump(rt, db.db(), feed, gate, &Still).is_ok(),
        || ask(rt, alloc, gate, hub),
    );
    is_pumped && is_answered
}

#[test]
fn a_held_database_holds_no_other_call(rt: HostRuntime) -> Result<(), Fail> {
    let hub = Hub::new(rt.alloc(), Limits::full())?;
    assert!(rt; hub.create(&rt, "a").is_ok() && hub.create(&rt, "b").is_ok());
    let gate = Held::new(rt);
    assert!(rt; run(&rt, rt.alloc(), &gate, &hub));
    assert!(rt; !gate.gave_up.load(Ordering::SeqCst));
    Ok(())
}
