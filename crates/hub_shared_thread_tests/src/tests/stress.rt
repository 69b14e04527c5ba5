//! Many writers, and feeds of each mode, at once. The rows of each reader are compared with those of a
//! database of one thread. This database makes the edits of the receipts, in their order.

use crate::tests::{LIFE, Pace, Reader, database, is_pumped, open, put_text};
use hub_document::ChangeRow;
use hub_model::Item;
use hub_shared::{Clock, Db, Feed, Gate, Handle, Plain, Point, Turn};
use std::alloc::{AllocError, Global};
use std::sync::Wait;
use std::sync::atomic::{AtomicU64, Ordering};
use std::thread::{self, Threads};
use std::time::{self, Duration};

/// How many edits each writer makes, over how many documents.
const EDITS: u64 = 50;

const DOCUMENTS: u64 = 20;

/// The database that the threads of a run share, and a clock. The clock stands while there are writers, and
/// then goes on by a second with each reading.
#[derive(Drop)]
struct Scene {
    db: Db<Plain>,
    /// How many writers are not done.
    writing: AtomicU64,
    now: AtomicU64,
}

impl Scene {
    fn is_written(&self) -> bool {
        self.writing.load(Ordering::SeqCst) == 0
    }
}

impl Gate for Scene {
    fn pass(&self, _: Point) {}
}

impl Clock for Scene {
    fn now_ms(&self) -> u64 {
        let step = if self.is_written() { 1000 } else { 0 };
        self.now.fetch_add(step, Ordering::SeqCst)
    }
}

/// An edit: its sequence, its writer, and which edit of the writer it is.
#[derive(Drop)]
struct Edit {
    seq: u64,
    writer: u64,
    number: u64,
}

/// The result of a thread: the edits of a writer, or the rows of a reader and its last end; whether the
/// reader is late, and whether the thread succeeded.
#[derive(Drop)]
struct Brought {
    edits: Vec<Edit>,
    rows: Vec<ChangeRow>,
    end: Option<u64>,
    is_late: bool,
    is_well: bool,
}

/// The text of a writer's edit: the first edit of a document, its child, or an edit that conflicts with both.
/// Each seventh edit deletes. Each writer has its own generations.
fn edit_text(alloc: Global, writer: u64, number: u64) -> Result<String, AllocError> {
    let writer = writer % 8;
    let doc = (number % DOCUMENTS + 3 * writer) % DOCUMENTS;
    let deleted = number % 7 == 3;
    let (generation, ids) = match number / DOCUMENTS {
        0 => (1, r#""a""#),
        1 => (2, r#""b","a""#),
        _ => (1, r#""c""#),
    };
    let start = (10 * writer).saturating_add(generation);
    format!(in alloc;
        r#"{{"_id":"d{doc}","_deleted":{deleted},"_revisions":{{"start":{start},"ids":[{ids}]}}}}"#
    )
}

/// Makes a writer's edits; None where one is not stored.
fn make_edits<R: Wait>(
    rt: &R,
    alloc: Global,
    scene: &Scene,
    writer: u64,
    edits: &mut Vec<Edit>,
) -> Option<()> {
    let mut handle = scene.db.handle().ok()?;
    for number in 0..EDITS {
        let text = edit_text(alloc, writer, number).ok()?;
        let seq = put_text(rt, alloc, &mut handle, text.as_str())?.seq;
        edits
            .push(Edit {
                seq,
                writer,
                number,
            })
            .ok()?;
        thread::yield_now();
    }
    Some(())
}

/// The query of the feed of each thread, by number. The last feed has the stopped reader.
const FEEDS: &[&str; 9] = &[
    "feed=normal",
    "feed=normal&style=all_docs",
    "feed=normal&filter=_doc_ids",
    "feed=longpoll&timeout=50",
    "feed=longpoll&timeout=50&style=all_docs",
    "feed=continuous&timeout=50",
    "feed=continuous&timeout=50&style=all_docs",
    "feed=continuous&timeout=50&filter=_doc_ids",
    "feed=continuous&timeout=50",
];

/// The query for any number. The threads after the last feed have no feed of their own.
fn query_of(number: usize) -> &'static str {
    match FEEDS.get(number) {
        Some(query) => *query,
        None => FEEDS[8],
    }
}

/// The documents that the filter lets through.
const SOME: &str = r#"{"doc_ids":["d3","d7","d19"]}"#;

const SOME_IDS: &[&str; 3] = &["d3", "d7", "d19"];

/// A feed that goes on after a sequence of the database's life; None where its label says otherwise.
fn follow<R: Wait>(
    rt: &R,
    alloc: Global,
    handle: &mut Handle<Plain>,
    query: &str,
    since: u64,
) -> Option<Feed<Plain>> {
    let query = format!(in alloc; "{query}&since={since}-{LIFE}").ok()?;
    let feed = open(rt, alloc, handle, query.as_str(), SOME)?;
    if feed.end().label().life() != LIFE || feed.end().label().since() != since {
        return None;
    }
    Some(feed)
}

impl Brought {
    /// A result with nothing in it yet.
    fn new(alloc: Global, is_late: bool) -> Brought {
        Brought {
            edits: Vec::new(alloc),
            rows: Vec::new(alloc),
            end: None,
            is_late,
            is_well: true,
        }
    }

    /// Keeps an item. Answers whether the feed may go on after it.
    fn keep(&mut self, item: Item<ChangeRow>) -> bool {
        match item {
            Item::Row(row) => self.is_well &= self.rows.push(row).is_ok(),
            Item::Beat => self.is_well = false,
            Item::End { last_seq, .. } => {
                self.end = Some(last_seq);
                return false;
            }
        }
        self.is_well
    }

    /// Takes a feed's items until its end, slowly.
    fn read_slowly<R: Wait + time::Clock>(&mut self, rt: &R, feed: &mut Feed<Plain>) {
        for _ in rt.forever() {
            let is_over = feed.is_over();
            match feed.take(rt) {
                Some(item) => {
                    if !self.keep(item) {
                        break;
                    }
                }
                None if is_over => {
                    self.is_well = false;
                    break;
                }
                None => feed.wait(rt),
            }
            thread::sleep(rt, Duration::from_micros(50));
        }
    }

    /// Takes the items that are left of a finished feed.
    fn read_left<R: Wait>(&mut self, rt: &R, feed: Feed<Plain>) {
        let mut receiver = feed.finish(rt);
        for _ in 0..EDITS {
            match receiver.take(rt) {
                Some(item) => self.keep(item),
                None => break,
            };
        }
    }
}

impl<R: Wait + time::Clock> Reader<R, Scene> for Brought {
    /// Takes all items until the feed's end, slowly. A late reader takes no item until the writers are done,
    /// and then the items that are left.
    fn read(&mut self, rt: &R, scene: &Scene, mut feed: Feed<Plain>) {
        if self.is_late {
            wait_for_writers(rt, scene);
            self.read_left(rt, feed);
        } else {
            self.read_slowly(rt, &mut feed);
            drop(feed.finish(rt));
        }
    }
}

/// Waits until the writers are done.
fn wait_for_writers<R: Wait + time::Clock>(rt: &R, scene: &Scene) {
    for _ in rt.forever() {
        if scene.is_written() {
            break;
        }
        thread::sleep(rt, Duration::from_millis(1));
    }
}

/// Reads one feed, which goes on where the last one ended, beside its pump; None where one of these fails.
fn read_next<R: Threads + Wait + time::Clock + Sync>(
    rt: &R,
    alloc: Global,
    scene: &Scene,
    brought: &mut Brought,
    query: &str,
) -> Option<()> {
    let mut handle = scene.db.handle().ok()?;
    let feed = follow(rt, alloc, &mut handle, query, brought.end.unwrap_or(0))?;
    let is_pumped = is_pumped(rt, &scene.db, scene, feed, brought);
    (is_pumped && brought.is_well).then_some(())
}

/// Reads one feed after the other, until one began after the writers were done; None where one fails.
fn read_all<R: Threads + Wait + time::Clock + Sync>(
    rt: &R,
    alloc: Global,
    scene: &Scene,
    brought: &mut Brought,
    query: &str,
) -> Option<()> {
    for _ in rt.forever() {
        let is_last = scene.is_written();
        read_next(rt, alloc, scene, brought, query)?;
        if is_last {
            break;
        }
        thread::yield_now();
    }
    Some(())
}

/// The work of the thread of this number: eight feeds, a stopped reader, and writers.
fn part<R: Threads + Wait + time::Clock + Sync>(
    rt: &R,
    alloc: Global,
    scene: &Scene,
    number: usize,
) -> Brought {
    let mut brought = Brought::new(alloc, number == 8);
    let query = query_of(number);
    let done = if number < 8 {
        read_all(rt, alloc, scene, &mut brought, query)
    } else if number == 8 {
        read_next(rt, alloc, scene, &mut brought, query)
    } else {
        let made = make_edits(rt, alloc, scene, number as u64 - 9, &mut brought.edits);
        scene.writing.fetch_sub(1, Ordering::SeqCst);
        made
    };
    brought.is_well &= done.is_some();
    brought
}

/// The writer of the edit of this sequence, and the edit's number with it; None where no writer has it.
fn edit_of(parts: &[Brought], seq: u64) -> Option<(u64, u64)> {
    for part in parts {
        if let Some(edit) = part.edits.iter().find(|edit| edit.seq == seq) {
            return Some((edit.writer, edit.number));
        }
    }
    None
}

/// The row that a database of one thread shows of an edit with every leaf, and the sequence of the next edit of
/// its document, if there is one.
#[derive(Drop)]
struct Shown {
    row: ChangeRow,
    next: u64,
}

/// The row of the edit of this sequence, which is the last edit so far.
fn row_of<R: Wait>(
    rt: &R,
    alloc: Global,
    handle: &mut Handle<Plain>,
    seq: u64,
) -> Option<ChangeRow> {
    let since = seq.saturating_sub(1);
    let query = format!(in alloc; "style=all_docs&since={since}").ok()?;
    let mut feed = open(rt, alloc, handle, query.as_str(), "")?;
    feed.hold(rt, Turn::Hand, &Pace::new(0)).ok()?;
    let item = feed.take(rt);
    drop(feed.finish(rt));
    match item {
        Some(Item::Row(row)) if row.seq == seq => Some(row),
        _ => None,
    }
}

/// Makes a writer's edit in the database of one thread. Answers its row; None where it has another sequence.
fn remake<R: Wait>(
    rt: &R,
    alloc: Global,
    handle: &mut Handle<Plain>,
    edit: (u64, u64),
    seq: u64,
) -> Option<ChangeRow> {
    let text = edit_text(alloc, edit.0, edit.1).ok()?;
    put_text(rt, alloc, handle, text.as_str())?;
    row_of(rt, alloc, handle, seq)
}

/// Adds a row, which is the next one of its document.
fn add(shown: &mut Vec<Shown>, row: ChangeRow) -> Option<()> {
    for earlier in shown.iter_mut() {
        if earlier.next == u64::MAX && earlier.row.id.as_str() == row.id.as_str() {
            earlier.next = row.seq;
        }
    }
    shown
        .push(Shown {
            row,
            next: u64::MAX,
        })
        .ok()
}

/// The rows that a database of one thread shows of so many edits; None where an edit is missing.
fn remade<R: Wait>(rt: &R, alloc: Global, parts: &[Brought], count: u64) -> Option<Vec<Shown>> {
    let (_db, mut handle) = database(alloc, 4, 8)?;
    let mut shown = Vec::new(alloc);
    for number in 0..count {
        let seq = number.saturating_add(1);
        let edit = edit_of(parts, seq)?;
        let row = remake(rt, alloc, &mut handle, edit, seq)?;
        add(&mut shown, row)?;
    }
    Some(shown)
}

/// Whether a feed shows the document of this id.
fn is_of(query: &str, id: &str) -> bool {
    !query.contains("_doc_ids") || SOME_IDS.contains(&id)
}

/// Whether a row shows its document as the wanted row does, with all its leaves or its winner alone.
fn is_as(query: &str, row: &ChangeRow, wanted: &Shown) -> bool {
    let leaves = wanted.row.changes.len();
    let count = if query.contains("all_docs") {
        leaves
    } else {
        1
    };
    for at in 0..count {
        if row.changes.get(at) != wanted.row.changes.get(at) {
            return false;
        }
    }
    let is_current = row.seq <= row.seen && row.seen < wanted.next;
    let is_same = row.id.as_str() == wanted.row.id.as_str();
    is_current && is_same && row.changes.len() == count && row.deleted == wanted.row.deleted
}

/// Whether rows rise, and each shows a document of the feed as it was once there were as many edits as the
/// row says (`seen`).
fn are_right(query: &str, shown: &[Shown], rows: &[ChangeRow]) -> bool {
    let mut last = 0;
    for row in rows {
        let Some(wanted) = shown.get(row.seq.saturating_sub(1) as usize) else {
            return false;
        };
        if row.seq <= last || !is_of(query, row.id.as_str()) || !is_as(query, row, wanted) {
            return false;
        }
        last = row.seq;
    }
    true
}

/// Whether rows show the last edit of each document that the feed shows.
fn are_all(query: &str, shown: &[Shown], rows: &[ChangeRow]) -> bool {
    for wanted in shown {
        let is_last = wanted.next == u64::MAX && is_of(query, wanted.row.id.as_str());
        if is_last && !rows.iter().any(|row| row.seq == wanted.row.seq) {
            return false;
        }
    }
    true
}

/// Whether the result of the thread of this number is right. A reader has all rows that its feed shows. The
/// stopped reader has the rows that fit its lane. A writer has no rows.
fn is_right(shown: &[Shown], number: usize, brought: &Brought) -> bool {
    let (query, rows) = (query_of(number), brought.rows.as_slice());
    let is_whole = if number < 8 {
        brought.end == Some(shown.len() as u64) && are_all(query, shown, rows)
    } else {
        brought.end.is_none() && rows.len() <= 4
    };
    brought.is_well && is_whole && are_right(query, shown, rows)
}

/// The results of the readers and of so many writers.
fn raced<R: Threads + Wait + time::Clock + Sync>(
    rt: &R,
    alloc: Global,
    writers: u64,
) -> Option<Vec<Brought>> {
    let (db, _handle) = database(alloc, 4, 8)?;
    let scene = Scene {
        db,
        writing: AtomicU64::new(writers),
        now: AtomicU64::new(0),
    };
    let count = 9 + writers.min(8) as usize;
    thread::map_indices(rt, alloc, count, &|number| part(rt, alloc, &scene, number)).ok()
}

/// Whether the result of each thread is right.
fn are_all_right(shown: &[Shown], parts: &[Brought]) -> bool {
    for number in 0..parts.len() {
        if !is_right(shown, number, &parts[number]) {
            return false;
        }
    }
    true
}

/// Whether the readers take the edits of which so many writers have receipts.
fn are_told<R: Threads + Wait + time::Clock + Sync>(
    rt: &R,
    alloc: Global,
    writers: u64,
) -> Option<bool> {
    let parts = raced(rt, alloc, writers)?;
    let shown = remade(rt, alloc, parts.as_slice(), writers.saturating_mul(EDITS))?;
    Some(are_all_right(shown.as_slice(), parts.as_slice()))
}

#[test]
fn readers_take_what_writers_are_told(rt: HostRuntime) {
    assert!(rt; are_told(&rt, rt.alloc(), 1) == Some(true));
    assert!(rt; are_told(&rt, rt.alloc(), 2) == Some(true));
    assert!(rt; are_told(&rt, rt.alloc(), 8) == Some(true));
}
