//! Measures a database that threads share, and prints microseconds. `writes FEEDS COUNT` prints the time of
//! so many writes beside feeds that are read. `news FEEDS ROUNDS` prints for each write the time until every
//! feed's reader took its row. Feeds are read as by the workers of a server: a thread a processor polls its
//! part of the feeds, and sleeps until a write has news for them. With no argument it does nothing.
#![tactic(auto)]

use hub_document::{Doc, Limits};
use hub_model::Item;
use hub_params::FeedParams;
use hub_shared::{Bell, Clock, Db, Feed, Gate, Handle, Plain, Point, Watch};
use std::alloc::{AllocError, Global};
use std::sync::atomic::{AtomicBool, AtomicU64, Ordering};
use std::sync::{Arc, Wait};
use std::thread::{self, Parker, Threads};
use std::time::{self, Duration, Instant};
use std::{env, io};

// A gate that is open, and a clock that stands.
#[derive(Drop)]
struct Free;

impl Gate for Free {
    fn pass(&self, _point: Point) {}
}

impl Clock for Free {
    fn now_ms(&self) -> u64 {
        0
    }
}

// A thread that reads feeds, as others see it.
#[derive(Drop)]
struct Reader {
    /// Rung where its feeds have news.
    bell: Arc<Bell, Global>,
    /// The watch that its feeds share.
    watch: Arc<Watch, Global>,
    /// The thread sleeps here while its feeds have no news.
    parker: Parker,
}

impl Reader {
    fn new(alloc: Global) -> Result<Reader, AllocError> {
        let bell = Arc::new(alloc, Bell::new())?;
        let watch = Watch::new(Arc::try_clone(&bell)?);
        Ok(Reader {
            bell,
            watch: Arc::new(alloc, watch)?,
            parker: Parker::new(),
        })
    }

    // Whether its feeds have news, and from here on they have none.
    fn take_news(&self) -> bool {
        self.bell.take() && self.watch.take()
    }

    // Wakes the thread where its feeds have news.
    fn wake(&self) {
        if self.bell.is_rung() {
            self.parker.unpark();
        }
    }
}

// The values that the threads of a run share.
#[derive(Drop)]
struct Scene {
    db: Db<Plain>,
    task: Task,
    readers: Vec<Reader>,
    /// How many feeds are open.
    open: AtomicU64,
    /// How many rows were taken.
    rows: AtomicU64,
    /// Rung where every feed's reader took a row.
    taken: Parker,
    /// Whether all is measured.
    is_over: AtomicBool,
}

fn readers(alloc: Global, count: usize) -> Result<Vec<Reader>, AllocError> {
    let mut readers = Vec::new(alloc);
    for _ in 0..count {
        readers.push(Reader::new(alloc)?)?;
    }
    Ok(readers)
}

impl Scene {
    fn new(db: Db<Plain>, task: Task, readers: Vec<Reader>) -> Scene {
        Scene {
            db,
            task,
            readers,
            open: AtomicU64::new(0),
            rows: AtomicU64::new(0),
            taken: Parker::new(),
            is_over: AtomicBool::new(false),
        }
    }

    fn count_row(&self) {
        let rows = self.rows.fetch_add(1, Ordering::SeqCst).wrapping_add(1);
        if self.task.feeds > 0 && rows % self.task.feeds == 0 {
            self.taken.unpark();
        }
    }

    // Wakes the readers whose feeds have news, as a runner of a server does after its turn.
    fn ring(&self) {
        for reader in &self.readers {
            reader.wake();
        }
    }

    // Ends the readers.
    fn end(&self) {
        self.is_over.store(true, Ordering::SeqCst);
        for reader in &self.readers {
            reader.parker.unpark();
        }
    }

    // How many of the feeds the reader of this number has.
    fn share_of(&self, at: u64) -> u64 {
        let readers = self.readers.len() as u64;
        let others = self.task.feeds.saturating_sub(at);
        if readers == 0 || others == 0 {
            return 0;
        }
        ((others - 1) / readers).saturating_add(1)
    }
}

// Takes the items that a feed has now, as they lie.
fn take_all<R: Wait>(rt: &R, scene: &Scene, feed: &mut Feed<Plain>) {
    for _ in rt.forever() {
        if !feed.poll(rt, &Free, &Free) {
            break;
        }
        feed.show(rt, &mut (), &mut (), |item, _, _| {
            if let Item::Row(_) = item {
                scene.count_row();
            }
        });
    }
}

// A feed of each change to come.
fn feed_of<R: Wait>(rt: &R, alloc: Global, db: &Db<Plain>) -> Option<Feed<Plain>> {
    let mut handle = db.handle().ok()?;
    let params = FeedParams::read(alloc, b"feed=continuous", b"").ok()?;
    handle.open_feed(rt, params).ok()
}

// Watches a feed for this reader.
fn begin_watch<R: Wait>(rt: &R, scene: &Scene, reader: &Reader, feed: &mut Feed<Plain>) -> bool {
    let Ok(watch) = Arc::try_clone(&reader.watch) else {
        return false;
    };
    feed.watch(rt, watch);
    take_all(rt, scene, feed);
    scene.open.fetch_add(1, Ordering::SeqCst);
    true
}

// Opens so many feeds.
fn open<R: Wait>(rt: &R, alloc: Global, db: &Db<Plain>, count: u64) -> Option<Vec<Feed<Plain>>> {
    let mut feeds = Vec::new(alloc);
    for _ in 0..count {
        feeds.push(feed_of(rt, alloc, db)?).ok()?;
    }
    Some(feeds)
}

// Reads feeds until all is measured, and says whether each could be watched.
fn read<R: Wait>(rt: &R, scene: &Scene, reader: &Reader, feeds: &mut [Feed<Plain>]) -> bool {
    for feed in feeds.iter_mut() {
        if !begin_watch(rt, scene, reader, feed) {
            return false;
        }
    }
    for _ in rt.forever() {
        if scene.is_over.load(Ordering::SeqCst) {
            break;
        }
        if reader.take_news() {
            take_news(rt, scene, feeds);
        } else {
            reader.parker.park(rt);
        }
    }
    true
}

// Takes the items that the feeds have now.
fn take_news<R: Wait>(rt: &R, scene: &Scene, feeds: &mut [Feed<Plain>]) {
    for feed in feeds {
        take_all(rt, scene, feed);
    }
}

// The document of this number, of one edit.
fn document(alloc: Global, number: u64) -> Option<Doc> {
    let text = format!(in alloc; r#"{{"_id":"d{number}","_rev":"1-a","v":1}}"#).ok()?;
    Doc::read(alloc, text.as_bytes(), false).ok()
}

// Batches of one document.
fn batches(alloc: Global, count: u64) -> Option<Vec<Vec<Doc>>> {
    let mut all = Vec::new(alloc);
    for number in 0..count {
        let mut docs = Vec::new(alloc);
        docs.push(document(alloc, number)?).ok()?;
        all.push(docs).ok()?;
    }
    Some(all)
}

// Waits until every feed is open, and its reader had time to sleep; or until a reader could not go on.
fn wait_for_feeds<R: Wait + time::Clock>(rt: &R, scene: &Scene) {
    for _ in rt.forever() {
        let is_over = scene.is_over.load(Ordering::SeqCst);
        if is_over || scene.open.load(Ordering::SeqCst) >= scene.task.feeds {
            break;
        }
        thread::sleep(rt, Duration::from_millis(1));
    }
    thread::sleep(rt, Duration::from_millis(300));
}

// Waits until so many rows were taken.
fn wait_for_rows<R: Wait>(rt: &R, scene: &Scene, wanted: u64) {
    for _ in rt.forever() {
        if scene.rows.load(Ordering::SeqCst) >= wanted {
            break;
        }
        scene.taken.park(rt);
    }
}

// Writes documents, and says whether they were stored.
fn write<R: Wait>(rt: &R, scene: &Scene, handle: &mut Handle<Plain>, docs: Vec<Doc>) -> bool {
    let is_written = handle.write(rt, docs, false).is_ok();
    scene.ring();
    is_written
}

// Writes documents, a batch a call.
fn write_all<R: Wait>(
    rt: &R,
    scene: &Scene,
    handle: &mut Handle<Plain>,
    all: Vec<Vec<Doc>>,
) -> bool {
    for docs in all {
        if !write(rt, scene, handle, docs) {
            return false;
        }
    }
    true
}

// Prints how many microseconds have passed.
fn print_since<R: time::Clock + Print>(rt: &R, start: &Instant) -> Option<()> {
    let now = Instant::now(rt).ok()?;
    let passed = now.checked_duration_since(*start)?.as_micros();
    println!(rt; "{passed}").ok()
}

// Prints how many microseconds it takes to write documents.
fn time_writes<R: Wait + time::Clock + Print>(
    rt: &R,
    scene: &Scene,
    handle: &mut Handle<Plain>,
    all: Vec<Vec<Doc>>,
) -> bool {
    let Ok(start) = Instant::now(rt) else {
        return false;
    };
    write_all(rt, scene, handle, all) && print_since(rt, &start).is_some()
}

// Prints how many microseconds pass from a write until so many rows were taken.
fn time_row<R: Wait + time::Clock + Print>(
    rt: &R,
    scene: &Scene,
    handle: &mut Handle<Plain>,
    docs: Vec<Doc>,
    wanted: u64,
) -> bool {
    let Ok(start) = Instant::now(rt) else {
        return false;
    };
    if !write(rt, scene, handle, docs) {
        return false;
    }
    wait_for_rows(rt, scene, wanted);
    print_since(rt, &start).is_some()
}

// For each batch, prints how many microseconds pass from its write until every feed's reader took its row.
fn time_news<R: Wait + time::Clock + Print>(
    rt: &R,
    scene: &Scene,
    handle: &mut Handle<Plain>,
    all: Vec<Vec<Doc>>,
) -> bool {
    let mut wanted = 0u64;
    for docs in all {
        wanted = wanted.saturating_add(scene.task.feeds);
        if !time_row(rt, scene, handle, docs, wanted) {
            return false;
        }
    }
    true
}

// The kind of measurement.
#[derive(Clone, Copy)]
enum Measure {
    Nothing,
    Writes,
    News,
}

// A measurement: its kind, how many feeds are open, and how often it measures.
#[derive(Clone, Copy, Drop)]
struct Task {
    what: Measure,
    feeds: u64,
    count: u64,
}

// Measures, with every feed open.
fn run_measure<R: Wait + time::Clock + Print>(rt: &R, alloc: Global, scene: &Scene) -> bool {
    let Some(all) = batches(alloc, scene.task.count) else {
        return false;
    };
    let Ok(mut handle) = scene.db.handle() else {
        return false;
    };
    wait_for_feeds(rt, scene);
    match scene.task.what {
        Measure::Nothing => true,
        Measure::Writes => time_writes(rt, scene, &mut handle, all),
        Measure::News => time_news(rt, scene, &mut handle, all),
    }
}

// Does the part of the thread of this number: a reader, or after the last reader the one that measures.
fn take_part<R: Wait + time::Clock + Print>(
    rt: &R,
    alloc: Global,
    scene: &Scene,
    at: usize,
) -> bool {
    let Some(reader) = scene.readers.get(at) else {
        let is_measured = run_measure(rt, alloc, scene);
        scene.end();
        return is_measured;
    };
    let got_on = match open(rt, alloc, &scene.db, scene.share_of(at as u64)) {
        Some(mut feeds) => read(rt, scene, reader, feeds.as_mut_slice()),
        None => false,
    };
    if !got_on {
        scene.end();
    }
    got_on
}

// A scene with as many readers as there are processors.
fn scene_of<R: Threads>(rt: &R, alloc: Global, task: Task) -> Option<Scene> {
    let count = thread::available_parallelism(rt).ok()?.get();
    let readers = readers(alloc, count).ok()?;
    let (db, _handle) = Db::new(alloc, Limits::full(), 1, Plain).ok()?;
    Some(Scene::new(db, task, readers))
}

// Measures, and says whether each thread got on.
fn run<R: Threads + Wait + time::Clock + Print + Sync>(rt: &R, alloc: Global, task: Task) -> bool {
    let Some(scene) = scene_of(rt, alloc, task) else {
        return false;
    };
    let threads = scene.readers.len().saturating_add(1);
    match thread::map_indices(rt, alloc, threads, &|at| take_part(rt, alloc, &scene, at)) {
        Ok(parts) => parts.iter().all(|got_on| *got_on),
        Err(_) => false,
    }
}

fn number(text: Option<String>) -> u64 {
    match text {
        Some(text) => text.as_str().parse::<u64>().unwrap_or(0).min(1_000_000),
        None => 0,
    }
}

fn measure_of(word: Option<String>) -> Measure {
    match word {
        Some(word) if word.as_str() == "writes" => Measure::Writes,
        Some(word) if word.as_str() == "news" => Measure::News,
        _ => Measure::Nothing,
    }
}

fn main(rt: HostRuntime) -> io::Result<()> {
    let mut args = env::args(&rt)?;
    let _program = args.next();
    let task = Task {
        what: measure_of(args.next()),
        feeds: number(args.next()),
        count: number(args.next()),
    };
    if matches!(task.what, Measure::Nothing) || run(&rt, rt.alloc(), task) {
        return Ok(());
    }
    println!(rt; "a thread did not get on")
}
