//! A server in a thread of its own, its gate, and the transcripts that are replayed over it.

use crate::tests::room::Room;
use hub_document::Limits;
use hub_server::{Uptime, run_server};
use hub_shared::{Gate, Point};
use hub_transcript::{Words, replay};
use std::alloc::{AllocError, Global};
use std::io;
use std::net::{Net, SocketAddr, TcpListener, TcpStream};
use std::process::Abort;
use std::sync::atomic::{AtomicBool, Ordering};
use std::sync::{Arc, Wait};
use std::test::Fail;
use std::thread::{self, JoinHandle, Threads};
use std::time::{Clock, Duration};

/// How often a gate or its test looks, every 5 milliseconds, before it gives up.
const LOOKS: u64 = 1_000;

/// The state that a gate and its test share.
#[derive(Drop)]
pub(crate) struct Scene {
    alloc: Global,
    /// A thread came to the gate.
    is_held: AtomicBool,
    /// The gate may open.
    is_open: AtomicBool,
    /// The gate looked `LOOKS` times, and then let its thread pass.
    gave_up: AtomicBool,
}

impl Scene {
    /// The state before any thread comes.
    pub(crate) fn new(alloc: Global) -> Result<Arc<Scene, Global>, AllocError> {
        let scene = Scene {
            alloc,
            is_held: AtomicBool::new(false),
            is_open: AtomicBool::new(false),
            gave_up: AtomicBool::new(false),
        };
        Ok(Arc::new(alloc, scene)?)
    }

    /// Waits until a thread stands before the gate. False where none came.
    pub(crate) fn is_held(&self, rt: &impl Host) -> bool {
        for _ in 0..LOOKS {
            if self.is_held.load(Ordering::SeqCst) {
                return true;
            }
            rt.pause(5);
        }
        false
    }

    /// Opens the gate. False where it gave up before.
    pub(crate) fn opens(&self) -> bool {
        let gave_up = self.gave_up.load(Ordering::SeqCst);
        self.is_open.store(true, Ordering::SeqCst);
        !gave_up
    }
}

/// A gate that holds each thread at the point `held`, if there is one, until the test opens it.
#[derive(Drop)]
struct Held<R> {
    rt: R,
    held: Option<Point>,
    scene: Arc<Scene, Global>,
}

impl<R: Clock> Gate for Held<R> {
    fn pass(&self, point: Point) {
        if self.held != Some(point) {
            return;
        }
        self.scene.is_held.store(true, Ordering::SeqCst);
        for _ in 0..LOOKS {
            if self.scene.is_open.load(Ordering::SeqCst) {
                return;
            }
            thread::sleep(&self.rt, Duration::from_millis(5));
        }
        self.scene.gave_up.store(true, Ordering::SeqCst);
    }
}

/// A server in a thread of its own.
#[derive(Drop)]
struct Running {
    address: SocketAddr,
    /// Whether the server served all its connections to their ends.
    ended: JoinHandle<bool>,
}

impl Running {
    /// Starts a server for `count` connections on a free port.
    fn start<R, G>(
        rt: &R,
        alloc: Global,
        count: u64,
        gate: G,
        limits: Limits,
    ) -> io::Result<Running>
    where
        R: Threads
            + Wait
            + Clock
            + Net<Listener = TcpListener, Stream = TcpStream>
            + Copy
            + Send
            + Sync
            + Drop
            + 'static,
        G: Gate + Send + Sync + Drop + 'static,
    {
        let listener = TcpListener::bind(rt, "127.0.0.1:0")?;
        let address = listener.local_addr()?;
        let handle = *rt;
        let clock = Uptime::new(handle)?;
        let ended = thread::spawn(rt, move || {
            run_server(&handle, alloc, &listener, count, gate, clock, limits).is_ok()
        })?;
        Ok(Running { address, ended })
    }

    /// Waits for the server. Whether it served all its connections to their ends.
    fn ends<R: Threads>(self, rt: &R) -> bool {
        let Running { address: _, ended } = self;
        ended.join(rt)
    }
}

/// The place where a case plays: the address of its server, and the state of its gate.
#[derive(Drop)]
pub(crate) struct Place {
    address: SocketAddr,
    scene: Arc<Scene, Global>,
}

/// The means of a case, from its runtime and its place.
pub(crate) trait Host {
    /// A new connection to the server.
    fn connect(&self) -> io::Result<TcpStream>;

    /// The state of the server's gate.
    fn scene(&self) -> &Scene;

    /// Waits for `count` milliseconds.
    fn pause(&self, count: u64);
}

impl<R> Host for (R, Place)
where
    R: Clock + Net<Listener = TcpListener, Stream = TcpStream>,
{
    fn connect(&self) -> io::Result<TcpStream> {
        TcpStream::connect(&self.0, self.1.address)
    }

    fn scene(&self) -> &Scene {
        &self.1.scene
    }

    fn pause(&self, count: u64) {
        thread::sleep(&self.0, Duration::from_millis(count));
    }
}

/// The limits of a server, of which the named one has this number. None where there is no such name, or
/// where the number is out of range: 1 to 1,024 for `feeds`, 1 to 64 for `lane`.
fn limits(name: &str, number: u64) -> Option<Limits> {
    let mut limits = Limits::full();
    if name == "feeds" {
        if number < 1 || 1_024 < number {
            return None;
        }
        limits.feeds = number;
        return Some(limits);
    }
    if name == "lane" {
        if number < 1 || 64 < number {
            return None;
        }
        limits.lane = number;
        return Some(limits);
    }
    if name.is_empty() || name == "request" || name == "pump" {
        return Some(limits);
    }
    None
}

/// The point at which the gate of a server holds, if any.
fn point(name: &str, number: u64) -> Option<Point> {
    if name == "request" {
        return Some(Point::Request(number));
    }
    if name == "pump" {
        return Some(Point::PumpHolding);
    }
    None
}

/// The server of a transcript: its count of connections, and the name and the number of its limit or its
/// gate. None where no command says a server, or several do.
fn server_of(transcript: &str) -> Option<(u64, &str, u64)> {
    let (_, commands) = transcript.split_once("\n> server ")?;
    if commands.contains("\n> server ") {
        return None;
    }
    let (server, _) = commands.split_once('\n').unwrap_or((commands, ""));
    let mut words = Words::of(server);
    let count = words.word().parse().ok()?;
    let name = words.word();
    Some((count, name, words.number()))
}

/// Starts the server that the first command of a transcript says. Its gate uses the scene.
fn serve<R>(rt: &R, transcript: &str, scene: &Arc<Scene, Global>) -> Result<Running, Fail>
where
    R: Threads
        + Wait
        + Clock
        + Net<Listener = TcpListener, Stream = TcpStream>
        + Copy
        + Send
        + Sync
        + Drop
        + 'static,
{
    let Some((count, name, number)) = server_of(transcript) else {
        return Err(Fail::new("not one server"));
    };
    let Some(limits) = limits(name, number) else {
        return Err(Fail::new("no such server"));
    };
    let gate = Held {
        rt: *rt,
        held: point(name, number),
        scene: Arc::try_clone(scene)?,
    };
    Ok(Running::start(rt, scene.alloc, count, gate, limits)?)
}

/// Replays a transcript of one case over its server. Then its clients close, and the server comes to its
/// end. It has to have served all its connections to their ends.
pub(crate) fn plays<R>(rt: &R, alloc: Global, transcript: &str) -> Result<(), Fail>
where
    R: Abort
        + Threads
        + Wait
        + Clock
        + Net<Listener = TcpListener, Stream = TcpStream>
        + Copy
        + Send
        + Sync
        + Drop
        + 'static,
{
    let scene = Scene::new(alloc)?;
    let server = serve(rt, transcript, &scene)?;
    let place = Place {
        address: server.address,
        scene,
    };
    replay::<Room, _>(&(*rt, place), alloc, transcript)?;
    assert!(rt;
        server.ends(rt),
        "the server did not serve all connections to their ends: {transcript}"
    );
    Ok(())
}
