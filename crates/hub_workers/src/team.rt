//! The workers of a server.

use crate::alive::Alive;
use crate::conn::Conn;
use crate::event_loop::EventLoop;
use crate::port::Given;
use crate::relief::Monitor;
use crate::seat::Seat;
use crate::turn::Turn;
use hub_session::Service;
use hub_shared::{Bell, Clock, Watchable};
use std::alloc::{AllocError, Global};
use std::io;
use std::net::Net;
use std::sync::{Arc, Wait};
use std::thread::{self, Threads};

/// How many bytes a runner reads at once.
const ROOM: usize = 65_536;

/// The fewest workers of a server.
const FEWEST: usize = 2;

/// The values that the threads of a server share.
#[derive(Drop)]
pub(crate) struct Team<'e, R, S: Service, K> {
    pub(crate) rt: &'e R,
    pub(crate) alloc: Global,
    clock: &'e K,
    /// The workers.
    pub(crate) seats: Vec<Seat<S>>,
    /// The workers' bells, in the order of the workers. Each turn looks at all bells, so they do not lie where
    /// workers write.
    bells: Vec<Arc<Bell, Global>>,
    /// How many connections are served.
    pub(crate) alive: Alive,
    /// The monitor, which says when the workers are looked at.
    pub(crate) monitor: Monitor,
}

/// How many workers a server has: one a processor, and at least `FEWEST`. Where the system does not tell how
/// many processors there are, it has `FEWEST`.
fn worker_count(rt: &impl Threads) -> usize {
    match thread::available_parallelism(rt) {
        Ok(count) => count.get().max(FEWEST),
        Err(_) => FEWEST,
    }
}

impl<'e, R, S: Service + Watchable + Drop, K> Team<'e, R, S, K> {
    /// Workers without connections, whom nobody runs yet. An error says that there was no memory, or that the
    /// system has no descriptor left.
    pub(crate) fn new(rt: &'e R, alloc: Global, clock: &'e K) -> io::Result<Team<'e, R, S, K>>
    where
        R: Threads + Net,
    {
        let mut seats = Vec::new(alloc);
        let mut bells = Vec::new(alloc);
        for _ in 0..worker_count(rt) {
            let bell = Arc::new(alloc, Bell::new())?;
            bells.push(Arc::try_clone(&bell)?)?;
            seats.push(Seat::new(rt, alloc, bell)?)?;
        }
        Ok(Team {
            rt,
            alloc,
            clock,
            seats,
            bells,
            alive: Alive::new(),
            monitor: Monitor::new(),
        })
    }

    /// Whether a worker goes on with a connection.
    pub(crate) fn is_busy(&self) -> bool {
        self.seats.iter().any(|seat| seat.is_busy())
    }

    // Wakes each worker that sleeps while a stream of it has news.
    fn ring(&self) {
        for (bell, seat) in self.bells.iter().zip(&self.seats) {
            if bell.is_rung() {
                seat.port.wake();
            }
        }
    }

    /// Tells the threads that there will be no more connections: they end.
    pub(crate) fn close(&self) {
        for seat in &self.seats {
            seat.port.close();
        }
        self.monitor.end();
    }

    /// A buffer for the bytes that a runner reads at once.
    pub(crate) fn make_room(&self) -> Result<Vec<u8>, AllocError> {
        vec![in self.alloc; 0u8; ROOM]
    }
}

impl<R: Wait, S: Service + Watchable + Drop, K: Clock> Team<'_, R, S, K> {
    /// Gives a connection to a worker, to each one in turn. Without memory for it the connection is closed.
    pub(crate) fn give(&self, number: u64, conn: Box<Conn<S>>) {
        let count = self.seats.len().max(1);
        let place = usize::try_from(number).unwrap_or(0) % count;
        self.alive.begin(self.rt);
        let is_given = match self.seats.get(place) {
            Some(seat) => seat.port.give(self.rt, Given::New(conn)).is_ok(),
            None => false,
        };
        if !is_given {
            self.alive.end(self.rt);
        }
    }

    // Takes in the connections that a worker was given. A connection that is closed is no longer served.
    fn take_given(&self, seat: &Seat<S>, events: &mut EventLoop<S>, now: u64) {
        for _ in 0..u64::MAX {
            let Some(given) = seat.port.take(self.rt) else {
                break;
            };
            if !events.take_given(given, now) {
                self.alive.end(self.rt);
            }
        }
    }

    // Begins the turn of a worker's next connection, and sleeps while no connection is to have a turn. None
    // once there will be no more connections.
    fn begin_turn(&self, seat: &Seat<S>) -> Option<Turn<S>> {
        let mut guard = seat.events.lock(self.rt);
        let events = &mut *guard;
        for _ in self.rt.forever() {
            if let Some(mut turn) = events.table.take_ready() {
                turn.number = seat.begin_turn();
                return Some(turn);
            }
            if seat.port.is_closed() {
                break;
            }
            let now = self.clock.now_ms();
            self.take_given(seat, events, now);
            events.look(self.rt, &seat.port, now);
        }
        None
    }

    // Puts back a connection after a turn, for the runner that ended the turn.
    fn put_back(&self, seat: &Seat<S>, turn: Turn<S>) {
        let is_open = seat
            .events
            .lock(self.rt)
            .put_back(turn, self.clock.now_ms());
        if !is_open {
            self.alive.end(self.rt);
        }
    }

    /// Runs a worker, until there will be no more connections or another thread relieves this one. Each read
    /// of a connection fills `room`.
    pub(crate) fn run(&self, seat: &Seat<S>, mut room: Vec<u8>) {
        for _ in self.rt.forever() {
            let Some(mut turn) = self.begin_turn(seat) else {
                break;
            };
            self.monitor.wake();
            turn.run(room.as_mut_slice());
            self.ring();
            if !seat.end_turn(turn.number) {
                seat.give_back(self.rt, turn);
                break;
            }
            self.put_back(seat, turn);
        }
    }

    /// Runs a worker in place of a thread that is held in the turn of this number, unless that turn has
    /// ended.
    pub(crate) fn relieve(&self, seat: &Seat<S>, number: u64, room: Vec<u8>) {
        if seat.end_turn(number) {
            // A write in that turn may be news.
            self.ring();
            self.run(seat, room);
        }
    }
}
