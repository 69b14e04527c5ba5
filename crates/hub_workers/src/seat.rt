//! Workers, and the threads that run them.

use crate::event_loop::EventLoop;
use crate::port::{Given, Port};
use crate::turn::Turn;
use hub_session::Service;
use hub_shared::{Bell, Watchable};
use mio::Poll;
use std::alloc::{AllocFailed, Global};
use std::net::Net;
use std::sync::atomic::{AtomicU64, Ordering};
use std::sync::{Arc, Mutex, Wait};
use std::{io, thread};

/// The seat of a worker. One thread runs it at a time, its runner: it takes out a connection, goes on with it
/// outside of the lock, and puts it back. A runner that is held meanwhile can be relieved. Another thread is
/// the seat's runner from then on, and the held thread gives its connection back.
#[derive(Drop)]
pub(crate) struct Seat<S: Service> {
    /// The part of the worker that other threads have.
    pub(crate) port: Port<S>,
    pub(crate) events: Mutex<EventLoop<S>>,
    /// How many turns began, plus how many ended: while a turn goes on it is odd, and the number of the turn.
    turns: AtomicU64,
    /// The value of `turns` at the last look for a runner that is held.
    seen: AtomicU64,
}

impl<S: Service + Watchable + Drop> Seat<S> {
    /// A seat without connections, which nobody runs yet, and whose streams ring this bell. An error says that
    /// there was no memory, or that the system has no descriptor left.
    pub(crate) fn new(
        net: &impl Net,
        alloc: Global,
        bell: Arc<Bell, Global>,
    ) -> io::Result<Seat<S>> {
        let poll = Poll::new(net)?;
        let port = Port::new(alloc, poll.registry(), Arc::try_clone(&bell)?)?;
        Ok(Seat {
            port,
            events: Mutex::new(EventLoop::new(alloc, poll, bell)?),
            turns: AtomicU64::new(0),
            seen: AtomicU64::new(0),
        })
    }

    /// Whether a connection has a turn.
    pub(crate) fn is_busy(&self) -> bool {
        self.turns.load(Ordering::SeqCst) & 1 == 1
    }

    /// The number of the turn that went on at the last look and still goes on, if there is one.
    pub(crate) fn held(&self) -> Option<u64> {
        let now = self.turns.load(Ordering::SeqCst);
        let before = self.seen.swap(now, Ordering::SeqCst);
        (now & 1 == 1 && now == before).then_some(now)
    }

    /// Begins a turn, and gives its number.
    pub(crate) fn begin_turn(&self) -> u64 {
        self.turns.fetch_add(1, Ordering::SeqCst).wrapping_add(1)
    }

    /// Ends the turn of this number, and says whether nobody did before. Who ends it is the seat's runner.
    pub(crate) fn end_turn(&self, number: u64) -> bool {
        let next = number.wrapping_add(1);
        self.turns
            .compare_exchange(number, next, Ordering::SeqCst, Ordering::SeqCst)
            .is_ok()
    }

    /// Gives a connection back after a turn that another thread ended, for the seat's runner to put it back.
    /// It tries until there is memory for the connection, which must not be lost.
    pub(crate) fn give_back<R: Wait>(&self, rt: &R, turn: Turn<S>) {
        let mut given = Given::Back(turn);
        for _ in rt.forever() {
            match self.port.give(rt, given) {
                Ok(()) => return,
                Err(AllocFailed { value }) => given = value,
            }
            thread::yield_now();
        }
    }
}
