//! How a worker is given connections, and woken.

use crate::conn::Conn;
use crate::turn::Turn;
use hub_session::Service;
use hub_shared::Bell;
use mio::{Registry, Token, Waker};
use std::alloc::{AllocError, AllocFailed, Global};
use std::collections::VecDeque;
use std::io;
use std::sync::atomic::{AtomicBool, Ordering};
use std::sync::{Arc, Mutex, Wait};

/// The token of a worker's waker, which no connection has.
pub(crate) const WAKER: Token = Token(usize::MAX);

/// A connection that a worker is given.
#[derive(Drop)]
pub(crate) enum Given<S: Service> {
    /// A new connection.
    New(Box<Conn<S>>),
    /// A connection after a turn in which its runner was relieved.
    Back(Turn<S>),
}

/// The part of a worker that other threads have.
#[derive(Drop)]
pub(crate) struct Port<S: Service> {
    waker: Waker,
    inbox: Mutex<VecDeque<Given<S>>>,
    /// Rung where a stream of the worker has news.
    bell: Arc<Bell, Global>,
    /// Whether the worker sleeps, or is about to: then whoever has something for it wakes it.
    is_asleep: AtomicBool,
    /// Whether there will be no more connections.
    is_closed: AtomicBool,
}

impl<S: Service> Port<S> {
    /// The port of a worker that sleeps in the poll of this registry, and whose streams ring this bell.
    pub(crate) fn new(
        alloc: Global,
        registry: &Registry,
        bell: Arc<Bell, Global>,
    ) -> io::Result<Port<S>> {
        Ok(Port {
            waker: Waker::new(registry, WAKER)?,
            inbox: Mutex::new(VecDeque::new(alloc)),
            bell,
            is_asleep: AtomicBool::new(false),
            is_closed: AtomicBool::new(false),
        })
    }

    /// Wakes the worker, if it sleeps.
    pub(crate) fn wake(&self) {
        if self.is_asleep.load(Ordering::SeqCst) && self.is_asleep.swap(false, Ordering::SeqCst) {
            // A counter of the system's takes each 1 that is added to it (eventfd(2)).
            let _woken = self.waker.wake();
        }
    }

    /// Gives the worker a connection. An error says that there was no memory, and hands the connection back.
    pub(crate) fn give<R: Wait>(
        &self,
        rt: &R,
        given: Given<S>,
    ) -> Result<(), AllocFailed<Given<S>>> {
        self.inbox.lock(rt).push_back(given)?;
        self.wake();
        Ok(())
    }

    /// Takes the first connection that was given and not taken yet.
    pub(crate) fn take<R: Wait>(&self, rt: &R) -> Option<Given<S>> {
        self.inbox.lock(rt).pop_front()
    }

    /// Tells the worker that there will be no more connections.
    pub(crate) fn close(&self) {
        self.is_closed.store(true, Ordering::SeqCst);
        self.wake();
    }

    /// Whether there will be no more connections.
    pub(crate) fn is_closed(&self) -> bool {
        self.is_closed.load(Ordering::SeqCst)
    }

    /// Whether there is nothing for the worker, which is about to sleep. Later news and connections wake it.
    pub(crate) fn begin_sleep<R: Wait>(&self, rt: &R) -> bool {
        self.is_asleep.store(true, Ordering::SeqCst);
        !self.bell.is_rung() && !self.is_closed() && self.inbox.lock(rt).is_empty()
    }

    /// Notes that the worker is awake.
    pub(crate) fn end_sleep(&self) {
        self.is_asleep.store(false, Ordering::SeqCst);
    }
}
