//! The event loops of workers.

use crate::awaits::Awaits;
use crate::conn::Conn;
use crate::port::{Given, Port};
use crate::readiness::Readiness;
use crate::slot::Told;
use crate::table::Table;
use crate::turn::Turn;
use crate::watches::Watches;
use hub_session::Service;
use hub_shared::{Bell, Watchable};
use mio::{Events, Poll, Token};
use std::alloc::Global;
use std::sync::{Arc, Wait};
use std::time::Duration;
use std::{io, thread};

/// How many events are taken from the poll at once.
const EVENTS: usize = 256;

/// How often the poll is asked before a sleep.
const LOOKS: usize = 2;

/// The connections of a worker, with the poll and the watches that tell of them.
#[derive(Drop)]
pub(crate) struct EventLoop<S: Service> {
    poll: Poll,
    events: Events,
    pub(crate) table: Table<S>,
    watches: Watches,
}

impl<S: Service + Watchable + Drop> EventLoop<S> {
    /// The event loop of a worker without connections, whose streams ring this bell.
    pub(crate) fn new(
        alloc: Global,
        poll: Poll,
        bell: Arc<Bell, Global>,
    ) -> io::Result<EventLoop<S>> {
        Ok(EventLoop {
            poll,
            events: Events::with_capacity(alloc, EVENTS)?,
            table: Table::new(alloc),
            watches: Watches::new(alloc, bell),
        })
    }

    // Takes a new connection, and says whether it did. A connection for which there is no memory, or no place
    // in the poll, is closed.
    fn take_new(&mut self, mut conn: Box<Conn<S>>, now: u64) -> bool {
        let Ok(token) = self.table.take_free() else {
            return false;
        };
        if conn.register(self.poll.registry(), token).is_err() {
            self.table.give_free(token);
            return false;
        }
        self.table.put(token, conn, Awaits::Input, now);
        true
    }

    // Gives a connection a watch, which its next turn sets for its stream. The answer is the event for which
    // it waits then. Without memory for a watch it is given up: its stream could not go on.
    fn give_watch(&mut self, token: usize, conn: &mut Conn<S>, life: u64) -> Awaits {
        match self.watches.add(life, token) {
            Ok(watch) => {
                conn.take_watch(life, watch);
                self.table.tell(token, Told::News);
                Awaits::News
            }
            Err(_) => {
                self.table.tell(token, Told::Late);
                Awaits::Room
            }
        }
    }

    /// Puts back a connection after its turn, at this reading of the clock, and says whether it is still
    /// open. A connection that has ended is closed.
    pub(crate) fn put_back(&mut self, turn: Turn<S>, now: u64) -> bool {
        let Turn {
            token,
            mut conn,
            awaits,
            ..
        } = turn;
        let has_ended = awaits == Awaits::Nothing;
        if (has_ended || !conn.is_watched)
            && let Some(life) = conn.life.take()
        {
            self.watches.remove(life, token);
        }
        if has_ended {
            drop(conn);
            self.table.give_free(token);
            return false;
        }
        let awaits = match awaits {
            Awaits::Watch(life) => self.give_watch(token, &mut *conn, life),
            _ => awaits,
        };
        self.table.put(token, conn, awaits, now);
        true
    }

    /// Takes a connection that the worker was given, and says whether the connection is still open.
    pub(crate) fn take_given(&mut self, given: Given<S>, now: u64) -> bool {
        match given {
            Given::New(conn) => self.take_new(conn, now),
            Given::Back(turn) => self.put_back(turn, now),
        }
    }

    // Asks the poll, which waits at most so long for an event. It fails only by a wrong descriptor, a wrong
    // buffer or an interruption (epoll_wait(2)), and tells of no event then.
    fn ask(&mut self, most: Option<Duration>) {
        let _asked = self.poll.poll(&mut self.events, most);
        for event in &self.events {
            let Token(token) = event.token();
            self.table.tell(token, Told::Ready(Readiness::of(event)));
        }
    }

    // Asks the poll without a wait, `LOOKS` times at most, and lets other threads run after each time. The
    // answer is whether a connection is to have a turn. A sleep and the waking of a thread cost more than these
    // calls.
    fn is_told_soon(&mut self) -> bool {
        for _ in 0..LOOKS {
            self.ask(Some(Duration::from_millis(0)));
            if self.table.is_ready() {
                self.table.begin_round();
                return true;
            }
            thread::yield_now();
        }
        false
    }

    /// Looks for connections that are to have a turn, where none is known. It sleeps until there is one, or
    /// something else for the worker. It may come back for no reason.
    pub(crate) fn look<R: Wait>(&mut self, rt: &R, port: &Port<S>, now: u64) {
        self.table.tell_time(now);
        if self.watches.take_bell() {
            self.watches.take_news(&mut self.table);
        }
        if self.table.is_ready() || (!self.table.has_later() && self.is_told_soon()) {
            return;
        }
        let most = if self.table.has_later() || !port.begin_sleep(rt) {
            Some(0)
        } else {
            self.table.time_left(now)
        };
        self.ask(most.map(Duration::from_millis));
        port.end_sleep();
        self.table.begin_round();
    }
}
