//! The connections of a worker.

use crate::awaits::Awaits;
use crate::conn::Conn;
use crate::slot::{NEVER, Slot, Told};
use crate::turn::Turn;
use hub_session::Service;
use hub_shared::Watchable;
use std::alloc::{AllocError, Global};
use std::collections::VecDeque;

/// Times at which connections have waited long enough are looked at by steps of so many milliseconds.
const STEP: u64 = 16;

/// The connections of a worker, by their tokens, and whose turn is next. The queues have room for each token,
/// made with the token's place: so a queue takes a token without memory.
#[derive(Drop)]
pub(crate) struct Table<S: Service> {
    slots: Vec<Slot<S>>,
    /// The tokens of places of no connection.
    free: Vec<usize>,
    /// The tokens of connections that are to have a turn, in order.
    ready: VecDeque<usize>,
    /// The tokens of connections that used up a turn: they have the next turn after a look at the poll.
    later: VecDeque<usize>,
    /// Before this reading of the clock no connection will have waited long enough.
    next_look: u64,
}

/// The first step at or after this time.
fn step_of(time: u64) -> u64 {
    time.div_ceil(STEP).saturating_mul(STEP)
}

impl<S: Service + Watchable + Drop> Table<S> {
    /// A table without connections.
    pub(crate) fn new(alloc: Global) -> Table<S> {
        Table {
            slots: Vec::new(alloc),
            free: Vec::new(alloc),
            ready: VecDeque::new(alloc),
            later: VecDeque::new(alloc),
            next_look: NEVER,
        }
    }

    /// Takes the token of a place without a connection. Where there is none, a place is made, with room for
    /// its token. An error says that there was no memory for a place.
    pub(crate) fn take_free(&mut self) -> Result<usize, AllocError> {
        if let Some(token) = self.free.pop() {
            return Ok(token);
        }
        let token = self.slots.len();
        let room = token.saturating_add(1);
        self.ready.reserve(room)?;
        self.later.reserve(room)?;
        self.free.reserve(room)?;
        self.slots.push(Slot::free())?;
        Ok(token)
    }

    /// Gives back a token that was taken, and that has no connection.
    pub(crate) fn give_free(&mut self, token: usize) {
        if let Some(slot) = self.slots.get_mut(token) {
            *slot = Slot::free();
        }
        // There is room for each token.
        let _kept = self.free.push(token);
    }

    // Queues the connection of a token, if it is to have a turn and is not queued yet.
    fn queue(&mut self, token: usize) {
        if let Some(slot) = self.slots.get_mut(token)
            && slot.queue()
        {
            // There is room for each token.
            let _kept = self.ready.push_back(token);
        }
    }

    /// Puts a connection at its token. It waits for `awaits`, at the reading `now` of the clock, and has a
    /// turn once that event has come. A connection that used up a turn has the next turn after the others.
    pub(crate) fn put(&mut self, token: usize, conn: Box<Conn<S>>, awaits: Awaits, now: u64) {
        let Some(slot) = self.slots.get_mut(token) else {
            return;
        };
        let due = slot.put(conn, awaits, now);
        self.next_look = self.next_look.min(step_of(due));
        if awaits == Awaits::Turn {
            // There is room for each token.
            let _kept = self.later.push_back(token);
        } else {
            self.queue(token);
        }
    }

    /// Whether a connection is to have a turn.
    pub(crate) fn is_ready(&self) -> bool {
        !self.ready.is_empty()
    }

    /// Whether a connection has used up its turn and goes on.
    pub(crate) fn has_later(&self) -> bool {
        !self.later.is_empty()
    }

    /// Takes out the connection whose turn is next. The turn has no number yet.
    pub(crate) fn take_ready(&mut self) -> Option<Turn<S>> {
        let token = self.ready.pop_front()?;
        self.slots.get_mut(token)?.take(token)
    }

    /// Queues the connections that used up a turn, after the connections that are queued already.
    pub(crate) fn begin_round(&mut self) {
        for _ in 0..u64::MAX {
            let Some(token) = self.later.pop_front() else {
                break;
            };
            // There is room for each token.
            let _kept = self.ready.push_back(token);
        }
    }

    /// Notes a message about the connection of a token, if it has one.
    pub(crate) fn tell(&mut self, token: usize, told: Told) {
        if let Some(slot) = self.slots.get_mut(token) {
            slot.tell(told);
            self.queue(token);
        }
    }

    /// Notes news of the streams of these tokens.
    pub(crate) fn tell_news(&mut self, tokens: &[usize]) {
        for token in tokens {
            self.tell(*token, Told::News);
        }
    }

    /// How many milliseconds may pass before a connection has waited long enough, None where none waits so.
    pub(crate) fn time_left(&self, now: u64) -> Option<u64> {
        if self.next_look == NEVER {
            None
        } else {
            Some(self.next_look.saturating_sub(now))
        }
    }

    /// Queues the connections that waited long enough at the reading `now` of the clock. Where a time has
    /// come, the cost is a look at each place.
    pub(crate) fn tell_time(&mut self, now: u64) {
        if now < self.next_look {
            return;
        }
        let mut next = NEVER;
        for token in 0..self.slots.len() {
            if let Some(slot) = self.slots.get_mut(token) {
                next = next.min(step_of(slot.tell_time(now)));
                self.queue(token);
            }
        }
        self.next_look = next;
    }
}
