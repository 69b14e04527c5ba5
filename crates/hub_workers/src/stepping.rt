//! How connections go on.

use crate::awaits::Awaits;
use crate::budget::Budget;
use crate::conn::Conn;
use hub_http::Transfer;
use hub_session::{Closing, Service, Step};
use hub_shared::Watchable;
use std::io::{ErrorKind, Read};
use std::net::Shutdown;

/// How many bytes are read of a client after its last answer: a longest body, twice.
const FAREWELL: usize = 16_777_216;

/// The result of a read of a socket.
enum Got {
    /// So many bytes; 0 says that no more will come.
    Bytes(usize),
    /// No bytes yet.
    Nothing,
    /// The client is gone.
    Gone,
}

impl<S: Service + Watchable + Drop> Conn<S> {
    /// Goes on with the connection, until it waits for something or its turn is used up. Each read fills
    /// `room`. No call waits for a socket. A call of the service may wait for a lock, or at a gate.
    pub(crate) fn go_on(&mut self, room: &mut [u8]) -> Awaits {
        self.set_watch();
        let mut budget = Budget::whole();
        for _ in 0..u64::MAX {
            if let Some(awaits) = self.step(room, &mut budget) {
                return awaits;
            }
            if budget.is_spent() {
                break;
            }
        }
        Awaits::Turn
    }

    // Goes on by one step. The answer is the event for which the connection waits, None where it may go on at
    // once. Unless the session wants just one more step, the outbox is sent first.
    fn step(&mut self, room: &mut [u8], budget: &mut Budget) -> Option<Awaits> {
        if self.unread.is_some() {
            return self.see_off(room, budget);
        }
        let step = self.driven.session.step();
        if step == Step::Served {
            self.note_stream();
            return None;
        }
        if let Some(awaits) = self.send(budget) {
            return Some(awaits);
        }
        match step {
            Step::Served | Step::WantsRoom => None,
            Step::WantsInput => self.take_in(room, budget),
            Step::WantsNews => Some(self.await_news()),
            Step::Ended(closing) => self.close(closing),
        }
    }

    // Sends the outbox. The answer is the event for which the connection waits, None where all bytes went.
    fn send(&mut self, budget: &mut Budget) -> Option<Awaits> {
        for _ in 0..u64::MAX {
            match self.driven.hand(&mut self.stream) {
                Transfer::Took(0) => return None,
                Transfer::Took(count) => {
                    self.is_renewed = true;
                    budget.spend(count);
                }
                Transfer::Again if !self.readiness.hang_up => {
                    self.readiness.write = false;
                    return Some(Awaits::Room);
                }
                Transfer::Again | Transfer::Refused => return Some(self.give_up()),
            }
            if budget.is_spent() {
                break;
            }
        }
        Some(Awaits::Turn)
    }

    // Reads once. A read that does not fill `room` shows that no more bytes are there, unless an end lies
    // behind them. A read that was interrupted leaves the socket ready.
    fn read(&mut self, room: &mut [u8], budget: &mut Budget) -> Got {
        if !self.readiness.read {
            return Got::Nothing;
        }
        match self.stream.read(room) {
            Ok(0) => Got::Bytes(0),
            Ok(count) => {
                self.readiness.read = count == room.len() || self.readiness.read_end;
                budget.spend(count);
                Got::Bytes(count)
            }
            Err(error) => match error.kind() {
                ErrorKind::WouldBlock => {
                    self.readiness.read = false;
                    Got::Nothing
                }
                ErrorKind::Interrupted => Got::Nothing,
                _ => Got::Gone,
            },
        }
    }

    // Reads for the next request.
    fn take_in(&mut self, room: &mut [u8], budget: &mut Budget) -> Option<Awaits> {
        match self.read(room, budget) {
            Got::Nothing => Some(Awaits::Input),
            Got::Gone => Some(self.give_up()),
            Got::Bytes(count) => {
                // A read gives no more bytes than there is room for.
                self.driven.take_in(room.get(..count)?);
                None
            }
        }
    }

    // Ends the hub's side where the client may still send: bytes that nobody reads would make the system take
    // back an answer that the client has not read.
    fn close(&mut self, closing: Closing) -> Option<Awaits> {
        if !closing.is_ended_here() || self.stream.shutdown(Shutdown::Write).is_err() {
            return Some(Awaits::Nothing);
        }
        self.unread = Some(0);
        None
    }

    // Reads on until the client has ended its side too, or `FAREWELL` bytes were read.
    fn see_off(&mut self, room: &mut [u8], budget: &mut Budget) -> Option<Awaits> {
        let before = self.unread.unwrap_or(0);
        match self.read(room, budget) {
            Got::Nothing => Some(Awaits::Farewell),
            Got::Bytes(0) | Got::Gone => Some(Awaits::Nothing),
            Got::Bytes(_) if before >= FAREWELL => Some(Awaits::Nothing),
            Got::Bytes(count) => {
                self.is_renewed = true;
                self.unread = Some(before.saturating_add(count));
                None
            }
        }
    }
}
