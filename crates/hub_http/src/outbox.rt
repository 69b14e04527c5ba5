//! Texts that wait to be sent.
ghost use Rattle.std.specs.Prelude.{◌≡◌, ◌<◌, ◌≤◌, ◌++◌, ℕ, List, [], length, drop};
ghost use Rattle.std.specs.Prelude.{Some, IfOk, IsTrue, IsFalse};
ghost use Rattle.hub_document.specs.Appends.{AppendsWhole};
ghost use Rattle.hub_http.specs.Boxes.{Transfers, HasLeft, pending_in, faults_in};

use crate::output::Output;
use crate::pending::Pending;
use crate::tally::bump;
use crate::text::Text;
use std::alloc::{AllocError, Global};
use std::io;
use std::io::{ErrorKind, Write};

/// The room that an outbox keeps, enough for a reply's head and each text of hub_http that needs no memory.
const ROOM: usize = 256;

/// The outcome of handing bytes to a writer.
#[derive(Clone, Copy, Debug, PartialEq, Eq)]
pub enum Transfer {
    /// The writer took this many bytes.
    Took(usize),
    /// The writer took no byte. The same call may be made again: at once, or when the writer has room.
    Again,
    /// The writer took no byte, and the other side can't be written to.
    Refused,
}

/// Texts that wait to be sent, in order. As a writer an outbox never waits, and faults only out of memory:
/// then it takes nothing. An empty outbox takes `ROOM` bytes without memory, and any one vector.
#[derive(Drop)]
pub struct Outbox {
    alloc: Global,
    /// The bytes that were copied here.
    texts: Pending,
    /// The vector that was moved here, and the bytes that were put behind it.
    moved: Pending,
    /// The number of writes that found no memory.
    faults: u64,
}

impl Outbox {
    /// An empty outbox.
    pub fn new(alloc: Global) -> Result<Outbox, AllocError>
        ensures empty { IfOk result (λ outbox. pending_in outbox ≡ []) }
        ensures faults { IfOk result (λ outbox. faults_in outbox ≡ 0) }
    {
        Ok(Outbox {
            alloc,
            texts: Pending::new(Vec::with_capacity(alloc, ROOM)?),
            moved: Pending::new(Vec::new(alloc)),
            faults: 0,
        })
    }

    /// Whether no byte waits to be sent.
    pub fn is_empty(&self) -> bool
        ensures empty { IsTrue result → pending_in self.now ≡ [] }
        ensures some { IsFalse result → 0 < length (pending_in self.now) }
    {
        !self.holds(1)
    }

    /// Whether at least `count` bytes wait to be sent.
    pub fn holds(&self, count: usize) -> bool
        ensures many { IsTrue result → count ≤ length (pending_in self.now) }
        ensures few { IsFalse result → length (pending_in self.now) < count }
    {
        let texts = self.texts.len();
        texts >= count || self.moved.len() >= count - texts
    }

    /// A front of the waiting bytes. It is empty only where no byte waits.
    pub fn front(&self) -> &[u8]
        ensures front { (behind : List ℕ) × (pending_in self.now ≡ result.now ++ behind) }
        ensures some { 0 < length (pending_in self.now) → 0 < length result.now }
    {
        if self.texts.is_empty() {
            self.moved.as_slice()
        } else {
            self.texts.as_slice()
        }
    }

    /// Takes `count` bytes, which were sent, from the front.
    pub fn sent(&mut self, count: usize)
        requires { count ≤ length (pending_in self.old) }
        ensures { HasLeft (drop count (pending_in self.old)) self.old self.new }
    {
        let texts = self.texts.len();
        if count <= texts {
            self.texts.take(count);
        } else {
            self.texts.take(texts);
            self.moved.take(count - texts);
        }
    }

    /// Gives back unneeded room where no byte waits. A sender of many texts calls it after the last. Constant
    /// time.
    pub fn release(&mut self)
        ensures { HasLeft (pending_in self.old) self.old self.new }
    {
        self.texts.release(self.alloc, ROOM);
        if self.moved.is_empty() {
            self.moved = Pending::new(Vec::new(self.alloc));
        }
    }

    /// Hands a front of the waiting bytes to a writer, by one write, and keeps the bytes that it did not
    /// take.
    pub fn send_to<W: Write>(&mut self, writer: &mut W) -> Transfer
        ensures handed { Transfers result (pending_in self.old) (pending_in self.new)
            (W.contents writer.old) (W.contents writer.new) }
        ensures faults { faults_in self.new ≡ faults_in self.old }
    {
        let front = self.front();
        if front.is_empty() {
            return Transfer::Took(0);
        }
        match writer.write(front) {
            Ok(0) => Transfer::Refused,
            Ok(n) => {
                self.sent(n);
                Transfer::Took(n)
            }
            Err(e) => match e.kind() {
                ErrorKind::Interrupted | ErrorKind::WouldBlock => Transfer::Again,
                _ => Transfer::Refused,
            },
        }
    }

    /// Puts bytes behind the waiting ones. An error changes nothing.
    fn put(&mut self, bytes: &[u8]) -> Result<(), AllocError>
        ensures put { AppendsWhole bytes.now result (pending_in self.old) (pending_in self.new) }
        ensures faults { self.new.faults ≡ self.old.faults }
    {
        if self.moved.is_empty() {
            self.texts.put(bytes)
        } else {
            self.moved.put(bytes)
        }
    }
}

impl Output for Outbox {
    ghost written = { λ o. Some (pending_in o) };

    ghost fault_count = { λ o. o.faults };

    ghost failure_count = { λ o. o.faults };

    fn write(&mut self, buf: &[u8]) -> io::Result<usize> {
        match self.put(buf) {
            Ok(()) => Ok(buf.len()),
            Err(_) => {
                self.faults = bump(self.faults);
                Err(io::Error::from(ErrorKind::OutOfMemory))
            }
        }
    }

    fn keep(&mut self, bytes: Vec<u8>) -> Option<Vec<u8>> {
        if !self.moved.is_empty() {
            return Some(bytes);
        }
        self.moved = Pending::new(bytes);
        None
    }

    fn write_chunk<T: Text>(&mut self, text: &T) -> Option<Result<(), AllocError>> {
        if !self.moved.is_empty() {
            return None;
        }
        Some(self.texts.put_chunk(text))
    }

    fn flush(&mut self) -> io::Result<()> {
        Ok(())
    }

    fn faults(&self) -> u64 {
        self.faults
    }
}
