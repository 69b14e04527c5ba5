//! A queue of bytes.
ghost use Rattle.std.specs.Prelude.{◌≡◌, ◌<◌, ◌≤◌, ◌+◌, [], length, take, drop};
ghost use Rattle.std.specs.Prelude.{min, max, IfOk, IsTrue, IsFalse, OnErr};
ghost use Rattle.hub_document.specs.Appends.{AppendsWhole};
ghost use Rattle.hub_http.specs.Chunks.{text_chunks};

use crate::block::BLOCK;
use crate::chunk::append_chunk;
use crate::text::Text;
use std::alloc::{AllocError, Global};
use std::marker::Model;
use std::mem;

/// The most room, in bytes, that is kept where no byte is left.
const KEPT: usize = 1_024;

/// The room, in bytes, that is made at once for bytes that did not come yet.
const FIRST_ROOM: usize = 65_536;

/// A copy of the bytes. An empty copy takes no memory.
fn copy_of(alloc: Global, bytes: &[u8]) -> Result<Vec<u8>, AllocError>
    ensures ok { IfOk result (λ copy. copy.items ≡ bytes.now) }
    ensures err { OnErr result (0 < length bytes.now) }
{
    if bytes.is_empty() {
        return Ok(Vec::new(alloc));
    }
    Vec::from_slice(alloc, bytes)
}

/// Gives a body out of the held bytes, in their memory, and keeps a copy of the bytes behind it. The body is
/// moved once. An error changes nothing.
fn split_body(
    alloc: Global,
    held: &mut Vec<u8>,
    len: usize,
    body: usize,
) -> Result<Vec<u8>, AllocError>
    requires { len + body ≤ length held.old.items }
    ensures ok { IfOk result (λ v. (v.items ≡ take body (drop len held.old.items))
        × (held.new.items ≡ drop (len + body) held.old.items)) }
    ensures err { OnErr result ((held.new.items ≡ held.old.items)
        × (len + body < length held.old.items)) }
{
    let end = len + body;
    let rest = copy_of(alloc, &held[end..])?;
    let mut bytes = mem::replace(held, rest);
    bytes.copy_within(len..end, 0);
    bytes.truncate(body);
    Ok(bytes)
}

/// A queue of bytes. They come at its end, and are taken from its front.
#[derive(Drop)]
pub(crate) struct Pending {
    bytes: Vec<u8>,
    /// The number of bytes, from the front, that are taken.
    start: usize,
}

impl Model for Pending {
    ghost use Rattle.std.specs.Prelude.{ℕ, List, drop, length, ◌≤◌};

    ghost Value = { List ℕ };

    ghost view = { λ p. drop p.start p.bytes.items };

    ghost invariant = { λ p. p.start ≤ length p.bytes.items };
}

impl Pending {
    /// A queue of these bytes. Their vector is moved, which takes no memory.
    pub(crate) fn new(bytes: Vec<u8>) -> Pending
        ensures { result ≡ bytes.items }
    {
        Pending { bytes, start: 0 }
    }

    /// The bytes that are left.
    pub(crate) fn as_slice(&self) -> &[u8]
        ensures { result.now ≡ self.now }
    {
        &self.bytes[self.start..]
    }

    /// The number of bytes that are left.
    pub(crate) fn len(&self) -> usize
        ensures { result ≡ length self.now }
    {
        self.bytes.len() - self.start
    }

    /// Whether no byte is left.
    pub(crate) fn is_empty(&self) -> bool
        ensures empty { IsTrue result → self.now ≡ [] }
        ensures full { IsFalse result → 0 < length self.now }
    {
        self.len() == 0
    }

    /// Moves the bytes that are left over the taken ones, where the taken ones are at least as many. Answers
    /// the number of bytes that are left.
    fn compact(&mut self) -> usize
        ensures { (self.new ≡ self.old) × (result ≡ length self.old) }
    {
        let len = self.bytes.len() - self.start;
        if self.start >= len {
            self.bytes.copy_within(self.start.., 0);
            self.bytes.truncate(len);
            self.start = 0;
        }
        len
    }

    /// Puts bytes behind the bytes that are left. An error changes nothing.
    pub(crate) fn put(&mut self, bytes: &[u8]) -> Result<(), AllocError>
        ensures { AppendsWhole bytes.now result self.old self.new }
    {
        self.compact();
        self.bytes.extend_from_slice(bytes)
    }

    /// Puts the chunk of a text behind the bytes that are left, and nothing for an empty text. The text is
    /// made where it lies. An error changes nothing.
    pub(crate) fn put_chunk<T: Text>(&mut self, text: &T) -> Result<(), AllocError>
        ensures { AppendsWhole (text_chunks (T.bytes text.now)) result self.old self.new }
    {
        self.compact();
        let len = self.bytes.len();
        let done = append_chunk(&mut self.bytes, text);
        if done.is_err() {
            self.bytes.truncate(len);
        }
        done
    }

    /// Makes room on the way to `wanted` bytes, and answers how many bytes may then be left. It is twice the
    /// present count, at least 65,536 above that count, and at most `wanted`. The bytes stay as they are.
    pub(crate) fn make_room(&mut self, wanted: usize) -> Result<usize, AllocError>
        ensures { (self.new ≡ self.old) × IfOk result (λ room. room
            ≡ min wanted (length self.old + max (length self.old) 65536)) }
    {
        let len = self.compact();
        let room = wanted.min(len.saturating_add(len.max(FIRST_ROOM)));
        self.bytes.reserve_exact(room.saturating_sub(len))?;
        Ok(room)
    }

    /// Takes `count` bytes from the front.
    pub(crate) fn take(&mut self, count: usize)
        requires { count ≤ length self.old }
        ensures { self.new ≡ drop count self.old }
    {
        self.start += count;
    }

    /// Takes `before` and then `count` bytes from the front, and gives the latter. An error changes nothing.
    /// At most 4,096 bytes are copied. More keep the memory into which they came, and the bytes behind them
    /// are copied.
    pub(crate) fn take_body(
        &mut self,
        alloc: Global,
        before: usize,
        count: usize,
    ) -> Result<Vec<u8>, AllocError>
        requires { before + count ≤ length self.old }
        ensures ok { IfOk result (λ v. (v.items ≡ take count (drop before self.old))
            × (self.new ≡ drop (before + count) self.old)) }
        ensures err { OnErr result (self.new ≡ self.old) }
        ensures memory { OnErr result (0 < count) }
    {
        let from = self.start + before;
        if count > BLOCK {
            let body = split_body(alloc, &mut self.bytes, from, count)?;
            self.start = 0;
            return Ok(body);
        }
        let body = copy_of(alloc, &self.bytes[from..from + count])?;
        self.start = from + count;
        Ok(body)
    }

    /// Where no byte is left and the room is above 1,024 bytes, makes it a room of `room` bytes.
    pub(crate) fn release(&mut self, alloc: Global, room: usize)
        ensures { self.new ≡ self.old }
    {
        if !self.is_empty() || self.bytes.capacity() <= KEPT {
            return;
        }
        if let Ok(bytes) = Vec::with_capacity(alloc, room) {
            self.bytes = bytes;
            self.start = 0;
        }
    }
}
