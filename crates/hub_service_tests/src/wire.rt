//! Sessions over readers and writers as networks have them: of one byte a call, cut, broken, interrupted.

use crate::told::Told;
use hub_document::Limits;
use hub_http::{Requests, Tally};
use hub_service::{ByTurns, Connection, answer_stream};
use hub_session::{Closing, serve};
use std::alloc::{AllocError, Global};
use std::io;
use std::io::{ErrorKind, Read, Write};
use std::sync::Wait;

/// Room for the output of a session, in bytes, so that no growth is refused after an effect.
const ROOM: usize = 65_536;

/// A writer that takes at most `most` bytes a call and `room` bytes in all, and then none.
#[derive(Drop)]
struct Narrow {
    held: Vec<u8>,
    most: usize,
    room: usize,
}

impl Write for Narrow {
    fn write(&mut self, buf: &[u8]) -> io::Result<usize> {
        let n = buf.len().min(self.room).min(self.most);
        self.held.extend_from_slice(&buf[..n])?;
        self.room -= n;
        Ok(n)
    }

    fn flush(&mut self) -> io::Result<()> {
        Ok(())
    }
}

/// A reader that gives one byte a call, and is interrupted before each. After `left` bytes it fails.
#[derive(Clone, Copy)]
pub(crate) struct Failing<'a> {
    pub(crate) text: &'a [u8],
    pub(crate) left: usize,
    pub(crate) is_interrupted: bool,
}

impl Read for Failing<'_> {
    fn read(&mut self, buf: &mut [u8]) -> io::Result<usize> {
        self.is_interrupted = !self.is_interrupted;
        if self.is_interrupted {
            return Err(io::Error::from(ErrorKind::Interrupted));
        }
        if self.left == 0 {
            return Err(io::Error::from(ErrorKind::ConnectionReset));
        }
        self.left -= 1;
        let n = buf.len().min(1);
        self.text.read(&mut buf[..n])
    }
}

/// The text of these bytes. It is an error, each time, where they are no text.
pub(crate) fn text_of(bytes: Vec<u8>) -> Result<String, AllocError> {
    match String::from_utf8(bytes) {
        Ok(text) => Ok(text),
        Err(_) => Err(AllocError),
    }
}

/// A session with a new hub, whose writer takes one byte a call and `room` bytes in all.
pub(crate) fn session<N: Wait, R: Drop + Read>(
    rt: &N,
    alloc: Global,
    limits: Limits,
    reader: R,
    room: usize,
) -> Result<Told, AllocError> {
    let mut requests = Requests::new(alloc, Tally::new(reader));
    let mut writer = Tally::new(Narrow {
        held: Vec::new(alloc),
        most: 1,
        room,
    });
    let closing = answer_stream(rt, alloc, &mut requests, &mut writer, limits)?;
    let output = text_of(writer.into_inner().held)?;
    Ok(Told { output, closing })
}

/// A session over a connection, whose writer takes `room` bytes. It is an error where there is no memory
/// for the output, before the first request, and where the output is no text.
fn serve_over<N: Wait>(
    alloc: Global,
    connection: &mut Connection<'_, N, ByTurns<'_, N>>,
    bytes: &str,
    room: usize,
) -> Result<Told, AllocError> {
    let mut requests = Requests::new(alloc, Tally::new(bytes.as_bytes()));
    let mut writer = Tally::new(Narrow {
        held: Vec::with_capacity(alloc, ROOM)?,
        most: usize::MAX,
        room,
    });
    let closing = serve(alloc, &mut requests, &mut writer, connection);
    let output = text_of(writer.into_inner().held)?;
    Ok(Told { output, closing })
}

/// Whether a session over a connection, whose writer takes `room` bytes, writes the front of an answer that
/// fits there. Where memory was missing, it is held once more.
fn is_torn<N: Wait>(
    alloc: Global,
    connection: &mut Connection<'_, N, ByTurns<'_, N>>,
    bytes: &str,
    torn: &str,
    room: usize,
) -> Result<bool, AllocError> {
    let front = torn.get(..room).unwrap_or("");
    let told = serve_over(alloc, connection, bytes, room)?;
    match told.is(front, Closing::Broken) {
        Ok(is_right) => Ok(is_right),
        Err(AllocError) => serve_over(alloc, connection, bytes, room)?.is(front, Closing::Broken),
    }
}

/// A session over a connection, after one for each byte of the answer `torn`, whose writer breaks before
/// that byte. After a session with other output it writes nothing.
pub(crate) fn serve_torn<N: Wait>(
    alloc: Global,
    connection: &mut Connection<'_, N, ByTurns<'_, N>>,
    bytes: &str,
    torn: &str,
) -> Result<Told, AllocError> {
    for room in 0..torn.len() {
        if !is_torn(alloc, connection, bytes, torn, room)? {
            return serve_over(alloc, connection, "", room);
        }
    }
    serve_over(alloc, connection, bytes, usize::MAX)
}
