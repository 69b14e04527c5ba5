//! Writers behind a buffer, in which chunks are made.

use hub_http::{Buffered, ChunkWriter, Output, write_all};
use hub_transcript::{Answer, Subject, Words, replay};
use std::alloc::{AllocError, Global};
use std::io;
use std::io::Write;
use std::test::Fail;

/// A writer that takes no byte of its first `stops` writes, and all bytes of each other write.
#[derive(Drop)]
struct Stopping {
    held: Vec<u8>,
    stops: u64,
    writes: u64,
}

impl Stopping {
    fn new(alloc: Global, stops: u64) -> Stopping {
        Stopping {
            held: Vec::new(alloc),
            stops,
            writes: 0,
        }
    }
}

impl Write for Stopping {
    fn write(&mut self, buf: &[u8]) -> io::Result<usize> {
        self.writes = self.writes.saturating_add(1);
        if self.stops > 0 {
            self.stops -= 1;
            return Ok(0);
        }
        self.held.write(buf)
    }

    fn flush(&mut self) -> io::Result<()> {
        Ok(())
    }
}

/// The chunk of a round.
const CHUNK: &[u8] = b"3\r\ndef\r\n";

/// Writers behind a buffer. Each command has a writer of its own. A round writes a text, and `def` as a
/// chunk.
///
/// - `flushed ROUNDS TEXT`: puts rounds, and flushes. Shows the count of bytes that the writer took, whether
///   they are the rounds, and whether the writer was called less than ten times.
/// - `stopped ROUNDS TEXT`: puts rounds, and writes `gh`. The writer takes nothing of its first write. Shows
///   the error, and the count of faults before and after. Then writes `gh` again, and flushes. Shows the
///   count of faults, and whether the writer took the rounds and one `gh`.
#[derive(Drop)]
struct Filling {
    alloc: Global,
}

// Puts rounds. An error here comes out of memory.
fn put_rounds<W: Output>(
    alloc: Global,
    writer: &mut W,
    rounds: u64,
    text: &[u8],
) -> Result<(), AllocError> {
    let mut chunks = ChunkWriter::new(alloc);
    let chunk: &[u8] = b"def";
    for _ in 0..rounds {
        if write_all(writer, text).is_err() || chunks.write(writer, &chunk).is_err() {
            return Err(AllocError);
        }
    }
    Ok(())
}

// The bytes behind these rounds, where the bytes begin with them.
fn behind_rounds<'a>(bytes: &'a [u8], rounds: u64, text: &[u8]) -> Option<&'a [u8]> {
    let mut rest = bytes;
    for _ in 0..rounds {
        rest = rest.strip_prefix(text)?.strip_prefix(CHUNK)?;
    }
    Some(rest)
}

impl Filling {
    fn flushed(&self, rounds: u64, text: &[u8], answer: &mut Answer) -> Result<(), AllocError> {
        let mut inner = Stopping::new(self.alloc, 0);
        let mut writer = Buffered::new(self.alloc, &mut inner);
        put_rounds(self.alloc, &mut writer, rounds, text)?;
        if writer.flush().is_err() {
            return Err(AllocError);
        }
        drop(writer);
        let held = inner.held.as_slice();
        let whole = behind_rounds(held, rounds, text) == Some(b"".as_slice());
        answer.line(format_args!("{} {whole} {}", held.len(), inner.writes < 10))
    }

    fn stopped(&self, rounds: u64, text: &[u8], answer: &mut Answer) -> Result<(), AllocError> {
        let mut inner = Stopping::new(self.alloc, 1);
        let mut writer = Buffered::new(self.alloc, &mut inner);
        put_rounds(self.alloc, &mut writer, rounds, text)?;
        let before = writer.faults();
        let refused = writer.write(b"gh").map_err(|e| e.kind());
        answer.line(format_args!("{refused:?} {before} {}", writer.faults()))?;
        if writer.write(b"gh").is_err() || writer.flush().is_err() {
            return Err(AllocError);
        }
        let faults = writer.faults();
        drop(writer);
        let rest = behind_rounds(inner.held.as_slice(), rounds, text);
        answer.line(format_args!("{faults} {}", rest == Some(b"gh".as_slice())))
    }
}

impl<R> Subject<R> for Filling {
    fn begin(_: &R, alloc: Global, _: &str) -> Result<Filling, AllocError> {
        Ok(Filling { alloc })
    }

    fn answer(&mut self, _: &R, command: &str, answer: &mut Answer) -> Result<(), AllocError> {
        let mut words = Words::of(command);
        let place = words.verb("flushed stopped");
        let rounds = words.number();
        let text = words.rest().as_bytes();
        match place {
            0 => self.flushed(rounds, text, answer),
            1 => self.stopped(rounds, text, answer),
            _ => answer.text("?\n"),
        }
    }
}

// The buffer is written out at 65,536 bytes. Rounds of 11 bytes reach them by a chunk, and a text comes next.
// Rounds of 28 bytes reach them by a text, and a chunk comes next. 5,958 rounds of 11 bytes are 65,538 bytes.
const BUFFERS: &str = r"
# few bytes
> flushed 0 abc
0 true true
> flushed 1 abc
11 true true
> flushed 100 abc
1100 true true

# more bytes than a buffer
> flushed 20000 abc
220000 true true
> flushed 8000 abcdefghijklmnopqrst
224000 true true

# a writer that takes nothing of a full buffer
> stopped 5958 abc
Err(WriteZero) 0 1
1 true
";

#[test]
fn bytes_behind_a_buffer(rt: HostRuntime) -> Result<(), Fail> {
    replay::<Filling, _>(&rt, rt.alloc(), BUFFERS)
}
