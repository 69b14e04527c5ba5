//! Texts that are written to writers that are interrupted and that refuse.

use crate::sink::Sink;
use crate::texts::{Shown, undone};
use hub_http::{IoFault, Output, Tally, send, write_all};
use hub_transcript::{Answer, Subject, Words, replay};
use std::alloc::{AllocError, Global};
use std::test::Fail;

/// Writers of one byte a write. A writer is interrupted LEFT times before the first write, TIMES times
/// before each other, and FLUSH times before a flush.
///
/// - `write LEFT TIMES FLUSH TEXT`: writes all of a text. `send LEFT TIMES FLUSH TEXT`: sends it. Each
///   shows the outcome, the count of flushes, and the bytes that the writer took.
/// - `memory TEXT`: writes a text to memory, and flushes it. Shows the count of bytes, whether the flush
///   went well, the count of faults, and the bytes in memory.
#[derive(Drop)]
struct Writing {
    alloc: Global,
}

// Writes a text, or sends it.
fn written(sends: bool, sink: Sink, text: &[u8]) -> (Result<(), IoFault>, Sink) {
    let mut writer = Tally::new(sink);
    let outcome = if sends {
        send(&mut writer, text)
    } else {
        write_all(&mut writer, text)
    };
    (outcome, writer.into_inner())
}

impl Writing {
    // Out of memory, the writer holds a front of the text, and the command is given again.
    fn put(&self, sends: bool, command: &str, answer: &mut Answer) -> Result<(), AllocError> {
        let mut words = Words::of(command);
        let (left, times, flush_left) = (words.number(), words.number(), words.number());
        let text = undone(self.alloc, words.rest())?;
        let sink = Sink::new(self.alloc, left, times, flush_left);
        let (outcome, sink) = written(sends, sink, text.as_slice());
        let (flushes, held) = (sink.flushes, sink.held.as_slice());
        if sink.lacks_memory && text.starts_with(held) {
            return Err(AllocError);
        }
        answer.line(format_args!("{outcome:?} {flushes} {}", Shown(held)))
    }
}

// Writes a text to memory, and flushes it.
fn keep(alloc: Global, text: &[u8], answer: &mut Answer) -> Result<(), AllocError> {
    let mut output = Tally::new(Vec::new(alloc));
    let Ok(count) = Output::write(&mut output, text) else {
        return Err(AllocError);
    };
    let flushed = Output::flush(&mut output).is_ok();
    let faults = Output::faults(&output);
    let held = output.into_inner();
    answer.line(format_args!("{count} {flushed} {faults} {}", Shown(held.as_slice())))
}

impl<R> Subject<R> for Writing {
    fn begin(_: &R, alloc: Global, _: &str) -> Result<Writing, AllocError> {
        Ok(Writing { alloc })
    }

    fn answer(&mut self, _: &R, command: &str, answer: &mut Answer) -> Result<(), AllocError> {
        let mut words = Words::of(command);
        let place = words.verb("write send memory");
        let rest = words.rest();
        match place {
            0 => self.put(false, rest, answer),
            1 => self.put(true, rest, answer),
            2 => keep(self.alloc, rest.as_bytes(), answer),
            _ => answer.text("?\n"),
        }
    }
}

// 1,000,000 interruptions in a row are too many.
const WRITES: &str = r"
# writes are interrupted
> write 1 1 0 PUT /d HTTP/1.1\r\nContent-Length: 3\r\n\r\nabcGET /e HTTP/1.1\r\n\r\n
Ok(()) 0 PUT /d HTTP/1.1\r\nContent-Length: 3\r\n\r\nabcGET /e HTTP/1.1\r\n\r\n
> write 3 3 0 PUT /d HTTP/1.1\r\nContent-Length: 3\r\n\r\nabcGET /e HTTP/1.1\r\n\r\n
Ok(()) 0 PUT /d HTTP/1.1\r\nContent-Length: 3\r\n\r\nabcGET /e HTTP/1.1\r\n\r\n
> write 999999 0 0 PUT /d HTTP/1.1\r\nContent-Length: 3\r\n\r\nabcGET /e HTTP/1.1\r\n\r\n
Ok(()) 0 PUT /d HTTP/1.1\r\nContent-Length: 3\r\n\r\nabcGET /e HTTP/1.1\r\n\r\n

# memory is written to
> memory abc
3 true 0 abc
";

#[test]
fn writes_that_are_interrupted(rt: HostRuntime) -> Result<(), Fail> {
    replay::<Writing, _>(&rt, rt.alloc(), WRITES)
}

const TOO_OFTEN: &str = r"
# writes are interrupted too often
> write 1000000 0 0 PUT /d HTTP/1.1\r\nContent-Length: 3\r\n\r\nabcGET /e HTTP/1.1\r\n\r\n
Err(IoFault) 0
";

#[test]
fn writes_that_are_interrupted_too_often(rt: HostRuntime) -> Result<(), Fail> {
    replay::<Writing, _>(&rt, rt.alloc(), TOO_OFTEN)
}

const FLUSHES: &str = r"
# flushes are interrupted
> send 0 1 0 abc
Ok(()) 1 abc
> send 0 1 3 abc
Ok(()) 1 abc
> send 0 1 999999 abc
Ok(()) 1 abc
> send 0 1 1000000 abc
Err(IoFault) 0 abc
";

#[test]
fn flushes_that_are_interrupted(rt: HostRuntime) -> Result<(), Fail> {
    replay::<Writing, _>(&rt, rt.alloc(), FLUSHES)
}
