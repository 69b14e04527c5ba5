//! Bytes that wait to be sent.

use crate::sink::Sink;
use crate::texts::{Shown, undone};
use hub_http::{Outbox, Output, send_vec};
use hub_transcript::{Answer, Subject, Words, replay};
use std::alloc::{AllocError, Global};
use std::io::ErrorKind;
use std::test::Fail;

/// An outbox, and a writer that takes its bytes.
///
/// - `write TEXT`: writes a text, and shows the count of bytes. Out of memory, the command is given again.
///   `vector TEXT`: sends a vector of a text, which the outbox may keep, and shows the outcome.
/// - `front`: shows a front of the bytes that are to go. `holds N`: whether at least N bytes are to go.
///   `empty`: whether no bytes are.
/// - `sent N`: N bytes went, where the outbox holds N.
/// - `writer MOST REFUSALS ERROR`: a writer that takes at most MOST bytes a write, and has REFUSALS errors
///   before each write.
/// - `hand N`: hands the waiting bytes to the writer N times, and shows the outcome of each transfer.
///   `held`: shows the bytes that the writer took.
#[derive(Drop)]
struct Waiting {
    alloc: Global,
    outbox: Outbox,
    sink: Sink,
}

// The number of a text, or 0 where the text is no number.
fn number_of(text: &str) -> usize {
    text.parse().unwrap_or(0)
}

// The error kind of this name: one of the three that a writer of these tests has, or `Other`.
fn kind_of(name: &str) -> ErrorKind {
    if name == "BrokenPipe" {
        return ErrorKind::BrokenPipe;
    }
    if name == "Interrupted" {
        return ErrorKind::Interrupted;
    }
    if name == "WouldBlock" {
        return ErrorKind::WouldBlock;
    }
    ErrorKind::Other
}

impl Waiting {
    // Out of memory, a write takes nothing.
    fn write(&mut self, text: &[u8], answer: &mut Answer) -> Result<(), AllocError> {
        match self.outbox.write(text) {
            Ok(count) => answer.line(count),
            Err(_) => Err(AllocError),
        }
    }

    fn vector(&mut self, text: &str, answer: &mut Answer) -> Result<(), AllocError> {
        let vector = undone(self.alloc, text)?;
        let outcome = send_vec(&mut self.outbox, vector);
        answer.line(format_args!("{outcome:?}"))
    }

    fn went(&mut self, count: usize, answer: &mut Answer) -> Result<(), AllocError> {
        if !self.outbox.holds(count) {
            return answer.text("fewer bytes\n");
        }
        self.outbox.sent(count);
        Ok(())
    }

    // The writer has room for 64 bytes from the beginning.
    fn refuse(&mut self, command: &str) -> Result<(), AllocError> {
        let mut words = Words::of(command);
        let (most, times) = (words.number(), words.number());
        let mut sink = Sink::new(self.alloc, times, times, 0);
        sink.held.reserve(64)?;
        sink.most = most as usize;
        sink.error = kind_of(words.rest());
        self.sink = sink;
        Ok(())
    }

    fn hand(&mut self, times: usize, answer: &mut Answer) -> Result<(), AllocError> {
        for _ in 0..times {
            let transfer = self.outbox.send_to(&mut self.sink);
            answer.line(format_args!("{transfer:?}"))?;
        }
        Ok(())
    }
}

impl<R> Subject<R> for Waiting {
    fn begin(_: &R, alloc: Global, _: &str) -> Result<Waiting, AllocError> {
        Ok(Waiting {
            alloc,
            outbox: Outbox::new(alloc)?,
            sink: Sink::new(alloc, 0, 0, 0),
        })
    }

    fn answer(&mut self, _: &R, command: &str, answer: &mut Answer) -> Result<(), AllocError> {
        let mut words = Words::of(command);
        let place = words.verb("write vector front holds empty sent writer hand held");
        let rest = words.rest();
        match place {
            0 => self.write(rest.as_bytes(), answer),
            1 => self.vector(rest, answer),
            2 => answer.line(Shown(self.outbox.front())),
            3 => answer.line(self.outbox.holds(number_of(rest))),
            4 => answer.line(self.outbox.is_empty()),
            5 => self.went(number_of(rest), answer),
            6 => self.refuse(rest),
            7 => self.hand(number_of(rest), answer),
            8 => answer.line(Shown(self.sink.held.as_slice())),
            _ => answer.text("?\n"),
        }
    }
}

const OUTBOXES: &str = "
# a writer of two bytes at every second write takes each byte once, in order
> write abc
3
> vector defgh
Ok(())
> write ij
2
> writer 2 1 WouldBlock
> empty
false
> hand 12
Again
Took(2)
Again
Took(1)
Again
Took(2)
Again
Took(2)
Again
Took(2)
Again
Took(1)
> empty
true
> held
abcdefghij
> hand 1
Took(0)

# a text that goes behind a part of another keeps its place
> write abc
3
> vector defgh
Ok(())
> write ij
2
> front
abc
> holds 10
true
> holds 11
false
> sent 11
fewer bytes
> sent 2
> front
c
> sent 3
> holds 5
true
> holds 6
false
> front
fghij
> sent 5
> empty
true
> front

# what a writer refuses stays
> write abc
3
> vector defgh
Ok(())
> write ij
2
> writer 0 1 BrokenPipe
> hand 1
Refused
> holds 10
true
> holds 11
false
> writer 0 1 Interrupted
> hand 1
Again
> holds 10
true
> holds 11
false
> writer 0 1 WouldBlock
> hand 1
Again
> holds 10
true
> holds 11
false
> writer 0 0 WouldBlock
> hand 1
Refused
> holds 10
true
> holds 11
false
> held

";

#[test]
fn bytes_that_wait(rt: HostRuntime) -> Result<(), Fail> {
    replay::<Waiting, _>(&rt, rt.alloc(), OUTBOXES)
}
