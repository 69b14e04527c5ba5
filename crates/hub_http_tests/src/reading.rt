//! Requests that transcripts read.

use crate::texts::{Came, Shown, repeated, undone};
use hub_http::{HttpFault, Input, Requests, Tally};
use hub_transcript::{Answer, Subject, Words};
use std::alloc::{AllocError, Global};
use std::fmt::{Display, Formatter, Write};
use std::io::{Cursor, ErrorKind, Read};
use std::{fmt, io};

/// How many requests a text has at most.
const MOST: usize = 8;

/// A reader that gives at most `most` bytes a read. It is interrupted `left` times before the first read,
/// and `times` times before each other. After `good` good reads it fails.
#[derive(Drop)]
struct Slow {
    text: Cursor<Vec<u8>>,
    most: usize,
    left: u64,
    times: u64,
    good: u64,
}

impl Slow {
    /// A reader that gives a whole text, and never fails.
    fn ample(text: Vec<u8>) -> Slow {
        Slow {
            text: Cursor::new(text),
            most: usize::MAX,
            left: 0,
            times: 0,
            good: u64::MAX,
        }
    }
}

impl Read for Slow {
    fn read(&mut self, buf: &mut [u8]) -> io::Result<usize> {
        if self.left > 0 {
            self.left -= 1;
            return Err(io::Error::from(ErrorKind::Interrupted));
        }
        self.left = self.times;
        if self.good == 0 {
            return Err(io::Error::from(ErrorKind::BrokenPipe));
        }
        self.good -= 1;
        let size = buf.len().min(self.most);
        self.text.read(&mut buf[..size])
    }
}

/// How many reads were made, and how many faulted.
#[derive(Drop)]
struct Counts(u64, u64);

impl Display for Counts {
    fn fmt<W: fmt::Write>(&self, f: &mut Formatter<W>) -> fmt::Result {
        write!(f, "{} reads, {} faults", self.0, self.1)
    }
}

/// The requests of a reader. A request is shown by its method and its target, whether it has a length,
/// whether it closes, and its body. After the last request stands `end`, or the fault.
///
/// - `read TEXT`: a reader gives this text at once; each request is shown.
/// - `add TIMES TEXT`: appends a text TIMES times, or TIMES counted bytes, to the gathered text. `all`: a
///   reader gives the gathered text at once; each request is shown.
/// - `slow LEFT TIMES TEXT`: a reader gives this text byte by byte. It is interrupted LEFT times before the
///   first byte, and TIMES times before each other.
/// - `next`: shows the next request. `room`: shows the room of the last request's body. `counts`: how many
///   reads were made, and how many faulted.
/// - `fronts TEXT`: each front of a text is read. `failing TEXT`: a text is read byte by byte, by readers
///   that fail after 0, 1, .. good reads. The requests, and a second look after the end, are shown where
///   they differ from those with one byte less.
/// - `memory TEXT`: three reads of at most two bytes, of memory.
#[derive(Drop)]
pub(crate) struct Reading {
    alloc: Global,
    gathered: Vec<u8>,
    requests: Requests<Tally<Slow>>,
    room: usize,
}

/// The next request, end or fault. Out of memory, the call is made once more: no byte is lost.
fn next_of(requests: &mut Requests<Tally<Slow>>) -> Result<Came, AllocError> {
    let next = match requests.next() {
        Err(HttpFault::NoMemory) => requests.next(),
        found => found,
    };
    match next {
        Ok(Some(request)) => Ok(Came::Whole(request)),
        Ok(None) => Ok(Came::End),
        Err(HttpFault::NoMemory) => Err(AllocError),
        Err(fault) => Ok(Came::Fault(fault)),
    }
}

// Reads a text in memory three times, at most two bytes each time.
fn read_memory(text: &[u8], answer: &mut Answer) -> Result<(), AllocError> {
    let mut input = Tally::new(text);
    let mut buf = [0u8; 2];
    for _ in 0..3 {
        match Input::read(&mut input, &mut buf) {
            Ok(count) => answer.line(Shown(&buf[..count.min(2)]))?,
            Err(_) => answer.text("an error\n")?,
        }
    }
    answer.line(Counts(input.reads(), Input::faults(&input)))
}

impl Reading {
    // Reads from this reader from now on.
    fn open(&mut self, reader: Slow) {
        self.requests = Requests::new(self.alloc, Tally::new(reader));
    }

    // The next request, end or fault. The room of a request's body is noted.
    fn next(&mut self) -> Result<Came, AllocError> {
        let came = next_of(&mut self.requests)?;
        if let Came::Whole(request) = &came {
            self.room = request.body.capacity();
        }
        Ok(came)
    }

    fn tell_next(&mut self, answer: &mut Answer) -> Result<(), AllocError> {
        let came = self.next()?;
        answer.line(came)
    }

    // The requests of a reader and the end or fault after them, a line each.
    fn all_of(&mut self, reader: Slow) -> Result<String, AllocError> {
        let mut told = String::new(self.alloc);
        self.open(reader);
        for _ in 0..MOST {
            let came = self.next()?;
            writeln!(told, "{came}")?;
            if !matches!(came, Came::Whole(_)) {
                return Ok(told);
            }
        }
        told.push_str("more requests\n")?;
        Ok(told)
    }

    // A copy of the gathered text, which stays whole where memory is refused later.
    fn copy(&self) -> Result<Vec<u8>, AllocError> {
        Vec::from_slice(self.alloc, self.gathered.as_slice())
    }

    fn all(&mut self, answer: &mut Answer) -> Result<(), AllocError> {
        let text = self.copy()?;
        let told = self.all_of(Slow::ample(text))?;
        self.gathered.clear();
        answer.text(told.as_str())
    }

    fn read(&mut self, text: &str, answer: &mut Answer) -> Result<(), AllocError> {
        let told = self.all_of(Slow::ample(undone(self.alloc, text)?))?;
        answer.text(told.as_str())
    }

    fn add(&mut self, command: &str) -> Result<(), AllocError> {
        let part = repeated(self.alloc, &mut Words::of(command))?;
        self.gathered.extend_from_slice(part.as_slice())
    }

    fn slow(&mut self, command: &str) -> Result<(), AllocError> {
        let mut words = Words::of(command);
        let (left, times) = (words.number(), words.number());
        let mut reader = Slow::ample(undone(self.alloc, words.rest())?);
        reader.most = 1;
        reader.left = left;
        reader.times = times;
        self.open(reader);
        Ok(())
    }

    fn counts(&self, before: u64) -> Counts {
        let reader = self.requests.reader();
        Counts(reader.reads().saturating_sub(before), Input::faults(reader))
    }

    // The lines of a text, with a second look after the end. A reader that `fails` does so after `count`
    // good reads. Then its further reads and its faults are counted too.
    fn at(&mut self, fails: bool, text: &[u8], count: usize) -> Result<String, AllocError> {
        let mut reader = Slow::ample(Vec::from_slice(self.alloc, text)?);
        if fails {
            reader.most = 1;
            reader.good = count as u64;
        }
        let mut told = self.all_of(reader)?;
        writeln!(told, "{}", self.next()?)?;
        if fails {
            writeln!(told, "{}", self.counts(count as u64))?;
        }
        Ok(told)
    }

    // Shows the lines of each count of bytes, where they differ from those before.
    fn each(&mut self, fails: bool, text: &str, answer: &mut Answer) -> Result<(), AllocError> {
        let text = undone(self.alloc, text)?;
        let mut before = String::new(self.alloc);
        for count in 0..text.len() + 1 {
            let last = if fails { text.len() } else { count };
            let told = self.at(fails, &text[..last], count)?;
            if told.as_str() != before.as_str() {
                answer.line(format_args!("from {count}"))?;
                answer.text(told.as_str())?;
                before = told;
            }
        }
        Ok(())
    }
}

impl<R> Subject<R> for Reading {
    fn begin(_: &R, alloc: Global, _: &str) -> Result<Reading, AllocError> {
        let reader = Slow::ample(Vec::new(alloc));
        Ok(Reading {
            alloc,
            gathered: Vec::new(alloc),
            requests: Requests::new(alloc, Tally::new(reader)),
            room: 0,
        })
    }

    fn answer(&mut self, _: &R, command: &str, answer: &mut Answer) -> Result<(), AllocError> {
        let mut words = Words::of(command);
        let place = words.verb("read add all slow next room counts memory fronts failing");
        let rest = words.rest();
        match place {
            0 => self.read(rest, answer),
            1 => self.add(rest),
            2 => self.all(answer),
            3 => self.slow(rest),
            4 => self.tell_next(answer),
            5 => answer.line(self.room),
            6 => answer.line(self.counts(0)),
            7 => read_memory(rest.as_bytes(), answer),
            8 => self.each(false, rest, answer),
            9 => self.each(true, rest, answer),
            _ => answer.text("?\n"),
        }
    }
}
