//! Sessions that are held once, and their outcomes.

use crate::cut::{CutReader, CutWriter, Pauses};
use crate::rows::Rows;
use hub_http::{HttpFault, Outbox, Output, Requests, Tally, Transfer};
use hub_model::Mode;
use hub_session::{Closing, Service, Session, Step, StreamEnd, serve, serve_one, stream_feed};
use std::alloc::{AllocError, Global};
use std::cell::Cell;

/// The most steps of a session of these tests.
const STEPS: usize = 10_000;

/// The settings by which a session is held.
#[derive(Clone, Copy)]
pub(crate) struct Setting {
    pub(crate) alloc: Global,
    /// The most bytes of a read.
    pub(crate) most_read: usize,
    /// The reader fails after its text, in place of ending.
    pub(crate) fails: bool,
    /// The most bytes of a write.
    pub(crate) most_written: usize,
    /// How many bytes the writer takes.
    pub(crate) room: usize,
    /// How often each call of the reader and the writer is interrupted.
    pub(crate) interrupts: u64,
    /// The items that are not ready: bit N stands for the item N, from 0 on.
    pub(crate) late: u64,
    /// The stream stops in place of its End.
    pub(crate) stops: bool,
}

/// The outcome of a session.
#[derive(Drop)]
pub(crate) struct Told {
    /// Why the session closed; None where it goes on.
    pub(crate) closing: Option<Closing>,
    /// The bytes that were written.
    pub(crate) output: Vec<u8>,
    /// How many writes took bytes.
    pub(crate) writes: u64,
    /// How many bytes were written at each flush.
    pub(crate) flushed: Vec<usize>,
    /// How often the writer faulted; 0 for a session that is stepped.
    pub(crate) faults: u64,
    /// How many streams were given back.
    pub(crate) given_back: u64,
    /// How often the session waited for news.
    pub(crate) waits: u64,
}

impl Told {
    /// The outcome before any session is held.
    pub(crate) fn none(alloc: Global) -> Told {
        Told {
            closing: None,
            output: Vec::new(alloc),
            writes: 0,
            flushed: Vec::new(alloc),
            faults: 0,
            given_back: 0,
            waits: 0,
        }
    }
}

impl Setting {
    /// Ample room for a session, which comes to the end of its requests.
    pub(crate) fn ample(alloc: Global) -> Setting {
        Setting {
            alloc,
            most_read: usize::MAX,
            fails: false,
            most_written: usize::MAX,
            room: usize::MAX,
            interrupts: 0,
            late: 0,
            stops: false,
        }
    }

    fn pauses(&self) -> Pauses {
        Pauses {
            each: self.interrupts,
            left: self.interrupts,
        }
    }

    /// A writer that holds nothing yet, and takes `room` bytes.
    fn writer(&self, room: usize) -> CutWriter {
        CutWriter {
            held: Vec::new(self.alloc),
            most: self.most_written,
            room,
            pauses: self.pauses(),
            writes: 0,
            flushed: Vec::new(self.alloc),
        }
    }

    /// The requests of a reader of this input.
    fn requests<'a>(&self, input: &'a [u8]) -> Requests<Tally<CutReader<'a>>> {
        let reader = CutReader {
            text: input,
            most: self.most_read,
            fails: self.fails,
            pauses: self.pauses(),
        };
        Requests::new(self.alloc, Tally::new(reader))
    }

    /// A service before its first request.
    fn service<'a>(&self, news: &'a Cell<u64>) -> Rows<'a> {
        Rows {
            alloc: self.alloc,
            mode: Mode::Normal,
            has_updates: false,
            next: 0,
            late: self.late,
            stops: self.stops,
            dropped: 0,
            news,
        }
    }
}

/// The outcome of a session with this closing and this writer.
fn told_of(closing: Option<Closing>, writer: CutWriter, faults: u64, given_back: u64) -> Told {
    Told {
        closing,
        output: writer.held,
        writes: writer.writes,
        flushed: writer.flushed,
        faults,
        given_back,
        waits: 0,
    }
}

/// The outcome of served requests: of all, or `once` of the first alone. `again` serves them once more, to
/// a writer that takes nothing. The outcome has the closing and the faults of that second time, and the
/// bytes of the first.
pub(crate) fn served(setting: &Setting, input: &[u8], once: bool, again: bool) -> Told {
    let news = Cell::new(u64::MAX);
    let mut requests = setting.requests(input);
    let mut writer = Tally::new(setting.writer(setting.room));
    let mut service = setting.service(&news);
    let alloc = setting.alloc;
    let mut closing = if once {
        serve_one(alloc, &mut requests, &mut writer, &mut service)
    } else {
        Some(serve(alloc, &mut requests, &mut writer, &mut service))
    };
    let mut faults = Output::faults(&writer);
    if again {
        let mut narrow = Tally::new(setting.writer(0));
        closing = Some(serve(alloc, &mut requests, &mut narrow, &mut service));
        faults = Output::faults(&narrow);
    }
    told_of(closing, writer.into_inner(), faults, service.dropped)
}

/// The outcome of a stream that is sent alone. Its closing is None where it is complete, and else `Cut`.
pub(crate) fn streamed(setting: &Setting) -> Told {
    let news = Cell::new(u64::MAX);
    let mut writer = Tally::new(setting.writer(setting.room));
    let mut service = setting.service(&news);
    let end = stream_feed(setting.alloc, &mut writer, &mut service, Mode::Normal, 1);
    let closing = if end == StreamEnd::Complete {
        None
    } else {
        Some(Closing::Cut)
    };
    let faults = Output::faults(&writer);
    told_of(closing, writer.into_inner(), faults, service.dropped)
}

/// Sends the bytes that wait in a session's outbox, until none are taken.
fn drain<S: Service>(session: &mut Session<S>, writer: &mut CutWriter) {
    for _ in 0..STEPS {
        if session.send_to(writer) == Transfer::Took(0) {
            return;
        }
    }
}

/// The outcome of a stepped session and its writer.
fn stepped(session: &Session<Rows<'_>>, writer: CutWriter) -> Told {
    told_of(session.closing(), writer, 0, session.service().dropped)
}

/// A new session, to which the input was offered unless it is empty.
fn opened<'a>(
    setting: &Setting,
    news: &'a Cell<u64>,
    input: &[u8],
) -> Result<Session<Rows<'a>>, AllocError> {
    let outbox = Outbox::new(setting.alloc)?;
    let mut session = Session::new(setting.alloc, outbox, setting.service(news));
    if !input.is_empty() {
        session.offer(input)?;
    }
    Ok(session)
}

/// Offers a session the next part of an input. Answers where the part after it begins. Out of memory, no
/// byte is taken, and the answer is `start`.
fn offer_part(session: &mut Session<Rows<'_>>, input: &[u8], start: usize, most: usize) -> usize {
    let end = start.saturating_add(most).min(input.len());
    let Some(part) = input.get(start..end) else {
        return start;
    };
    if session.offer(part).is_ok() {
        end
    } else {
        start
    }
}

/// The outcome of a session that is stepped, and waits for news before each item of a stream.
pub(crate) fn driven(setting: &Setting, input: &[u8]) -> Result<Told, AllocError> {
    let news = Cell::new(0);
    let mut session = opened(setting, &news, b"")?;
    let mut writer = setting.writer(setting.room);
    let mut start = 0;
    let mut waits = 0u64;
    for _ in 0..STEPS {
        match session.step() {
            Step::Served => {}
            Step::WantsNews => {
                waits = waits.saturating_add(1);
                news.set(1);
            }
            Step::WantsRoom => {
                session.send_to(&mut writer);
            }
            Step::WantsInput => start = offer_part(&mut session, input, start, setting.most_read),
            Step::Ended(_) => break,
        }
    }
    drain(&mut session, &mut writer);
    let mut told = stepped(&session, writer);
    told.waits = waits;
    Ok(told)
}

/// Steps a session until it wants input or ends, and sends all its bytes.
fn step_on(session: &mut Session<Rows<'_>>, writer: &mut CutWriter) {
    for _ in 0..STEPS {
        match session.step() {
            Step::WantsRoom => drain(session, writer),
            Step::WantsInput | Step::Ended(_) => break,
            Step::Served | Step::WantsNews => {}
        }
    }
    drain(session, writer);
}

/// The outcome of a session that finds no memory for the bytes after its input.
pub(crate) fn refused(setting: &Setting, input: &[u8]) -> Result<Told, AllocError> {
    let news = Cell::new(u64::MAX);
    let mut session = opened(setting, &news, input)?;
    let mut writer = setting.writer(setting.room);
    step_on(&mut session, &mut writer);
    if !session.inbox().is_over() {
        session.close_out_of_memory(b"mal HTTP/1.1\r\n\r\n");
    }
    drain(&mut session, &mut writer);
    Ok(stepped(&session, writer))
}

/// The outcome of a session that is given up twice after its first step, and stepped once more.
pub(crate) fn given_up(setting: &Setting, input: &[u8]) -> Result<Told, AllocError> {
    let news = Cell::new(u64::MAX);
    let mut session = opened(setting, &news, input)?;
    session.step();
    session.give_up();
    session.give_up();
    let step = session.step();
    let mut told = stepped(&session, setting.writer(0));
    if !matches!(step, Step::Ended(_)) {
        told.closing = None;
    }
    Ok(told)
}
