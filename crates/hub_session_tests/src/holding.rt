//! Sessions that transcripts hold.
//!
//! With ample memory, a session follows its settings at once. Where a growth is refused, its output is a
//! front of the answers. Then a stream may be cut, or one answer may be the refusal that tells out of
//! memory. Held again over fresh values, the session is right.

use crate::held::{Setting, Told, driven, given_up, refused, served, streamed};
use crate::shown::{Shown, undone};
use hub_http::HttpFault;
use hub_session::Closing;
use hub_transcript::{Answer, Subject, Words};
use std::alloc::{AllocError, Global};
use std::str;

/// The head of the refusal that tells out of memory, without `HTTP/1.1 5` at its front. The session goes on
/// after this refusal.
const REFUSED: &str =
    "03 Service Unavailable\r\nContent-Type: application/json\r\nContent-Length: 51\r\n\r\n";

/// The body of this refusal, which no answer to HEAD has.
const REFUSED_BODY: &str = "{\"error\":\"out_of_memory\",\"reason\":\"out of memory\"}\n";

/// Requests, and the sessions that are held over them.
///
/// - `ask TEXT`: appends a request.
/// - Settings. `ample`: none. `read_by N`, `write_by N`: at most N bytes a read or a write. `fails`: the
///   reader fails after the requests, in place of ending. `room N`: the writer takes N bytes. `interrupted
///   N`: each call of the reader and the writer is interrupted N times. `late N`: item N is not ready.
///   `stops`: a stream stops in place of its End.
/// - Sessions, which answer why they close, or `goes on`. `serve`: all requests are served. `serve_one`:
///   the first alone. `serve_again`: all, and once more after their end, to a writer that takes nothing.
///   `stream`: a stream is sent alone. `drive`: a session is stepped, and waits for news before each item.
///   `lose`: a session is stepped, and has no memory for the bytes after the requests. `give_up`: a session
///   is given up after its first step.
/// - Parts of the last outcome. `output`: the bytes, or `as before` where they are those that were shown
///   last, at first none. `writes`, `faults`, `waits`: their counts. `given_back`: the count of streams.
///   `flushes`: the count of bytes at each.
/// - `cuts SESSION`: a session is held over each front of the requests. `breaks SESSION`: it is held with
///   room for each count of bytes below those shown last. It is shown where it differs from that with one
///   byte less. Shown are its closing, its bytes (for `breaks` counted from its room), whether they are a
///   front, and its faults and waits.
#[derive(Drop)]
pub(crate) struct Holding {
    asked: Vec<u8>,
    setting: Setting,
    told: Told,
    shown: Vec<u8>,
}

/// The words that name settings.
const SETTINGS: &str = "ample read_by write_by fails room interrupted late stops";

/// A session in a line: its closing, whether its output is a front, and its bytes, faults and waits.
type Line = (Option<Closing>, bool, usize, u64, u64);

// Whether memory may have been missing for a session.
fn may_lack_memory(told: &Told) -> bool {
    match told.closing {
        Some(Closing::Fault(HttpFault::NoMemory) | Closing::Cut | Closing::Broken) => true,
        _ => text_of(told).contains("HTTP/1.1 503"),
    }
}

// The output of a session, as a text.
fn text_of(told: &Told) -> &str {
    str::from_utf8(told.output.as_slice()).unwrap_or("no text")
}

// Whether `output` is a front of the answers. One of its answers may be a refusal that tells out of memory.
fn is_front(output: &str, whole: &str) -> bool {
    let Some((front, behind)) = output.split_once("HTTP/1.1 5") else {
        return whole.starts_with(output);
    };
    let is_whole = match behind.strip_prefix(REFUSED) {
        Some(rest) => whole.contains(rest.strip_prefix(REFUSED_BODY).unwrap_or(rest)),
        None => true,
    };
    is_whole && whole.starts_with(front)
}

fn is_same(told: &Told, other: &Told) -> bool {
    told.closing == other.closing && told.output.as_slice() == other.output.as_slice()
}

// Tells why a session closes.
fn tell_closing(closing: Option<Closing>, answer: &mut Answer) -> Result<(), AllocError> {
    match closing {
        Some(closing) => answer.line(format_args!("{closing:?}")),
        None => answer.text("goes on\n"),
    }
}

// The outcome of a session; None where the word names no session.
fn held(setting: &Setting, verb: &str, input: &[u8]) -> Result<Option<Told>, AllocError> {
    let told = match Words::of(verb).verb("serve serve_one serve_again stream drive lose give_up") {
        0 => served(setting, input, false, false),
        1 => served(setting, input, true, false),
        2 => served(setting, input, false, true),
        3 => streamed(setting),
        4 => driven(setting, input)?,
        5 => refused(setting, input)?,
        6 => given_up(setting, input)?,
        _ => return Ok(None),
    };
    Ok(Some(told))
}

// The outcome of a session that found memory. Where a growth may have been refused, up to three are held.
// If the odd one's output is no front of the answers, the odd one is the outcome.
fn held_at_last(
    setting: &Setting,
    verb: &str,
    input: &[u8],
    shown: &str,
) -> Result<Option<Told>, AllocError> {
    let Some(first) = held(setting, verb, input)? else {
        return Ok(None);
    };
    if !may_lack_memory(&first) {
        return Ok(Some(first));
    }
    let Some(second) = held(setting, verb, input)? else {
        return Ok(None);
    };
    if is_same(&first, &second) {
        return Ok(Some(first));
    }
    let Some(third) = held(setting, verb, input)? else {
        return Ok(None);
    };
    let odd = if is_same(&first, &third) {
        second
    } else {
        first
    };
    let is_right = is_front(text_of(&odd), text_of(&third)) || is_front(text_of(&odd), shown);
    Ok(Some(if is_right { third } else { odd }))
}

impl Holding {
    fn hold(&mut self, verb: &str, answer: &mut Answer) -> Result<(), AllocError> {
        match held_at_last(&self.setting, verb, self.asked.as_slice(), "")? {
            Some(told) => {
                self.told = told;
                tell_closing(self.told.closing, answer)
            }
            None => answer.text("?\n"),
        }
    }

    fn output(&mut self, answer: &mut Answer) -> Result<(), AllocError> {
        let output = self.told.output.as_slice();
        if output == self.shown.as_slice() {
            return answer.text("as before\n");
        }
        self.shown = Vec::from_slice(self.setting.alloc, output)?;
        answer.line(Shown(output))
    }

    // A session in a line: a front is one of the output shown last, and the bytes are counted from `room`.
    fn line_of(&self, told: &Told, room: usize) -> Line {
        let is_front = self.shown.starts_with(told.output.as_slice());
        let count = told.output.len().abs_diff(room);
        (told.closing, is_front, count, told.faults, told.waits)
    }

    // Shows a session where its line differs from the line before.
    fn tell_change(
        &self,
        verb: &str,
        setting: &Setting,
        (count, input, room): (usize, &[u8], usize),
        before: Option<Line>,
        answer: &mut Answer,
    ) -> Result<Option<Line>, AllocError> {
        let Some(told) = held(setting, verb, input)? else {
            return Ok(None);
        };
        if before == Some(self.line_of(&told, room)) {
            return Ok(before);
        }
        let shown = str::from_utf8(self.shown.as_slice()).unwrap_or("no text");
        let Some(told) = held_at_last(setting, verb, input, shown)? else {
            return Ok(None);
        };
        let line = self.line_of(&told, room);
        if before != Some(line) {
            let (closing, is_front, bytes, faults, waits) = line;
            answer.line(format_args!("from {count}"))?;
            tell_closing(closing, answer)?;
            answer.line(format_args!("{bytes} bytes, a front {is_front}"))?;
            answer.line(format_args!("{faults} faults, {waits} waits"))?;
        }
        Ok(Some(line))
    }

    fn cuts(&self, verb: &str, answer: &mut Answer) -> Result<(), AllocError> {
        let mut before = None;
        for count in 0..self.asked.len() {
            let place = (count, &self.asked[..count], 0);
            before = self.tell_change(verb, &self.setting, place, before, answer)?;
        }
        Ok(())
    }

    fn breaks(&self, verb: &str, answer: &mut Answer) -> Result<(), AllocError> {
        let mut before = None;
        for room in 0..self.shown.len() {
            let setting = Setting {
                room,
                ..self.setting
            };
            let place = (room, self.asked.as_slice(), room);
            before = self.tell_change(verb, &setting, place, before, answer)?;
        }
        Ok(())
    }

    // Changes the setting at this place of `SETTINGS`.
    fn set(&mut self, place: usize, number: u64) {
        let setting = &mut self.setting;
        match place {
            0 => *setting = Setting::ample(setting.alloc),
            1 => setting.most_read = number as usize,
            2 => setting.most_written = number as usize,
            3 => setting.fails = true,
            4 => setting.room = number as usize,
            5 => setting.interrupts = number,
            6 => setting.late |= 1u64 << (number % 64),
            _ => setting.stops = true,
        }
    }

    fn ask(&mut self, text: &str) -> Result<(), AllocError> {
        let request = undone(self.setting.alloc, text)?;
        self.asked.extend_from_slice(request.as_slice())
    }
}

impl<R> Subject<R> for Holding {
    fn begin(_: &R, alloc: Global, _: &str) -> Result<Holding, AllocError> {
        let setting = Setting::ample(alloc);
        Ok(Holding {
            asked: Vec::new(alloc),
            setting,
            told: Told::none(alloc),
            shown: Vec::new(alloc),
        })
    }

    fn answer(&mut self, _: &R, command: &str, answer: &mut Answer) -> Result<(), AllocError> {
        let (verb, rest) = command.split_once(' ').unwrap_or((command, ""));
        let place = Words::of(verb).verb(SETTINGS);
        if place < usize::MAX {
            self.set(place, rest.parse().unwrap_or(0));
            return Ok(());
        }
        match Words::of(verb).verb(
            "ask output writes flushes faults given_back waits cuts breaks",
        ) {
            0 => self.ask(rest),
            1 => self.output(answer),
            2 => answer.line(self.told.writes),
            3 => answer.line(format_args!("{:?}", self.told.flushed)),
            4 => answer.line(self.told.faults),
            5 => answer.line(self.told.given_back),
            6 => answer.line(self.told.waits),
            7 => self.cuts(rest, answer),
            8 => self.breaks(rest, answer),
            _ => self.hold(verb, answer),
        }
    }
}
