//! Queries and bodies that transcripts read.

use hub_filter::Filter;
use hub_params::{DocParams, FeedParams, ParamFault, read_tagged};
use hub_transcript::{Answer, Subject, Words};
use std::alloc::{AllocError, Global};

/// The ids on which filters are tried.
const PROBES: &[&str] = &["", "a", "b", "c", "A", "é", "a b", "_design/a", "_design"];

/// A body, and commands that read queries and texts.
///
/// - `body TEXT`: sets the body of the queries that follow. `byte N`: appends one byte to it.
/// - `read QUERY`: a copy of the parameters of a feed, as far as they differ from those of an empty query.
///   `whole QUERY`: all of the parameters. A fault answers its reason.
/// - `shows QUERY`: the ids of `PROBES` that the filter of a query passes. `ids QUERY`: the ids that the
///   filter lists.
/// - `waits QUERY`: whether the mode of a query waits. `begins QUERY`: the sequence at which its feed begins,
///   in the life 3 with 9 edits.
/// - `tagged TEXT`: the sequence and the life of a text.
/// - `doc QUERY`: the parameters of a document.
#[derive(Drop)]
pub(crate) struct Asked {
    alloc: Global,
    body: Vec<u8>,
    usual: String,
}

fn text_of(alloc: Global, params: &FeedParams) -> Result<String, AllocError> {
    format!(in alloc; "{params:?}")
}

// The text of the parameters of an empty query.
fn usual(alloc: Global) -> Result<String, AllocError> {
    match FeedParams::read(alloc, b"", b"") {
        Ok(params) => text_of(alloc, &params),
        Err(_) => Err(AllocError),
    }
}

// The ids that a filter passes, a line each.
fn tell_passed(filter: &Filter, answer: &mut Answer) -> Result<(), AllocError> {
    for id in PROBES {
        if filter.passes(*id) {
            answer.text(*id)?;
            answer.text("\n")?;
        }
    }
    Ok(())
}

// The ids that a filter lists, a line each.
fn tell_ids(filter: &Filter, answer: &mut Answer) -> Result<(), AllocError> {
    let Filter::DocIds(ids) = filter else {
        return answer.text("no ids\n");
    };
    for id in ids.as_slice() {
        answer.text(id.as_str())?;
        answer.text("\n")?;
    }
    Ok(())
}

// The members of a text that the usual text does not have, a line each.
fn tell_unusual(text: &str, usual: &str, answer: &mut Answer) -> Result<(), AllocError> {
    for member in text.split(", ") {
        if !usual.contains(member) {
            answer.text(member)?;
            answer.text("\n")?;
        }
    }
    Ok(())
}

fn tell_tagged(text: &str, answer: &mut Answer) -> Result<(), AllocError> {
    answer.line(format_args!("{:?}", read_tagged(text)))
}

impl Asked {
    // Tells the members of a copy of parameters that the usual text does not have.
    fn tell(&self, params: &FeedParams, answer: &mut Answer) -> Result<(), AllocError> {
        let copy = params.copy(self.alloc)?;
        let text = text_of(self.alloc, &copy)?;
        tell_unusual(text.as_str(), self.usual.as_str(), answer)
    }

    fn whole(&self, params: &FeedParams, answer: &mut Answer) -> Result<(), AllocError> {
        let text = text_of(self.alloc, params)?;
        answer.text(text.as_str())
    }

    // Answers a command on the parameters of a query.
    fn ask(&self, verb: &str, params: &FeedParams, answer: &mut Answer) -> Result<(), AllocError> {
        match Words::of(verb).verb("read whole shows ids waits begins") {
            0 => self.tell(params, answer),
            1 => self.whole(params, answer),
            2 => tell_passed(&params.filter, answer),
            3 => tell_ids(&params.filter, answer),
            4 => answer.line(params.mode.waits()),
            5 => answer.line(params.since.within(9, 3)),
            _ => answer.text("?\n"),
        }
    }

    fn feed(&self, verb: &str, query: &str, answer: &mut Answer) -> Result<(), AllocError> {
        match FeedParams::read(self.alloc, query.as_bytes(), self.body.as_slice()) {
            Ok(params) => self.ask(verb, &params, answer),
            Err(ParamFault::NoMemory) => Err(AllocError),
            Err(fault) => answer.line(fault),
        }
    }

    fn doc(&self, query: &str, answer: &mut Answer) -> Result<(), AllocError> {
        let params = DocParams::read(self.alloc, query.as_bytes())?;
        answer.line(format_args!("{params:?}"))
    }

    fn set_body(&mut self, body: &str) -> Result<(), AllocError> {
        self.body = Vec::from_slice(self.alloc, body.as_bytes())?;
        Ok(())
    }

    // A text that is no number of a byte gives the byte 0.
    fn put_byte(&mut self, number: &str) -> Result<(), AllocError> {
        self.body.push(number.parse().unwrap_or(0))?;
        Ok(())
    }
}

impl<R> Subject<R> for Asked {
    fn begin(_: &R, alloc: Global, _: &str) -> Result<Asked, AllocError> {
        Ok(Asked {
            alloc,
            body: Vec::new(alloc),
            usual: usual(alloc)?,
        })
    }

    fn answer(&mut self, _: &R, command: &str, answer: &mut Answer) -> Result<(), AllocError> {
        let (verb, rest) = command.split_once(' ').unwrap_or((command, ""));
        match Words::of(verb).verb("body byte tagged doc") {
            0 => self.set_body(rest),
            1 => self.put_byte(rest),
            2 => tell_tagged(rest, answer),
            3 => self.doc(rest, answer),
            _ => self.feed(verb, rest, answer),
        }
    }
}
