//! Requests of bytes that transcripts offer.

use crate::texts::{Came, repeated, undone};
use hub_http::{HttpFault, Inbox, Next};
use hub_transcript::{Answer, Subject, Words};
use std::alloc::{AllocError, Global};
use std::fmt::Write;

/// How many requests a text has at most.
const MOST: usize = 8;

/// An inbox. Its next outcome is a request, `not yet`, `end` or a fault, shown as in `Reading`.
///
/// - `put TIMES TEXT`: TIMES times the text, or TIMES counted bytes without a text, offered at once.
/// - `offer LENGTH TIMES TEXT`: the same bytes are offered in parts of at most LENGTH bytes. Before each
///   part the outcome is shown, unless it is `not yet`. Then the count of `not yet` is shown.
/// - `next`: shows the next outcome. `over`: no more bytes come.
/// - `fronts TEXT`: each front of a text is offered. Its outcomes are those until one is no request, and
///   two after the end of the input. They are shown where they differ from those with one byte less.
#[derive(Drop)]
pub(crate) struct Offers {
    alloc: Global,
    inbox: Inbox,
}

/// The next outcome. Out of memory, the call is made once more.
fn next_of(inbox: &mut Inbox) -> Result<Came, AllocError> {
    let next = match inbox.next() {
        Err(HttpFault::NoMemory) => inbox.next(),
        found => found,
    };
    match next {
        Ok(Next::Whole(request)) => Ok(Came::Whole(request)),
        Ok(Next::NotYet) => Ok(Came::NotYet),
        Ok(Next::End) => Ok(Came::End),
        Err(HttpFault::NoMemory) => Err(AllocError),
        Err(fault) => Ok(Came::Fault(fault)),
    }
}

/// Offers bytes. Out of memory, they are offered once more. It is an error to offer bytes after the end.
fn offer(inbox: &mut Inbox, bytes: &[u8]) -> Result<(), AllocError> {
    for _ in 0..2 {
        if !inbox.is_over() && inbox.offer(bytes).is_ok() {
            return Ok(());
        }
    }
    Err(AllocError)
}

impl Offers {
    fn offer(&mut self, command: &str, answer: &mut Answer) -> Result<(), AllocError> {
        let mut words = Words::of(command);
        let length = (words.number() as usize).max(1);
        let bytes = repeated(self.alloc, &mut words)?;
        let mut waits = 0u64;
        for part in bytes.chunks(length) {
            match next_of(&mut self.inbox)? {
                Came::NotYet => waits = waits.saturating_add(1),
                came => answer.line(came)?,
            }
            offer(&mut self.inbox, part)?;
        }
        answer.line(format_args!("not yet, {waits} times"))
    }

    fn put(&mut self, command: &str) -> Result<(), AllocError> {
        let bytes = repeated(self.alloc, &mut Words::of(command))?;
        offer(&mut self.inbox, bytes.as_slice())
    }

    // The outcomes of a front, and two outcomes after the end of the input.
    fn front(&mut self, front: &[u8]) -> Result<String, AllocError> {
        let mut told = String::new(self.alloc);
        self.inbox = Inbox::new(self.alloc);
        offer(&mut self.inbox, front)?;
        for _ in 0..MOST {
            let came = next_of(&mut self.inbox)?;
            writeln!(told, "{came}")?;
            if !matches!(came, Came::Whole(_)) {
                break;
            }
        }
        self.inbox.end();
        for _ in 0..2 {
            writeln!(told, "{}", next_of(&mut self.inbox)?)?;
        }
        Ok(told)
    }

    fn fronts(&mut self, text: &str, answer: &mut Answer) -> Result<(), AllocError> {
        let text = undone(self.alloc, text)?;
        let mut before = String::new(self.alloc);
        for count in 0..text.len() + 1 {
            let told = self.front(&text[..count])?;
            if told.as_str() != before.as_str() {
                answer.line(format_args!("from {count}"))?;
                answer.text(told.as_str())?;
                before = told;
            }
        }
        Ok(())
    }
}

impl<R> Subject<R> for Offers {
    fn begin(_: &R, alloc: Global, _: &str) -> Result<Offers, AllocError> {
        Ok(Offers {
            alloc,
            inbox: Inbox::new(alloc),
        })
    }

    fn answer(&mut self, _: &R, command: &str, answer: &mut Answer) -> Result<(), AllocError> {
        let mut words = Words::of(command);
        let place = words.verb("offer put next over fronts");
        let rest = words.rest();
        match place {
            0 => self.offer(rest, answer),
            1 => self.put(rest),
            2 => answer.line(next_of(&mut self.inbox)?),
            3 => {
                self.inbox.end();
                Ok(())
            }
            4 => self.fronts(rest, answer),
            _ => answer.text("?\n"),
        }
    }
}
