//! Bytes as transcripts write them, and the next outcome of a connection.

use hub_http::{HttpFault, Request};
use hub_transcript::Words;
use std::alloc::{AllocError, Global};
use std::fmt::{Display, Formatter};
use std::{ascii, fmt};

/// The byte that a letter stands for after a backslash. A letter of no other meaning stands for itself.
fn meant(letter: u8) -> u8 {
    if letter == b'r' {
        return b'\r';
    }
    if letter == b'n' {
        return b'\n';
    }
    if letter == b't' {
        return b'\t';
    }
    if letter == b'1' {
        return 1;
    }
    letter
}

/// The bytes of a text in which `\r`, `\n` and `\t` stand for CR, LF and a tab, and `\1` for the byte 1.
pub(crate) fn undone(alloc: Global, text: &str) -> Result<Vec<u8>, AllocError> {
    let mut bytes = Vec::new(alloc);
    let mut is_escape = false;
    for byte in text.as_bytes() {
        if is_escape {
            bytes.push(meant(*byte))?;
            is_escape = false;
        } else if *byte == b'\\' {
            is_escape = true;
        } else {
            bytes.push(*byte)?;
        }
    }
    Ok(bytes)
}

/// The bytes of the words `TIMES TEXT`: the text TIMES times. Without a text they are TIMES bytes that
/// count from 0 to 250, and from 0 again.
pub(crate) fn repeated(alloc: Global, words: &mut Words<'_>) -> Result<Vec<u8>, AllocError> {
    let times = words.number();
    let part = undone(alloc, words.rest())?;
    let mut bytes = Vec::new(alloc);
    for number in 0..times {
        if part.is_empty() {
            bytes.push((number % 251) as u8)?;
        } else {
            bytes.extend_from_slice(part.as_slice())?;
        }
    }
    Ok(bytes)
}

/// Bytes as they are shown: a printing byte as it stands, a backslash as two, other bytes by escapes.
#[derive(Drop)]
pub(crate) struct Shown<'a>(pub(crate) &'a [u8]);

impl Display for Shown<'_> {
    fn fmt<W: fmt::Write>(&self, f: &mut Formatter<W>) -> fmt::Result {
        for byte in self.0 {
            if *byte == b'"' || *byte == b'\'' {
                f.write_char(char::from(*byte))?;
            } else {
                write!(f, "{}", ascii::escape_default(*byte))?;
            }
        }
        Ok(())
    }
}

/// The next outcome of a connection.
#[derive(Drop)]
pub(crate) enum Came {
    /// A request: its method and its target, whether it has a length, whether it closes, and its body.
    Whole(Request),
    NotYet,
    End,
    Fault(HttpFault),
}

impl Display for Came {
    fn fmt<W: fmt::Write>(&self, f: &mut Formatter<W>) -> fmt::Result {
        match self {
            Came::Whole(request) => show_request(f, request),
            Came::NotYet => f.write_str("not yet"),
            Came::End => f.write_str("end"),
            Came::Fault(fault) => write!(f, "{fault:?}"),
        }
    }
}

fn show_request<W: fmt::Write>(f: &mut Formatter<W>, request: &Request) -> fmt::Result {
    let (method, target) = (request.method.as_slice(), request.target.as_slice());
    write!(f, "{} {}", Shown(method), Shown(target))?;
    if request.has_length {
        f.write_str(", length")?;
    }
    if request.close {
        f.write_str(", close")?;
    }
    show_body(f, request.body.as_slice())
}

fn show_body<W: fmt::Write>(f: &mut Formatter<W>, body: &[u8]) -> fmt::Result {
    if body.is_empty() {
        return Ok(());
    }
    if is_counted(body) {
        return write!(f, ": {} counted bytes", body.len());
    }
    write!(f, ": {}", Shown(body))
}

// Whether bytes count from 0 to 250, and from 0 again.
fn is_counted(bytes: &[u8]) -> bool {
    let mut next = 0u8;
    for byte in bytes {
        if *byte != next {
            return false;
        }
        next = if next < 250 { next + 1 } else { 0 };
    }
    true
}
