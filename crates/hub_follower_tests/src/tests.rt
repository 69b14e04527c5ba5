//! Followers over databases of a hub, mostly as transcripts (`hub_transcript`).
//!
//! A call whose growth is refused answers an error: no session begins, and a round or a checkpoint leaves the
//! place. The call made again does its work as with ample memory. So these tests hold whichever one growth is
//! refused. The growths of the tests themselves are among them, as that of a document's text. The growth of a
//! thread is not (`threads`).

mod copier;
mod desk;
mod following;
mod handed;
mod held;
mod histories;
mod library;
mod lives;
mod logs;
mod losing;
mod losses;
mod rounds;
mod stops;
mod surface;
mod telling;
mod threads;
mod values;
mod worlds;

use hub_document::{Doc, Limits};
use hub_follower::{FollowFault, Seq};
use hub_shared::{Db, Plain};
use hub_transcript::Answer;
use std::alloc::{AllocError, Global};
use std::{fmt, str};

// The id of the replication logs.
const LOG: &str = "_local/follower";

/// A place as transcripts show it: its number, with `-` and its life where the life is known; or `none`.
#[derive(Drop)]
pub(crate) struct Told(pub(crate) Option<Seq>);

impl fmt::Display for Told {
    fn fmt<W: fmt::Write>(&self, f: &mut fmt::Formatter<W>) -> fmt::Result {
        let Some(seq) = self.0 else {
            return write!(f, "none");
        };
        match seq.life {
            Some(life) => write!(f, "{}-{life}", seq.n),
            None => write!(f, "{}", seq.n),
        }
    }
}

// A word as a number; an error each time where the word is no number.
fn number(word: &str) -> Result<u64, AllocError> {
    match word.parse() {
        Ok(number) => Ok(number),
        Err(_) => Err(AllocError),
    }
}

// A word as a sequence, written as in a log; an error each time where the word is no sequence.
fn seq_of(word: &str) -> Result<Seq, AllocError> {
    match word.split_once('-') {
        Some((n, life)) => Ok(Seq::of_life(number(n)?, number(life)?)),
        None => Ok(Seq {
            n: number(word)?,
            life: None,
        }),
    }
}

// Bytes as a text; an error each time where they are no UTF-8.
fn text_of(bytes: &[u8]) -> Result<&str, AllocError> {
    match str::from_utf8(bytes) {
        Ok(text) => Ok(text),
        Err(_) => Err(AllocError),
    }
}

// A database without documents, with these limits and this number of its life. Where memory for it is
// refused, it is asked for once more.
fn database(alloc: Global, limits: Limits, life: u64) -> Result<Db<Plain>, AllocError> {
    match Db::new(alloc, limits, life, Plain) {
        Ok((db, _handle)) => Ok(db),
        Err(AllocError) => Ok(Db::new(alloc, limits, life, Plain)?.0),
    }
}

// The documents that the words write; an error out of memory, and each time where a word is no document.
fn docs(alloc: Global, words: &str) -> Result<Vec<Doc>, AllocError> {
    let mut docs = Vec::new(alloc);
    for text in words.split(' ') {
        let Ok(doc) = Doc::read(alloc, text.as_bytes(), false) else {
            return Err(AllocError);
        };
        docs.push(doc)?;
    }
    Ok(docs)
}

// The documents d0, d1 and so on.
fn numbered(alloc: Global, count: u64) -> Result<Vec<Doc>, AllocError> {
    let mut docs = Vec::new(alloc);
    for number in 0..count {
        let text = format!(in alloc; r#"{{"_id":"d{number}","_rev":"1-a"}}"#)?;
        let Ok(doc) = Doc::read(alloc, text.as_bytes(), false) else {
            return Err(AllocError);
        };
        docs.push(doc)?;
    }
    Ok(docs)
}

// Tells why a call fails, as a part of a line. `NoMemory` is not told: it is an error of this function.
fn tell_fault(alloc: Global, fault: FollowFault, answer: &mut Answer) -> Result<(), AllocError> {
    match fault {
        FollowFault::NoMemory => Err(AllocError),
        FollowFault::Refused { id, rev, fault } => {
            let mut text = Vec::new(alloc);
            rev.print(&mut text)?;
            let rev = text_of(text.as_slice())?;
            let text = format!(in alloc; "{fault:?} of {} {rev}", id.as_str())?;
            answer.text(text.as_str())
        }
        fault => answer.text(format!(in alloc; "{fault}")?.as_str()),
    }
}
